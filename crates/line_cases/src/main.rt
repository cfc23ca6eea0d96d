//! Worked lines of the bench, from the standard input: each with the command that it spells, or with its refusal. Then answers of
//! every kind. What must be printed was worked out by hand.
#![tactic(auto)]

use answer::{Answer, Reply};
use line::{Lines, parse};
use refusal::Refusal;
use std::io;
use std::io::Read;

fn main(rt: HostRuntime) -> io::Result<()> {
    let mut input = Vec::new(rt.alloc());
    let _ = rt.stdin().read_to_end(&mut input)?;
    for line in Lines::new(input.as_slice()) {
        match parse(line) {
            Ok(command) => println!(rt; "{command:?}")?,
            Err(refusal) => {
                let reply = Reply(Err(refusal));
                println!(rt; "{reply}")?;
            }
        }
    }
    answers(&rt)
}

fn answers(rt: &impl Print) -> io::Result<()> {
    for answer in [
        Ok(Answer::Done),
        Ok(Answer::Read {
            byte: 0x01,
            count: 2,
        }),
        Ok(Answer::Read {
            byte: 0xAF,
            count: 0,
        }),
        Ok(Answer::Read {
            byte: 0xF9,
            count: 255,
        }),
        Ok(Answer::Count(0)),
        Ok(Answer::Count(10)),
        Ok(Answer::Swept {
            accepted: 2,
            refused: 0,
            turned: 2,
        }),
        Ok(Answer::Swept {
            accepted: 65_535,
            refused: 9,
            turned: 4_294_967_295,
        }),
        Err(Refusal::Line),
        Err(Refusal::NoCodeRow),
    ] {
        let reply = Reply(answer);
        println!(rt; "{reply}")?;
    }
    Ok(())
}
