//! The bench: a book driven by lines of text. Each line of the standard input is one command and gets one line as its answer, whatever it
//! holds. What happens between reading and printing is `run` of the crate `driver`.
#![tactic(auto)]

use answer::Reply;
use book::Book;
use corrector::Corrector;
use driver::run;
use field::TableField;
use layers::{Interleaver, Window};
use memory::{BuiltInCells, Memory};
use std::io;
use std::io::{BufRead, BufReader, Read};
use step_corrector::StepCorrector;

fn main(rt: HostRuntime) -> io::Result<()> {
    let corrector = StepCorrector::new(TableField::new(4), 2);
    let window = Window::new(BuiltInCells::new(), 0, 30);
    let memory = Interleaver::new(window, 2, 15);
    let mut book = Book::blank(corrector, memory, 2, 2);
    serve(&rt, rt.stdin(), &mut book)
}

/// Answers each line as soon as it has come, so that the bench may be driven by hand.
fn serve<C: Corrector, M: Memory>(
    rt: &(impl Print + AllocGlobal),
    input: impl Read + Drop,
    book: &mut Book<C, M>,
) -> io::Result<()> {
    let mut input = BufReader::new(rt.alloc(), input)?;
    // A loop that reads to the end is written so: it needs no measure. `split` takes off the newline that `run` needs.
    for _ in 0..u64::MAX {
        // With its newline, which makes an empty line a line to `run`.
        let mut text = Vec::new(rt.alloc());
        if input.read_until(b'\n', &mut text)? == 0 {
            break;
        }
        for answer in run(book, text.as_slice(), rt.alloc())? {
            let reply = Reply(answer);
            println!(rt; "{reply}")?;
        }
    }
    Ok(())
}
