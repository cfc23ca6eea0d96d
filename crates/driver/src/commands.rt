//! One command, one call of the book, one answer.
ghost use Rattle.book.specs.Meaning.{meaning, Kept};
ghost use Rattle.driver.specs.Driven.{Made};

use answer::Answer;
use book::Book;
use corrector::Corrector;
use line::Command;
use memory::Memory;
use refusal::Refusal;

/// Makes the call of a command, and answers it. A call that the book refuses is answered with its refusal.
pub fn run_command<C: Corrector, M: Memory>(
    book: &mut Book<C, M>,
    command: Command,
) -> Result<Answer, Refusal>
    ensures kept { Kept book.old book.new }
    ensures call { Made (meaning C.Field C.Corrector.own M.Memory book.old) (meaning C.Field C.Corrector.own M.Memory book.new) command result }
{
    // A match on values and no closures: a command is what a line spells, and a contract names it.
    match command {
        Command::Write { row, byte } => {
            book.write(row, &[byte])?;
            Ok(Answer::Done)
        }
        Command::Read { row } => {
            let mut bytes = [0u8];
            let count = book.read(row, &mut bytes)?;
            Ok(Answer::Read {
                byte: bytes[0],
                count,
            })
        }
        Command::Knock { from, length } => {
            book.knock(from, length)?;
            Ok(Answer::Done)
        }
        Command::Mend { row } => {
            let count = book.mend(row)?;
            Ok(Answer::Count(count))
        }
        Command::Sweep => {
            let counts = book.sweep();
            // A book has at most 1024 rows, so that the casts lose nothing. No `From`: neither type is of this crate.
            Ok(Answer::Swept {
                accepted: counts.accepted as u16,
                refused: counts.refused as u16,
                turned: counts.turned,
            })
        }
    }
}
