//! The five commands, and the lines that spell them.
ghost use Rattle.std.specs.Prelude.{◌≡◌, ℕ, ◌<◌, List, length, Ok, Err};
ghost use Rattle.line.specs.Spelling.{Reads, Spells, Typable};
ghost use Rattle.refusal.specs.declared.Refusal.TheVariants.{Line};

use crate::fields::{byte, number, split_number};
use refusal::Refusal;

/// What a line asks of the book.
// Not `Call` of `history`: a write holds its one byte here and borrows a whole row there, so one type for both would be generic over
// what is written, at each of its uses.
#[derive(Clone, Copy, PartialEq, Eq, Debug)]
pub enum Command {
    /// `W row byte`: write the byte into the row.
    Write { row: u32, byte: u8 },
    /// `R row`: read the row.
    Read { row: u32 },
    /// `K from length`: knock so many places, from that one on.
    Knock { from: u32, length: u32 },
    /// `M row`: mend the row.
    Mend { row: u32 },
    /// `S`: sweep all rows.
    Sweep,
}

/// The command that a line spells, given without its newline. A line that spells none is refused. No line spells two
/// commands, and each command whose numbers have at most five digits has a spelling.
pub fn parse(line: &[u8]) -> Result<Command, Refusal>
    ensures answer { Reads (Spells line.now) result }
    ensures only { (s : List ℕ) (c d : Command) → Spells s c → Spells s d → c ≡ d }
    ensures typed { (c : Command) → Typable c → ((s : List ℕ) × Spells s c) }
    ensures long { 32 < length line.now → result ≡ Err Line }
{
    command_of(line)
}

/// The command of the line's letter, if the fields are right. Whoever calls `parse` has the laws too.
fn command_of(line: &[u8]) -> Result<Command, Refusal>
    ensures { Reads (Spells line.now) result }
{
    match line {
        [b'W', b' ', fields @ ..] => {
            let (row, field) = split_number(fields)?;
            let byte = byte(field)?;
            Ok(Command::Write { row, byte })
        }
        [b'R', b' ', field @ ..] => {
            let row = number(field)?;
            Ok(Command::Read { row })
        }
        [b'K', b' ', fields @ ..] => {
            let (from, field) = split_number(fields)?;
            let length = number(field)?;
            Ok(Command::Knock { from, length })
        }
        [b'M', b' ', field @ ..] => {
            let row = number(field)?;
            Ok(Command::Mend { row })
        }
        [b'S'] => Ok(Command::Sweep),
        _ => Err(Refusal::Line),
    }
}
