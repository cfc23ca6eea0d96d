//! Calls on books as values: one call made, and lists of calls replayed.
//!
//! `make` does what the call on the book does, with the same contract. `replay` carries the theorem for whole runs: whatever the calls,
//! accepted or refused, the rows end as the tally of those calls has them, and every answer on the way is as promised after the calls before it.
#![tactic(auto)]

ghost use Rattle.std.specs.Prelude.{◌≡◌, List, Result};
ghost use Rattle.refusal.specs.declared.Refusal.{Refusal};
ghost use Rattle.book.specs.Model.{BookModel, data_size};
ghost use Rattle.book.specs.Meaning.{meaning, Kept};
ghost use Rattle.book.specs.Calls.{Leads};
ghost use Rattle.history.specs.Runs.{call_of, ReadOut, Made, Replayed};

use bits::bytes_for;
use book::{Book, SweepCounts};
use corrector::Corrector;
use memory::Memory;
use refusal::Refusal;

/// A call on a book. A read is one with a buffer of the right length.
// Not `Command` of `line`: a write borrows a whole row here and holds its one byte there, so one type would be generic at each use.
#[derive(Clone, Copy)]
pub enum Call<'a> {
    Write { row: u32, bytes: &'a [u8] },
    Read { row: u32 },
    Mend { row: u32 },
    Sweep,
    Knock { from: u32, length: u32 },
}

/// What a call answered that was not refused.
// Not `Answer` of `answer`: a read answers with a whole row here, with its one byte there, where what is printed alike is one variant.
#[derive(Clone, Copy)]
pub enum Answer {
    Written,
    /// In how many cells the row differs from its code row, and the data of that, in the first bytes.
    // no heap: an array with room for the data of any row
    Read(u8, [u8; 32]),
    /// How many cells turned.
    Mended(u8),
    Swept(SweepCounts),
    Knocked,
}

/// Makes one call.
pub fn make<C: Corrector, M: Memory>(
    book: &mut Book<C, M>,
    call: Call<'_>,
) -> Result<Answer, Refusal>
    ensures kept { Kept book.old book.new }
    ensures made { Made (meaning C.Field C.Corrector.own M.Memory book.old) (meaning C.Field C.Corrector.own M.Memory book.new) call.entry result }
    ensures history { Leads (call_of (data_size (meaning C.Field C.Corrector.own M.Memory book.old)) call.entry) (meaning C.Field C.Corrector.own M.Memory book.old) (meaning C.Field C.Corrector.own M.Memory book.new) }
{
    // A match on values and no closures: lists of calls are replayed, and a theorem speaks of every list.
    match call {
        Call::Write { row, bytes } => book.write(row, bytes).map(|()| Answer::Written),
        Call::Read { row } => read_out(book, row),
        Call::Mend { row } => book.mend(row).map(Answer::Mended),
        Call::Sweep => Ok(Answer::Swept(book.sweep())),
        Call::Knock { from, length } => book.knock(from, length).map(|()| Answer::Knocked),
    }
}

/// Makes calls in their order, each accepted or refused, and puts down what they answered. Refused with 7, and no call is made, where there are
/// not as many places for answers as calls.
pub fn replay<C: Corrector, M: Memory>(
    book: &mut Book<C, M>,
    calls: &[Call<'_>],
    answers: &mut [Result<Answer, Refusal>],
) -> Result<(), Refusal>
    ensures kept { Kept book.old book.new }
    ensures run { Replayed (meaning C.Field C.Corrector.own M.Memory book.old) (meaning C.Field C.Corrector.own M.Memory book.new) calls.now answers.old answers.new result }
{
    if answers.len() != calls.len() {
        return Err(Refusal::Length);
    }
    // no zip: of what is written through an adapter of iter_mut a proof knows nothing
    for (i, call) in calls.iter().enumerate() {
        answers[i] = make(book, *call);
    }
    Ok(())
}

fn read_out<C: Corrector, M: Memory>(book: &Book<C, M>, row: u32) -> Result<Answer, Refusal>
    ensures { ReadOut (meaning C.Field C.Corrector.own M.Memory book.now) row result }
{
    let mut bytes = [0u8; 32];
    let count = book.read(row, &mut bytes[..bytes_for(book.data_cells())])?;
    Ok(Answer::Read(count, bytes))
}
