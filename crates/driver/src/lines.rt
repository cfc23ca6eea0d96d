//! Lines, each with its answer.
ghost use Rattle.std.specs.Prelude.{[], ◌∷◌, MatchResult};
ghost use Rattle.book.specs.Meaning.{meaning, Kept};
ghost use Rattle.line.specs.Lines.{lines_of};
ghost use Rattle.driver.specs.Driven.{Driven};
ghost use Rattle.driver.specs.History.{LeadsOn};
ghost use Rattle.driver.specs.Runs.{Whole, Part};

use crate::commands::run_command;
use answer::Answer;
use book::Book;
use corrector::Corrector;
use line::{Lines, parse};
use memory::Memory;
use refusal::Refusal;
use std::alloc::{AllocError, Global};

/// Runs the lines of an input one after another, and gives their answers in order. Where there is no room for an answer, the lines up to
/// that one were run, and no other.
pub fn run<C: Corrector, M: Memory>(
    book: &mut Book<C, M>,
    input: &[u8],
    heap: Global,
) -> Result<Vec<Result<Answer, Refusal>>, AllocError>
    ensures kept { Kept book.old book.new }
    ensures answers { MatchResult result (λ answers. Whole (meaning C.Field C.Corrector.own M.Memory book.old) (meaning C.Field C.Corrector.own M.Memory book.new) (lines_of input.now) answers.items) (λ _. Part (meaning C.Field C.Corrector.own M.Memory book.old) (meaning C.Field C.Corrector.own M.Memory book.new) (lines_of input.now)) }
{
    // Not `collect`: where there is no room, the contract says which lines were run.
    let mut answers = Vec::new(heap);
    for line in Lines::new(input) {
        answers.push(run_line(book, line))?;
    }
    Ok(answers)
}

/// Makes the call that a line spells, given without its newline, and answers it. A refusal is an answer too: the book's own, or
/// `Refusal::Line` where the line spells no call.
pub fn run_line<C: Corrector, M: Memory>(
    book: &mut Book<C, M>,
    line: &[u8],
) -> Result<Answer, Refusal>
    ensures kept { Kept book.old book.new }
    ensures call { Driven (meaning C.Field C.Corrector.own M.Memory book.old) (meaning C.Field C.Corrector.own M.Memory book.new) line.now result }
    ensures history { LeadsOn (meaning C.Field C.Corrector.own M.Memory book.old) (meaning C.Field C.Corrector.own M.Memory book.new) (line.now ∷ []) }
{
    run_command(book, parse(line)?)
}
