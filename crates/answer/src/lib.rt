//! The answers to the lines that drive a book, and the text that is printed for each line.
//!
//! What a line came to is an answer or a refusal. It is printed as exactly the bytes that `text_of` lists for it, and they are one line.
#![tactic(auto)]

ghost use Rattle.std.specs.Prelude.{◌≡◌, IfOk, Some, string_bytes};
ghost use Rattle.answer.specs.Text.{answer_text, text_of};
ghost use Rattle.line.specs.Lines.{Lacks};

use refusal::Refusal;
use std::alloc::{AllocError, Global};
use std::fmt;

/// What came of a command that was not refused.
// Not `Answer` of `history`: this one is what is printed, so a read has its one byte, and calls printed alike share a variant.
#[derive(Clone, Copy, PartialEq, Eq, Debug)]
pub enum Answer {
    /// A row was written, or a run of places knocked.
    Done,
    /// The byte of a row, and how many of its cells were corrected.
    Read {
        byte: u8,
        count: u8,
    },
    /// How many cells of a row were mended.
    Count(u8),
    /// How many rows a sweep accepted and refused, and how many cells it turned.
    Swept {
        accepted: u16,
        refused: u16,
        turned: u32,
    },
}

/// Prints the answer alone.
impl fmt::Display for Answer {
    ghost output = { λ a. Some (answer_text a) };

    fn fmt<W: fmt::Write>(&self, f: &mut fmt::Formatter<W>) -> fmt::Result {
        match *self {
            Answer::Done => write!(f, "ok"),
            Answer::Read { byte, count } => write!(f, "{byte:02X} {count}"),
            Answer::Count(count) => write!(f, "{count}"),
            Answer::Swept {
                accepted,
                refused,
                turned,
            } => write!(f, "{accepted} {refused} {turned}"),
        }
    }
}

/// What is printed for a line: its answer, or `no` and the number of its refusal.
#[derive(Clone, Copy, PartialEq, Eq, Debug)]
pub struct Reply(pub Result<Answer, Refusal>);

impl Reply {
    /// The text that is printed for the line. It is one line: no byte of it is a newline.
    pub fn text(&self, heap: Global) -> Result<String, AllocError>
        ensures bytes { IfOk result (λ t. string_bytes t ≡ text_of self.now.0) }
        ensures line { Lacks 10 (text_of self.now.0) }
    {
        self.to_string(heap)
    }
}

/// Prints the reply's text, which has no newline.
impl fmt::Display for Reply {
    ghost output = { λ r. Some (text_of r.0) };

    fn fmt<W: fmt::Write>(&self, f: &mut fmt::Formatter<W>) -> fmt::Result {
        match self.0 {
            Ok(answer) => write!(f, "{answer}"),
            Err(refusal) => write!(f, "no {}", refusal.number()),
        }
    }
}
