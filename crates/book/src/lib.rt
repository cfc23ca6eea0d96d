//! Books: rows of data in the cells of a memory, each guarded by the check cells of a code.
//!
//! A book has a corrector (a field and t, how many turned cells of a row it corrects), a memory, a reach s of at most t and R rows. Every call
//! says exactly what it answers and which cells it leaves, on whatever memory and with whatever corrector; and for every list of calls that
//! led to the book since it was made blank, what those calls allow it to promise (the crate `tally`). Figures that do not fit make a book of
//! no rows.
#![tactic(auto)]

mod book_calls;
mod figures;
mod row_calls;

/// R rows over the cells of a memory, position j of row r at cell r × n + j.
// The figures are tested at each call: `open` promises them as given, and t and the cells are told by types of the caller.
// No impl Model: a BookModel holds functions, which have no code; and a quote of a trait made for it would be no shorter than `meaning`.
#[derive(Drop)]
pub struct Book<C, M> {
    corrector: C,
    memory: M,
    reach: u8,
    rows: u32,
}

/// What a sweep did: how many rows it mended, how many had no code row within the reach, and how many cells turned.
#[derive(Clone, Copy, PartialEq, Eq, Default, Debug)]
pub struct SweepCounts {
    pub accepted: u32,
    pub refused: u32,
    pub turned: u32,
}
