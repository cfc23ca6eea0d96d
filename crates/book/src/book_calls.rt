//! The calls on a whole book: making it blank, sweep and knock.
ghost use Rattle.std.specs.Prelude.{◌≡◌, []};
ghost use Rattle.memory.specs.Mem.{Layout, Mem};
ghost use Rattle.book.specs.Model.{BookModel};
ghost use Rattle.book.specs.Meaning.{meaning, Kept};
ghost use Rattle.book.specs.Calls.{Blanked, Led};
ghost use Rattle.book.specs.Promised.{SweepCall, KnockCall};

use crate::{Book, SweepCounts};
use corrector::Corrector;
use memory::Memory;
use refusal::Refusal;
use rows::zero;

impl<C: Corrector, M: Memory> Book<C, M> {
    /// A book whose rows are all zero; no other cell changes. Of no rows, and no cell changes, where the figures do not fit.
    pub fn blank(corrector: C, memory: M, reach: u8, rows: u32) -> Book<C, M>
        ensures figures { (result.corrector ≡ corrector) × ((result.reach ≡ reach) × (result.rows ≡ rows)) }
        ensures cells { Blanked (M.Memory.means memory) (meaning C.Field C.Corrector.own M.Memory result) }
        ensures history { Led [] (meaning C.Field C.Corrector.own M.Memory result) }
    {
        let mut book = Book::open(corrector, memory, reach, rows);
        let cells = book.rows() * u32::from(book.row_cells());
        zero(&mut book.memory, cells).unwrap();
        book
    }

    /// Mends every row from 0 up, and counts. Never refused.
    pub fn sweep(&mut self) -> SweepCounts
        ensures kept { Kept self.old self.new }
        ensures call { SweepCall (meaning C.Field C.Corrector.own M.Memory self.old) (meaning C.Field C.Corrector.own M.Memory self.new) result.accepted result.refused result.turned }
    {
        let mut counts = SweepCounts::default();
        for row in 0..self.rows() {
            match self.mend(row) {
                Ok(turned) => {
                    counts.accepted += 1;
                    counts.turned += u32::from(turned);
                }
                Err(_) => counts.refused += 1,
            }
        }
        counts
    }

    /// Turns the cells at `length` places from place `from` on, those of rows and others. Refused with 9 where the run passes the span.
    pub fn knock(&mut self, from: u32, length: u32) -> Result<(), Refusal>
        ensures kept { Kept self.old self.new }
        ensures call { KnockCall (meaning C.Field C.Corrector.own M.Memory self.old) (meaning C.Field C.Corrector.own M.Memory self.new) from length result }
    {
        self.memory.knock(from, length)
    }
}
