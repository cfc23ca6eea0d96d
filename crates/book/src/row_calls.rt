//! The calls on one row: write, read and mend.
ghost use Rattle.memory.specs.Mem.{Layout, Mem};
ghost use Rattle.book.specs.Model.{BookModel};
ghost use Rattle.book.specs.Meaning.{meaning, Kept};
ghost use Rattle.book.specs.Calls.{Begun, Copied};
ghost use Rattle.book.specs.Promised.{WriteCall, ReadCall, MendCall};

use crate::Book;
use bch::{encode, extract};
use bits::bytes_for;
use corrector::Corrector;
use memory::Memory;
use refusal::Refusal;
use rows::{gather, scatter};

impl<C: Corrector, M: Memory> Book<C, M> {
    /// Writes k data cells into a row, with their check cells. Refused with 6 for a wrong row number, 7 for a wrong length, 8 for an unused bit
    /// that is set.
    pub fn write(&mut self, row: u32, bytes: &[u8]) -> Result<(), Refusal>
        ensures kept { Kept self.old self.new }
        ensures call { WriteCall (meaning C.Field C.Corrector.own M.Memory self.old) (meaning C.Field C.Corrector.own M.Memory self.new) row bytes.now result }
    {
        let first = self.first_cell(row)?;
        let n = self.row_cells();
        let mut buffer = [0u8; 32]; // no heap: room for any row
        let code_row = &mut buffer[..bytes_for(n)];
        encode(&self.corrector, self.corrects(), bytes, code_row)?;
        scatter(&mut self.memory, first, n, code_row)
    }

    /// Fills a buffer with the data of the only code row within s positions of a row, and answers in how many cells the row differs from it.
    /// Refused with 6 for a wrong row number, 7 for a wrong length, 10 where no code row is that near; a refusal leaves the buffer.
    pub fn read(&self, row: u32, bytes: &mut [u8]) -> Result<u8, Refusal>
        ensures { ReadCall (meaning C.Field C.Corrector.own M.Memory self.now) row bytes.old bytes.new result }
    {
        let first = self.first_cell(row)?;
        if bytes.len() != bytes_for(self.data_cells()) {
            return Err(Refusal::Length);
        }
        let mut buffer = [0u8; 32];
        let cells = &mut buffer[..bytes_for(self.row_cells())];
        let differing = self.corrected(first, cells)?;
        extract(&self.corrector, self.corrects(), cells, bytes)?;
        Ok(differing)
    }

    /// Makes a row the only code row within s positions of it, check cells too, and answers how many cells that turned. Refused with 6 for a
    /// wrong row number, 10 where no code row is that near.
    pub fn mend(&mut self, row: u32) -> Result<u8, Refusal>
        ensures kept { Kept self.old self.new }
        ensures call { MendCall (meaning C.Field C.Corrector.own M.Memory self.old) (meaning C.Field C.Corrector.own M.Memory self.new) row result }
    {
        let first = self.first_cell(row)?;
        let n = self.row_cells();
        let mut buffer = [0u8; 32];
        let cells = &mut buffer[..bytes_for(n)];
        let turned = self.corrected(first, cells)?;
        scatter(&mut self.memory, first, n, cells)?;
        Ok(turned)
    }

    /// The cell at which a row begins. Refused with 6 for a wrong row number.
    fn first_cell(&self, row: u32) -> Result<u32, Refusal>
        ensures { Begun (meaning C.Field C.Corrector.own M.Memory self.now) row result }
    {
        if row < self.rows() {
            Ok(row * u32::from(self.row_cells()))
        } else {
            Err(Refusal::Row)
        }
    }

    /// Leaves in `cells` a copy of the row that begins at cell `first`, made the code row within the reach, and answers how many cells that
    /// turned. Refused with 7 for a buffer of the wrong length, 9 where there are no such cells, 10 where no code row is that near.
    fn corrected(&self, first: u32, cells: &mut [u8]) -> Result<u8, Refusal>
        ensures { Copied (meaning C.Field C.Corrector.own M.Memory self.now) first cells.old cells.new result }
    {
        gather(&self.memory, first, self.row_cells(), cells)?;
        let count = self.corrector.correct(cells)?;
        if count > self.reach() {
            return Err(Refusal::NoCodeRow);
        }
        Ok(count)
    }
}
