//! The calls on entries.
ghost use Rattle.std.specs.Prelude.{◌≡◌, ◌<◌};
ghost use Rattle.book.specs.Meaning.{meaning, Kept};
ghost use Rattle.book.specs.Model.{BookModel};
ghost use Rattle.table.specs.Model.{entries_of};
ghost use Rattle.table.specs.Calls.{EntryGot, Got, Put, LookedUp, ReadLeads, RowHeld, angle_index};
ghost use Rattle.entry.specs.Interpolation.{next_index};

use crate::Table;
use crate::layout::{entry_at, set_entry_at};
use bits::bytes_for;
use corrector::Corrector;
use entry::{arcseconds, blend, entry_of, locate, next_index};
use memory::Memory;
use refusal::Refusal;

impl<C: Corrector, M: Memory> Table<C, M> {
    /// The value of entry `i` in arcseconds, exactly. Refused with 4 where there is no such entry, 10 where its row has no code row near
    /// enough.
    pub fn get(&self, i: u32) -> Result<f64, Refusal>
        ensures call { Got (meaning C.Field C.Corrector.own M.Memory self.now.book) self.now.entries i result }
        ensures history { ReadLeads (meaning C.Field C.Corrector.own M.Memory self.now.book) i }
    {
        let entry = self.entry(i)?;
        Ok(arcseconds(entry))
    }

    /// Makes entry `i` the whole number nearest 64 × `value`, a half going away from zero, and changes no other. Refused with 4 where there is
    /// no such entry, 5 for a value that is not a number or outside −500 to 500, 10 where its row has no code row near enough.
    pub fn put(&mut self, i: u32, value: f64) -> Result<(), Refusal>
        ensures kept { Kept self.old.book self.new.book × (self.new.entries ≡ self.old.entries) }
        ensures call { Put (meaning C.Field C.Corrector.own M.Memory self.old.book) (meaning C.Field C.Corrector.own M.Memory self.new.book) self.old.entries i value result }
        ensures history { ReadLeads (meaning C.Field C.Corrector.own M.Memory self.old.book) i }
    {
        let (row, index) = self.place(i)?;
        let entry = entry_of(value)?;
        let mut buffer = self.read_row(row)?;
        let bytes = &mut buffer[..bytes_for(self.book.data_cells())];
        set_entry_at(bytes, index, entry);
        self.book.write(row, bytes)
    }

    /// The error at a worm angle in 65,536ths of a turn, in 1/64 arcsecond: between the entry at the angle and the next, a half going away
    /// from zero. Refused with 4 where there are no entries, 10 where a row of the two has no code row near enough.
    pub fn look_up(&self, angle: u16) -> Result<i16, Refusal>
        ensures call { LookedUp (meaning C.Field C.Corrector.own M.Memory self.now.book) (entries_of (meaning C.Field C.Corrector.own M.Memory self.now.book) self.now.entries) angle result }
        ensures history { ReadLeads (meaning C.Field C.Corrector.own M.Memory self.now.book) (angle_index angle (entries_of (meaning C.Field C.Corrector.own M.Memory self.now.book) self.now.entries)) × ReadLeads (meaning C.Field C.Corrector.own M.Memory self.now.book) (next_index (angle_index angle (entries_of (meaning C.Field C.Corrector.own M.Memory self.now.book) self.now.entries)) (entries_of (meaning C.Field C.Corrector.own M.Memory self.now.book) self.now.entries)) }
    {
        let entries = self.entries() as u16; // at most 1024, which `entries` ensures: the cast loses nothing
        let position = locate(angle, entries);
        let entry = self.entry(u32::from(position.index))?;
        let next = self.entry(u32::from(next_index(position.index, entries)))?;
        Ok(blend(entry, next, position.fraction))
    }

    /// Entry `i`, as a read of its row gives it.
    fn entry(&self, i: u32) -> Result<i16, Refusal>
        ensures { EntryGot (meaning C.Field C.Corrector.own M.Memory self.now.book) self.now.entries i result }
    {
        let (row, place) = self.place(i)?;
        let buffer = self.read_row(row)?;
        Ok(entry_at(&buffer, place))
    }

    /// The data of a row, in the first bytes. Refused as the book's read of it is.
    fn read_row(&self, row: u32) -> Result<[u8; 32], Refusal>
        ensures { RowHeld (meaning C.Field C.Corrector.own M.Memory self.now.book) row result }
    {
        let mut buffer = [0u8; 32]; // no heap: room for the data of any row
        let bytes = &mut buffer[..bytes_for(self.book.data_cells())];
        self.book.read(row, bytes)?;
        Ok(buffer)
    }
}
