//! A table, its figures, and where its entries stand.
ghost use Rattle.std.specs.Prelude.{◌≡◌, ◌<◌, ◌≤◌};
ghost use Rattle.refusal.specs.Checks.{Checked};
ghost use Rattle.refusal.specs.declared.Refusal.TheVariants.{Entry};
ghost use Rattle.book.specs.Meaning.{meaning};
ghost use Rattle.book.specs.Model.{BookModel};
ghost use Rattle.table.specs.Model.{EntriesFit, entries_test, entries_of, per_row};
ghost use Rattle.table.specs.Calls.{Found};

use crate::Table;
use book::Book;
use corrector::Corrector;
use memory::Memory;
use refusal::Refusal;

impl<C: Corrector, M: Memory> Table<C, M> {
    /// Whether a table of so many entries fits on a book: 1 to 1,024, and the rows have room for them. Refused with 4.
    pub fn check(book: &Book<C, M>, entries: u32) -> Result<(), Refusal>
        ensures { Checked (EntriesFit (meaning C.Field C.Corrector.own M.Memory book.now) entries) Entry result }
    {
        entries_fit(book, entries)
            .then_some(())
            .ok_or(Refusal::Entry)
    }

    /// The table over the rows as they are; of no entries where their number does not fit.
    pub fn new(book: Book<C, M>, entries: u32) -> Table<C, M>
        ensures { (result.book ≡ book) × (result.entries ≡ entries) }
    {
        Table { book, entries }
    }

    /// E, how many entries there are: none where their number does not fit.
    pub fn entries(&self) -> u32
        ensures { (result ≡ entries_of (meaning C.Field C.Corrector.own M.Memory self.now.book) self.now.entries) × (result ≤ 1024) }
    {
        if entries_fit(&self.book, self.entries) {
            self.entries
        } else {
            0
        }
    }

    /// The row of entry `i`, and its index there. Refused with 4 where there is no such entry.
    pub fn place(&self, i: u32) -> Result<(u32, u32), Refusal>
        ensures { Found (meaning C.Field C.Corrector.own M.Memory self.now.book) self.now.entries i result }
    {
        if i >= self.entries() {
            return Err(Refusal::Entry);
        }
        let e = per_row(&self.book);
        Ok((i / e, i % e))
    }

    /// The book, to look at.
    pub fn book(&self) -> &Book<C, M>
        ensures { result.now ≡ self.now.book }
    {
        &self.book
    }

    /// The book; the table ends.
    pub fn into_book(self) -> Book<C, M>
        ensures { result ≡ self.book }
    {
        let Table { book, .. } = self;
        book
    }
}

/// e, how many entries a row holds: none where a row has fewer than 16 data cells.
fn per_row<C: Corrector, M: Memory>(book: &Book<C, M>) -> u32
    ensures { (result ≡ per_row (meaning C.Field C.Corrector.own M.Memory book.now)) × (result < 16) }
{
    u32::from(book.data_cells()) / 16
}

fn entries_fit<C: Corrector, M: Memory>(book: &Book<C, M>, entries: u32) -> bool
    ensures { result ≡ entries_test (meaning C.Field C.Corrector.own M.Memory book.now) entries }
{
    (1..=1024).contains(&entries) && entries <= book.rows() * per_row(book)
}
