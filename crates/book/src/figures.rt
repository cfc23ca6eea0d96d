//! A book, its figures, and how one is made.
ghost use Rattle.std.specs.Prelude.{◌≡◌, []};
ghost use Rattle.refusal.specs.Checks.{Checked};
ghost use Rattle.refusal.specs.declared.Refusal.TheVariants.{Figures};
ghost use Rattle.memory.specs.Mem.{Layout, Mem};
ghost use Rattle.galois.specs.Model.{FieldModel, units};
ghost use Rattle.book.specs.Model.{BookModel, FiguresFit, figures_test, fits, rows_of, reach_of, row_size, data_size};
ghost use Rattle.book.specs.Meaning.{meaning, Kept};
ghost use Rattle.book.specs.Calls.{Blanked, Led};

use crate::Book;
use bch::{data_cells, row_cells};
use corrector::Corrector;
use memory::Memory;
use refusal::Refusal;

impl<C: Corrector, M: Memory> Book<C, M> {
    /// Whether a book of `rows` rows with this reach fits: the reach is at most t, the rows are 1 to 1024 and have room. Refused with 3.
    // No struct of the figures: a caller gives each of them once, and the public calls keep their form.
    pub fn check(corrector: &C, memory: &M, reach: u8, rows: u32) -> Result<(), Refusal>
        ensures { Checked (FiguresFit (units (C.Field.model corrector.now)) (C.Corrector.strength corrector.now) reach rows (M.Memory.means memory.now).layout.cells) Figures result }
    {
        figures_fit(corrector, memory, reach, rows)
            .then_some(())
            .ok_or(Refusal::Figures)
    }

    /// The book over the cells as they are; of no rows where the figures do not fit.
    pub fn open(corrector: C, memory: M, reach: u8, rows: u32) -> Book<C, M>
        ensures { (result.corrector ≡ corrector) × ((result.memory ≡ memory) × ((result.reach ≡ reach) × (result.rows ≡ rows))) }
    {
        Book {
            corrector,
            memory,
            reach,
            rows,
        }
    }

    /// R, how many rows there are: none where the figures do not fit.
    pub fn rows(&self) -> u32
        ensures { result ≡ rows_of (meaning C.Field C.Corrector.own M.Memory self.now) }
    {
        if self.fits() { self.rows } else { 0 }
    }

    /// s, how many turned cells of a row a read or a mend corrects: 0 where the figures do not fit.
    pub fn reach(&self) -> u8
        ensures { result ≡ reach_of (meaning C.Field C.Corrector.own M.Memory self.now) }
    {
        if self.fits() { self.reach } else { 0 }
    }

    /// n, the cells of a row.
    pub fn row_cells(&self) -> u8
        ensures { result ≡ row_size (meaning C.Field C.Corrector.own M.Memory self.now) }
    {
        row_cells(&self.corrector)
    }

    /// k, the data cells of a row.
    pub fn data_cells(&self) -> u8
        ensures { result ≡ data_size (meaning C.Field C.Corrector.own M.Memory self.now) }
    {
        data_cells(&self.corrector, self.corrects()).unwrap()
    }

    /// t, how many turned cells of a row the code corrects.
    pub fn corrects(&self) -> u8
        ensures { result ≡ C.Corrector.strength self.now.corrector }
    {
        self.corrector.corrects()
    }

    /// The memory, to look at.
    pub fn memory(&self) -> &M
        ensures { result.now ≡ self.now.memory }
    {
        &self.memory
    }

    /// The corrector and the memory; the book ends.
    pub fn into_parts(self) -> (C, M)
        ensures { (result.0 ≡ self.corrector) × (result.1 ≡ self.memory) }
    {
        let Book {
            corrector,
            memory,
            ..
        } = self;
        (corrector, memory)
    }

    fn fits(&self) -> bool
        ensures { result ≡ fits (meaning C.Field C.Corrector.own M.Memory self.now) }
    {
        figures_fit(&self.corrector, &self.memory, self.reach, self.rows)
    }
}

fn figures_fit<C: Corrector, M: Memory>(corrector: &C, memory: &M, reach: u8, rows: u32) -> bool
    ensures { result ≡ figures_test (units (C.Field.model corrector.now)) (C.Corrector.strength corrector.now) reach rows (M.Memory.means memory.now).layout.cells }
{
    let n = u32::from(row_cells(corrector));
    reach <= corrector.corrects() && (1..=1024).contains(&rows) && rows * n <= memory.cells()
}
