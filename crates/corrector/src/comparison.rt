//! Agreement: any two correctors of one meaning give the same answer and leave the same row, for every buffer.
ghost use Rattle.std.specs.Prelude.{◌≡◌, ◌↔◌, IsTrue, ℕ};
ghost use Rattle.galois.specs.Model.{FieldModel, FieldLaws};
ghost use Rattle.corrector.specs.Agreed.{Bytes, OneCorrection, Compared};
ghost use Rattle.corrector.specs.declared.comparison.Agreement.TheVariants.{Alike};

use crate::Corrector;
use crate::copies::padded;

/// Whether two corrections did the same.
// Two names and no bool: it is public, and a caller and the contracts read from it which answer it is.
#[derive(Clone, Copy, PartialEq, Eq, Debug)]
pub enum Agreement {
    Alike,
    Unlike,
}

/// What corrects rows for one field and one t leaves no choice: any two things that do it agree on every buffer.
pub fn corrections_agree()
    ensures { (F : FieldModel) → FieldLaws F → (t : ℕ) → OneCorrection F t }
{}

/// Corrects two copies of a row by two correctors, and says whether they give one answer and leave one row. For correctors of one meaning they
/// always do.
pub fn agree<C: Corrector, D: Corrector>(c: &C, d: &D, row: &[u8]) -> Agreement
    ensures compared { Compared (C.Field.model c.now) (C.Corrector.strength c.now) (D.Field.model d.now) (D.Corrector.strength d.now) row.now result }
    ensures alike { C.Field.model c.now ≡ D.Field.model d.now → C.Corrector.strength c.now ≡ D.Corrector.strength d.now → result ≡ Alike }
{
    // No row has more than 32 bytes: every corrector refuses a longer buffer with 7.
    if row.len() > 32 {
        return Agreement::Alike;
    }
    let mut first = padded(row);
    let mut second = padded(row);
    let one = c.correct(&mut first[..row.len()]);
    let two = d.correct(&mut second[..row.len()]);
    if one == two && same_bytes(&first, &second) {
        Agreement::Alike
    } else {
        Agreement::Unlike
    }
}

// Not `first == second` in `agree`: of what a call left in a buffer the proof is told the length alone, and of a parameter that it holds bytes.
fn same_bytes(first: &[u8], second: &[u8]) -> bool
    ensures same { IsTrue result ↔ first.now ≡ second.now }
    ensures bytes { Bytes first.now × Bytes second.now }
{
    first == second
}
