//! How many cells a row has, and how many of them are data.
ghost use Rattle.std.specs.Prelude.{◌≡◌};
ghost use Rattle.galois.specs.Model.{units};
ghost use Rattle.galois.specs.Rows.{Few};
ghost use Rattle.refusal.specs.Checks.{Checked};
ghost use Rattle.refusal.specs.declared.Refusal.TheVariants.{Figures};
ghost use Rattle.bch.specs.Calls.{Counted};

use crate::code::Code;
use field::Field;
use refusal::Refusal;

/// Whether there is a code that corrects t errors.
pub fn check_strength(t: u8) -> Result<(), Refusal>
    ensures { Checked (Few t) Figures result }
{
    // As `check_degree` with another range: one function for both would take the range and the refusal, and be no shorter.
    match t {
        1..=3 => Ok(()),
        _ => Err(Refusal::Figures),
    }
}

/// n, the cells of a row.
pub fn row_cells<F: Field>(f: &F) -> u8
    ensures { result ≡ units (F.Field.model f.now) }
{
    // As `ShiftField::units` of its degree; any field comes here, and the trait asks it for the degree alone.
    u8::MAX >> (8 - f.degree())
}

/// k, the data cells of a row of the code that corrects t errors.
pub fn data_cells<F: Field>(f: &F, t: u8) -> Result<u8, Refusal>
    ensures { Counted (F.Field.model f.now) t result }
{
    Ok(Code::new(f, t)?.data_cells())
}
