//! Correctors: a field, a number t of errors, and the correction of rows.
//!
//! A corrector means one field and one t, which never change. What `correct` does is settled by that meaning alone (`Corrected`); only the
//! way in which a corrector finds the code row is its own.
#![tactic(auto)]

ghost use Rattle.std.specs.Prelude.{◌≡◌, ℕ};
ghost use Rattle.galois.specs.Rows.{Few};
ghost use Rattle.corrector.specs.Corrected.{Corrected};

use field::Field;
use refusal::Refusal;

pub mod comparison;
mod copies;
pub mod elements;
pub mod frame;

pub use comparison::{Agreement, agree, corrections_agree};
pub use elements::Positions;
pub use frame::{Search, SearchCorrector, SearchMethod, correct_row, is_clean};

/// A corrector is a field too: it answers its field's questions.
pub trait Corrector: Field {
    ghost strength: { Self → ℕ };

    ghost few: { (c : Self) → Few (strength c) };

    /// t, how many errors it corrects.
    fn corrects(&self) -> u8
        ensures { result ≡ strength self.now };

    /// Makes a row buffer the only code row within t positions and answers how many cells it turned. Refused with 7 for a wrong length, 8 for an
    /// unused bit set, 10 exactly when no code row is that near; a refusal leaves every byte as it was.
    fn correct(&self, row: &mut [u8]) -> Result<u8, Refusal>
        ensures { Corrected (Self.Field.model self.now) (strength self.now) row.old row.new result };
}
