//! The code over a field that corrects t errors.
ghost use Rattle.std.specs.Prelude.{◌≡◌, ◌≤◌, MatchResult};
ghost use Rattle.galois.specs.Rows.{Few, check_cells, data_cells};
ghost use Rattle.refusal.specs.declared.Refusal.TheVariants.{Figures};

use crate::sizes::{check_strength, row_cells};
use field::Field;
use refusal::Refusal;

/// A field and a t that fits.
#[derive(Drop)]
pub(crate) struct Code<'a, F> {
    pub(crate) field: &'a F,
    t: u8,
    ghost few: { Few t },
}

impl<'a, F: Field> Code<'a, F> {
    /// The code that corrects t errors; refused with 3 where there is none.
    pub(crate) fn new(field: &'a F, t: u8) -> Result<Self, Refusal>
        ensures { MatchResult result (λ c. (c.field.now ≡ field.now) × (c.t ≡ t)) (λ e. (Few t → ⊥) × (e ≡ Figures)) }
    {
        check_strength(t)?;
        Ok(Code { field, t })
    }

    /// n - k. The cosets of 1, 3 and 5 have m exponents each, but for that of 5 at m = 4, which has two.
    pub(crate) fn check_cells(&self) -> u8
        ensures value { result ≡ check_cells (F.Field.model self.now.field.now).m self.now.t }
        ensures within { (1 ≤ result) × (result ≤ 24) }
    {
        let m = self.field.degree();
        let t = self.t;
        if m == 4 && t == 3 { 10 } else { m * t }
    }

    /// k.
    pub(crate) fn data_cells(&self) -> u8
        ensures { result ≡ data_cells (F.Field.model self.now.field.now).m self.now.t }
    {
        row_cells(self.field) - self.check_cells()
    }
}
