//! Which degrees fit.
ghost use Rattle.galois.specs.House.{Fit};
ghost use Rattle.refusal.specs.Checks.{Checked};
ghost use Rattle.refusal.specs.declared.Refusal.TheVariants.{Figures};

use refusal::Refusal;

/// Whether there is a house field of degree m.
pub fn check_degree(m: u8) -> Result<(), Refusal>
    ensures { Checked (Fit m) Figures result }
{
    match m {
        4..=8 => Ok(()),
        _ => Err(Refusal::Figures),
    }
}
