//! Values in arcseconds, and the entries that stand for them.
ghost use Rattle.std.specs.Prelude.{◌≡◌, ◌<◌, ◌≤◌, ℤ, Ok, Err, unsigned_abs};
ghost use Rattle.entry.specs.Values.{SixtyFourths, Represents, entry_of};
ghost use Rattle.refusal.specs.declared.Refusal.TheVariants.{Value};

use crate::rounding::nearest_float;
use refusal::Refusal;
use std::num::saturating_f64_to_i16;

/// How many units of an entry make an arcsecond.
const UNITS_PER_ARCSECOND: f64 = 64.0;

/// The greatest size of a value, in arcseconds.
const LIMIT: f64 = 500.0;

/// The entry of a value in arcseconds: the whole number nearest 64 × `value`, a half going away from zero.
/// What is not a number, or lies outside −500 to 500, is refused.
pub fn entry_of(value: f64) -> Result<i16, Refusal>
    ensures answer { result ≡ entry_of value }
    ensures law { Represents value result }
    ensures back { (z : ℤ) → unsigned_abs z ≤ 32000 → SixtyFourths value z → result ≡ Ok z }
{
    if value.abs() <= LIMIT {
        // Scaling by a power of two is exact, so only one rounding takes place.
        Ok(saturating_f64_to_i16(nearest_float(value * UNITS_PER_ARCSECOND)))
    } else {
        Err(Refusal::Value)
    }
}

/// The value of an entry in arcseconds, exactly. `entry_of` gives an entry from −32,000 to 32,000 back, and refuses the others.
pub fn arcseconds(entry: i16) -> f64
    ensures value { SixtyFourths result entry }
    ensures back { unsigned_abs entry ≤ 32000 → entry_of result ≡ Ok entry }
    ensures beyond { 32000 < unsigned_abs entry → entry_of result ≡ Err Value }
{
    f64::from(entry) / UNITS_PER_ARCSECOND
}
