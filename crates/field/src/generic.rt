//! Arithmetic over any field, from the trait alone.
ghost use Rattle.std.specs.Prelude.{◌≡◌};
ghost use Rattle.galois.specs.Model.{product-of, elem};
ghost use Rattle.field.specs.Totals.{total};

use crate::Field;

/// The cube of an element.
pub fn cube<F: Field>(f: &F, x: u8) -> u8
    ensures { result ≡ (F.Field.model f.now).mul (product-of (F.Field.model f.now) x x) (elem (F.Field.model f.now) x) }
{
    f.mul(f.mul(x, x), x)
}

/// The sum of some elements.
pub fn sum<F: Field>(f: &F, xs: &[u8]) -> u8
    ensures { result ≡ total (F.Field.model f.now) xs.now }
{
    xs.iter().fold(0, |all, x| f.add(all, *x))
}
