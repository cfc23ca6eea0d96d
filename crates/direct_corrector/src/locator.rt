//! The error locator: the polynomial whose roots among the powers of alpha are the positions of the errors.
ghost use Rattle.std.specs.Prelude.{◌≡◌};
ghost use Rattle.direct_corrector.specs.Roots.{Located, value_at};

use field::{Field, Syndromes};

/// The lower coefficients of x^3 + S_1 x^2 + second x + third.
#[derive(Clone, Copy, PartialEq, Eq, Debug)]
pub struct Coefficients {
    pub second: u8,
    pub third: u8,
}

/// The locator for the syndromes of a row with at least one and at most t errors. For fewer than three errors it is the product of the locator
/// and a power of x, which no power of alpha is a root of.
pub fn locator_of<F: Field>(f: &F, t: u8, sums: Syndromes) -> Coefficients
    ensures { Located (F.Field.model f.now) t sums result }
{
    // Not `generic::cube`: the square is used by itself as well.
    let square = f.mul(sums.s1, sums.s1);
    let d2 = f.add(f.mul(square, sums.s1), sums.s3);
    if t == 1 || d2 == 0 {
        return Coefficients {
            second: 0,
            third: 0,
        };
    }
    if t == 2 {
        return Coefficients {
            second: f.mul(d2, f.inverse(sums.s1)),
            third: 0,
        };
    }
    let second = f.mul(f.add(f.mul(square, sums.s3), sums.s5), f.inverse(d2));
    Coefficients {
        second,
        third: f.add(d2, f.mul(sums.s1, second)),
    }
}

/// The value at x of the locator whose highest coefficient but one is `first`.
pub(crate) fn value_at<F: Field>(f: &F, first: u8, lower: Coefficients, x: u8) -> u8
    ensures { result ≡ value_at (F.Field.model f.now) first lower.second lower.third x }
{
    f.add(
        f.mul(f.add(f.mul(f.add(x, first), x), lower.second), x),
        lower.third,
    )
}
