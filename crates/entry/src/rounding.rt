//! What is done with a half: these two functions round, for floats and for whole numbers, and nothing else does.
//! Both are pinned by the one definition `rounded`.
ghost use Rattle.std.specs.Prelude.{◌≡◌};
ghost use Rattle.std.specs.Float.{round_with, binary64};
ghost use Rattle.entry.specs.Rounding.{rounded, nearest};

/// The whole number nearest `x`. Adding a half and cutting would be wrong just below a half, where the sum is inexact.
pub(crate) fn nearest_float(x: f64) -> f64
    ensures { result ≡ round_with rounded rounded binary64 x }
{
    x.round()
}

/// The whole number nearest `sum` / 65,536.
pub(crate) fn nearest_quotient(sum: i64) -> i64
    ensures { result ≡ nearest sum 65536 }
{
    let size = (sum.unsigned_abs() + 32_768) / 65_536;
    sum.signum() * size as i64
}
