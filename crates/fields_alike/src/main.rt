//! The two house fields beside each other, and beside a product by long division: every degree, every pair of bytes.
#![tactic(auto)]

use field::{Field, ShiftField, TableField};
use std::io;

/// The product of two polynomials, divided by a third, of degree m: neither shifts and reduces in turn nor looks anything up.
// `correct_all` divides by such a loop: a crate for both would rest on no library, and be no shorter than the loop.
fn long_division(a: u8, b: u8, m: u8, divisor: u16) -> u16 {
    // Not a filter before the fold: both loops have eight turns at every degree, which are unrolled.
    let mut rest = (0..8u16).fold(0, |sum, i| {
        if (b >> i) % 2 == 1 {
            sum ^ (u16::from(a) << i)
        } else {
            sum
        }
    });
    let degree = u16::from(m);
    for i in (0..8u16).rev() {
        if i + degree < 16 && (rest >> (i + degree)) % 2 == 1 {
            rest ^= divisor << i;
        }
    }
    rest
}

/// How many bytes have a property.
fn bytes_with<P: Fn(u8) -> bool>(property: P) -> usize
    requires { P.IsAlwaysCallable property }
{
    (0..=u8::MAX).filter(|a| property(*a)).count()
}

/// Of how many pairs of bytes each came out alike. The counts go to 65,536, so they cannot wrap.
#[derive(Clone, Copy, Default)]
struct PairCounts {
    sums: u32,
    products: u32,
    divisions: u32,
}

/// All three counts in one pass.
// Not a pass for each count: the product of a pair would be worked out twice.
fn count_pairs(slow: &ShiftField, fast: &TableField, m: u8, divisor: u16) -> PairCounts {
    (0..=u16::MAX).fold(PairCounts::default(), |counts, pair| {
        let [a, b] = pair.to_le_bytes();
        let product = fast.mul(a, b);
        let divided = long_division(slow.element(a), slow.element(b), m, divisor);
        let sums = slow.add(a, b) == fast.add(a, b);
        let products = slow.mul(a, b) == product;
        let divisions = divided == u16::from(product);
        PairCounts {
            sums: counts.sums.wrapping_add(u32::from(sums)),
            products: counts.products.wrapping_add(u32::from(products)),
            divisions: counts.divisions.wrapping_add(u32::from(divisions)),
        }
    })
}

fn compare(rt: &impl Print, m: u8, divisor: u16) -> io::Result<()> {
    let slow = ShiftField::new(m);
    let fast = TableField::new(m);
    let PairCounts {
        sums,
        products,
        divisions,
    } = count_pairs(&slow, &fast, m, divisor);
    let inverses = bytes_with(|a| slow.inverse(a) == fast.inverse(a));
    let exponents = bytes_with(|a| slow.exponent(a) == fast.exponent(a));
    println!(rt;
        "m = {m}: sums {sums}, products {products}, by long division {divisions}, inverses {inverses}, exponents {exponents}"
    )
}

fn power(f: &TableField, p: u8) -> u8 {
    (0..p).fold(1, |y, _| f.mul(y, f.alpha()))
}

fn main(rt: HostRuntime) -> io::Result<()> {
    let f = TableField::new(4);
    println!(rt;
        "m = 4: alpha^4 = {}, alpha^7 = {}, alpha^14 = {}, alpha^15 = {}",
        power(&f, 4),
        power(&f, 7),
        power(&f, 14),
        power(&f, 15)
    )?;
    println!(rt; "alike, of 65536 pairs of bytes and of 256 bytes:")?;
    compare(&rt, 4, 0x13)?;
    compare(&rt, 5, 0x25)?;
    compare(&rt, 6, 0x43)?;
    compare(&rt, 7, 0x89)?;
    compare(&rt, 8, 0x11D)
}
