//! The corrector itself, and its search: each position whose element is a root of the locator is turned, and the last check is on the
//! syndromes.
use crate::locator::{locator_of, value_at};
use bits::turn_bit;
use corrector::{Positions, SearchCorrector, SearchMethod, is_clean};
use field::{Field, Syndromes};

/// The search by the roots of the error locator.
pub struct Roots;

/// Corrects up to t errors by the roots of the error locator, in any field.
pub type DirectCorrector<F> = SearchCorrector<F, Roots>;

impl SearchMethod for Roots {
    fn search<F: Field>(f: &F, t: u8, sums: Syndromes, row: &mut [u8]) -> Option<u8> {
        if is_clean(sums, t) {
            return Some(0);
        }
        let lower = locator_of(f, t, sums);
        let mut left = sums;
        let mut count = 0u8;
        for (p, x) in Positions::of(f) {
            if value_at(f, sums.s1, lower, x) == 0 {
                turn_bit(row, usize::from(p)).ok()?;
                left = f.turned(left, x);
                count += 1;
            }
        }
        (count <= t && is_clean(left, t)).then_some(count)
    }
}
