//! The corrector itself, and its search: each position is turned on trial, from position 0 on.
use crate::class::{Class, class_of};
use crate::trials::{Standing, try_position};
use corrector::{Positions, SearchCorrector, SearchMethod};
use field::{Field, Syndromes};

/// The search step by step, which adds and multiplies and never divides.
pub struct Steps;

/// Corrects up to t errors by adding and multiplying in any field.
pub type StepCorrector<F> = SearchCorrector<F, Steps>;

impl SearchMethod for Steps {
    /// Once a row is shown to be beyond t, or to be a code row, no position is tried any more.
    fn search<F: Field>(f: &F, t: u8, sums: Syndromes, row: &mut [u8]) -> Option<u8> {
        let mut stands = Standing {
            sums,
            class: class_of(f, t, sums),
        };
        let mut count = 0u8;
        for place in Positions::of(f) {
            match stands.class {
                Class::Clean => return Some(count),
                Class::Beyond => return None,
                _ => {}
            }
            if let Some(kept) = try_position(f, t, &mut *row, place, stands) {
                stands = kept;
                count += 1;
            }
        }
        (stands.class == Class::Clean).then_some(count)
    }
}
