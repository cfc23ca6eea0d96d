//! One step of the search: a position is turned on trial, and the turn is kept where the class of the row falls by exactly one.
ghost use Rattle.std.specs.Prelude.{◌≡◌};
ghost use Rattle.step_corrector.specs.Trials.{Fallen, Tried};

use crate::class::{Class, class_of, falls_by_one};
use crate::trial::Trial;
use corrector::is_clean;
use field::{Field, Syndromes};

/// The row as it stands: its syndromes and their class.
#[derive(Clone, Copy)]
pub(crate) struct Standing {
    pub(crate) sums: Syndromes,
    pub(crate) class: Class,
}

// f and t stand side by side as in `class_of` and `is_clean`: a struct of the two would be taken apart at each call.

/// How the row stands once a position, whose element is x, is turned, if its class falls by one with that.
fn fallen<F: Field>(f: &F, t: u8, before: Standing, x: u8) -> Option<Standing>
    ensures { Fallen (F.Field.model f.now) t before x result }
{
    let sums = f.turned(before.sums, x);
    let class = match before.class {
        // One error less than one is a code row, which is told without determinants.
        Class::One if is_clean(sums, t) => Class::Clean,
        Class::Two | Class::Three => class_of(f, t, sums),
        _ => return None,
    };
    falls_by_one(before.class, class).then_some(Standing { sums, class })
}

/// Turns a position, given with its element, on trial. Where the class of the row falls by one the turn is kept, and the answer is how the row stands
/// then; else the row is as it was.
pub(crate) fn try_position<F: Field>(
    f: &F,
    t: u8,
    row: &mut [u8],
    place: (u8, u8),
    before: Standing,
) -> Option<Standing>
    ensures { Tried (F.Field.model f.now) t row.old row.new place.0 place.1 before result }
{
    let (position, x) = place;
    let trial = Trial::new(row, usize::from(position));
    let kept = fallen(f, t, before, x)?;
    trial.keep();
    Some(kept)
}
