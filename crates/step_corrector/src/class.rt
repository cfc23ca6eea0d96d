//! The class of a row: how many errors its syndromes show.
ghost use Rattle.std.specs.Prelude.{◌≡◌};
ghost use Rattle.galois.specs.Rows.{Few};
ghost use Rattle.decoding.specs.Classes.{class_of};
ghost use Rattle.corrector.specs.Searched.{Elements};
ghost use Rattle.step_corrector.specs.Classes.{number, class_by, class_for, falls};

use corrector::is_clean;
use field::generic::cube;
use field::{Field, Syndromes};

/// How many errors are shown. `Clean` is a code row; `Beyond` is more than t, or more than can be told.
#[derive(Clone, Copy, PartialEq, Eq, Debug)]
pub enum Class {
    Clean,
    One,
    Two,
    Three,
    Beyond,
}

/// Which of the determinants D1, D2 and D3 are zero.
#[derive(Clone, Copy)]
struct Vanishing {
    first: bool,
    second: bool,
    third: bool,
}

/// The class of syndromes, for a code that corrects t errors.
pub fn class_of<F: Field>(f: &F, t: u8, sums: Syndromes) -> Class
    ensures listed { Elements (F.Field.model f.now) sums → result ≡ class_for (F.Field.model f.now) t sums }
    ensures counted { Few t → Elements (F.Field.model f.now) sums → number result ≡ class_of (F.Field.model f.now) t sums.s1 sums.s3 sums.s5 }
{
    let cube = cube(f, sums.s1);
    let d2 = f.add(cube, sums.s3);
    let d3 = f.add(
        f.add(f.mul(cube, d2), f.mul(sums.s1, sums.s5)),
        f.mul(sums.s3, sums.s3),
    );
    let vanishing = Vanishing {
        first: sums.s1 == 0,
        second: d2 == 0,
        third: d3 == 0,
    };
    class_by(t, is_clean(sums, t), vanishing)
}

/// The class by t and by which determinants vanish, those alone whose index is at most t. A code row is told by its syndromes: all determinants
/// may vanish on a row that is none.
fn class_by(t: u8, clean: bool, d: Vanishing) -> Class
    ensures { result ≡ class_by t clean d.first d.second d.third }
{
    match t {
        _ if clean => Class::Clean,
        1 => Class::One,
        2 if d.first => Class::Beyond,
        2 if d.second => Class::One,
        2 => Class::Two,
        3 if d.third && d.first => Class::Beyond,
        3 if d.third && d.second => Class::One,
        3 if d.third => Class::Two,
        3 if d.second => Class::Beyond,
        3 => Class::Three,
        _ => Class::Beyond,
    }
}

/// Whether a class falls by exactly one; from beyond none does.
pub(crate) fn falls_by_one(before: Class, after: Class) -> bool
    ensures { result ≡ falls before after }
{
    matches!(
        (before, after),
        (Class::One, Class::Clean) | (Class::Two, Class::One) | (Class::Three, Class::Two)
    )
}
