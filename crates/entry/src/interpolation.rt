//! The look-up between two entries of a table: an angle's position, the next entry, and the blend of the two.
ghost use Rattle.std.specs.Prelude.{◌≡◌, ◌+◌, ◌*◌, ◌/◌, ◌%◌, ◌<◌, ◌≤◌};
ghost use Rattle.entry.specs.Rounding.{nearest, Rounds};
ghost use Rattle.entry.specs.Interpolation.{next_index, blended, Between};

use crate::rounding::nearest_quotient;

/// Where an angle lies in a table: at the entry of this index, and this many 65,536ths of the way to the next.
#[derive(Clone, Copy, PartialEq, Eq, Debug)]
pub struct Position {
    pub index: u16,
    pub fraction: u16,
}

/// Where `angle`, in 65,536ths of a turn of the worm, lies in a table of so many entries. With no entries it is at 0.
pub fn locate(angle: u16, entries: u16) -> Position
    ensures index { result.index ≡ angle * entries / 65536 }
    ensures fraction { result.fraction ≡ angle * entries % 65536 }
    ensures exact { result.index * 65536 + result.fraction ≡ angle * entries }
    ensures inside { 0 < entries → result.index < entries }
{
    let scaled = u32::from(angle) * u32::from(entries);
    // Casts, which are proved to lose nothing: `try_from` would have an error that cannot come.
    Position {
        index: (scaled / 65_536) as u16,
        fraction: (scaled % 65_536) as u16,
    }
}

/// The index of the entry after that of `index`. The last entry is its own next, and so is an index with no entry.
pub fn next_index(index: u16, entries: u16) -> u16
    ensures value { result ≡ next_index index entries }
    ensures step { index + 1 < entries → result ≡ index + 1 }
    ensures last { entries ≤ index + 1 → result ≡ index }
    ensures inside { index < entries → result < entries }
{
    match index.checked_add(1) {
        Some(next) if next < entries => next,
        _ => index,
    }
}

/// The whole number nearest `entry` + (`next` − `entry`) × `fraction` / 65,536, a half going away from zero.
pub fn blend(entry: i16, next: i16, fraction: u16) -> i16
    ensures value { result ≡ nearest (blended entry next fraction) 65536 }
    ensures law { Rounds (blended entry next fraction) 65536 result }
    ensures between { Between entry next result }
{
    nearest_quotient(exact_sum(entry, next, fraction)) as i16
}

/// The sum that `blend` rounds, in 65,536ths. Two entries may lie 65,535 apart, so it needs more than 32 bits.
fn exact_sum(entry: i16, next: i16, fraction: u16) -> i64
    ensures { result ≡ blended entry next fraction }
{
    let step = i64::from(next) - i64::from(entry);
    i64::from(entry) * 65_536 + step * i64::from(fraction)
}
