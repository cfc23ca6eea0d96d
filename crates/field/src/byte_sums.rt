//! What each byte of a row adds to the syndromes.
ghost use Rattle.field.specs.Tables.{ByteSums};

use crate::shift::ShiftField;
use crate::{Field, Syndromes};

/// The table whose entry v of row q is what the byte v adds as the q-th of a row. A byte with highest bit j adds what it adds without that
/// bit, and what the turn of the position 8 q + j adds.
pub(crate) fn byte_sums(base: &ShiftField) -> [[Syndromes; 256]; 32]
    ensures { ByteSums base.now.m result }
{
    let mut table = [[Syndromes::NONE; 256]; 32];
    let mut x = 1;
    for sums in table.iter_mut() {
        for j in 0..8usize {
            let turn = base.turned(Syndromes::NONE, x);
            let high = 1usize << j;
            for low in 0..high {
                sums[high + low] = sums[low].plus(turn);
            }
            x = base.times_alpha(x);
        }
    }
    table
}
