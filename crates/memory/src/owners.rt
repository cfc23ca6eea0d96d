//! Single calls on a lent slice, for its owner: the contracts say what the slice holds afterwards.
ghost use Rattle.memory.specs.Mem.{Layout, Mem, Put, Knocked};
ghost use Rattle.memory.specs.Bottoms.{lent_cells};

use crate::{ByteCells, Memory, WordCells};
use refusal::Refusal;

/// Gives cell `i` of the bytes the value `v`.
// Not generic over the element: each tells what one slice holds, bytes or words, in the words of its owner.
pub fn put_in_bytes(bytes: &mut [u8], i: u32, v: bool) -> Result<(), Refusal>
    ensures { Put (lent_cells 8 bytes.entry) (lent_cells 8 bytes.exit) i v result }
{
    ByteCells::new(bytes).put(i, v)
}

/// Knocks a run of the words' cells.
pub fn knock_words(words: &mut [u32], from: u32, length: u32) -> Result<(), Refusal>
    ensures { Knocked (lent_cells 32 words.entry) (lent_cells 32 words.exit) from length result }
{
    WordCells::new(words).knock(from, length)
}
