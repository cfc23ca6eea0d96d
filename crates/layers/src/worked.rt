//! A worked example of the index rule.
ghost use Rattle.std.specs.Prelude.{◌≡◌, Ok, Err};

use crate::{Interleaver, Window};
use memory::{BuiltInCells, Memory};
use refusal::Refusal;

/// The place of cell 18 of an interleaver of depth 2 and width 15 over the first 30 cells of the built-in memory: position 3 of row 1
/// lies 3 × 2 + 1 = 7 places in.
pub fn cell_eighteen() -> Result<u32, Refusal>
    ensures { result ≡ Ok 7 }
{
    let window = Window::new(BuiltInCells::new(), 0, 30);
    Interleaver::new(window, 2, 15).place(18)
}
