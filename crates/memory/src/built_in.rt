//! The built-in memory: 4096 cells in 512 bytes of its own, all zero when made.
ghost use Rattle.std.specs.Prelude.{◌≡◌, ℕ, ◌<◌, false};
ghost use Rattle.memory.specs.Mem.{Layout, Mem, Sound, Got, Placed, Put, Knocked};
ghost use Rattle.memory.specs.Lines.{InLine};
ghost use Rattle.memory.specs.Bottoms.{own_cells, own_sound};

use crate::Memory;
use crate::run::turn_run;
use refusal::Refusal;

const CELLS: u32 = 4096;

// Not `LentCells` over its own bytes: a memory that lends from itself has no lifetime to name, and the calls below are one line each.
#[derive(Drop)]
pub struct BuiltInCells {
    bytes: [u8; 512],
}

impl BuiltInCells {
    /// Cells that are all zero.
    pub fn new() -> BuiltInCells
        ensures zero { (k : ℕ) → k < (own_cells result.bytes).layout.cells → (own_cells result.bytes).bit k ≡ false }
        ensures line { InLine (own_cells result.bytes).layout }
    {
        BuiltInCells { bytes: [0; 512] }
    }
}

impl Memory for BuiltInCells {
    ghost means = { λ s. own_cells s.bytes };

    ghost sound = { λ s. own_sound s.bytes };

    fn cells(&self) -> u32 {
        CELLS
    }

    fn span(&self) -> u32 {
        self.cells()
    }

    fn get(&self, i: u32) -> Result<bool, Refusal> {
        bits::bit(&self.bytes, i as usize)
    }

    fn place(&self, i: u32) -> Result<u32, Refusal> {
        (i < CELLS).then_some(i).ok_or(Refusal::Cell)
    }

    fn put(&mut self, i: u32, v: bool) -> Result<(), Refusal> {
        bits::put_bit(&mut self.bytes, i as usize, v)
    }

    fn knock(&mut self, from: u32, length: u32) -> Result<(), Refusal> {
        turn_run(&mut self.bytes, CELLS, from, length)
    }
}
