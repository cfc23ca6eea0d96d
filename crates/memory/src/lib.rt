//! Memories: cells that hold a bit each and may be turned by accident.
//!
//! A memory has N cells, each at a place of its own below the span P. Cells are read and written by number; a knock turns the
//! cells at a run of places. Every memory keeps N, P and its places for ever, with N ≤ P ≤ 262144. A call with a number outside is
//! refused with `Refusal::Cell` and changes nothing.
#![tactic(auto)]

ghost use Rattle.std.specs.Prelude.{◌≡◌};
ghost use Rattle.memory.specs.Mem.{Layout, Mem, Sound, Got, Placed, Put, Knocked};

mod built_in;
mod laws;
mod lent;
mod owners;
mod run;

pub use built_in::BuiltInCells;
pub use laws::lists_stand;
pub use lent::{ByteCells, LentCells, WordCells};
pub use owners::{knock_words, put_in_bytes};
use refusal::Refusal;

/// Cells that are read, written and knocked.
pub trait Memory {
    /// The layout and what each cell shows and holds.
    ghost means: { Self → Mem };

    /// The laws of the layout.
    ghost sound: { (m : Self) → Sound (means m).layout };

    /// N, the number of cells.
    fn cells(&self) -> u32
        ensures { result ≡ (means self.now).layout.cells };

    /// P, the number of places.
    fn span(&self) -> u32
        ensures { result ≡ (means self.now).layout.span };

    /// What cell `i` shows.
    fn get(&self, i: u32) -> Result<bool, Refusal>
        ensures { Got (means self.now) i result };

    /// The place of cell `i`.
    fn place(&self, i: u32) -> Result<u32, Refusal>
        ensures { Placed (means self.now) i result };

    /// Gives cell `i` the value `v`; no other cell changes.
    fn put(&mut self, i: u32, v: bool) -> Result<(), Refusal>
        ensures { Put (means self.old) (means self.new) i v result };

    /// Turns exactly the cells at the `length` places from `from` on.
    // Two numbers and no range: any two are taken, and refused where they pass P, with no sum of them that may wrap.
    fn knock(&mut self, from: u32, length: u32) -> Result<(), Refusal>
        ensures { Knocked (means self.old) (means self.new) from length result };
}
