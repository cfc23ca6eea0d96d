//! The window: a stretch of the cells below.
ghost use Rattle.std.specs.Prelude.{◌≡◌, ℕ, ◌+◌, ◌<◌, ◌≤◌, IsTrue, ◌↔◌, MatchOption};
ghost use Rattle.refusal.specs.Checks.{Checked};
ghost use Rattle.refusal.specs.declared.Refusal.TheVariants.{Layer};
ghost use Rattle.memory.specs.Mem.{Layout, Mem};
ghost use Rattle.memory.specs.Layered.{layered, Picks};
ghost use Rattle.layers.specs.Layers.{windowed, window_size, WindowFits, WindowLaws};
ghost use Rattle.layers.specs.Crossing.{window_picks};

use crate::selected::{Selected, Selection};
use memory::Memory;
use refusal::Refusal;

/// The `length` cells from cell `first` on.
#[derive(Clone, Copy)]
pub struct Stretch {
    pub first: u32,
    pub length: u32,
}

impl Selection for Stretch {
    ghost Fits = { λ s n. WindowFits s.first s.length n };

    ghost size = { λ s. window_size s.first s.length };

    ghost index = { λ s n k. s.first + k };

    ghost picks = { λ s n. window_picks s.first s.length n };

    // The test of a run stands where its numbers are: this one refuses figures with 2, `memory` a knock with 9, `rows` a row with 9 after 7.
    #[inline(always)]
    fn fits(&self, n: u32) -> bool {
        self.length >= 1 && self.first <= n && self.length <= n - self.first
    }

    #[inline(always)]
    fn shown(&self, n: u32) -> u32 {
        if self.fits(n) { self.length } else { 0 }
    }

    #[inline(always)]
    fn cell(&self, n: u32, k: u32) -> Option<u32> {
        (k < self.shown(n)).then(|| self.first + k)
    }
}

/// The layer that shows a stretch of the cells below.
pub type Window<M> = Selected<M, Stretch>;

impl<M: Memory> Window<M> {
    /// Whether there are `length` cells from cell `first` on, and at least one.
    pub fn check(below: &M, first: u32, length: u32) -> Result<(), Refusal>
        ensures { Checked (WindowFits first length (M.Memory.means below.now).layout.cells) Layer result }
    {
        Window::check_figures(below, &Stretch { first, length })
    }

    /// The window over `below`; of no cells where the figures do not fit.
    pub fn new(below: M, first: u32, length: u32) -> Window<M>
        ensures holds { (result.below ≡ below) × ((result.figures.first ≡ first) × (result.figures.length ≡ length)) }
        ensures means { ⟦<Selected<M, Stretch> as Memory>⟧.means result ≡ windowed first length (M.Memory.means below) }
        ensures laws { WindowLaws first length (M.Memory.means below) }
    {
        Selected {
            below,
            figures: Stretch { first, length },
        }
    }
}
