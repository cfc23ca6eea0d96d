//! The interleaver: rows of `width` cells, `depth` rows to a group, each group laid down column after column.
//!
//! So neighbours in a row lie `depth` cells apart below, and a burst over neighbouring places meets each row in few cells.
ghost use Rattle.std.specs.Prelude.{◌≡◌, ℕ, ◌<◌, ◌≤◌, IsTrue, ◌↔◌, MatchOption};
ghost use Rattle.refusal.specs.Checks.{Checked};
ghost use Rattle.refusal.specs.declared.Refusal.TheVariants.{Layer};
ghost use Rattle.memory.specs.Mem.{Layout, Mem};
ghost use Rattle.memory.specs.Layered.{layered, Picks};
ghost use Rattle.layers.specs.Layers.{interleaved, interleaver_size, InterleaverFits, InterleaverLaws, crossed};
ghost use Rattle.layers.specs.Crossing.{interleaver_picks};

use crate::selected::{Selected, Selection};
use memory::Memory;
use refusal::Refusal;

/// Groups of `depth` rows of `width` cells, each group laid down column after column.
#[derive(Clone, Copy)]
pub struct Columns {
    pub depth: u32,
    pub width: u32,
}

impl Selection for Columns {
    ghost Fits = { λ s n. InterleaverFits s.depth s.width n };

    ghost size = { λ s. interleaver_size s.depth s.width };

    ghost index = { λ s n k. crossed s.depth s.width k };

    ghost picks = { λ s n. interleaver_picks s.depth s.width n };

    #[inline(always)]
    fn fits(&self, n: u32) -> bool {
        (1..=16).contains(&self.depth)
            && (1..=255).contains(&self.width)
            && n >= 1
            && n.is_multiple_of(self.depth * self.width)
    }

    #[inline(always)]
    fn shown(&self, n: u32) -> u32 {
        if self.fits(n) { n } else { 0 }
    }

    #[tactic(auto, using(crate::specs::Crossing::column_fits))]
    #[inline(always)]
    fn cell(&self, n: u32, k: u32) -> Option<u32> {
        if k >= self.shown(n) {
            return None;
        }
        let Columns { depth, width } = *self;
        let row = k / width;
        let column = k % width;
        Some((row / depth * width + column) * depth + row % depth)
    }
}

/// The layer that shows all cells below in rows, neighbours in a row `depth` cells apart.
pub type Interleaver<M> = Selected<M, Columns>;

impl<M: Memory> Interleaver<M> {
    /// Whether the depth is 1 to 16, the width 1 to 255, and the cells below are one or more whole groups of depth × width.
    pub fn check(below: &M, depth: u32, width: u32) -> Result<(), Refusal>
        ensures { Checked (InterleaverFits depth width (M.Memory.means below.now).layout.cells) Layer result }
    {
        Interleaver::check_figures(below, &Columns { depth, width })
    }

    /// The interleaver over `below`; of no cells where the figures do not fit.
    #[tactic(auto, using(crate::proofs::Laws::interleaver_laws))]
    pub fn new(below: M, depth: u32, width: u32) -> Interleaver<M>
        ensures holds { (result.below ≡ below) × ((result.figures.depth ≡ depth) × (result.figures.width ≡ width)) }
        ensures means { ⟦<Selected<M, Columns> as Memory>⟧.means result ≡ interleaved depth width (M.Memory.means below) }
        ensures laws { InterleaverLaws depth width (M.Memory.means below) }
    {
        Selected {
            below,
            figures: Columns { depth, width },
        }
    }
}
