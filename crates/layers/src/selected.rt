//! Layers that show cells of the memory below in an order of their own, told by figures.
ghost use Rattle.std.specs.Prelude.{◌≡◌, ℕ, ◌<◌, ◌≤◌, IsTrue, ◌↔◌, MatchOption};
ghost use Rattle.refusal.specs.Checks.{Checked};
ghost use Rattle.refusal.specs.declared.Refusal.TheVariants.{Layer};
ghost use Rattle.memory.specs.Mem.{Layout, Mem, Sound, Got, Placed, Put, Knocked};
ghost use Rattle.memory.specs.Layered.{layered, Picks, Shown};
ghost use Rattle.memory.proofs.Layering.{layered-sound};

use memory::Memory;
use refusal::Refusal;

/// Figures that say which of the cells below are shown, and in which order.
pub trait Selection {
    /// Whether the figures fit over so many cells.
    ghost Fits: { Self → ℕ → Type 0 };

    /// How many of so many cells are shown.
    ghost size: { Self → ℕ → ℕ };

    /// Which of so many cells each shown cell is.
    ghost index: { Self → ℕ → ℕ → ℕ };

    /// The shown cells are cells below, no two of them the same.
    ghost picks: { (s : Self) (n : ℕ) → Picks (size s) (index s) n };

    /// Whether the figures fit over `n` cells.
    fn fits(&self, n: u32) -> bool
        ensures { IsTrue result ↔ Fits self.now n };

    /// How many of `n` cells are shown; none where the figures do not fit.
    // No body here: it would need one more method with a law, for the number where they fit, in place of a line in each impl.
    fn shown(&self, n: u32) -> u32
        ensures { result ≡ size self.now n };

    /// Which of `n` cells the shown cell `k` is, if there is one.
    fn cell(&self, n: u32, k: u32) -> Option<u32>
        ensures { MatchOption result (size self.now n ≤ k) (λ j. (k < size self.now n) × (j ≡ index self.now n k)) };
}

/// The cells of the memory below that the figures select.
#[derive(Drop)]
pub struct Selected<M, S> {
    pub below: M,
    pub figures: S,
}

impl<M: Memory, S: Selection> Selected<M, S> {
    /// Whether the figures fit over `below`.
    pub(crate) fn check_figures(below: &M, figures: &S) -> Result<(), Refusal>
        ensures { Checked (S.Fits figures.now (M.Memory.means below.now).layout.cells) Layer result }
    {
        figures
            .fits(below.cells())
            .then_some(())
            .ok_or(Refusal::Layer)
    }

    /// The cell below that cell `i` is.
    #[inline(always)]
    fn cell_below(&self, i: u32) -> Result<u32, Refusal>
        ensures { Shown (S.size self.now.figures) (S.index self.now.figures) (M.Memory.means self.now.below).layout.cells i result }
    {
        self.figures
            .cell(self.below.cells(), i)
            .ok_or(Refusal::Cell)
    }
}

// The calls on single cells are made for each cell of a row: without the hints no caller has them inline, and a read of a row takes a third more.
impl<M: Memory, S: Selection> Memory for Selected<M, S> {
    ghost means = { λ s. layered (S.size s.figures) (S.index s.figures) (M.Memory.means s.below) };

    ghost sound = { λ s. layered-sound (S.size s.figures) (S.index s.figures) (M.Memory.means s.below) (S.picks s.figures (M.Memory.means s.below).layout.cells) (M.Memory.sound s.below) };

    #[inline(always)]
    fn cells(&self) -> u32 {
        self.figures.shown(self.below.cells())
    }

    fn span(&self) -> u32 {
        self.below.span()
    }

    #[inline(always)]
    fn get(&self, i: u32) -> Result<bool, Refusal> {
        let k = self.cell_below(i)?;
        self.below.get(k)
    }

    #[inline(always)]
    fn place(&self, i: u32) -> Result<u32, Refusal> {
        let k = self.cell_below(i)?;
        self.below.place(k)
    }

    #[inline(always)]
    fn put(&mut self, i: u32, v: bool) -> Result<(), Refusal> {
        let k = self.cell_below(i)?;
        self.below.put(k, v)
    }

    fn knock(&mut self, from: u32, length: u32) -> Result<(), Refusal> {
        self.below.knock(from, length)
    }
}
