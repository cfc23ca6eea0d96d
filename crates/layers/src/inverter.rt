//! The inverter: each cell shows the opposite of the cell below.
ghost use Rattle.std.specs.Prelude.{◌≡◌};
ghost use Rattle.memory.specs.Mem.{Layout, Mem, Sound, Got, Placed, Put, Knocked};
ghost use Rattle.layers.specs.Layers.{inverted};

use memory::Memory;
use refusal::Refusal;

// No `Selected`: it changes what the cells show and not which they are, and each selection would need a rule for values with it.
#[derive(Drop)]
pub struct Inverter<M> {
    pub below: M,
}

impl<M: Memory> Inverter<M> {
    /// The inverter over `below`; it has no figures, so any memory fits.
    pub fn new(below: M) -> Inverter<M>
        ensures holds { result.below ≡ below }
        ensures layout { (inverted (M.Memory.means below)).layout ≡ (M.Memory.means below).layout }
    {
        Inverter { below }
    }
}

impl<M: Memory> Memory for Inverter<M> {
    ghost means = { λ s. inverted (M.Memory.means s.below) };

    ghost sound = { λ s. M.Memory.sound s.below };

    fn cells(&self) -> u32 {
        self.below.cells()
    }

    fn span(&self) -> u32 {
        self.below.span()
    }

    fn get(&self, i: u32) -> Result<bool, Refusal> {
        self.below.get(i).map(|v| !v)
    }

    fn place(&self, i: u32) -> Result<u32, Refusal> {
        self.below.place(i)
    }

    fn put(&mut self, i: u32, v: bool) -> Result<(), Refusal> {
        self.below.put(i, !v)
    }

    fn knock(&mut self, from: u32, length: u32) -> Result<(), Refusal> {
        self.below.knock(from, length)
    }
}
