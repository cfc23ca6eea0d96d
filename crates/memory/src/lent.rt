//! The cells of a lent slice of numbers, one to each bit, the least bit first.
//!
//! Cell and place number are the same. What lies past the first 262144 cells is never touched.
ghost use Rattle.std.specs.Prelude.{◌≡◌};
ghost use Rattle.memory.specs.Mem.{Layout, Mem, Sound, Got, Placed, Put, Knocked};
ghost use Rattle.memory.specs.Lines.{InLine};
ghost use Rattle.memory.specs.Packing.{PackedBits};
ghost use Rattle.memory.specs.Bottoms.{packed_cells, packed_sound};

use crate::Memory;
use crate::run::turn_run;
use bits::Element;
use refusal::Refusal;

const MOST: usize = 262144;

#[derive(Drop)]
pub struct LentCells<'a, E> {
    elements: &'a mut [E],
}

/// Cells in bytes, eight to a byte.
pub type ByteCells<'a> = LentCells<'a, u8>;

/// Cells in words, thirty-two to a word.
pub type WordCells<'a> = LentCells<'a, u32>;

impl<'a, E: Element> LentCells<'a, E> {
    /// The memory over `elements`.
    pub fn new(elements: &'a mut [E]) -> LentCells<'a, E>
        ensures same { (result.elements.now ≡ elements.old) × (result.elements.ghost_name ≡ elements.entry.ghost_name) }
        ensures packed { PackedBits E.WIDTH (E.numbers elements.old) (packed_cells E.WIDTH result.elements.ghost_name (E.numbers result.elements.now)).bit }
        ensures line { InLine (packed_cells E.WIDTH result.elements.ghost_name (E.numbers result.elements.now)).layout }
    {
        LentCells { elements }
    }
}

impl<E: Element> Memory for LentCells<'_, E> {
    ghost means = { λ s. packed_cells E.WIDTH s.elements.ghost_name (E.numbers s.elements.now) };

    ghost sound = { λ s. packed_sound E.WIDTH s.elements.ghost_name (E.numbers s.elements.now) };

    fn cells(&self) -> u32 {
        self.elements.len().saturating_mul(E::WIDTH).min(MOST) as u32
    }

    fn span(&self) -> u32 {
        self.cells()
    }

    fn get(&self, i: u32) -> Result<bool, Refusal> {
        bits::bit(self.elements, self.place(i)? as usize)
    }

    fn place(&self, i: u32) -> Result<u32, Refusal> {
        (i < self.cells()).then_some(i).ok_or(Refusal::Cell)
    }

    fn put(&mut self, i: u32, v: bool) -> Result<(), Refusal> {
        let i = self.place(i)?;
        bits::put_bit(self.elements, i as usize, v)
    }

    fn knock(&mut self, from: u32, length: u32) -> Result<(), Refusal> {
        let cells = self.cells();
        turn_run(self.elements, cells, from, length)
    }
}
