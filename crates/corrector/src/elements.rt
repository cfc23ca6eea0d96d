//! The positions of a row, each with its element.
ghost use Rattle.std.specs.Prelude.{◌≡◌, ◌-◌, ◌≤◌};
ghost use Rattle.std.specs.Iterator.{at_most};
ghost use Rattle.galois.specs.Model.{FieldModel, units, power};
ghost use Rattle.corrector.specs.Placed.{Steps};

use bch::row_cells;
use field::Field;

/// The positions that are still to come, and the element of the next.
#[derive(Drop)]
pub struct Positions<'a, F: Field> {
    field: &'a F,
    next: u8,
    element: u8,
    ghost placed: { element ≡ power (F.Field.model field.now) next },
    ghost within: { next ≤ units (F.Field.model field.now) },
}

impl<'a, F: Field> Positions<'a, F> {
    /// The positions of a row over a field from 0 on, each p with its element alpha^p.
    pub fn of(field: &'a F) -> Self
        ensures { (result.next ≡ 0) × (result.field.now ≡ field.now) }
    {
        Positions {
            field,
            next: 0,
            element: 1,
        }
    }
}

impl<'a, F: Field> Iterator for Positions<'a, F> {
    type Item = (u8, u8);

    ghost next_gives = { λ s r t. Steps (F.Field.model s.field.now) (F.Field.model t.field.now) s.next t.next r };

    ghost remaining = { λ s. at_most (units (F.Field.model s.field.now) - s.next) };

    fn next(&mut self) -> Option<(u8, u8)> {
        if self.next == row_cells(self.field) {
            return None;
        }
        let item = (self.next, self.element);
        self.element = self.field.mul(self.field.alpha(), self.element);
        self.next += 1;
        Some(item)
    }
}
