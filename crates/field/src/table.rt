//! The house field that works by tables of powers and exponents, built when it is made: no loop in any question.
ghost use Rattle.std.specs.Prelude.{◌≡◌};
ghost use Rattle.galois.specs.House.{Taken, house};
ghost use Rattle.galois.proofs.House.{house-laws};
ghost use Rattle.field.specs.Tables.{Tables, ByteSums};

use crate::byte_sums::byte_sums;
use crate::shift::ShiftField;
use crate::{Field, Syndromes};

/// The same field as `ShiftField` of its degree.
#[derive(Drop)]
pub struct TableField {
    base: ShiftField,
    /// alpha^p for p below 2n, so that a sum of two exponents needs no reduction.
    powers: [u8; 512],
    exponents: [u8; 256],
    /// What each byte at each index of a row adds to the syndromes.
    sums: [[Syndromes; 256]; 32],
    ghost tied: { Tables base.m powers exponents },
    ghost summed: { ByteSums base.m sums },
}

impl TableField {
    /// The house field of degree m; of degree 4 where m does not fit.
    pub fn new(m: u8) -> Self
        ensures { Taken m result.base.m }
    {
        let base = ShiftField::new(m);
        let n = base.units();
        let mut powers = [0u8; 512];
        let mut exponents = [0u8; 256];
        exponents[0] = n;
        // One loop for both tables: y, which is alpha^p, is an entry of the one and an index of the other.
        let mut y = 1;
        for p in 0..n {
            powers[usize::from(p)] = y;
            powers[usize::from(p) + usize::from(n)] = y;
            exponents[usize::from(y)] = p;
            y = base.times_alpha(y);
        }
        let sums = byte_sums(&base);
        TableField {
            base,
            powers,
            exponents,
            sums,
        }
    }
}

impl Field for TableField {
    ghost model = { λ s. house s.base.m };

    ghost lawful = { λ s. house-laws s.base.m s.base.fit };

    fn degree(&self) -> u8 {
        self.base.degree()
    }

    fn alpha(&self) -> u8 {
        self.base.alpha()
    }

    fn add(&self, a: u8, b: u8) -> u8 {
        self.base.add(a, b)
    }

    fn mul(&self, a: u8, b: u8) -> u8 {
        if self.base.element(a) == 0 || self.base.element(b) == 0 {
            return 0;
        }
        self.powers[usize::from(self.exponent(a)) + usize::from(self.exponent(b))]
    }

    fn inverse(&self, a: u8) -> u8 {
        if self.base.element(a) == 0 {
            return 0;
        }
        self.powers[usize::from(self.base.units() - self.exponent(a))]
    }

    fn exponent(&self, a: u8) -> u8 {
        self.exponents[usize::from(self.base.element(a))]
    }

    fn syndromes(&self, row: &[u8]) -> Syndromes {
        if row.len() > 32 {
            return self.base.syndromes(row);
        }
        let mut sums = Syndromes::NONE;
        for (q, byte) in row.iter().enumerate() {
            sums = sums.plus(self.sums[q][usize::from(*byte)]);
        }
        sums
    }
}
