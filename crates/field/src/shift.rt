//! The house field that works by shifting and reducing: no tables, at most m turns for a product.
ghost use Rattle.std.specs.Prelude.{◌≡◌, ◌-◌, ◌%◌, ◌^◌};
ghost use Rattle.galois.specs.Model.{power};
ghost use Rattle.galois.specs.House.{Fit, Taken, house, reducer, shift};
ghost use Rattle.galois.proofs.House.{house-laws};

use crate::{Field, check_degree};

/// The polynomials over 0 and 1 of degree below m, bit i of a number for x^i, modulo the reducing polynomial of degree m.
#[derive(Clone, Copy)]
pub struct ShiftField {
    m: u8,
    ghost fit: { Fit m },
}

impl ShiftField {
    /// The house field of degree m; of degree 4 where m does not fit.
    pub fn new(m: u8) -> Self
        ensures { Taken m result.m }
    {
        if check_degree(m).is_ok() {
            ShiftField { m }
        } else {
            ShiftField { m: 4 }
        }
    }

    /// n, the number of elements that are not zero: all bits of an element set.
    pub fn units(&self) -> u8
        ensures { result ≡ 2 ^ self.now.m - 1 }
    {
        u8::MAX >> (8 - self.m)
    }

    /// The element that a number is read as.
    pub fn element(&self, a: u8) -> u8
        ensures { result ≡ a % 2 ^ self.now.m }
    {
        a & self.units()
    }

    fn reducing_polynomial(&self) -> u16
        ensures { result ≡ reducer self.now.m }
    {
        match self.m {
            4 => 0x13,
            5 => 0x25,
            6 => 0x43,
            7 => 0x89,
            _ => 0x11D,
        }
    }

    /// The element a times x, which is alpha.
    pub fn times_alpha(&self, a: u8) -> u8
        ensures { result ≡ shift self.now.m a }
    {
        let doubled = u16::from(a) * 2;
        let reduced = if (a >> (self.m - 1)) % 2 == 1 {
            doubled ^ self.reducing_polynomial()
        } else {
            doubled
        };
        (reduced & u16::from(self.units())) as u8
    }

    /// alpha^p.
    pub fn power(&self, p: u8) -> u8
        ensures { result ≡ power (house self.now.m) p }
    {
        (0..p).fold(1, |y, _| self.times_alpha(y))
    }
}

impl Field for ShiftField {
    ghost model = { λ s. house s.m };

    ghost lawful = { λ s. house-laws s.m s.fit };

    fn degree(&self) -> u8 {
        self.m
    }

    fn alpha(&self) -> u8 {
        2
    }

    fn add(&self, a: u8, b: u8) -> u8 {
        self.element(a ^ b)
    }

    fn mul(&self, a: u8, b: u8) -> u8 {
        // Three numbers go along: a fold would carry them as a tuple, and be no shorter.
        let mut sum = 0;
        let mut left = self.element(a);
        let mut by = self.element(b);
        for _ in 0..self.m {
            if left % 2 == 1 {
                sum ^= by;
            }
            left /= 2;
            by = self.times_alpha(by);
        }
        sum
    }

    fn inverse(&self, a: u8) -> u8 {
        if self.element(a) == 0 {
            return 0;
        }
        self.power(self.units() - self.exponent(a))
    }

    fn exponent(&self, a: u8) -> u8 {
        let n = self.units();
        let x = self.element(a);
        let mut y = 1;
        for p in 0..n {
            if y == x {
                return p;
            }
            y = self.times_alpha(y);
        }
        n
    }
}
