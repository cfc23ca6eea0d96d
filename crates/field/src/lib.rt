//! Fields of 2^m elements, m from 4 to 8.
//!
//! A field says by its ghost member `model` what it means: m, all sums and products, and alpha; and by `lawful` that the laws of a field
//! hold of that. Everything above rests on the model and the laws alone, so that a field of one's own serves as well as ours.
//! `ShiftField` and `TableField` are the house fields: two ways of working, one meaning, `house m`.
#![tactic(auto)]

ghost use Rattle.std.specs.Prelude.{◌≡◌, ◌*◌, length};
ghost use Rattle.bits.specs.Bits.{bit_at};
ghost use Rattle.galois.specs.Model.{FieldModel, FieldLaws, IsInverse, IsExponent, elem, sum_of, product-of};
ghost use Rattle.field.specs.Syndromes.{syndromes_of, with_turn};

mod byte_sums;
pub mod degree;
pub mod generic;
pub mod shift;
pub mod syndromes;
pub mod table;

pub use degree::check_degree;
pub use shift::ShiftField;
pub use syndromes::Syndromes;
pub use table::TableField;

/// A field. Element numbers are read modulo 2^m and answered below it. No question asks anything of its caller or changes anything.
pub trait Field {
    ghost model: { Self → FieldModel };

    ghost lawful: { (f : Self) → FieldLaws (model f) };

    /// m: the field has 2^m elements.
    fn degree(&self) -> u8
        ensures { result ≡ (model self.now).m };

    /// The element whose powers are all that is not zero.
    fn alpha(&self) -> u8
        ensures { result ≡ (model self.now).alpha };

    /// The sum of two elements.
    fn add(&self, a: u8, b: u8) -> u8
        ensures { result ≡ sum_of (model self.now) a b };

    /// The product of two elements.
    fn mul(&self, a: u8, b: u8) -> u8
        ensures { result ≡ product-of (model self.now) a b };

    /// The inverse of an element; 0 for 0.
    fn inverse(&self, a: u8) -> u8
        ensures { IsInverse (model self.now) (elem (model self.now) a) result };

    /// The p with alpha^p = a and p < n; n for 0.
    fn exponent(&self, a: u8) -> u8
        ensures { IsExponent (model self.now) (elem (model self.now) a) result };

    /// The syndromes once the position p of the element x = alpha^p is turned.
    fn turned(&self, sums: Syndromes, x: u8) -> Syndromes
        ensures { result ≡ with_turn (model self.now) sums x }
    {
        // Not `cube`: the fifth power needs the square too.
        let square = self.mul(x, x);
        let cube = self.mul(square, x);
        Syndromes {
            s1: self.add(sums.s1, x),
            s3: self.add(sums.s3, cube),
            s5: self.add(sums.s5, self.mul(cube, square)),
        }
    }

    /// The syndromes of the bits of a buffer. A field that has a faster way writes its own.
    fn syndromes(&self, row: &[u8]) -> Syndromes
        ensures { result ≡ syndromes_of (model self.now) (bit_at 8 row.now) (8 * length row.now) }
    {
        // Two loops, as a count of all the bits need not fit a usize; and x goes along, as alpha^p for each p would be p products.
        let alpha = self.alpha();
        let mut sums = Syndromes::NONE;
        let mut x = 1;
        for byte in row {
            for i in 0..8u8 {
                // Not `bit`: it takes a slice and may refuse, and the byte is at hand.
                if (*byte >> i) % 2 == 1 {
                    sums = self.turned(sums, x);
                }
                x = self.mul(alpha, x);
            }
        }
        sums
    }
}
