//! The generator polynomial.
ghost use Rattle.std.specs.Prelude.{◌≡◌, ℕ, ◌+◌, ◌^◌, ◌<◌, ◌≤◌, ◌==◌, length, slice_index};
ghost use Rattle.bits.specs.Bits.{bit_of};
ghost use Rattle.galois.specs.Model.{size};
ghost use Rattle.galois.specs.Polynomials.{factor};
ghost use Rattle.galois.specs.Ring.{numbers};
ghost use Rattle.galois.specs.Rows.{check_cells};
ghost use Rattle.bch.specs.Calls.{Generated};
ghost use Rattle.bch.specs.Steps.{coefficient};

use crate::code::Code;
use crate::sizes::row_cells;
use field::Field;
use refusal::Refusal;

/// The generator of the code that corrects t errors, bit i for x^i: the polynomial of lowest degree with the roots alpha to alpha^2t.
pub fn generator_polynomial<F: Field>(f: &F, t: u8) -> Result<u32, Refusal>
    ensures { Generated (F.Field.model f.now) t result }
{
    Ok(Code::new(f, t)?.generator())
}

impl<'a, F: Field> Code<'a, F> {
    /// The generator, bit i for x^i.
    pub(crate) fn generator(&self) -> u32
        ensures below { result < 2 ^ (check_cells (F.Field.model self.now.field.now).m self.now.t + 1) }
        ensures bits { (i : ℕ) → i ≤ check_cells (F.Field.model self.now.field.now).m self.now.t → bit_of result i ≡ (coefficient (F.Field.model self.now.field.now) (check_cells (F.Field.model self.now.field.now).m self.now.t) i == 1) }
    {
        packed(&self.coefficients()[..=usize::from(self.check_cells())])
    }

    /// The product of x + alpha^j over the exponents j of the cosets: 1 and its doubles, 3 and its doubles, 5 and its doubles.
    fn coefficients(&self) -> [u8; 25]
        ensures { (i : ℕ) → i < 25 → slice_index result i ≡ coefficient (F.Field.model self.now.field.now) (check_cells (F.Field.model self.now.field.now).m self.now.t) i }
    {
        let f = self.field;
        let n = u16::from(row_cells(f));
        let mut g = [0u8; 25];
        g[0] = 1;
        let square = f.mul(f.alpha(), f.alpha());
        let mut first = 1u16;
        let mut here = 1u16;
        let mut lead = f.alpha();
        let mut root = lead;
        // One loop of n - k turns: with a loop for each coset, where each one ends would be one more thing to prove.
        for _ in 0..self.check_cells() {
            g = times_factor(f, root, g);
            here = 2 * here % n;
            root = f.mul(root, root);
            if here == first {
                first += 2;
                here = first;
                lead = f.mul(square, lead);
                root = lead;
            }
        }
        g
    }
}

/// The polynomial g times x + a.
fn times_factor<F: Field>(f: &F, a: u8, g: [u8; 25]) -> [u8; 25]
    requires elements { (i : ℕ) → i < 25 → slice_index g i < size (F.Field.model f.now) }
    requires element { a < size (F.Field.model f.now) }
    ensures { (i : ℕ) → i < 25 → slice_index result i ≡ factor (numbers (F.Field.model f.now)) a (λ j. slice_index g j) i }
{
    // Not `zip` over `iter_mut`: of what is written through an adapter of `iter_mut` a proof knows nothing.
    let mut product = [0u8; 25];
    let mut below = 0;
    for (i, here) in g.iter().enumerate() {
        product[i] = f.add(below, f.mul(a, *here));
        below = *here;
    }
    product
}

/// The number whose bits are the coefficients, each 0 or 1.
fn packed(coefficients: &[u8]) -> u32
    requires room { length coefficients.now ≤ 25 }
    requires bits { (i : ℕ) → i < length coefficients.now → slice_index coefficients.now i < 2 }
    ensures below { result < 2 ^ length coefficients.now }
    ensures bits { (i : ℕ) → i < length coefficients.now → bit_of result i ≡ (slice_index coefficients.now i == 1) }
{
    let mut all = 0u32;
    for bit in coefficients.iter().rev() {
        all = 2 * all + u32::from(*bit);
    }
    all
}
