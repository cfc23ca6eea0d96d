//! The frame of a corrector that searches: the tests of the buffer, the row that is a code row already, and a search on a copy, so that a
//! refusal leaves every byte whatever the search has turned.
ghost use Rattle.std.specs.Prelude.{◌≡◌, ℕ};
ghost use Rattle.galois.specs.Rows.{Few};
ghost use Rattle.corrector.specs.Corrected.{Corrected, Strength};
ghost use Rattle.corrector.specs.Searched.{clean, Searches};

use crate::Corrector;
use crate::copies::padded;
use bch::{check_strength, row_cells};
use bits::{bytes_for, check_buffer};
use field::{Field, Syndromes};
use refusal::Refusal;
use std::marker::PhantomData;

/// A search for the code row within t positions of a row, in one field and for one t.
pub trait Search: Field {
    ghost strength: { Self → ℕ };

    ghost few: { (s : Self) → Few (strength s) };

    /// t, the most errors that are searched for.
    fn most(&self) -> u8
        ensures { result ≡ strength self.now };

    /// Makes a row, whose syndromes are handed over, the code row within t positions and answers how many cells that turns; None where there
    /// is no such row, and what is left in the buffer is then of no account.
    fn search(&self, sums: Syndromes, row: &mut [u8]) -> Option<u8>
        ensures { Searches (Self.Field.model self.now) (strength self.now) sums row.old row.new result };
}

/// A way of searching that serves every field and every t from 1 to 3, and holds no data.
pub trait SearchMethod {
    /// Searches as `Search` does, in the field f and for t.
    fn search<F: Field>(f: &F, t: u8, sums: Syndromes, row: &mut [u8]) -> Option<u8>
        ensures { Few t → Searches (F.Field.model f.now) t sums row.old row.new result };
}

/// Whether the first t syndromes are zero.
pub fn is_clean(sums: Syndromes, t: u8) -> bool
    ensures { result ≡ clean t sums }
{
    sums.s1 == 0 && (t < 2 || sums.s3 == 0) && (t < 3 || sums.s5 == 0)
}

/// Corrects a row by a search.
pub fn correct_row<S: Search>(s: &S, row: &mut [u8]) -> Result<u8, Refusal>
    ensures { Corrected (S.Field.model s.now) (S.Search.strength s.now) row.old row.new result }
{
    check_buffer(row, row_cells(s))?;
    let sums = s.syndromes(row);
    if is_clean(sums, s.most()) {
        return Ok(0);
    }
    let mut copy = padded(row);
    let draft = &mut copy[..row.len()];
    let count = s.search(sums, draft).ok_or(Refusal::NoCodeRow)?;
    row.copy_from_slice(draft);
    Ok(count)
}

/// Corrects up to t errors by the method S, in any field.
#[derive(Drop)]
pub struct SearchCorrector<F, S> {
    field: F,
    t: u8,
    way: PhantomData<S>,
    ghost few: { Few t },
}

impl<F: Field, S: SearchMethod> SearchCorrector<F, S> {
    /// The corrector of t errors over a field; of one error where t does not fit.
    pub fn new(field: F, t: u8) -> Self
        ensures { (result.field ≡ field) × Strength t result.t }
    {
        SearchCorrector {
            field,
            t: check_strength(t).map_or(1, |()| t),
            way: PhantomData,
        }
    }
}

impl<F: Field, S: SearchMethod> Field for SearchCorrector<F, S> {
    ghost model = { λ s. F.Field.model s.field };

    ghost lawful = { λ s. F.Field.lawful s.field };

    // A corrector is a field too, and the language has no delegation: each method is handed on by hand.

    fn degree(&self) -> u8 {
        self.field.degree()
    }

    fn alpha(&self) -> u8 {
        self.field.alpha()
    }

    fn add(&self, a: u8, b: u8) -> u8 {
        self.field.add(a, b)
    }

    fn mul(&self, a: u8, b: u8) -> u8 {
        self.field.mul(a, b)
    }

    fn inverse(&self, a: u8) -> u8 {
        self.field.inverse(a)
    }

    fn exponent(&self, a: u8) -> u8 {
        self.field.exponent(a)
    }

    fn turned(&self, sums: Syndromes, x: u8) -> Syndromes {
        self.field.turned(sums, x)
    }

    fn syndromes(&self, row: &[u8]) -> Syndromes {
        self.field.syndromes(row)
    }
}

impl<F: Field, S: SearchMethod> Search for SearchCorrector<F, S> {
    ghost strength = { λ s. s.t };

    ghost few = { λ s. s.few };

    fn most(&self) -> u8 {
        self.t
    }

    fn search(&self, sums: Syndromes, row: &mut [u8]) -> Option<u8> {
        if row.len() != bytes_for(row_cells(&self.field)) {
            return None;
        }
        S::search(&self.field, self.t, sums, row)
    }
}

impl<F: Field, S: SearchMethod> Corrector for SearchCorrector<F, S> {
    ghost strength = { λ s. s.t };

    ghost few = { λ s. s.few };

    fn corrects(&self) -> u8 {
        self.t
    }

    fn correct(&self, row: &mut [u8]) -> Result<u8, Refusal> {
        correct_row(self, row)
    }
}
