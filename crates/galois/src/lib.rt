//! The mathematics of the fields and of the code: what a field of 2^m elements means and obeys, the house fields, and how far code rows
//! lie apart.
//!
//! There is no code here but functions that carry theorems: the contract of each is the theorem, so that the check asks for its proof.
#![tactic(auto)]

ghost use Rattle.std.specs.Prelude.{ℕ};
ghost use Rattle.galois.specs.Consequences.{Consequences};
ghost use Rattle.galois.specs.House.{Fit, HouseField};
ghost use Rattle.galois.specs.Model.{FieldModel, FieldLaws};
ghost use Rattle.galois.specs.Rows.{RowsApart};

/// Every lawful field is a field as the textbooks have it, and its two questions, the inverse and the exponent, have exactly one answer.
pub fn lawful_fields_are_fields()
    ensures { (F : FieldModel) → FieldLaws F → Consequences F }
{}

/// The house field of each degree from 4 to 8 is lawful, and it is the one field of polynomials modulo the reducing polynomial.
pub fn house_fields_are_polynomial_fields()
    ensures { (m : ℕ) → Fit m → HouseField m }
{}

/// Over every lawful field and for every t, different code rows differ in at least 2t + 1 positions, so that at most one of them lies within
/// t positions of any row.
pub fn code_rows_are_apart()
    ensures { (F : FieldModel) → FieldLaws F → (t : ℕ) → RowsApart F t }
{}
