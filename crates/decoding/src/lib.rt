//! The mathematics of the correctors: what the power sums of a row tell of the code row near it.
//!
//! There is no code here but functions that carry theorems: the contract of each is the theorem, so that the check asks for its proof.
#![tactic(auto)]

ghost use Rattle.std.specs.Prelude.{ℕ};
ghost use Rattle.galois.specs.Model.{FieldModel, FieldLaws};
ghost use Rattle.galois.specs.Rows.{Few};
ghost use Rattle.decoding.specs.Classes.{ClassIsDistance};
ghost use Rattle.decoding.specs.Locators.{LocatorRoots};

/// The class of a row is its distance from the code row within t positions of it, where there is one.
pub fn class_is_distance()
    ensures { (F : FieldModel) → FieldLaws F → (t : ℕ) → Few t → ClassIsDistance F t }
{}

/// The roots of the error locator are the positions at which a row differs from the code row within t positions of it.
pub fn locator_roots_are_errors()
    ensures { (F : FieldModel) → FieldLaws F → (t : ℕ) → Few t → LocatorRoots F t }
{}
