//! Worked rows: powers, code rows, syndromes, determinants and corrections over the house field of degree 4, each worked out by the prover.
//!
//! There is no code here but the function that carries them: its contract is the list, so that the check asks for its proof.
#![tactic(auto)]

ghost use Rattle.worked_rows.specs.Worked.{WorkedRows};

/// Every line of the list holds.
pub fn rows_are_worked()
    ensures { WorkedRows }
{}
