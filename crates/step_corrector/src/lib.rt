//! The corrector that works step by step: it adds and multiplies, and never divides.
//!
//! The class of a row, how many errors its syndromes show, is told by three determinants. Each position is turned on trial, and the turn is
//! kept where the class falls by exactly one. `StepCorrector` means the field that it is made from and one t.
#![tactic(auto)]

pub mod class;
pub mod stepwise;
mod trial;
mod trials;

pub use class::{Class, class_of};
pub use stepwise::{StepCorrector, Steps};
