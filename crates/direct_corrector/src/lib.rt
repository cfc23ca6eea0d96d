//! The corrector that works directly: it divides to find the coefficients of the error locator, and tries every position as a root of it.
//!
//! `DirectCorrector` means the field that it is made from and one t.
#![tactic(auto)]

pub mod direct;
pub mod locator;

pub use direct::{DirectCorrector, Roots};
pub use locator::locator_of;
