//! The numbers of a gear error table.
//!
//! An entry is a signed 16-bit whole number of 1/64 arcsecond, stored low byte first. This crate turns values in arcseconds
//! into entries and back, finds where a worm angle lies in a table and blends the two entries beside it. Every function is
//! pure, and answers for all arguments.
#![tactic(auto)]

mod bytes;
mod interpolation;
mod rounding;
mod value;

pub use bytes::{from_bytes, to_bytes};
pub use interpolation::{Position, blend, locate, next_index};
pub use value::{arcseconds, entry_of};
