//! Rows of the binary primitive BCH code that corrects t errors, over any field.
//!
//! A row has n = 2^m - 1 cells: n - k check cells, then k data cells. `encode` leaves in a buffer the one code row of some data, which is
//! the published systematic row: data * x^(n-k) plus its remainder by the generator polynomial.
#![tactic(auto)]

mod code;
pub mod encoder;
pub mod generator;
pub mod sizes;

pub use encoder::{encode, extract};
pub use generator::generator_polynomial;
pub use sizes::{check_strength, data_cells, row_cells};
