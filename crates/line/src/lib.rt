//! The lines that drive a book of rows: commands as they are typed, and input cut into lines.
//!
//! `parse` answers a command exactly when the line is one of its spellings, and refuses every other line. `Lines` gives the lines of
//! any input, each once and in order.
#![tactic(auto)]

mod command;
mod fields;
mod input;

pub use command::{Command, parse};
pub use input::Lines;
