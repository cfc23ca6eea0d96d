//! Lines that drive a book: what happens between reading a line and printing its answer.
//!
//! A line that spells a command makes that one call on the book, and the answer is what the call answered; any other line is refused with 1
//! and leaves the book. The lines of an input are run one after another. So whatever calls led to the book before, they and those that the
//! lines spell lead to the book after.
#![tactic(auto)]

mod commands;
mod lines;

pub use commands::run_command;
pub use lines::{run, run_line};
