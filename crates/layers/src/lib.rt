//! Layers: memories that show the cells of a memory below in another order or another value.
//!
//! A layer holds the memory below by value and is a memory again, with the places of the cells that it shows and the span below;
//! knocks are passed down. `Selected` is such a layer for any figures that select cells below; the window and the interleaver are two of
//! it. Figures are tested at each call: where they do not fit, the layer has no cells. `fill` and `copy` are users of any memory that
//! need nothing but the trait.
#![tactic(auto)]

mod interleaver;
mod inverter;
mod selected;
mod transfer;
mod window;
mod worked;

pub use interleaver::{Columns, Interleaver};
pub use inverter::Inverter;
pub use selected::{Selected, Selection};
pub use transfer::{copy, fill};
pub use window::{Stretch, Window};
pub use worked::cell_eighteen;
