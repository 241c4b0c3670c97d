//! The states on the way from a place to the statechart, and the names that are made of them.
//!
//! Read `specs/Names.antt` of `statechart_meaning` first, and then `specs/Frames.antt`, how the code has
//! the states.
#![tactic(auto)]

mod frames;
mod names;

pub use frames::Frames;
pub use names::{counter_name, datum_name, every_name};
