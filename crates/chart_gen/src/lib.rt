//! Generated cases: a chart text and an event file for each number.
//!
//! Read `specs/Draws.antt` first, the numbers that a case is made of, and then `specs/Cases.antt`,
//! the lines of its chart and of its event file.
#![tactic(auto)]

mod case;
mod chart;
mod draws;
mod events;

pub use case::{Case, make_case};
