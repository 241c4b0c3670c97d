//! Replaces each name of a chart text by its number, or finds the first fault of its names.
//!
//! Read `specs/Resolution.antt`, the resolved chart of a chart text, and `specs/Names.antt`, the
//! faults of names.
#![tactic(auto)]

mod declarations;
mod doubled;
mod expressions;
mod parts;
mod references;
mod resolution;
mod statements;
mod states;
mod transitions;

pub use resolution::resolve;
