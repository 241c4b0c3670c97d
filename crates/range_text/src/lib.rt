//! The text that tells the ranges of a chart.
//!
//! Read the definitions in this order: `specs/Lines.antt`, how spans and faults are spelled; and
//! `specs/Answer.antt`, what such a text says of the runs of a chart.
#![tactic(auto)]

mod answer;
mod lines;
mod values;

pub use answer::told_ranges;
