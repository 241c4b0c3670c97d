//! Statecharts, and the charts for which they stand.
//!
//! Read `specs/Expand.antt`, the chart for which a statechart stands, and before it the definitions of
//! its parts: `specs/Scope.antt`, what names mean, `specs/Times.antt`, counts and times,
//! `specs/Counting.antt`, what is counted.
#![tactic(auto)]

mod laws;

pub use laws::{a_plain_chart_stands_for_itself, joined_names_are_distinct};
