//! Compiles the procedures of the states of a chart.
//!
//! Each call says what it appends, in the words of `chart_code`.
#![tactic(auto)]

mod children;
mod entries;
mod exits;
mod firings;
mod groups;
mod pairs;
mod processes;
mod regions;
mod whole_chart;

pub use whole_chart::procedures;
