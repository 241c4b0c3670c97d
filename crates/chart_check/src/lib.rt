//! Checks a resolved chart: its types, its structure and the number of its pairs. What has no fault
//! stands for a valid chart, and its pairs are counted.
//!
//! Read `specs/Nets.antt`, the net of a resolved chart, and `specs/Check.antt`: which charts are
//! accepted, and which fault of another one is the first.
#![tactic(auto)]

mod expressions;
mod fault_laws;
mod inits;
mod parts;
mod pass;
mod resolved_net;
mod validity_laws;

pub use fault_laws::{a_chart_has_one_first_fault, a_chart_is_sound_or_has_a_first_fault};
pub use pass::{Checked, check};
pub use validity_laws::{faultless_charts_are_valid, valid_charts_have_no_faults};
