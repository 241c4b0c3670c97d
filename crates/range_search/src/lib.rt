//! The search for a certificate of ranges.
//!
//! What it finds is closed, since `is_closed` of `range_check` is asked. That it finds one isn't
//! claimed.
#![tactic(auto)]

mod growing;
mod literals;
mod search;

pub use search::{Limits, find};
