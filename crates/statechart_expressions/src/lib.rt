//! Expressions of statecharts as those of the charts for which they stand.
//!
//! Read `specs/Expressions.antt` and `specs/Functions.antt` of `statechart_meaning` first: each call
//! here answers what a definition there says.
#![tactic(auto)]

mod calls;
mod counters;
mod counts;
mod expressions;
mod names;
mod places;
mod trees;

pub use calls::{Called, function_named, inside};
pub use counters::{counted_event, counted_text, test};
pub use counts::written_count;
pub use expressions::{expand_all, expand_count, expand_expr};
pub use names::{first_name, path_place};
pub use places::first_place;
pub use trees::binary;
