//! Statements and transitions of statecharts as those of the charts for which they stand.
//!
//! Read `specs/Statements.antt` and `specs/Transitions.antt` of `statechart_meaning` first: each call
//! here answers what a definition there says.
#![tactic(auto)]

mod cases;
mod statements;
mod targets;
mod transitions;

pub use statements::{expand_block, push_block};
pub use transitions::{push_list, push_on};
