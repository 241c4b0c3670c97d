//! Which events the states of a statechart count.
//!
//! Read `specs/Counting.antt` of `statechart_meaning` first: each call here answers what a definition
//! there says.
#![tactic(auto)]

mod actions;
mod counted;
mod expressions;
mod recurring;
mod statements;
mod states;
mod transitions;

pub use actions::{Moment, has_moment};
pub use counted::{Counted, add};
pub use recurring::{Recurring, recurring_of};
pub use states::counted_events;
