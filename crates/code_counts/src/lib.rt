//! How much an event of code can take at most, whatever the bounds of its run: steps, outputs,
//! nested sends and notes that are pending; and the bounds and the room that it needs.
//!
//! Read `specs/Certificate.antt`, the numbers at places and what is asked of them place by place;
//! `specs/Claims.antt`, what they say of all runs; and `specs/Needed.antt`, what it says of bounds
//! that they may take the place of others.
#![tactic(auto)]

mod checking;
mod counting;
mod finding;
mod laws;
mod needed;
mod numbers;
mod parts;
mod search_limits;

pub use counting::{counts, most};
pub use laws::{
    a_certificate_bounds_all_events, bounds_that_no_event_passes_have_the_same_runs,
    counts_hold_where_events_end,
};
pub use needed::limits_of;
pub use numbers::{Counted, Counts, Limits};
pub use search_limits::COUNT_LIMIT;
