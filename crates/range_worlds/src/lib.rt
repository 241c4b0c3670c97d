//! What assignments, guards, tests and changes of what is active make of sets of worlds.
//!
//! Read the definitions in this order: `specs/Leads.antt`, lists of sets of worlds, and what it is
//! that work of the rules leads from some worlds to others; `specs/Inside.antt`, sets inside of
//! others; `specs/Splits.antt`, tests and changes of what is active; and `specs/Steps.antt`,
//! assignments and guards.
#![tactic(auto)]

mod configs;
mod inside;
mod setting;
mod steps;
mod worlds;

pub use configs::{Change, Test, children, is_state};
pub use inside::{has_all, is_within};
pub use setting::{Lack, Setting, use_step};
pub use steps::{Guarded, again, assign, guard};
pub use worlds::{Parted, add, changed, is_apart, split, union};
