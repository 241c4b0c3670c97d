//! The values of constants and enumerators, the types of enumerations, and times in steps of the clock.
//!
//! Read `specs/Values.antt` and `specs/Times.antt` of `statechart_meaning` first: each call here answers
//! what a definition there says.
#![tactic(auto)]

mod binary;
mod constants;
mod counts;
mod enumerations;
mod events;
mod firsts;
mod numbers;
mod value;

pub use constants::constant_values;
pub use counts::{Timer, literal_count, timer_of, unit_steps};
pub use enumerations::{enumeration_named, expand_sort};
pub use events::{Clock, is_event};
pub use firsts::{expand_first, path_value};
pub use numbers::{number, whole_of};
pub use value::{Value, Valued, value_named, with_sign};
