//! What is known of expressions, guards and assignments where each datum is in a span.
//!
//! Read the definitions in this order: `specs/Spans.antt`, spans of whole numbers;
//! `specs/Known.antt`, what is known of the value of an expression; `specs/Narrow.antt`, what a
//! guard leaves of spans; `specs/Boxes.antt`, what a datum keeps of a value, and inputs; and
//! `specs/Sorts.antt`, all values of a sort. The laws say that nothing is missed. Where a number of
//! the code would be too great, nothing is said.
#![tactic(auto)]

mod boxes;
mod config;
mod declared;
mod guessing;
mod kept;
mod known;
mod laws;
mod span;

pub use boxes::{copied, join, look, narrow, put};
pub use config::Config;
pub use declared::{Declared, Gap};
pub use guessing::guess;
pub use kept::{Kept, all_of, kept_at, may_be, point};
pub use known::{Guess, Known};
pub use laws::{
    a_guard_leaves_the_data, a_guess_tells_the_value, an_assignment_stays_in_its_span,
    inputs_stay_in_their_spans,
};
pub use span::Span;
