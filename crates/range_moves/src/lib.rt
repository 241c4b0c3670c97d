//! What leaving states, entering them and taking a firing make of sets of worlds.
//!
//! Read `specs/Moved.antt`, where work on one child of a list that passes a test leads.
#![tactic(auto)]

mod entries;
mod exits;
mod taking;

pub use entries::enter;
pub use exits::exit;
pub use taking::take;
