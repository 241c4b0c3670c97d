//! The states and junctions of a chart text by number, and what each name means where it stands.
//!
//! `Scopes` is made once of a chart text; its look-ups take no memory, and each costs a few steps
//! for each state above. Read `specs/Placed.antt`, how states and junctions are numbered, and
//! `specs/Scopes.antt`, what a name means.
#![tactic(auto)]

mod entries;
mod junctions;
mod scopes;
mod states;
mod table;
mod tree;

pub use junctions::{OwnedJunction, junctions_of};
pub use scopes::{Meaning, Scopes};
pub use states::{PlacedState, survey};
pub use tree::shape_of;
