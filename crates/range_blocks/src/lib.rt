//! What actions and lists of transitions make of sets of worlds.
//!
//! Read the definitions in this order: `specs/Ends.antt`, where pieces of work may end; and
//! `specs/Cells.antt`, what the cells of a certificate say of an event that is sent.
#![tactic(auto)]

mod blocks;
mod life;
mod searches;
mod sends;

pub use blocks::{Ran, block, play};
pub use life::Life;
pub use searches::{Firing, Searched, one_less, search};
