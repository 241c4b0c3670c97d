//! The canonical text of a chart.
//!
//! Read `specs/Canonical.antt` first: the text as a list of pieces, production by production. A
//! piece is a token or blanks (`specs/Pieces.antt`).
#![tactic(auto)]

mod chart;
mod declarations;
mod expressions;
mod kinds;
mod laws;
mod printer;
mod states;
mod transitions;
mod words;

pub use chart::print_chart;
pub use laws::places_are_not_printed;
