//! A valid chart: its tree of states, what it declares, what each state does, and its junctions.
//!
//! `Chart` is the type on which the rules and the engine that runs them stand: a value of it is
//! valid, so neither tests anything of a chart again. Read `specs/Chart.antt` first, what a chart
//! is, then `specs/Homes.antt`, how states are related, `specs/Reached.antt`, which junctions a
//! list reaches, and `specs/Valid.antt`, what a valid chart is.
#![tactic(auto)]

mod chart;
mod homes;
pub mod limits;
mod parts;

pub use chart::Chart;
pub use homes::outer_home;
pub use parts::{BlockKind, Dest, ListKind, StateParts, Trans};
