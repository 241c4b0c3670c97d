//! The tree that a chart text spells, with the places of its parts.
//!
//! Read `specs/Trees.antt` first: the same trees as contracts see them.
#![tactic(auto)]

mod chart;
mod expr;
mod fault;
mod first;
mod limits;
mod name;
mod sort;
mod state;

pub use chart::{ChartText, EventText, EventWord, VarText, VarWord};
pub use expr::{BinWord, ExprText, UnWord};
pub use fault::{FormFault, FormKind};
pub use first::{FaultAt, keep};
pub use limits::CHART_TEXT_LIMIT;
pub use name::{LitText, NameText, PathText};
pub use sort::{InitText, SortText};
pub use state::{CompText, DestText, GuardText, JunctionText, StateText, StmtText, TransText};
pub use token_grammar::{Span, Thing};
