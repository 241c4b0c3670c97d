//! The tree that a statechart text spells, with the places of its parts.
//!
//! Read `specs/Trees.antt` first: the same trees as contracts see them. What isn't said here is as in
//! a chart text.
#![tactic(auto)]

mod declarations;
mod expr;
mod sort;
mod state;
mod statechart;
mod stmt;

pub use declarations::{
    Constant, Enumeration, Function, FunctionBody, Member, Period, SourceEvent, Unit,
};
pub use expr::{SourceExpr, TimeWord};
pub use sort::{FirstValue, SourceSort, SourceVar};
pub use state::{
    ActionWord, Case, SourceAction, SourceGuard, SourceJunction, SourceState, SourceTrans,
    StateParts, Trigger,
};
pub use statechart::Statechart;
pub use stmt::SourceStmt;
