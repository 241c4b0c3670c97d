//! The operational rules of a run: what a chart does at its start and at each event.
//!
//! The rules are definitions over the chart of `checked_chart` and the world of `actions`. Read them
//! in this order: `specs/Parts.antt`, the pieces of work that there are; `specs/Searches.antt`,
//! actions, sends and the search of a list; `specs/Moves.antt`, leaving and entering states and
//! taking a firing; `specs/Processing.antt`, what an active state does; `specs/Rules.antt`, how a
//! recursion on heights closes them; `specs/Reactions.antt`, starts, reactions and runs. The public
//! calls are their laws.
//!
//! Source: Hamon and Rushby, An Operational Semantics for Stateflow, FASE 2004, for the tree, the
//! actions, the ordered lists and the outcomes of a search; Hamon, A Denotational Semantics for
//! Stateflow, EMSOFT 2005, for what follows a search; the Stateflow User's Guide for the order of
//! work in an active state, the order of entering and leaving, history, and early return. What
//! costs a step, and how long entry actions, exit actions and default searches go on, is this
//! project's choice.
#![tactic(auto)]

mod laws;

pub use laws::{
    default_finds, faults_name_declared_data, one_result, one_run, remembers_the_active_child,
    stays_consistent,
};
