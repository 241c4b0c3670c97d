//! Runs a chart by the operational rules.
//!
//! `Rules` is an engine whose starts and reactions are those of `sos_rules`. Read
//! `specs/Engine.antt` first. Each rule of `sos_rules` has a function: for actions and sends in
//! `src/blocks.rt`, for searches in `src/searches.rt`, for leaving states in `src/exits.rt`, for
//! entering them in `src/entries.rt` and `src/defaults.rt`, for firings in `src/firings.rt`, and
//! for processing in `src/processing.rt`. Each takes a `Setting`, what stays the same while a chart
//! runs, and the world. The search of a list is a loop with a stack of lists to go back to, and
//! nothing recurs deeper than the tree and the depth of broadcasts allow.
#![tactic(auto)]

mod blocks;
mod defaults;
mod engine;
mod entries;
mod exits;
mod firings;
mod processing;
mod reactions;
mod searches;
mod setting;
mod world;

pub use engine::Rules;
