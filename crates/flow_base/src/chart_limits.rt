//! How large a chart may be, in its text and as a checked chart.
//!
//! Definitions, code and proofs cite these constants.

/// The greatest number of states, counting the root.
///
/// Source: this project's choice.
pub const STATE_LIMIT: u32 = 1_024;

/// The greatest depth of a state. The children of the root have depth 1.
///
/// Source: this project's choice.
pub const STATE_DEPTH_LIMIT: u32 = 16;

/// The greatest number of junctions.
///
/// Source: this project's choice.
pub const JUNCTION_LIMIT: u32 = 4_096;

/// The greatest number of transitions, those of states and those of junctions together.
///
/// Source: this project's choice.
pub const TRANSITION_LIMIT: u32 = 8_192;

/// The greatest number of data.
///
/// Source: this project's choice.
pub const VARIABLE_LIMIT: u32 = 1_024;

/// The greatest number of events that a chart declares.
///
/// Source: this project's choice.
pub const EVENT_LIMIT: u32 = 1_024;

/// The greatest number of statements of one block, an action of a state or of a transition.
///
/// Source: this project's choice.
pub const STATEMENT_LIMIT: u32 = 256;

/// The greatest number of operators of one expression. In a text its opening parentheses count as
/// operators, but not that of `in`.
///
/// Source: this project's choice.
pub const OPERATOR_LIMIT: u32 = 64;

/// The greatest number of states, counting the root, and of junctions, transitions, statements,
/// data and events together.
///
/// Source: this project's choice.
pub const ITEM_LIMIT: u32 = 20_000;
