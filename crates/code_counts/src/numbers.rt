//! What is counted, and the numbers that bound it.

use flow_base::Bounds;

/// What is counted of an event.
///
/// Source: this project's choice.
#[derive(Clone, Copy)]
pub enum Counted {
    /// The steps that are paid.
    Steps,
    /// The events that are emitted.
    Outputs,
    /// How deep sends are nested.
    Depth,
    /// How many notes are pending at once.
    Notes,
}

/// How much an event can take at most, for the start and for all reactions.
///
/// Source: this project's choice.
#[derive(Clone, Copy)]
pub struct Counts {
    /// The steps that are paid.
    pub steps: u32,
    /// The events that are emitted.
    pub outputs: u32,
    /// How deep sends are nested.
    pub depth: u32,
    /// How many notes are pending at once.
    pub notes: u32,
}

/// The bounds that the events of code need, which of them a run has to test, and how much room its
/// outputs take.
///
/// Source: this project's choice.
#[derive(Clone, Copy)]
pub struct Limits {
    /// The bounds of a run, no greater than those that were given.
    pub bounds: Bounds,
    /// Whether an event may want more steps, so that a run has to test them.
    pub tests_steps: bool,
    /// Whether an event may be sent deeper, so that a run has to test the depth.
    pub tests_depth: bool,
    /// How many events an event emits at most: 1 to the steps of `bounds`.
    pub outputs: u32,
}

/// The numbers at a place of code.
///
/// Source: this project's choice.
#[derive(Clone, Copy)]
pub(crate) struct Mark {
    /// How much comes at most from here until the procedure returns.
    pub left: u32,
    /// How much the notes bring at most that may be run here.
    pub owed: u32,
}
