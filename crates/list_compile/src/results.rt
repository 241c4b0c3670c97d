//! What the procedures of a chart return.
//!
//! The templates have these numbers: `went_result` of `chart_code/specs/StateProcedures.antt`
//! gives `DONE` for `Stay`, and `FIRST_HOME + h` for `Out h`.

/// A search found nothing.
pub const NOTHING: u32 = 0;

/// A firing was taken whose home is reached, a search was stopped, or a state was processed and no
/// firing leads out of it. Actions, exits, entries and firings always return this.
pub const DONE: u32 = 1;

/// A search of an outer or inner list came to an empty junction.
pub const EMPTY_JUNCTION: u32 = 2;

/// A firing was taken whose home is the root. For another home it is this and the number of the
/// home.
pub const FIRST_HOME: u32 = 3;

/// A guard isn't true.
pub const GUARD_FALSE: u32 = 0;

/// A guard is true.
pub const GUARD_TRUE: u32 = 1;
