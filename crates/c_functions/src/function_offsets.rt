//! Where the functions of a file stand after those of procedures, of which each has one.
//!
//! Definitions, code and proofs cite these constants. The first one tells whether a state is
//! active.

/// The function that tells whether a state is active and none of its children is.
pub const BARE_OFFSET: u32 = 1;

/// The function that calls noted procedures.
pub const NOTED_OFFSET: u32 = 2;

/// The first of the functions for quotients: each width of numbers has one, in ascending order.
pub const QUOTIENTS_OFFSET: u32 = 3;

/// The function that stores the first values.
pub const INIT_OFFSET: u32 = 8;

/// The function of the start.
pub const START_OFFSET: u32 = 9;

/// The function of a reaction.
pub const REACT_OFFSET: u32 = 10;

/// How many functions there are besides those of procedures.
pub const OTHER_FUNCTIONS: u32 = 11;
