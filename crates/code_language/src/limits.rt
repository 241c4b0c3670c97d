//! How large code may be. States, their depth, data and events have the limits of charts.

/// The greatest number of procedures.
pub const PROC_LIMIT: usize = 262_144;

/// The greatest number of instructions of a procedure.
pub const INSTR_LIMIT: usize = 1_000_000_000;

/// The greatest height of a procedure.
pub const HEIGHT_LIMIT: u32 = 200;

/// The greatest work of a procedure.
pub const WORK_LIMIT: u64 = 10_000_000_000;
