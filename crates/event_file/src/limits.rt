//! The limits of event files, and how much of one is kept at once.

/// The most bytes that a line of an event file has before its newline.
pub const LINE_LIMIT: usize = 4096;

/// The most bytes that an event file has.
pub const FILE_LIMIT: u64 = 67_108_864;

/// The most events that an event file has. It is no limit of a chart: how many events a chart may
/// declare is `EVENT_LIMIT` of `flow_base`.
pub const FILE_EVENT_LIMIT: u64 = 1_000_000;

/// How many bytes of an event file are kept at once.
pub const BUFFER_SIZE: usize = 8192;

/// The most names that are compared one by one, where a table takes longer.
pub(crate) const FEW_NAMES: usize = 8;
