//! What stays the same while spans are worked out, and why nothing is said.
use actions::Names;
use std::alloc::Global;

/// Why nothing is said of a value, of spans or of a chart.
#[derive(Clone, Copy, Debug, PartialEq, Eq)]
pub enum Gap {
    /// There is no more memory.
    Memory,
    /// A number on the way doesn't fit 128 bits with a sign, or a datum isn't declared or has no
    /// span.
    Unknown,
}

/// Where memory comes from, and what a chart declares: the sort and the mode of each datum, by its
/// number.
#[derive(Clone, Copy)]
pub struct Declared<'a> {
    /// Where memory comes from.
    pub alloc: Global,
    /// What the chart declares.
    pub names: &'a Names,
}
