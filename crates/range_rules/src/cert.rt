//! Certificates of the ranges of a chart.
use range_spans::{Config, Span};

/// A set of worlds: what is active and remembered, and a span for each datum.
#[derive(Drop)]
pub struct Around {
    /// What is active and remembered.
    pub config: Config,
    /// The span of each datum.
    pub spans: Vec<Span>,
}

/// Where the processing of a state for a sent event may end, from some worlds.
#[derive(Drop)]
pub struct Cell {
    /// The state that is processed.
    pub state: u32,
    /// The event that was sent.
    pub event: u32,
    /// The worlds from which it is processed.
    pub from: Around,
    /// Sets with all worlds in which it ends without a fault.
    pub ends: Vec<Around>,
}

/// A certificate of a chart: which worlds there may be, and which faults.
#[derive(Drop)]
pub struct Certificate {
    /// The span in which each datum is at each moment.
    pub always: Vec<Span>,
    /// Whether there may be a divisor of 0.
    pub zero: bool,
    /// For each datum whether it may overflow.
    pub over: Vec<bool>,
    /// Sets with all worlds between two events.
    pub rest: Vec<Around>,
    /// What the processing of sent events may lead to.
    pub cells: Vec<Cell>,
}
