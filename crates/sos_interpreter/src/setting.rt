//! What stays the same while a chart runs.
use checked_chart::Chart;
use flow_base::Bounds;
use std::alloc::Global;

/// What stays the same while a chart runs.
#[derive(Clone, Copy)]
pub(crate) struct Setting<'a> {
    /// Where memory comes from.
    pub(crate) alloc: Global,
    /// The chart.
    pub(crate) chart: &'a Chart,
    /// The bounds of each event.
    pub(crate) bounds: Bounds,
}
