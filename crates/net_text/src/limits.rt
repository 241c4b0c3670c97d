//! The limits of a net text.

/// The most bytes of a net text that is read.
pub const NET_TEXT_LIMIT: usize = 65_536;

/// The most charts of a net.
pub const CHART_LIMIT: u32 = 16;

/// The most routes of a net.
pub const ROUTE_LIMIT: u32 = 64;

/// The most items that a route holds.
pub const CAP_LIMIT: u32 = 1024;

/// The most bytes of the name of a chart's file.
pub const FILE_NAME_LIMIT: usize = 255;
