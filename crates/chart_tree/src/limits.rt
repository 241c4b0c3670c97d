//! How long a chart text may be.

/// The greatest number of bytes in a chart text.
///
/// Source: this project's choice.
pub const CHART_TEXT_LIMIT: usize = 1_048_576;
