//! The line that is next.
ghost use Rattle.std.specs.Prelude.{◌≡◌};
ghost use Rattle.net_text.specs.Reading as spec;

/// The line that is next. Counts are of what comes after it.
#[derive(Clone, Copy)]
pub enum Expected {
    /// The line that names the format.
    Version,
    /// The count of charts.
    ChartCount,
    /// A chart, and how many others follow.
    Chart(u32),
    /// The count of routes.
    RouteCount,
    /// A route, and how many others follow.
    Route(u32),
    /// The line `end`.
    End,
    /// No line.
    Nothing,
}

/// With `count` charts to come.
pub fn chart_next(count: u32) -> Expected
    ensures { result ≡ spec.chart_next count }
{
    match count.checked_sub(1) {
        None => Expected::RouteCount,
        Some(more) => Expected::Chart(more),
    }
}

/// With `count` routes to come.
pub fn route_next(count: u32) -> Expected
    ensures { result ≡ spec.route_next count }
{
    match count.checked_sub(1) {
        None => Expected::End,
        Some(more) => Expected::Route(more),
    }
}

/// Whether the line `end` was read.
pub fn has_ended(expected: Expected) -> bool
    ensures { result ≡ spec.has_ended expected }
{
    match expected {
        Expected::Nothing => true,
        Expected::Version
        | Expected::ChartCount
        | Expected::Chart(_)
        | Expected::RouteCount
        | Expected::Route(_)
        | Expected::End => false,
    }
}
