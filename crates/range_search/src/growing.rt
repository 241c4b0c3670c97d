//! How the sets and spans of a certificate grow.
use checked_chart::Chart;
use range_rules::Around;
use range_spans::Span;
use range_worlds::{Lack, is_apart, is_within};

/// How sets grow.
#[derive(Clone, Copy)]
pub(crate) struct Growth<'a> {
    /// The chart.
    pub(crate) chart: &'a Chart,
    /// For each datum the numbers at which its span stops to grow.
    pub(crate) stops: &'a [Vec<i128>],
    /// Whether sets are kept apart where flags of the chart differ.
    pub(crate) apart: bool,
    /// Whether a span that grows does so up to the next stop.
    pub(crate) hasty: bool,
}

/// The greatest of the stops up to a number, or the number where there is none.
fn stop_below(stops: &[i128], number: i128) -> i128 {
    let mut best = None;
    for stop in stops {
        let better = match best {
            None => true,
            Some(other) => other < *stop,
        };
        if better && *stop <= number {
            best = Some(*stop);
        }
    }
    match best {
        None => number,
        Some(stop) => stop,
    }
}

/// The least of the stops from a number on, or the number where there is none.
fn stop_above(stops: &[i128], number: i128) -> i128 {
    let mut best = None;
    for stop in stops {
        let better = match best {
            None => true,
            Some(other) => *stop < other,
        };
        if better && number <= *stop {
            best = Some(*stop);
        }
    }
    match best {
        None => number,
        Some(stop) => stop,
    }
}

/// A span with all numbers of two, the second of which a datum has too.
fn grown(growth: &Growth<'_>, datum: usize, old: Span, new: Span) -> Span {
    let mut wider = old;
    if new.low < old.low {
        wider.low = new.low;
    }
    if old.high < new.high {
        wider.high = new.high;
    }
    if growth.hasty && datum < growth.stops.len() {
        if wider.low < old.low {
            wider.low = stop_below(&growth.stops[datum], wider.low);
        }
        if old.high < wider.high {
            wider.high = stop_above(&growth.stops[datum], wider.high);
        }
    }
    wider
}

/// Widens the span of a datum so that it has another one. Whether it has grown.
pub(crate) fn grow_span(
    growth: &Growth<'_>,
    spans: &mut Vec<Span>,
    datum: usize,
    by: Span,
) -> bool {
    if datum >= spans.len() || by.is_inside(spans[datum]) {
        return false;
    }
    spans[datum] = grown(growth, datum, spans[datum], by);
    true
}

/// Widens spans so that each has the one of another list at its place.
pub(crate) fn grow_spans(growth: &Growth<'_>, spans: &mut Vec<Span>, by: &[Span]) {
    for (datum, span) in by.iter().enumerate() {
        grow_span(growth, spans, datum, *span);
    }
}

/// Whether two sets are joined.
pub(crate) fn are_joined(growth: &Growth<'_>, x: &Around, y: &Around) -> bool {
    x.config.same(&y.config) && !(growth.apart && is_apart(growth.chart, &x.spans, &y.spans))
}

/// The number of the set of a list with which a set is joined.
pub(crate) fn place_of(growth: &Growth<'_>, sets: &[Around], y: &Around) -> Option<usize> {
    for i in 0..sets.len() {
        if are_joined(growth, &sets[i], y) {
            return Some(i);
        }
    }
    None
}

/// Widens the set of that number so that it has the worlds of another, with which it is joined.
/// Whether it has grown.
pub(crate) fn grow_at(
    growth: &Growth<'_>,
    sets: &mut Vec<Around>,
    place: usize,
    y: &Around,
) -> bool {
    if place >= sets.len() || is_within(&y.spans, &sets[place].spans) {
        return false;
    }
    grow_spans(growth, &mut sets[place].spans, &y.spans);
    true
}
