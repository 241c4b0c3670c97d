//! Results that are joined and places that are counted, as the search does it. No answer depends
//! on it.
use crate::plan::Results;
use crate::results::may_be;

/// The results with one more.
pub(crate) fn with(results: Results, value: u32) -> Results {
    if may_be(results, value) {
        return results;
    }
    match results {
        Results::Any => Results::Any,
        Results::Nothing => Results::OneOf(value, value, value, value),
        Results::OneOf(a, b, c, d) => {
            if a == b {
                Results::OneOf(a, value, value, value)
            } else if b == c {
                Results::OneOf(a, b, value, value)
            } else if c == d {
                Results::OneOf(a, b, c, value)
            } else {
                Results::Any
            }
        }
    }
}

/// All of both.
pub(crate) fn joined(first: Results, second: Results) -> Results {
    match second {
        Results::Any => Results::Any,
        Results::Nothing => first,
        Results::OneOf(a, b, c, d) => with(with(with(with(first, a), b), c), d),
    }
}

/// The results with one more, unless it is the one that is left out.
fn with_unless(results: Results, value: u32, left_out: u32) -> Results {
    if value == left_out {
        results
    } else {
        with(results, value)
    }
}

/// The results but for one.
pub(crate) fn without(results: Results, value: u32) -> Results {
    match results {
        Results::Any => Results::Any,
        Results::Nothing => Results::Nothing,
        Results::OneOf(a, b, c, d) => {
            let two = with_unless(with_unless(Results::Nothing, a, value), b, value);
            with_unless(with_unless(two, c, value), d, value)
        }
    }
}

/// The place past so many more after a place; past the greatest number the greatest one, where no
/// place is.
pub(crate) fn past(place: usize, over: u32) -> usize {
    place.saturating_add(1).saturating_add(over as usize)
}
