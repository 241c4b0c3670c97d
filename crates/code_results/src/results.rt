//! Results that may be at a place.
ghost use Rattle.std.specs.Prelude.{◌≡◌, ◌==◌, ℕ, IsTrue, true, false};
ghost use Rattle.code_results.specs.Views.{results_of};
ghost use Rattle.code_results.specs.Results as spec;

use crate::plan::Results;

/// Whether the last result may be this one.
pub(crate) fn may_be(results: Results, value: u32) -> bool
    ensures { result ≡ spec.may_be (results_of results) value }
{
    match results {
        Results::Any => true,
        Results::Nothing => false,
        Results::OneOf(a, b, c, d) => a == value || b == value || c == value || d == value,
    }
}

/// The one result that the last one may be, if there is just one.
pub(crate) fn only(results: Results) -> Option<u32>
    ensures { result ≡ spec.only (results_of results) }
{
    match results {
        Results::Any | Results::Nothing => None,
        Results::OneOf(a, b, c, d) => {
            if b == a && c == a && d == a {
                Some(a)
            } else {
                None
            }
        }
    }
}

/// Whether the last result is this one, where that is known.
pub(crate) fn told(results: Results, value: u32) -> Option<bool>
    ensures { result ≡ spec.told (results_of results) value }
{
    if may_be(results, value) {
        match only(results) {
            Some(_) => Some(true),
            None => None,
        }
    } else {
        Some(false)
    }
}

/// Whether any result may be there.
pub(crate) fn is_any(results: Results) -> bool
    ensures { IsTrue result → results ≡ Results.Any }
{
    match results {
        Results::Any => true,
        Results::Nothing | Results::OneOf(_, _, _, _) => false,
    }
}

/// Whether each of the first results may be one of the second ones.
pub(crate) fn all_among(first: Results, second: Results) -> bool
    ensures { IsTrue result → (r : ℕ) → spec.may_be (results_of first) r ≡ true
        → spec.may_be (results_of second) r ≡ true }
{
    match first {
        Results::Any => is_any(second),
        Results::Nothing => true,
        Results::OneOf(a, b, c, d) => {
            may_be(second, a) && may_be(second, b) && may_be(second, c) && may_be(second, d)
        }
    }
}

/// Whether this result, if it is one of the first results, may be one of the second ones.
pub(crate) fn one_among(first: Results, value: u32, second: Results) -> bool
    ensures { IsTrue result → spec.may_be (results_of first) value ≡ true
        → spec.may_be (results_of second) value ≡ true }
{
    !may_be(first, value) || may_be(second, value)
}

/// Whether each of the first results but for this one may be one of the second ones.
pub(crate) fn others_among(first: Results, value: u32, second: Results) -> bool
    ensures { IsTrue result → (r : ℕ) → spec.may_be (results_of first) r ≡ true
        → (r == value) ≡ false → spec.may_be (results_of second) r ≡ true }
{
    match first {
        Results::Any => is_any(second),
        Results::Nothing => true,
        Results::OneOf(a, b, c, d) => {
            (a == value || may_be(second, a))
                && (b == value || may_be(second, b))
                && (c == value || may_be(second, c))
                && (d == value || may_be(second, d))
        }
    }
}
