//! The first of several faults.
ghost use Rattle.std.specs.Prelude.{◌≡◌};
ghost use Rattle.chart_tree.specs.First as spec;

use crate::fault::FormKind;
use token_grammar::Span;

/// A fault: its kind and its place.
#[derive(Clone, Copy, PartialEq, Eq)]
pub struct FaultAt {
    /// What is wrong.
    pub kind: FormKind,
    /// Where.
    pub at: Span,
}

/// Whether a fault is before another one: by place, and at one place by number.
#[tactic(auto, unfolding(crate::specs::First::comes_before))]
fn is_before(a: FaultAt, b: FaultAt) -> bool
    ensures { result ≡ spec.is_before a b }
{
    let (line, column, number) = (a.at.line, a.at.column, a.kind.number());
    line < b.at.line
        || (line == b.at.line
            && (column < b.at.column || (column == b.at.column && number < b.kind.number())))
}

/// The earlier of a fault that was kept and one more.
#[tactic(auto, unfolding(crate::specs::First::kept))]
pub fn keep(first: Option<FaultAt>, one: FaultAt) -> Option<FaultAt>
    ensures { result ≡ spec.kept first one }
{
    match first {
        None => Some(one),
        Some(old) => {
            if is_before(one, old) {
                Some(one)
            } else {
                Some(old)
            }
        }
    }
}
