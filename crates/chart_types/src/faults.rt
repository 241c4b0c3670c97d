//! One fault more.
ghost use Rattle.std.specs.Prelude.{◌≡◌};
ghost use Rattle.chart_tree.specs.First.{at_place, kept};

use chart_tree::{FaultAt, FormKind, keep};
use token_grammar::Span;

/// The first fault, with one of that kind at that place.
pub(crate) fn with_fault(kind: FormKind, at: Span, found: Option<FaultAt>) -> Option<FaultAt>
    ensures { result ≡ kept found (at_place kind at) }
{
    keep(found, FaultAt { kind, at })
}
