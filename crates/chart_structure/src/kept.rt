//! The first fault, with one more that may be there.
ghost use Rattle.std.specs.Prelude.{◌≡◌};
ghost use Rattle.chart_structure.specs.Tests as tests;

use chart_tree::{FaultAt, FormKind, keep};
use token_grammar::Span;

/// The first fault, with one more where there is one.
pub fn with_fault(kind: Option<FormKind>, at: Span, first: Option<FaultAt>) -> Option<FaultAt>
    ensures { result ≡ tests.with_fault kind at first }
{
    match kind {
        None => first,
        Some(kind) => keep(first, FaultAt { kind, at }),
    }
}
