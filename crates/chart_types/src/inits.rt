//! The faults of first values.
ghost use Rattle.std.specs.Prelude.{◌≡◌, length};
ghost use Rattle.std.specs.List.{AllByRecursion};
ghost use Rattle.actions.specs.Data.{mantissa_in};
ghost use Rattle.actions.specs.declared.names.Sort.{Sort};
ghost use Rattle.actions.specs.declared.expr.Value.{Value};
ghost use Rattle.resolved_tree.specs.Faults.{first_with};
ghost use Rattle.resolved_tree.specs.Promise.{IsInit};
ghost use Rattle.chart_types.specs.Types as spec;

use crate::faults::with_fault;
use crate::literals::signed_literal;
use actions::{Sort, Var};
use chart_tree::{FaultAt, FormKind, InitText};
use fixed_point::{Num, Scale, exact};
use token_grammar::Span;

/// The first fault, with that of a number that isn't a value of the scale.
#[tactic(auto, unfolding(resolved_tree::specs::Faults::first_with))]
fn with_range(scale: Scale, number: Num, at: Span, found: Option<FaultAt>) -> Option<FaultAt>
    ensures { result ≡ first_with found
        (spec.out_of_type (mantissa_in (Sort.Number scale) (Value.Number number)) at) }
{
    match exact(number, scale) {
        Some(_) => found,
        None => with_fault(FormKind::InitRange, at, found),
    }
}

/// The first fault, with that of a first value of a datum of the sort.
#[tactic(auto, unfolding(resolved_tree::specs::Faults::first_with))]
fn with_init(sort: Sort, init: InitText, found: Option<FaultAt>) -> Option<FaultAt>
    requires { IsInit init }
    ensures { result ≡ first_with found (spec.init_faults sort init) }
{
    let clash = FormKind::TypeClash;
    match (sort, init) {
        (Sort::Flag, InitText::Flag { .. }) => found,
        (Sort::Flag, InitText::Number { at, .. }) => with_fault(clash, at, found),
        (Sort::Number(_), InitText::Flag { at, .. }) => with_fault(clash, at, found),
        (Sort::Number(scale), InitText::Number { negative, lit, at }) => {
            with_range(scale, signed_literal(negative, lit), at, found)
        }
    }
}

/// The first fault, with those of the first values of data.
pub(crate) fn with_inits(
    vars: &[Var],
    inits: &[InitText],
    found: Option<FaultAt>,
) -> Option<FaultAt>
    requires sized { length inits.now ≡ length vars.now }
    requires inits { AllByRecursion IsInit inits.now }
    ensures { result ≡ first_with found (spec.inits_faults vars.now inits.now) }
{
    let mut first = found;
    for i in 0..inits.len() {
        first = with_init(vars[i].sort, inits[i], first);
    }
    first
}
