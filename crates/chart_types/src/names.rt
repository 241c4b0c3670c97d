//! The faults of what is assigned, sent, emitted and waited for.
ghost use Rattle.std.specs.Prelude.{◌≡◌, slice_get};
ghost use Rattle.actions.specs.Names.{names_of};
ghost use Rattle.resolved_tree.specs.Faults.{first_with};
ghost use Rattle.chart_types.specs.Types as spec;

use crate::faults::with_fault;
use crate::operators::kind_of;
use actions::{EventKind, ExprFault, ExprSort, Names, Sort, VarKind, assignment_fault};
use chart_tree::{FaultAt, FormKind};
use resolved_tree::Ref;
use token_grammar::Span;

/// The first fault, with that of an assignment to an input.
#[tactic(auto, unfolding(resolved_tree::specs::Faults::first_with))]
fn with_input(kind: VarKind, at: Span, found: Option<FaultAt>) -> Option<FaultAt>
    ensures { result ≡ first_with found (spec.to_input kind at) }
{
    match kind {
        VarKind::Input => with_fault(FormKind::AssignsInput, at, found),
        VarKind::Output | VarKind::Local => found,
    }
}

/// The first fault, with that of a value that a datum of the sort can't take.
#[tactic(auto, unfolding(resolved_tree::specs::Faults::first_with))]
fn with_unfit(
    sort: Sort,
    given: Result<ExprSort, ExprFault>,
    at: Span,
    found: Option<FaultAt>,
) -> Option<FaultAt>
    ensures { result ≡ first_with found (spec.unfit_value sort given at) }
{
    let Ok(given) = given else {
        return found;
    };
    match assignment_fault(sort, given) {
        None => found,
        Some(fault) => with_fault(kind_of(fault), at, found),
    }
}

/// The first fault, with those of an assignment of a value of that sort.
#[tactic(auto, using(crate::proofs::FaultLemmas::steps), unfolding(resolved_tree::specs::Faults::first_with))]
pub(crate) fn with_assignment(
    names: &Names,
    datum: Ref,
    given: Result<ExprSort, ExprFault>,
    found: Option<FaultAt>,
) -> Option<FaultAt>
    ensures { result ≡ first_with found
        (spec.assignment_faults (slice_get (names_of names.now).vars datum.number) given datum.at) }
{
    match names.vars.items().get(datum.number as usize) {
        None => found,
        Some(var) => {
            let found = with_input(var.kind, datum.at, found);
            with_unfit(var.sort, given, datum.at, found)
        }
    }
}

/// The first fault, with that of an event that is sent and isn't local.
#[tactic(auto, unfolding(resolved_tree::specs::Faults::first_with))]
pub(crate) fn with_sent(names: &Names, event: Ref, found: Option<FaultAt>) -> Option<FaultAt>
    ensures { result ≡ first_with found
        (spec.unless_local (slice_get (names_of names.now).events event.number) event.at) }
{
    match names.events.items().get(event.number as usize) {
        None => found,
        Some(decl) => match decl.kind {
            EventKind::Local => found,
            EventKind::Input | EventKind::Output => with_fault(
                FormKind::EventKind,
                event.at,
                found,
            ),
        },
    }
}

/// The first fault, with that of an event that is emitted and isn't an output event.
#[tactic(auto, unfolding(resolved_tree::specs::Faults::first_with))]
pub(crate) fn with_emitted(names: &Names, event: Ref, found: Option<FaultAt>) -> Option<FaultAt>
    ensures { result ≡ first_with found
        (spec.unless_output (slice_get (names_of names.now).events event.number) event.at) }
{
    match names.events.items().get(event.number as usize) {
        None => found,
        Some(decl) => match decl.kind {
            EventKind::Output => found,
            EventKind::Input | EventKind::Local => with_fault(FormKind::EventKind, event.at, found),
        },
    }
}

/// The first fault, with that of a trigger that is an output event.
#[tactic(auto, unfolding(resolved_tree::specs::Faults::first_with))]
pub(crate) fn with_trigger(names: &Names, event: Ref, found: Option<FaultAt>) -> Option<FaultAt>
    ensures { result ≡ first_with found
        (spec.if_output (slice_get (names_of names.now).events event.number) event.at) }
{
    match names.events.items().get(event.number as usize) {
        None => found,
        Some(decl) => match decl.kind {
            EventKind::Output => with_fault(FormKind::EventKind, event.at, found),
            EventKind::Input | EventKind::Local => found,
        },
    }
}
