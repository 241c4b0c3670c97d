//! Tests of the functions that are called from outside: whether a number is an event, and whether
//! a run has begun.
ghost use Rattle.std.specs.Prelude.{◌≡◌, ◌≤◌, length, IfOk};
ghost use Rattle.flow_base.specs.declared.chart_limits.TheConstants.{EVENT_LIMIT};
ghost use Rattle.c_subset.specs.Lines.{expr_of};
ghost use Rattle.c_functions.specs.Events as spec;
ghost use Rattle.c_functions.specs.Starts as starts;
ghost use Rattle.c_functions.specs.Plans as plans;
ghost use Rattle.c_subset.specs.Trees as c;
ghost use Rattle.c_shape.specs.FileShapes.{shape_seen};

use actions::{EventDecl, EventKind};
use c_functions::WORD;
use c_shape::{FileShape, both_made, number};
use c_subset::{CExpr, Comparison};
use flow_base::Memory;
use std::alloc::Global;

/// Whether it is an input event.
fn is_input(kind: EventKind) -> bool
    ensures { result ≡ spec.is_input kind }
{
    match kind {
        EventKind::Input => true,
        EventKind::Local | EventKind::Output => false,
    }
}

/// How many of these events are inputs, one after another from the first one on.
fn leading_inputs(events: &[EventDecl]) -> usize
    ensures count { result ≡ spec.leading_inputs events.now }
    ensures within { result ≤ length events.now }
{
    events
        .iter()
        .take_while(|event| is_input(event.kind))
        .count()
}

/// Whether all events are inputs.
pub fn all_inputs(events: &[EventDecl]) -> bool
    ensures { result ≡ spec.all_inputs events.now }
{
    leading_inputs(events) == events.len()
}

/// How many of the first numbers are those of events that a run takes: the leading inputs, and that
/// of a tick after them where all events are inputs.
pub fn leading_events(events: &[EventDecl]) -> u32
    requires { length events.now ≤ EVENT_LIMIT }
    ensures { result ≡ spec.leading_events events.now }
{
    let leading = leading_inputs(events) as u32;
    if all_inputs(events) {
        leading + 1
    } else {
        leading
    }
}

/// What `ready` holds while a run goes on.
pub fn leading(shape: &FileShape<'_>) -> u32
    requires { length (shape_seen shape.now).names.events ≤ EVENT_LIMIT }
    ensures { result ≡ plans.leading (shape_seen shape.now) }
{
    let leading = leading_events(shape.names.events.items());
    if leading == 0 { 1 } else { leading }
}

/// The test that the event is another one.
fn is_other(alloc: Global, event: u32) -> Result<CExpr, Memory>
    ensures { IfOk result (λ test. expr_of test ≡ starts.is_other_c event) }
{
    CExpr::compare(
        alloc,
        Comparison::IsUnequal,
        CExpr::Local(WORD, 0),
        number(event),
    )
}

/// A test, and that the event is another one.
fn and_other(alloc: Global, test: CExpr, event: u32) -> Result<CExpr, Memory>
    ensures { IfOk result (λ made. expr_of made
        ≡ c.Both (expr_of test) (starts.is_other_c event)) }
{
    let (test, other) = both_made(Ok(test), is_other(alloc, event))?;
    CExpr::both(alloc, test, other)
}

/// A test, and that the event is none of the inputs from a number on.
fn and_no_input(
    alloc: Global,
    test: CExpr,
    events: &[EventDecl],
    first: usize,
) -> Result<CExpr, Memory>
    requires { length events.now ≤ EVENT_LIMIT }
    ensures { IfOk result (λ made. expr_of made
        ≡ starts.and_none_c (expr_of test) (spec.inputs_from first 0 events.now)) }
{
    let mut made = test;
    for (number, event) in events.iter().enumerate() {
        if is_input(event.kind) && first <= number {
            made = and_other(alloc, made, number as u32)?;
        }
    }
    Ok(made)
}

/// The test that the event is neither a tick nor an input after the leading ones.
pub fn is_unknown(alloc: Global, shape: &FileShape<'_>) -> Result<CExpr, Memory>
    requires { length (shape_seen shape.now).names.events ≤ EVENT_LIMIT }
    ensures { IfOk result (λ test. expr_of test ≡ starts.is_unknown_c (shape_seen shape.now)) }
{
    let events = shape.names.events.items();
    let test = is_other(alloc, events.len() as u32)?;
    and_no_input(alloc, test, events, leading_inputs(events))
}

/// The test that a field isn't 0.
fn is_set(alloc: Global, field: u32) -> Result<CExpr, Memory>
    ensures { IfOk result (λ test. expr_of test ≡ starts.is_set_c field) }
{
    CExpr::compare(alloc, Comparison::IsUnequal, CExpr::Field(field), number(0))
}

/// The test that a run goes on or has ended.
pub fn is_begun(alloc: Global, shape: &FileShape<'_>) -> Result<CExpr, Memory>
    ensures { IfOk result (λ test. expr_of test ≡ starts.is_begun_c (shape_seen shape.now)) }
{
    let goes_on = is_set(alloc, shape.ready_field());
    let ended = is_set(alloc, shape.fault_field());
    let (goes_on, ended) = both_made(goes_on, ended)?;
    CExpr::either(alloc, goes_on, ended)
}
