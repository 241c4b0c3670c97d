//! The functions that are called from outside: that of the first values, the start and a reaction.
ghost use Rattle.std.specs.Prelude.{◌≡◌, ◌≤◌, ◌<◌, ◌+◌, ◌^◌, ◌++◌, length, map, replicate};
ghost use Rattle.std.specs.Prelude.{IfOk, OnOk, true, false};
ghost use Rattle.flow_base.specs.Lists.{items_of};
ghost use Rattle.actions.specs.declared.event.Event.TheVariants as events;
ghost use Rattle.c_subset.specs.Lines.{Appends, IsFunction, expr_of, lines_in, lines_of};
ghost use Rattle.c_subset.specs.Trees as c;
ghost use Rattle.c_functions.specs.Plans as spec;
ghost use Rattle.c_functions.specs.Starts as starts;
ghost use Rattle.c_shape.specs.FileShapes.{shape_seen};
ghost use Rattle.c_writer.specs.Starting.{nothing_of, refused_where, value_of};
ghost use Rattle.flow_base.specs.declared.chart_limits.TheConstants.{EVENT_LIMIT, VARIABLE_LIMIT};

use crate::calls::five;
use crate::helpers::one_word;
use crate::pieces::{local, put_return, put_store};
use actions::Var;
use c_expression_writer::{
    BAD, NO_EVENT, all_inputs, is_begun, is_unknown, leading, leading_events, put, tell_fault,
};
use c_functions::{WORD, field_type};
use c_shape::{FileShape, number};
use c_subset::{CExpr, CType, Comparison, Function, Line, Width};
use flow_base::{List, Memory};
use std::alloc::Global;

// ---- the fields

/// Appends that each datum has its first value.
#[tactic(auto, unfolding(c_subset::specs::Lines::lines_of))]
fn put_data(lines: &mut List<Line>, vars: &[Var]) -> Result<(), Memory>
    requires { length vars.now ≤ VARIABLE_LIMIT }
    ensures { OnOk result (Appends (items_of lines.old) (items_of lines.new)
        (starts.store_all 0 (map value_of vars.now))) }
{
    for (place, var) in vars.iter().enumerate() {
        let value = CExpr::Const(field_type(var.sort), var.init);
        put(lines, Line::Store(place as u32, value))?;
    }
    Ok(())
}

/// Appends that so many fields from a number on are 0.
fn put_zeros(lines: &mut List<Line>, first: u32, count: u32, kind: CType) -> Result<(), Memory>
    requires { first + count < 2 ^ 32 }
    ensures { OnOk result (Appends (items_of lines.old) (items_of lines.new)
        (starts.store_all first (replicate count (nothing_of kind)))) }
{
    for place in 0..count {
        put_store(lines, first + place, CExpr::Const(kind, 0))?;
    }
    Ok(())
}

/// Appends that each field has its first value.
fn put_fields(shape: &FileShape<'_>, lines: &mut List<Line>) -> Result<(), Memory>
    ensures { OnOk result (Appends (items_of lines.old) (items_of lines.new)
        (starts.store_all 0 (starts.first_values (shape_seen shape.now)))) }
{
    let ors = shape.ors();
    let states = shape.tree.len();
    let vars = shape.names.vars.items();
    let used = shape.used_field();
    let after = used + 6;
    put_data(lines, vars)?;
    put_zeros(lines, used, 6, WORD)?;
    put_zeros(lines, after, ors + ors, CType::Unsigned(Width::W16))?;
    put_zeros(lines, after + ors + ors, (states + 31) / 32, WORD)
}

// ---- the calls

/// Appends a call of a procedure for an event, which returns whether there was no fault.
#[tactic(auto, unfolding(c_subset::specs::Lines::lines_of))]
fn put_outside(
    alloc: Global,
    lines: &mut List<Line>,
    procedure: u32,
    event: CExpr,
) -> Result<(), Memory>
    ensures { OnOk result (lines_in (items_of lines.new) ≡ lines_in (items_of lines.old)
        ++ lines_of (starts.outside_c procedure (expr_of event))) }
{
    let arguments = five(alloc, event, number(0), number(0), number(0), number(0))?;
    put(lines, Line::Call(WORD, 4, procedure, arguments))?;
    let fine = CExpr::compare(alloc, Comparison::IsUnequal, local(4), number(BAD))?;
    put_return(lines, fine)
}

/// Appends that no step is used: nothing where steps aren't counted.
fn put_clear_used(shape: &FileShape<'_>, lines: &mut List<Line>) -> Result<(), Memory>
    ensures { OnOk result (Appends (items_of lines.old) (items_of lines.new)
        (starts.clear_used_c (shape_seen shape.now))) }
{
    if shape.tests.steps {
        put_store(lines, shape.used_field(), number(0))
    } else {
        Ok(())
    }
}

/// Appends that no step is used, nothing is emitted and there are no notes.
fn put_clear_counts(shape: &FileShape<'_>, lines: &mut List<Line>) -> Result<(), Memory>
    ensures { OnOk result (Appends (items_of lines.old) (items_of lines.new)
        (starts.clear_counts_c (shape_seen shape.now))) }
{
    put_clear_used(shape, lines)?;
    put_store(lines, shape.outs_field(), number(0))?;
    put_store(lines, shape.noted_field(), number(0))
}

// ---- refusals

/// Appends that this is returned.
#[tactic(auto, unfolding(c_subset::specs::Lines::lines_of))]
fn put_answer(lines: &mut List<Line>, answer: bool) -> Result<(), Memory>
    ensures { OnOk result (lines_in (items_of lines.new) ≡ lines_in (items_of lines.old)
        ++ lines_of (starts.answer_c answer)) }
{
    put_return(lines, CExpr::Const(CType::Truth, i128::from(answer)))
}

/// Appends that false is returned where a test holds.
#[tactic(auto, unfolding(c_subset::specs::Lines::lines_of))]
fn put_refused(lines: &mut List<Line>, test: CExpr) -> Result<(), Memory>
    ensures { OnOk result (Appends (items_of lines.old) (items_of lines.new)
        (refused_where (expr_of test))) }
{
    put(lines, Line::If(test))?;
    put_answer(lines, false)?;
    put(lines, Line::Close)
}

/// Appends that no event is taken where no run goes on.
fn put_not_running(
    alloc: Global,
    shape: &FileShape<'_>,
    lines: &mut List<Line>,
) -> Result<(), Memory>
    ensures { OnOk result (Appends (items_of lines.old) (items_of lines.new)
        (starts.not_running_c (shape_seen shape.now))) }
{
    let ready = CExpr::Field(shape.ready_field());
    let over = CExpr::compare(alloc, Comparison::IsEqual, ready, number(0))?;
    put_refused(lines, over)
}

/// Appends that the run is ended by a number that is no event.
fn put_no_event(shape: &FileShape<'_>, lines: &mut List<Line>) -> Result<(), Memory>
    ensures { OnOk result (lines_in (items_of lines.new) ≡ lines_in (items_of lines.old)
        ++ lines_of (starts.no_event_c (shape_seen shape.now))) }
{
    tell_fault(shape, lines, NO_EVENT, 0)?;
    put_answer(lines, false)
}

/// Appends that a number that is no event ends the run, where it is tested.
#[tactic(auto, unfolding(c_subset::specs::Lines::lines_of))]
fn put_unknown(alloc: Global, shape: &FileShape<'_>, lines: &mut List<Line>) -> Result<(), Memory>
    requires { length (shape_seen shape.now).names.events ≤ EVENT_LIMIT }
    ensures { OnOk result (Appends (items_of lines.old) (items_of lines.new)
        (c.If (starts.is_unknown_c (shape_seen shape.now))
        (starts.no_event_c (shape_seen shape.now)) c.End)) }
{
    let unknown = is_unknown(alloc, shape)?;
    put(lines, Line::If(unknown))?;
    put_no_event(shape, lines)?;
    put(lines, Line::Close)
}

/// Appends what a reaction refuses of an event that may be none.
fn put_refusals(alloc: Global, shape: &FileShape<'_>, lines: &mut List<Line>) -> Result<(), Memory>
    requires { length (shape_seen shape.now).names.events ≤ EVENT_LIMIT }
    ensures { OnOk result (Appends (items_of lines.old) (items_of lines.new)
        (starts.refusals_c (shape_seen shape.now))) }
{
    put_not_running(alloc, shape, lines)?;
    put_unknown(alloc, shape, lines)
}

/// Appends what it refuses of one that isn't below `ready`: where all events are inputs, all.
fn put_late_refusals(
    alloc: Global,
    shape: &FileShape<'_>,
    lines: &mut List<Line>,
) -> Result<(), Memory>
    requires { length (shape_seen shape.now).names.events ≤ EVENT_LIMIT }
    ensures { OnOk result (lines_in (items_of lines.new) ≡ lines_in (items_of lines.old)
        ++ lines_of (starts.late_refusals_c (shape_seen shape.now))) }
{
    if all_inputs(shape.names.events.items()) {
        put_not_running(alloc, shape, lines)?;
        put_no_event(shape, lines)
    } else {
        put_refusals(alloc, shape, lines)
    }
}

/// Appends what a reaction refuses: where events lead, one below `ready` passes by the tests.
#[tactic(auto, unfolding(c_subset::specs::Lines::lines_of))]
fn put_refuse(alloc: Global, shape: &FileShape<'_>, lines: &mut List<Line>) -> Result<(), Memory>
    requires { length (shape_seen shape.now).names.events ≤ EVENT_LIMIT }
    ensures { OnOk result (Appends (items_of lines.old) (items_of lines.new)
        (starts.refuse_c (shape_seen shape.now))) }
{
    if leading_events(shape.names.events.items()) == 0 {
        return put_refusals(alloc, shape, lines);
    }
    let ready = CExpr::Field(shape.ready_field());
    let late = CExpr::compare(alloc, Comparison::IsAtLeast, local(0), ready)?;
    put(lines, Line::If(late))?;
    put_late_refusals(alloc, shape, lines)?;
    put(lines, Line::Close)
}

// ---- the functions

/// The number of the event of the start.
fn start_event(shape: &FileShape<'_>) -> u32
    requires { length (shape_seen shape.now).names.events ≤ EVENT_LIMIT }
    ensures { result ≡ spec.event_number (shape_seen shape.now).names
        events.Start }
{
    shape.names.events.items().len() as u32 + 1
}

/// The function that stores the first values.
pub fn init_function(alloc: Global, shape: &FileShape<'_>) -> Result<Function, Memory>
    ensures { IfOk result (λ function.
        IsFunction function (starts.init_c (shape_seen shape.now))) }
{
    let mut lines = List::of(Vec::new(alloc));
    put_fields(shape, &mut lines)?;
    put_answer(&mut lines, true)?;
    Ok(Function {
        result: CType::Truth,
        parameters: List::of(Vec::new(alloc)),
        lines,
    })
}

/// The function of the start, where `start` is its procedure.
pub fn start_function(alloc: Global, shape: &FileShape<'_>, start: u32) -> Result<Function, Memory>
    requires { length (shape_seen shape.now).names.events ≤ EVENT_LIMIT }
    ensures { IfOk result (λ function.
        IsFunction function (starts.start_c (shape_seen shape.now) start)) }
{
    let mut lines = List::of(Vec::new(alloc));
    let begun = is_begun(alloc, shape)?;
    put_refused(&mut lines, begun)?;
    put_store(&mut lines, shape.ready_field(), number(leading(shape)))?;
    put_outside(alloc, &mut lines, start, number(start_event(shape)))?;
    Ok(Function {
        result: CType::Truth,
        parameters: List::of(Vec::new(alloc)),
        lines,
    })
}

/// The function of a reaction, where `react` is its procedure.
pub fn react_function(alloc: Global, shape: &FileShape<'_>, react: u32) -> Result<Function, Memory>
    requires { length (shape_seen shape.now).names.events ≤ EVENT_LIMIT }
    ensures { IfOk result (λ function.
        IsFunction function (starts.react_c (shape_seen shape.now) react)) }
{
    let parameters = one_word(alloc)?;
    let mut lines = List::of(Vec::new(alloc));
    put_refuse(alloc, shape, &mut lines)?;
    put_clear_counts(shape, &mut lines)?;
    put_outside(alloc, &mut lines, react, local(0))?;
    Ok(Function {
        result: CType::Truth,
        parameters,
        lines,
    })
}
