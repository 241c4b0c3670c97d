//! What is written for instructions that neither jump nor return.
ghost use Rattle.std.specs.Prelude.{◌≡◌, ◌<◌, ◌++◌, OnOk};
ghost use Rattle.flow_base.specs.Lists.{items_of};
ghost use Rattle.active_config.specs.Tree.{state_count};
ghost use Rattle.code_language.specs.Code.{instr_of};
ghost use Rattle.c_subset.specs.Lines.{lines_in, lines_of};
ghost use Rattle.c_functions.specs.Statements as plan;
ghost use Rattle.c_functions.specs.Written.{noted_call, on_check, straight};
ghost use Rattle.c_functions.specs.Plans.{plan_c};
ghost use Rattle.c_shape.specs.FileShapes.{shape_seen};
ghost use Rattle.c_writer.specs.Appending.{PlanAppends};
ghost use Rattle.c_writer.specs.Fine.{IsFine};
ghost use Rattle.c_writer.specs.Instructions.{emit_plan, pass_plan, send_plan, send_to_plan};

use crate::calls::{put_call, put_send};
use crate::changes::{put_clear, put_keep, put_mark};
use crate::conditions::on_test;
use crate::pieces::{local, put_count_down, put_deep, put_entry, put_pay, put_return, put_set};
use crate::plays::put_play;
use c_expression_writer::{put, write_assign};
use c_shape::{FileShape, number};
use c_subset::{CExpr, Comparison, Line};
use code_language::Instr;
use flow_base::{List, Memory};
use std::alloc::Global;

/// Appends that an event is emitted.
#[tactic(auto, unfolding(c_functions::specs::Plans::plan_c))]
fn put_emit(
    alloc: Global,
    shape: &FileShape<'_>,
    lines: &mut List<Line>,
    event: u32,
) -> Result<(), Memory>
    ensures { OnOk result (PlanAppends (shape_seen shape.now) (items_of lines.old)
        (items_of lines.new) (emit_plan event)) }
{
    put_pay(alloc, shape, lines)?;
    put_entry(alloc, lines, 0, shape.outs_field(), event)
}

/// Appends a call, with its note if there is one.
#[tactic(auto, unfolding(c_functions::specs::Plans::plan_c))]
fn put_noted_call(
    alloc: Global,
    shape: &FileShape<'_>,
    lines: &mut List<Line>,
    procedure: u32,
    note: Option<u32>,
) -> Result<(), Memory>
    ensures { OnOk result (PlanAppends (shape_seen shape.now) (items_of lines.old)
        (items_of lines.new) (noted_call procedure note)) }
{
    let Some(note) = note else {
        return put_call(alloc, shape, lines, procedure);
    };
    put_entry(alloc, lines, 1, shape.noted_field(), note)?;
    put_call(alloc, shape, lines, procedure)?;
    put_count_down(alloc, lines, shape.noted_field())
}

/// Appends that a step is paid before a call.
#[tactic(auto, unfolding(c_functions::specs::Plans::plan_c))]
fn put_visit(
    alloc: Global,
    shape: &FileShape<'_>,
    lines: &mut List<Line>,
    procedure: u32,
    note: Option<u32>,
) -> Result<(), Memory>
    ensures { OnOk result (PlanAppends (shape_seen shape.now) (items_of lines.old)
        (items_of lines.new) (λ rest. plan.Pay (noted_call procedure note rest))) }
{
    put_pay(alloc, shape, lines)?;
    put_noted_call(alloc, shape, lines, procedure, note)
}

/// Appends that an event is sent to the whole chart.
#[tactic(auto, unfolding(c_functions::specs::Plans::plan_c))]
fn put_send_all(
    alloc: Global,
    shape: &FileShape<'_>,
    lines: &mut List<Line>,
    event: u32,
    react: u32,
) -> Result<(), Memory>
    ensures { OnOk result (PlanAppends (shape_seen shape.now) (items_of lines.old)
        (items_of lines.new) (send_plan event react)) }
{
    put_deep(alloc, shape, lines)?;
    put_pay(alloc, shape, lines)?;
    put_send(alloc, shape, lines, event, react)
}

/// Appends a call that processes a sent event, before nothing else.
fn put_only_send(
    alloc: Global,
    shape: &FileShape<'_>,
    lines: &mut List<Line>,
    event: u32,
    procedure: u32,
) -> Result<(), Memory>
    ensures { OnOk result (lines_in (items_of lines.new) ≡ lines_in (items_of lines.old)
        ++ lines_of (plan_c (shape_seen shape.now) (plan.Send event procedure plan.End))) }
{
    put_send(alloc, shape, lines, event, procedure)
}

/// Appends that an event is sent to a state, where that is active.
#[tactic(auto, unfolding(c_subset::specs::Lines::lines_of, c_functions::specs::Plans::plan_c))]
fn put_send_if_active(
    alloc: Global,
    shape: &FileShape<'_>,
    lines: &mut List<Line>,
    event: u32,
    state: u32,
    procedure: u32,
) -> Result<(), Memory>
    requires { state < state_count (shape_seen shape.now).tree }
    ensures { OnOk result (PlanAppends (shape_seen shape.now) (items_of lines.old)
        (items_of lines.new) (plan.If (plan.Simple (on_check (shape_seen shape.now).tree
        (shape_seen shape.now).numbers state)) (plan.Send event procedure plan.End) plan.End)) }
{
    put(lines, Line::If(on_test(alloc, shape, state)?))?;
    put_only_send(alloc, shape, lines, event, procedure)?;
    put(lines, Line::Close)
}

/// Appends that an event is sent to a state.
fn put_send_to(
    alloc: Global,
    shape: &FileShape<'_>,
    lines: &mut List<Line>,
    event: u32,
    state: u32,
    procedure: u32,
) -> Result<(), Memory>
    requires { state < state_count (shape_seen shape.now).tree }
    ensures { OnOk result (PlanAppends (shape_seen shape.now) (items_of lines.old)
        (items_of lines.new) (send_to_plan (shape_seen shape.now) event state procedure)) }
{
    put_deep(alloc, shape, lines)?;
    put_pay(alloc, shape, lines)?;
    put_send_if_active(alloc, shape, lines, event, state, procedure)
}

/// Appends a return of the last result, where that isn't 0.
#[tactic(auto, unfolding(c_subset::specs::Lines::lines_of, c_functions::specs::Plans::plan_c))]
fn put_pass(alloc: Global, shape: &FileShape<'_>, lines: &mut List<Line>) -> Result<(), Memory>
    ensures { OnOk result (PlanAppends (shape_seen shape.now) (items_of lines.old)
        (items_of lines.new) pass_plan) }
{
    // Only the contract reads the shape.
    let _ = shape;
    let none = CExpr::compare(alloc, Comparison::IsEqual, local(4), number(0))?;
    put(lines, Line::If(CExpr::bang(alloc, none)?))?;
    put_return(lines, local(4))?;
    put(lines, Line::Close)
}

/// Appends that a state becomes the home.
#[tactic(auto, unfolding(c_functions::specs::Plans::plan_c))]
fn put_home(shape: &FileShape<'_>, lines: &mut List<Line>, state: u32) -> Result<(), Memory>
    ensures { OnOk result (PlanAppends (shape_seen shape.now) (items_of lines.old)
        (items_of lines.new) (plan.SetHome state)) }
{
    // Only the contract reads the shape.
    let _ = shape;
    put_set(lines, 3, number(state))
}

/// Appends that the call becomes its own base.
#[tactic(auto, unfolding(c_functions::specs::Plans::plan_c))]
fn put_begin(shape: &FileShape<'_>, lines: &mut List<Line>) -> Result<(), Memory>
    ensures { OnOk result (PlanAppends (shape_seen shape.now) (items_of lines.old)
        (items_of lines.new) plan.SetBase) }
{
    put_set(lines, 2, CExpr::Field(shape.noted_field()))
}

/// Appends what is written for an instruction; nothing for a jump or a return.
#[tactic(auto, unfolding(code_language::specs::WellFormed::instr_known))]
pub(crate) fn put_straight(
    alloc: Global,
    shape: &FileShape<'_>,
    react: u32,
    lines: &mut List<Line>,
    instr: &Instr,
) -> Result<(), Memory>
    requires { IsFine (shape_seen shape.now) (instr_of instr.now) }
    ensures { OnOk result (PlanAppends (shape_seen shape.now) (items_of lines.old)
        (items_of lines.new) (straight (shape_seen shape.now).tree (shape_seen shape.now).numbers
        react (instr_of instr.now))) }
{
    match instr {
        Instr::Assign(datum, expr) => write_assign(alloc, shape, lines, *datum, expr),
        Instr::Emit(event) => put_emit(alloc, shape, lines, *event),
        Instr::Mark(state) => put_mark(alloc, shape, lines, *state),
        Instr::Clear(state) => put_clear(alloc, shape, lines, *state),
        Instr::Keep(state) => put_keep(shape, lines, *state),
        Instr::Call(procedure, note) => put_noted_call(alloc, shape, lines, *procedure, *note),
        Instr::Visit(procedure, note) => put_visit(alloc, shape, lines, *procedure, *note),
        Instr::Send(event) => put_send_all(alloc, shape, lines, *event, react),
        Instr::SendTo(event, state, procedure) => {
            put_send_to(alloc, shape, lines, *event, *state, *procedure)
        }
        Instr::Play => put_play(alloc, shape, lines),
        Instr::Home(state) => put_home(shape, lines, *state),
        Instr::Begin => put_begin(shape, lines),
        Instr::Pass => put_pass(alloc, shape, lines),
        Instr::Unless(_, _) | Instr::Skip(_) | Instr::Ret(_) => Ok(()),
    }
}
