//! The procedures by which a state and its children are left.
ghost use Rattle.std.specs.Prelude.{◌≡◌, ◌<◌, ◌++◌, ◌∷◌, [], reverse, OnOk};
ghost use Rattle.std.specs.List.{AllByRecursion};
ghost use Rattle.active_config.specs.Tree.{state_count, comp_of, children_of};
ghost use Rattle.code_language.specs.Instrs as instrs;
ghost use Rattle.chart_code.specs.StateProcedures as templates;
ghost use Rattle.chart_code.specs.Bodies.{body};
ghost use Rattle.chart_code.specs.Keys as keys;
ghost use Rattle.chart_code.specs.Places.{numbers};
ghost use Rattle.list_compile.specs.Drafts.{code_seen, procs_of};
ghost use Rattle.list_compile.specs.Numberings.{chart_in};

use crate::children::children;
use active_config::Comp;
use code_language::{Cond, Instr};
use flow_base::{List, Memory};
use list_compile::number_offsets::{ACTION_COUNT, EXIT_ACTION_START, EXIT_OFFSET};
use list_compile::results::DONE;
use list_compile::{Draft, Numbering, append, put, put_call, put_require, put_return};
use std::alloc::Global;

/// The number of the procedure of the exit action of a state.
#[tactic(auto, unfolding(chart_code::specs::Places::numbers))]
fn exit_action(numbering: &Numbering<'_>, state: u32) -> u32
    requires { state < state_count (chart_in numbering.now).tree }
    ensures { result ≡ (numbers (chart_in numbering.now)).exit_action state }
{
    // Only the proof reads the number of states: it is small.
    let _ = numbering.states();
    EXIT_ACTION_START + state * ACTION_COUNT
}

/// The number of the procedure by which the children of a state are left.
#[tactic(auto, unfolding(chart_code::specs::Places::numbers))]
fn leave(numbering: &Numbering<'_>, state: u32) -> u32
    requires { state < state_count (chart_in numbering.now).tree }
    ensures { result ≡ (numbers (chart_in numbering.now)).leave state }
{
    numbering.group(state)
}

/// The number of the procedure by which a state is left.
#[tactic(auto, unfolding(chart_code::specs::Places::numbers))]
fn exit(numbering: &Numbering<'_>, state: u32) -> u32
    requires { state < state_count (chart_in numbering.now).tree }
    ensures { result ≡ (numbers (chart_in numbering.now)).exit state }
{
    numbering.group(state) + EXIT_OFFSET
}

/// Appends how a child is left where it is active. After that the procedure returns.
fn put_where_active(
    code: &mut List<Instr>,
    numbering: &Numbering<'_>,
    child: u32,
) -> Result<(), Memory>
    requires { child < state_count (chart_in numbering.now).tree }
    ensures { OnOk result (code_seen code.new ≡ code_seen code.old
        ++ instrs.Unless 2 (instrs.On child)
        ∷ templates.call ((numbers (chart_in numbering.now)).exit child) ∷ instrs.Ret DONE ∷ []) }
{
    put(code, Instr::Unless(2, Cond::On(child)))?;
    put_call(code, exit(numbering, child))?;
    put_return(code, DONE)
}

/// Appends how the first of these states that is active is left.
fn put_active(
    code: &mut List<Instr>,
    numbering: &Numbering<'_>,
    states: &[u32],
) -> Result<(), Memory>
    requires { AllByRecursion (λ x. x < state_count (chart_in numbering.now).tree) states.now }
    ensures { OnOk result (code_seen code.new ≡ code_seen code.old
        ++ templates.active_code (numbers (chart_in numbering.now)).exit states.now) }
{
    for state in states {
        put_where_active(code, numbering, *state)?;
    }
    put_return(code, DONE)
}

/// Appends how each of these states is left, the last one first.
fn put_each(code: &mut List<Instr>, numbering: &Numbering<'_>, states: &[u32]) -> Result<(), Memory>
    requires { AllByRecursion (λ x. x < state_count (chart_in numbering.now).tree) states.now }
    ensures { OnOk result (code_seen code.new ≡ code_seen code.old
        ++ templates.each_code (numbers (chart_in numbering.now)).exit (reverse states.now)) }
{
    for place in (0..states.len()).rev() {
        put_call(code, exit(numbering, states[place]))?;
    }
    put_return(code, DONE)
}

/// Appends how the children of a state are left: of an OR the active one, of an AND all of them.
fn put_leave(
    code: &mut List<Instr>,
    numbering: &Numbering<'_>,
    state: u32,
    states: &[u32],
) -> Result<(), Memory>
    requires state { state < state_count (chart_in numbering.now).tree }
    requires children { states.now ≡ children_of (chart_in numbering.now).tree state }
    requires within { AllByRecursion (λ x. x < state_count (chart_in numbering.now).tree) states.now }
    ensures { OnOk result (code_seen code.new ≡ code_seen code.old
        ++ templates.leave_code (numbers (chart_in numbering.now)) (chart_in numbering.now).tree
        state (comp_of (chart_in numbering.now).tree state)) }
{
    match numbering.chart.comp(state) {
        Comp::Leaf => put_return(code, DONE),
        Comp::Or => put_active(code, numbering, states),
        Comp::And => put_each(code, numbering, states),
    }
}

/// Appends the procedure by which the children of a state are left.
pub(crate) fn append_leave(
    alloc: Global,
    draft: &mut Draft,
    numbering: &Numbering<'_>,
    state: u32,
) -> Result<(), Memory>
    requires { state < state_count (chart_in numbering.now).tree }
    ensures { OnOk result (procs_of draft.new ≡ procs_of draft.old
        ++ body (chart_in numbering.now) (keys.Leave state) ∷ []) }
{
    let states = children(alloc, numbering.chart.shape(), state)?;
    let mut code = List::of(Vec::new(alloc));
    put_leave(&mut code, numbering, state, states.items())?;
    append(draft, code)
}

/// Appends what stands before the exit action: the children are left.
fn put_exit_start(
    code: &mut List<Instr>,
    numbering: &Numbering<'_>,
    state: u32,
) -> Result<(), Memory>
    requires { state < state_count (chart_in numbering.now).tree }
    ensures { OnOk result (code_seen code.new ≡ code_seen code.old
        ++ instrs.Home state ∷ templates.require instrs.OnHome
        (templates.call ((numbers (chart_in numbering.now)).leave state)
        ∷ templates.require instrs.BareHome [])) }
{
    put(code, Instr::Home(state))?;
    put_require(code, Cond::OnHome)?;
    put_call(code, leave(numbering, state))?;
    put_require(code, Cond::BareHome)
}

/// Appends the exit action, after which the state is no longer active.
fn put_exit_end(code: &mut List<Instr>, numbering: &Numbering<'_>, state: u32) -> Result<(), Memory>
    requires { state < state_count (chart_in numbering.now).tree }
    ensures { OnOk result (code_seen code.new ≡ code_seen code.old
        ++ templates.call ((numbers (chart_in numbering.now)).exit_action state)
        ∷ instrs.Clear state ∷ instrs.Ret DONE ∷ []) }
{
    put_call(code, exit_action(numbering, state))?;
    put(code, Instr::Clear(state))?;
    put_return(code, DONE)
}

/// Appends the code by which a state is left.
fn put_exit(code: &mut List<Instr>, numbering: &Numbering<'_>, state: u32) -> Result<(), Memory>
    requires { state < state_count (chart_in numbering.now).tree }
    ensures { OnOk result (code_seen code.new ≡ code_seen code.old
        ++ templates.exit_code (numbers (chart_in numbering.now)) state) }
{
    put_exit_start(code, numbering, state)?;
    put_exit_end(code, numbering, state)?;
    Ok(())
}

/// Appends the procedure by which a state is left.
pub(crate) fn append_exit(
    alloc: Global,
    draft: &mut Draft,
    numbering: &Numbering<'_>,
    state: u32,
) -> Result<(), Memory>
    requires { state < state_count (chart_in numbering.now).tree }
    ensures { OnOk result (procs_of draft.new ≡ procs_of draft.old
        ++ body (chart_in numbering.now) (keys.Exit state) ∷ []) }
{
    let mut code = List::of(Vec::new(alloc));
    put_exit(&mut code, numbering, state)?;
    append(draft, code)?;
    Ok(())
}
