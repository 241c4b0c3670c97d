//! The procedures by which states are processed.
ghost use Rattle.std.specs.Prelude.{◌≡◌, ◌<◌, ◌++◌, ◌∷◌, [], OnOk};
ghost use Rattle.active_config.specs.Tree.{state_count, comp_of, children_of};
ghost use Rattle.checked_chart.specs.declared.parts.ListKind.TheVariants as kinds;
ghost use Rattle.sos_rules.specs.Parts.{Out};
ghost use Rattle.code_language.specs.Instrs as instrs;
ghost use Rattle.chart_code.specs.StateProcedures as templates;
ghost use Rattle.chart_code.specs.Bodies.{body};
ghost use Rattle.chart_code.specs.Keys as keys;
ghost use Rattle.chart_code.specs.Places.{numbers};
ghost use Rattle.list_compile.specs.Drafts.{code_seen, procs_of};
ghost use Rattle.list_compile.specs.Numberings.{chart_in};

use crate::children::children;
use active_config::Comp;
use checked_chart::ListKind;
use code_language::{Cond, Instr};
use flow_base::{List, Memory};
use list_compile::number_offsets::{ACTION_COUNT, DURING_START};
use list_compile::results::{DONE, FIRST_HOME};
use list_compile::{
    Draft, Numbering, append, put, put_call, put_require, put_return, put_unless_found,
};
use std::alloc::Global;

/// The number of the procedure of the during action of a state.
#[tactic(auto, unfolding(chart_code::specs::Places::numbers))]
fn during(numbering: &Numbering<'_>, state: u32) -> u32
    requires { state < state_count (chart_in numbering.now).tree }
    ensures { result ≡ (numbers (chart_in numbering.now)).during state }
{
    // Only the proof reads the number of states: it is small.
    let _ = numbering.states();
    DURING_START + state * ACTION_COUNT
}

/// The number of the procedure of a list.
#[tactic(auto, unfolding(chart_code::specs::Places::numbers))]
fn search(numbering: &Numbering<'_>, state: u32, kind: ListKind) -> u32
    requires { state < state_count (chart_in numbering.now).tree }
    ensures { result ≡ (numbers (chart_in numbering.now)).search state kind }
{
    numbering.list(state, kind)
}

/// What a procedure returns after a firing with this home.
fn out(numbering: &Numbering<'_>, home: u32) -> u32
    requires { home < state_count (chart_in numbering.now).tree }
    ensures { result ≡ templates.went_result (Out home) }
{
    // Only the proof reads the number of states: it is small.
    let _ = numbering.states();
    FIRST_HOME + home
}

/// Appends how a child of an OR is processed where it is active. A firing with the OR as its home
/// ends there.
fn put_child(
    code: &mut List<Instr>,
    numbering: &Numbering<'_>,
    state: u32,
    child: u32,
) -> Result<(), Memory>
    requires { state < state_count (chart_in numbering.now).tree }
    ensures { OnOk result (code_seen code.new ≡ code_seen code.old
        ++ instrs.Unless 4 (instrs.On child)
        ∷ templates.call ((numbers (chart_in numbering.now)).process child)
        ∷ instrs.Unless 1 (instrs.Result (templates.went_result (Out state)))
        ∷ instrs.Ret DONE ∷ instrs.Pass ∷ []) }
{
    put(code, Instr::Unless(4, Cond::On(child)))?;
    put_call(code, numbering.process(child))?;
    put(code, Instr::Unless(1, Cond::Result(out(numbering, state))))?;
    put_return(code, DONE)?;
    put(code, Instr::Pass)
}

/// Appends how the active one of these children of an OR is processed.
fn put_active_child(
    code: &mut List<Instr>,
    numbering: &Numbering<'_>,
    state: u32,
    states: &[u32],
) -> Result<(), Memory>
    requires { state < state_count (chart_in numbering.now).tree }
    ensures { OnOk result (code_seen code.new ≡ code_seen code.old
        ++ templates.active_child_code (numbers (chart_in numbering.now)) state states.now) }
{
    for child in states {
        put_child(code, numbering, state, *child)?;
    }
    put_return(code, DONE)
}

/// Appends how a child of an AND is processed where it is active. A firing that leads out of it is
/// handed on.
fn put_region(code: &mut List<Instr>, numbering: &Numbering<'_>, child: u32) -> Result<(), Memory>
    ensures { OnOk result (code_seen code.new ≡ code_seen code.old
        ++ instrs.Unless 4 (instrs.On child)
        ∷ templates.call ((numbers (chart_in numbering.now)).process child)
        ∷ instrs.Unless 1 (instrs.Result DONE) ∷ instrs.Skip 1 ∷ instrs.Pass ∷ []) }
{
    put(code, Instr::Unless(4, Cond::On(child)))?;
    put_call(code, numbering.process(child))?;
    put(code, Instr::Unless(1, Cond::Result(DONE)))?;
    put(code, Instr::Skip(1))?;
    put(code, Instr::Pass)
}

/// Appends how these children of an AND are processed.
fn put_regions(
    code: &mut List<Instr>,
    numbering: &Numbering<'_>,
    states: &[u32],
) -> Result<(), Memory>
    ensures { OnOk result (code_seen code.new ≡ code_seen code.old
        ++ templates.regions_code (numbers (chart_in numbering.now)) states.now) }
{
    for child in states {
        put_region(code, numbering, *child)?;
    }
    put_return(code, DONE)
}

/// Appends how the children of a state are processed.
fn put_children(
    code: &mut List<Instr>,
    numbering: &Numbering<'_>,
    state: u32,
    states: &[u32],
) -> Result<(), Memory>
    requires state { state < state_count (chart_in numbering.now).tree }
    requires children { states.now ≡ children_of (chart_in numbering.now).tree state }
    ensures { OnOk result (code_seen code.new ≡ code_seen code.old
        ++ templates.children_code (numbers (chart_in numbering.now)) (chart_in numbering.now).tree
        state (comp_of (chart_in numbering.now).tree state)) }
{
    match numbering.chart.comp(state) {
        Comp::Leaf => put_return(code, DONE),
        Comp::Or => put_active_child(code, numbering, state, states),
        Comp::And => put_regions(code, numbering, states),
    }
}

/// Appends the search of the outer list, after which a firing is handed on.
fn put_outer(code: &mut List<Instr>, numbering: &Numbering<'_>, state: u32) -> Result<(), Memory>
    requires { state < state_count (chart_in numbering.now).tree }
    ensures { OnOk result (code_seen code.new ≡ code_seen code.old
        ++ instrs.Home state
        ∷ templates.call ((numbers (chart_in numbering.now)).search state kinds.Outer)
        ∷ templates.unless_found []) }
{
    put(code, Instr::Home(state))?;
    put_call(code, search(numbering, state, ListKind::Outer))?;
    put_unless_found(code)
}

/// Appends the during action and the search of the inner list, after which a firing is handed on.
fn put_inner(code: &mut List<Instr>, numbering: &Numbering<'_>, state: u32) -> Result<(), Memory>
    requires { state < state_count (chart_in numbering.now).tree }
    ensures { OnOk result (code_seen code.new ≡ code_seen code.old
        ++ templates.call ((numbers (chart_in numbering.now)).during state)
        ∷ templates.require instrs.OnHome
        (templates.call ((numbers (chart_in numbering.now)).search state kinds.Inner)
        ∷ templates.unless_found [])) }
{
    put_call(code, during(numbering, state))?;
    put_require(code, Cond::OnHome)?;
    put_call(code, search(numbering, state, ListKind::Inner))?;
    put_unless_found(code)
}

/// Appends the code by which a state with these children is processed.
fn put_process(
    code: &mut List<Instr>,
    numbering: &Numbering<'_>,
    state: u32,
    states: &[u32],
) -> Result<(), Memory>
    requires state { state < state_count (chart_in numbering.now).tree }
    requires children { states.now ≡ children_of (chart_in numbering.now).tree state }
    ensures { OnOk result (code_seen code.new ≡ code_seen code.old
        ++ templates.process_code (numbers (chart_in numbering.now)) (chart_in numbering.now).tree
        state) }
{
    put_outer(code, numbering, state)?;
    put_inner(code, numbering, state)?;
    put_children(code, numbering, state, states)?;
    Ok(())
}

/// Appends the procedure by which a state is processed.
pub(crate) fn append_process(
    alloc: Global,
    draft: &mut Draft,
    numbering: &Numbering<'_>,
    state: u32,
) -> Result<(), Memory>
    requires { state < state_count (chart_in numbering.now).tree }
    ensures { OnOk result (procs_of draft.new ≡ procs_of draft.old
        ++ body (chart_in numbering.now) (keys.Process state) ∷ []) }
{
    let states = children(alloc, numbering.chart.shape(), state)?;
    let mut code = List::of(Vec::new(alloc));
    put_process(&mut code, numbering, state, states.items())?;
    append(draft, code)
}
