//! The procedures by which states are entered.
ghost use Rattle.std.specs.Prelude.{◌≡◌, ◌<◌, ◌++◌, ◌∷◌, [], OnOk, IfOk};
ghost use Rattle.std.specs.List.{AllByRecursion};
ghost use Rattle.flow_base.specs.Lists.{items_of};
ghost use Rattle.active_config.specs.Tree as trees;
ghost use Rattle.active_config.specs.Tree.{state_count};
ghost use Rattle.checked_chart.specs.declared.parts.ListKind.TheVariants.{Default};
ghost use Rattle.checked_chart.specs.Chart as charts;
ghost use Rattle.chart_code.specs.StateProcedures as templates;
ghost use Rattle.chart_code.specs.Places.{numbers};
ghost use Rattle.chart_code.specs.Keys as keys;
ghost use Rattle.chart_code.specs.Bodies.{body};
ghost use Rattle.list_compile.specs.Drafts.{Instrs, code_seen, procs_of};
ghost use Rattle.list_compile.specs.Numberings.{chart_in};

use crate::children::children;
use crate::firings::put_toward;
use active_config::Comp;
use checked_chart::ListKind;
use code_language::{Cond, Instr};
use flow_base::{List, Memory};
use list_compile::number_offsets::{ACTION_COUNT, ENTRY_START};
use list_compile::results::DONE;
use list_compile::{Draft, Numbering, append, put, put_call, put_refuse, put_require, put_return};
use std::alloc::Global;

/// The number of the procedure of the entry action of a state.
#[tactic(auto, unfolding(chart_code::specs::Places::numbers))]
fn entry_action(numbering: &Numbering<'_>, state: u32) -> u32
    requires { state < state_count (chart_in numbering.now).tree }
    ensures { result ≡ (numbers (chart_in numbering.now)).entry state }
{
    // Only the proof reads the number of states: it is small.
    let _ = numbering.states();
    ENTRY_START + state * ACTION_COUNT
}

/// The number of the procedure of the default list of a state.
#[tactic(auto, unfolding(chart_code::specs::Places::numbers))]
fn default_list(numbering: &Numbering<'_>, state: u32) -> u32
    requires { state < state_count (chart_in numbering.now).tree }
    ensures { result ≡ (numbers (chart_in numbering.now)).search state Default }
{
    numbering.list(state, ListKind::Default)
}

/// The children that a state may enter again by history.
#[tactic(auto, unfolding(checked_chart::specs::Chart::may_return))]
fn may_return(alloc: Global, numbering: &Numbering<'_>, state: u32) -> Result<List<u32>, Memory>
    requires { state < state_count (chart_in numbering.now).tree }
    ensures returns { IfOk result (λ list.
        items_of list ≡ charts.may_return (chart_in numbering.now) state) }
    ensures within { IfOk result (λ list.
        AllByRecursion (λ x. x < state_count (chart_in numbering.now).tree) (items_of list)) }
{
    if numbering.chart.has_history(state) {
        return children(alloc, numbering.chart.shape(), state);
    }
    Ok(List::of(Vec::new(alloc)))
}

// ---- what stands in the procedure by which a state is entered

/// Appends a test of the parent of a state, where it has one: it can take one more active child.
fn put_parent_test(
    code: &mut List<Instr>,
    numbering: &Numbering<'_>,
    state: u32,
) -> Result<(), Memory>
    requires { state < state_count (chart_in numbering.now).tree }
    ensures { OnOk result ((rest : Instrs) → code_seen code.new ++ rest ≡ code_seen code.old
        ++ templates.parent_test (chart_in numbering.now).tree
        (trees.parent_of (chart_in numbering.now).tree state) rest) }
{
    let Some(parent) = numbering.chart.parent(state) else {
        return Ok(());
    };
    match numbering.chart.comp(parent) {
        Comp::Leaf | Comp::And => put_require(code, Cond::On(parent)),
        Comp::Or => put_require(code, Cond::Bare(parent)),
    }
}

/// Appends that the parent of a state remembers it, where the parent has history.
fn put_keep(code: &mut List<Instr>, numbering: &Numbering<'_>, state: u32) -> Result<(), Memory>
    requires { state < state_count (chart_in numbering.now).tree }
    ensures { OnOk result ((rest : Instrs) → code_seen code.new ++ rest ≡ code_seen code.old
        ++ templates.keep_code (charts.is_remembered (chart_in numbering.now) state) state rest) }
{
    if numbering.chart.is_remembered(state) {
        put(code, Instr::Keep(state))?;
    }
    Ok(())
}

/// Appends how each of these children of an AND is entered on the way to a state.
fn put_enters(
    code: &mut List<Instr>,
    numbering: &Numbering<'_>,
    dest: u32,
    children: &[u32],
) -> Result<(), Memory>
    requires dest { dest < state_count (chart_in numbering.now).tree }
    requires within { AllByRecursion (λ x. x < state_count (chart_in numbering.now).tree)
        children.now }
    ensures { OnOk result (code_seen code.new ≡ code_seen code.old
        ++ templates.enters_code (numbers (chart_in numbering.now)) (chart_in numbering.now).tree
        dest children.now) }
{
    for child in children {
        let inner = numbering.chart.path_in(*child, dest);
        put_call(code, numbering.enter(*child, inner))?;
    }
    put_return(code, DONE)
}

/// Appends what is inside a state that was entered on the way to another one.
fn put_inside(
    alloc: Global,
    code: &mut List<Instr>,
    numbering: &Numbering<'_>,
    state: u32,
    dest: u32,
) -> Result<(), Memory>
    requires state { state < state_count (chart_in numbering.now).tree }
    requires dest { dest < state_count (chart_in numbering.now).tree }
    ensures { OnOk result (code_seen code.new ≡ code_seen code.old
        ++ templates.inside_code (numbers (chart_in numbering.now)) (chart_in numbering.now).tree
        state dest (trees.comp_of (chart_in numbering.now).tree state)) }
{
    match numbering.chart.comp(state) {
        Comp::Leaf => put_return(code, DONE),
        Comp::Or => put_toward(code, numbering, state, dest),
        Comp::And => {
            let list = children(alloc, numbering.chart.shape(), state)?;
            put_enters(code, numbering, dest, list.items())
        }
    }
}

/// Appends the entry action of a state that became active, and what is inside.
fn put_active(
    alloc: Global,
    code: &mut List<Instr>,
    numbering: &Numbering<'_>,
    state: u32,
    dest: u32,
) -> Result<(), Memory>
    requires state { state < state_count (chart_in numbering.now).tree }
    requires dest { dest < state_count (chart_in numbering.now).tree }
    ensures { OnOk result (code_seen code.new ≡ code_seen code.old
        ++ templates.active_entry_code (numbers (chart_in numbering.now))
        (chart_in numbering.now).tree state dest) }
{
    put_call(code, entry_action(numbering, state))?;
    put_require(code, Cond::BareHome)?;
    put_inside(alloc, code, numbering, state, dest)
}

/// Appends that a state becomes active and is remembered, and what follows.
fn put_entry(
    alloc: Global,
    code: &mut List<Instr>,
    numbering: &Numbering<'_>,
    state: u32,
    dest: u32,
) -> Result<(), Memory>
    requires state { state < state_count (chart_in numbering.now).tree }
    requires dest { dest < state_count (chart_in numbering.now).tree }
    ensures { OnOk result (code_seen code.new ≡ code_seen code.old
        ++ templates.entry_code (numbers (chart_in numbering.now)) (chart_in numbering.now).tree
        state dest (charts.is_remembered (chart_in numbering.now) state)) }
{
    put(code, Instr::Mark(state))?;
    put_keep(code, numbering, state)?;
    put_active(alloc, code, numbering, state, dest)
}

/// Appends the procedure by which a state is entered on the way to another one.
pub(crate) fn append_enter(
    alloc: Global,
    draft: &mut Draft,
    numbering: &Numbering<'_>,
    state: u32,
    dest: u32,
) -> Result<(), Memory>
    requires state { state < state_count (chart_in numbering.now).tree }
    requires dest { dest < state_count (chart_in numbering.now).tree }
    ensures { OnOk result (procs_of draft.new ≡ procs_of draft.old
        ++ body (chart_in numbering.now) (keys.Enter state dest) ∷ []) }
{
    let mut code = List::of(Vec::new(alloc));
    put(&mut code, Instr::Home(state))?;
    put_refuse(&mut code, Cond::OnHome)?;
    put_parent_test(&mut code, numbering, state)?;
    put_entry(alloc, &mut code, numbering, state, dest)?;
    append(draft, code)
}

// ---- what stands in the procedure by which a state is entered by default

/// Appends that the first of these children that their parent remembers is entered.
fn put_return_to(
    code: &mut List<Instr>,
    numbering: &Numbering<'_>,
    children: &[u32],
) -> Result<(), Memory>
    requires { AllByRecursion (λ x. x < state_count (chart_in numbering.now).tree)
        children.now }
    ensures { OnOk result ((rest : Instrs) → code_seen code.new ++ rest ≡ code_seen code.old
        ++ templates.return_code (numbers (chart_in numbering.now)) children.now rest) }
{
    for child in children {
        put(code, Instr::Unless(2, Cond::Last(*child)))?;
        put_call(code, numbering.enter(*child, *child))?;
        put_return(code, DONE)?;
    }
    Ok(())
}

/// Appends that the default list of a state is searched.
fn put_search(code: &mut List<Instr>, numbering: &Numbering<'_>, state: u32) -> Result<(), Memory>
    requires { state < state_count (chart_in numbering.now).tree }
    ensures { OnOk result (code_seen code.new ≡ code_seen code.old
        ++ templates.search_code (numbers (chart_in numbering.now)) state) }
{
    put_call(code, default_list(numbering, state))?;
    put_return(code, DONE)
}

/// Appends the procedure by which a state is entered by default.
pub(crate) fn append_defaults(
    alloc: Global,
    draft: &mut Draft,
    numbering: &Numbering<'_>,
    state: u32,
) -> Result<(), Memory>
    requires { state < state_count (chart_in numbering.now).tree }
    ensures { OnOk result (procs_of draft.new ≡ procs_of draft.old
        ++ body (chart_in numbering.now) (keys.Defaults state) ∷ []) }
{
    let list = may_return(alloc, numbering, state)?;
    let mut code = List::of(Vec::new(alloc));
    put(&mut code, Instr::Home(state))?;
    put_return_to(&mut code, numbering, list.items())?;
    put_search(&mut code, numbering, state)?;
    append(draft, code)
}
