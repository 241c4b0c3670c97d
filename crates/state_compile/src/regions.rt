//! The regions of the layout, each of them in the order of its procedures.
ghost use Rattle.std.specs.Prelude.{◌≡◌, ◌<◌, ◌++◌, map, OnOk};
ghost use Rattle.active_config.specs.Tree.{state_count};
ghost use Rattle.chart_code.specs.Bodies.{body};
ghost use Rattle.chart_code.specs.Keys as keys;
ghost use Rattle.chart_code.specs.Orders.{ascending, descending};
ghost use Rattle.list_compile.specs.Drafts.{procs_of};
ghost use Rattle.list_compile.specs.Numberings.{chart_in};
ghost use Rattle.state_compile.specs.Keyed.{keys_of};

use crate::groups::append_group;
use crate::processes::append_process;
use checked_chart::{BlockKind, ListKind};
use flow_base::Memory;
use list_compile::{Draft, Lasting, Numbering, append_block, append_list, append_parts};
use std::alloc::Global;

/// The procedures that are appended together for one state.
#[derive(Clone, Copy)]
pub(crate) enum StateKeys {
    /// Those of its actions.
    Actions,
    /// Those of the parts of its transitions.
    Parts,
    /// Those that firings take in it.
    Group,
    /// Those of its outer and of its inner list.
    Lists,
    /// The one by which it is processed.
    Process,
}

/// Appends the procedures of the actions of a state.
fn append_actions_of(
    alloc: Global,
    draft: &mut Draft,
    numbering: &Numbering<'_>,
    state: u32,
) -> Result<(), Memory>
    requires { state < state_count (chart_in numbering.now).tree }
    ensures { OnOk result (procs_of draft.new ≡ procs_of draft.old
        ++ map (body (chart_in numbering.now)) (keys.action_keys_of state)) }
{
    let entry = numbering.chart.block(state, BlockKind::Entry);
    append_block(alloc, draft, numbering, Lasting::Bare, entry)?;
    let during = numbering.chart.block(state, BlockKind::During);
    append_block(alloc, draft, numbering, Lasting::On, during)?;
    let exit = numbering.chart.block(state, BlockKind::Exit);
    append_block(alloc, draft, numbering, Lasting::Bare, exit)
}

/// Appends the procedures of the parts of the transitions of a state.
#[tactic(auto, unfolding(chart_code::specs::Keys::state_parts_keys))]
fn append_parts_of_state(
    alloc: Global,
    draft: &mut Draft,
    numbering: &Numbering<'_>,
    state: u32,
) -> Result<(), Memory>
    requires { state < state_count (chart_in numbering.now).tree }
    ensures { OnOk result (procs_of draft.new ≡ procs_of draft.old
        ++ map (body (chart_in numbering.now))
        (keys.state_parts_keys (chart_in numbering.now) state)) }
{
    let outer = numbering.chart.list(state, ListKind::Outer);
    append_parts(alloc, draft, numbering, outer)?;
    let inner = numbering.chart.list(state, ListKind::Inner);
    append_parts(alloc, draft, numbering, inner)?;
    let default = numbering.chart.list(state, ListKind::Default);
    append_parts(alloc, draft, numbering, default)
}

/// Appends the procedures of the outer and of the inner list of a state.
#[tactic(auto, unfolding(chart_code::specs::Keys::lists_keys))]
fn append_lists_of(
    alloc: Global,
    draft: &mut Draft,
    numbering: &Numbering<'_>,
    state: u32,
) -> Result<(), Memory>
    requires { state < state_count (chart_in numbering.now).tree }
    ensures { OnOk result (procs_of draft.new ≡ procs_of draft.old
        ++ map (body (chart_in numbering.now)) (keys.lists_keys (chart_in numbering.now) state)) }
{
    append_list(alloc, draft, numbering, state, ListKind::Outer)?;
    append_list(alloc, draft, numbering, state, ListKind::Inner)
}

/// Appends the procedures of this kind of a state.
fn append_keys(
    alloc: Global,
    draft: &mut Draft,
    numbering: &Numbering<'_>,
    kind: StateKeys,
    state: u32,
) -> Result<(), Memory>
    requires { state < state_count (chart_in numbering.now).tree }
    ensures { OnOk result (procs_of draft.new ≡ procs_of draft.old
        ++ map (body (chart_in numbering.now)) (keys_of (chart_in numbering.now) kind state)) }
{
    match kind {
        StateKeys::Actions => append_actions_of(alloc, draft, numbering, state),
        StateKeys::Parts => append_parts_of_state(alloc, draft, numbering, state),
        StateKeys::Group => append_group(alloc, draft, numbering, state),
        StateKeys::Lists => append_lists_of(alloc, draft, numbering, state),
        StateKeys::Process => append_process(alloc, draft, numbering, state),
    }
}

/// Appends the procedures of this kind of all states, the first state first.
pub(crate) fn append_ascending(
    alloc: Global,
    draft: &mut Draft,
    numbering: &Numbering<'_>,
    kind: StateKeys,
) -> Result<(), Memory>
    ensures { OnOk result (procs_of draft.new ≡ procs_of draft.old
        ++ map (body (chart_in numbering.now)) (ascending (keys_of (chart_in numbering.now) kind)
        (state_count (chart_in numbering.now).tree))) }
{
    for state in 0..numbering.states() {
        append_keys(alloc, draft, numbering, kind, state)?;
    }
    Ok(())
}

/// Appends the procedures of this kind of all states, the last state first.
pub(crate) fn append_descending(
    alloc: Global,
    draft: &mut Draft,
    numbering: &Numbering<'_>,
    kind: StateKeys,
) -> Result<(), Memory>
    ensures { OnOk result (procs_of draft.new ≡ procs_of draft.old
        ++ map (body (chart_in numbering.now)) (descending (keys_of (chart_in numbering.now) kind)
        (state_count (chart_in numbering.now).tree))) }
{
    for state in (0..numbering.states()).rev() {
        append_keys(alloc, draft, numbering, kind, state)?;
    }
    Ok(())
}

/// Appends the procedures of the parts of the transitions of all junctions.
pub(crate) fn append_junction_parts(
    alloc: Global,
    draft: &mut Draft,
    numbering: &Numbering<'_>,
) -> Result<(), Memory>
    ensures { OnOk result (procs_of draft.new ≡ procs_of draft.old
        ++ map (body (chart_in numbering.now)) (keys.all_junction_parts (chart_in numbering.now))) }
{
    for junction in 0..numbering.chart.junctions() {
        let list = numbering.chart.junction(junction);
        append_parts(alloc, draft, numbering, list)?;
    }
    Ok(())
}
