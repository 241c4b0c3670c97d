//! The procedures of a state for the states at or below it.
ghost use Rattle.std.specs.Prelude.{◌≡◌, ◌<◌, ◌≤◌, ◌-◌, ◌++◌, ◌∷◌, [], map, OnOk};
ghost use Rattle.flow_base.specs.declared.chart_limits.TheConstants.{STATE_LIMIT};
ghost use Rattle.active_config.specs.Tree.{state_count};
ghost use Rattle.chart_code.specs.Bodies.{body};
ghost use Rattle.chart_code.specs.Ends.{end_of};
ghost use Rattle.chart_code.specs.Orders.{span};
ghost use Rattle.list_compile.specs.Drafts.{procs_of};
ghost use Rattle.list_compile.specs.Numberings.{chart_in};
ghost use Rattle.state_compile.specs.Keyed.{pair_key};

use crate::entries::append_enter;
use crate::firings::{append_arrive, append_take};
use flow_base::Memory;
use list_compile::{Draft, Numbering};
use std::alloc::Global;

/// What a procedure of a state for another state does.
#[derive(Clone, Copy)]
pub(crate) enum PairKey {
    /// The rest of a firing with this home, once the active child of the home is left.
    Arrive,
    /// A firing with this home.
    Take,
    /// The state is entered on the way to the other one.
    Enter,
}

/// Appends a procedure of a state for another state.
fn append_pair(
    alloc: Global,
    draft: &mut Draft,
    numbering: &Numbering<'_>,
    key: PairKey,
    state: u32,
    dest: u32,
) -> Result<(), Memory>
    requires state { state < state_count (chart_in numbering.now).tree }
    requires dest { dest < state_count (chart_in numbering.now).tree }
    ensures { OnOk result (procs_of draft.new ≡ procs_of draft.old
        ++ body (chart_in numbering.now) (pair_key key state dest) ∷ []) }
{
    match key {
        PairKey::Arrive => append_arrive(alloc, draft, numbering, state, dest),
        PairKey::Take => append_take(alloc, draft, numbering, state, dest),
        PairKey::Enter => append_enter(alloc, draft, numbering, state, dest),
    }
}

/// The number after the last state that is at or below a state.
fn end(numbering: &Numbering<'_>, state: u32) -> u32
    requires { state < state_count (chart_in numbering.now).tree }
    ensures end { result ≡ end_of (chart_in numbering.now).tree state }
    ensures within { result ≤ state_count (chart_in numbering.now).tree }
    ensures few { result ≤ STATE_LIMIT }
{
    // Only the proof reads the number of states: it is small.
    let _ = numbering.states();
    state + 1 + numbering.below(state)
}

/// Appends the procedures of a state for the states from this one on that are at or below it.
pub(crate) fn append_pairs(
    alloc: Global,
    draft: &mut Draft,
    numbering: &Numbering<'_>,
    key: PairKey,
    state: u32,
    first: u32,
) -> Result<(), Memory>
    requires { state < state_count (chart_in numbering.now).tree }
    ensures { OnOk result (procs_of draft.new ≡ procs_of draft.old
        ++ map (body (chart_in numbering.now))
        (span (pair_key key state) first (end_of (chart_in numbering.now).tree state - first))) }
{
    for dest in first..end(numbering, state) {
        append_pair(alloc, draft, numbering, key, state, dest)?;
    }
    Ok(())
}
