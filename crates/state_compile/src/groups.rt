//! The procedures that firings take, those of each state together.
ghost use Rattle.std.specs.Prelude.{◌≡◌, ◌<◌, suc, ◌++◌, ◌∷◌, [], map, OnOk};
ghost use Rattle.active_config.specs.Tree.{state_count};
ghost use Rattle.checked_chart.specs.declared.parts.ListKind.TheVariants.{Default};
ghost use Rattle.chart_code.specs.Ends.{below_count};
ghost use Rattle.chart_code.specs.Orders.{span};
ghost use Rattle.chart_code.specs.Keys as keys;
ghost use Rattle.chart_code.specs.Bodies.{body};
ghost use Rattle.list_compile.specs.Drafts.{procs_of};
ghost use Rattle.list_compile.specs.Numberings.{chart_in};

use crate::entries::append_defaults;
use crate::exits::{append_exit, append_leave};
use crate::firings::append_arrive;
use crate::pairs::{PairKey, append_pairs};
use checked_chart::ListKind;
use flow_base::Memory;
use list_compile::{Draft, Numbering, append_list};
use std::alloc::Global;

/// Appends how a state is left, and the rest of a firing with this home to each state below it.
fn append_leaving(
    alloc: Global,
    draft: &mut Draft,
    numbering: &Numbering<'_>,
    state: u32,
) -> Result<(), Memory>
    requires { state < state_count (chart_in numbering.now).tree }
    ensures { OnOk result (procs_of draft.new ≡ procs_of draft.old
        ++ map (body (chart_in numbering.now))
        (keys.Leave state ∷ keys.Exit state
        ∷ span (keys.Arrive state) (suc state) (below_count (chart_in numbering.now).tree state))) }
{
    // Only the proof reads the number of states: the chart is valid.
    let _ = numbering.states();
    append_leave(alloc, draft, numbering, state)?;
    append_exit(alloc, draft, numbering, state)?;
    append_pairs(alloc, draft, numbering, PairKey::Arrive, state, state + 1)?;
    Ok(())
}

/// Appends how a state is entered by default: its default list, the procedure that searches it, and
/// the rest of a firing that leads to the state itself.
fn append_by_default(
    alloc: Global,
    draft: &mut Draft,
    numbering: &Numbering<'_>,
    state: u32,
) -> Result<(), Memory>
    requires { state < state_count (chart_in numbering.now).tree }
    ensures { OnOk result (procs_of draft.new ≡ procs_of draft.old
        ++ map (body (chart_in numbering.now))
        (keys.search_keys (chart_in numbering.now) state Default
        ++ keys.Defaults state ∷ keys.Arrive state state ∷ [])) }
{
    append_list(alloc, draft, numbering, state, ListKind::Default)?;
    append_defaults(alloc, draft, numbering, state)?;
    append_arrive(alloc, draft, numbering, state, state)?;
    Ok(())
}

/// Appends the procedures of firings with this home, and those by which the state is entered.
fn append_taking(
    alloc: Global,
    draft: &mut Draft,
    numbering: &Numbering<'_>,
    state: u32,
) -> Result<(), Memory>
    requires { state < state_count (chart_in numbering.now).tree }
    ensures { OnOk result (procs_of draft.new ≡ procs_of draft.old
        ++ map (body (chart_in numbering.now))
        (span (keys.Take state) state (suc (below_count (chart_in numbering.now).tree state))
        ++ span (keys.Enter state) state (suc (below_count (chart_in numbering.now).tree state)))) }
{
    // Only the proof reads the number of states: the chart is valid.
    let _ = numbering.states();
    append_pairs(alloc, draft, numbering, PairKey::Take, state, state)?;
    append_pairs(alloc, draft, numbering, PairKey::Enter, state, state)?;
    Ok(())
}

/// Appends the procedures that firings take in a state, with its default list.
pub(crate) fn append_group(
    alloc: Global,
    draft: &mut Draft,
    numbering: &Numbering<'_>,
    state: u32,
) -> Result<(), Memory>
    requires { state < state_count (chart_in numbering.now).tree }
    ensures { OnOk result (procs_of draft.new ≡ procs_of draft.old
        ++ map (body (chart_in numbering.now)) (keys.group_keys (chart_in numbering.now) state)) }
{
    append_leaving(alloc, draft, numbering, state)?;
    append_by_default(alloc, draft, numbering, state)?;
    append_taking(alloc, draft, numbering, state)?;
    Ok(())
}
