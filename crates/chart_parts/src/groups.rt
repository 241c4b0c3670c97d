//! The parts of the lists of a state, and those of the firings in it.
ghost use Rattle.std.specs.Prelude.{◌≡◌, ◌<◌, ◌-◌, ◌++◌, ◌∷◌, [], suc, map, OnOk};
ghost use Rattle.flow_base.specs.Lists.{items_of};
ghost use Rattle.active_config.specs.Tree.{state_count};
ghost use Rattle.checked_chart.specs.declared.parts.ListKind.TheVariants.{Default};
ghost use Rattle.checked_chart.specs.Kept.{chart_of};
ghost use Rattle.chart_code.specs.Orders.{span};
ghost use Rattle.chart_parts.specs.declared.part.Part.TheVariants as parts;
ghost use Rattle.chart_parts.specs.declared.part.Toward.TheVariants.{Arrive, Take, Enter};
ghost use Rattle.chart_parts.specs.Parts as spec;

use crate::part::{Part, Toward};
use checked_chart::{Chart, ListKind};
use flow_base::{List, Memory};
use list_compile::below_count;
use list_compile::reached::reached;
use std::alloc::Global;

/// Appends a part for each of these junctions, reached from a list of a state.
fn append_reached(
    out: &mut List<Part>,
    state: u32,
    kind: ListKind,
    junctions: &[u32],
) -> Result<(), Memory>
    ensures { OnOk result (items_of out.new
        ≡ items_of out.old ++ map (λ j. parts.Junction state kind j) junctions.now) }
{
    for junction in junctions {
        out.push(Part::Junction(state, kind, *junction))?;
    }
    Ok(())
}

/// Appends a list of a state and the junctions that are reached from it.
#[tactic(auto, unfolding(crate::specs::Parts::search_parts))]
fn append_search(
    alloc: Global,
    out: &mut List<Part>,
    chart: &Chart,
    state: u32,
    kind: ListKind,
) -> Result<(), Memory>
    requires { state < state_count (chart_of chart.now).tree }
    ensures { OnOk result (items_of out.new
        ≡ items_of out.old ++ spec.search_parts (chart_of chart.now) state kind) }
{
    let junctions = reached(alloc, chart, chart.list(state, kind))?;
    out.push(Part::Search(state, kind))?;
    append_reached(out, state, kind, junctions.items())
}

/// Appends the outer and the inner list of a state.
#[tactic(auto, unfolding(crate::specs::Parts::lists_parts))]
pub(crate) fn append_lists(
    alloc: Global,
    out: &mut List<Part>,
    chart: &Chart,
    state: u32,
) -> Result<(), Memory>
    requires { state < state_count (chart_of chart.now).tree }
    ensures { OnOk result (items_of out.new
        ≡ items_of out.old ++ spec.lists_parts (chart_of chart.now) state) }
{
    append_search(alloc, out, chart, state, ListKind::Outer)?;
    append_search(alloc, out, chart, state, ListKind::Inner)
}

/// Appends work in a state on the way to each of the states from one number to before another.
fn append_ways(
    out: &mut List<Part>,
    toward: Toward,
    state: u32,
    first: u32,
    end: u32,
) -> Result<(), Memory>
    ensures { OnOk result (items_of out.new
        ≡ items_of out.old ++ span (parts.Way toward state) first (end - first)) }
{
    for dest in first..end {
        out.push(Part::Way(toward, state, dest))?;
    }
    Ok(())
}

/// Appends how a state is left, and arrivals in it on the way to each state below it.
fn append_leaving(out: &mut List<Part>, state: u32, end: u32) -> Result<(), Memory>
    requires { state < end }
    ensures { OnOk result (items_of out.new ≡ items_of out.old
        ++ parts.Leave state ∷ parts.Exit state
        ∷ span (parts.Way Arrive state) (suc state) (end - suc state)) }
{
    out.push(Part::Leave(state))?;
    out.push(Part::Exit(state))?;
    append_ways(out, Toward::Arrive, state, state + 1, end)
}

/// Appends how a state is entered by default: its default list, the choice of a child, and the
/// arrival in the state itself.
fn append_by_default(
    alloc: Global,
    out: &mut List<Part>,
    chart: &Chart,
    state: u32,
) -> Result<(), Memory>
    requires { state < state_count (chart_of chart.now).tree }
    ensures { OnOk result (items_of out.new ≡ items_of out.old
        ++ (spec.search_parts (chart_of chart.now) state Default
        ++ parts.Defaults state ∷ parts.Way Arrive state state ∷ [])) }
{
    append_search(alloc, out, chart, state, ListKind::Default)?;
    out.push(Part::Defaults(state))?;
    out.push(Part::Way(Toward::Arrive, state, state))
}

/// Appends firings in a state and entries of it, on the way to each state at or below it.
fn append_taking(out: &mut List<Part>, state: u32, end: u32) -> Result<(), Memory>
    ensures { OnOk result (items_of out.new ≡ items_of out.old
        ++ (span (parts.Way Take state) state (end - state)
        ++ span (parts.Way Enter state) state (end - state))) }
{
    append_ways(out, Toward::Take, state, state, end)?;
    append_ways(out, Toward::Enter, state, state, end)
}

/// Appends what a firing in a state takes, with its default list.
pub(crate) fn append_group(
    alloc: Global,
    out: &mut List<Part>,
    chart: &Chart,
    state: u32,
) -> Result<(), Memory>
    requires { state < state_count (chart_of chart.now).tree }
    ensures { OnOk result (items_of out.new
        ≡ items_of out.old ++ spec.group_parts (chart_of chart.now) state) }
{
    let shape = chart.shape();
    let end = state + 1 + below_count(shape, state);
    append_leaving(out, state, end)?;
    append_by_default(alloc, out, chart, state)?;
    append_taking(out, state, end)?;
    Ok(())
}
