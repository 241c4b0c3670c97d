//! The parts of the transitions of a chart.
ghost use Rattle.std.specs.Prelude.{◌≡◌, ◌<◌, ◌≤◌, ◌++◌, length, OnOk};
ghost use Rattle.flow_base.specs.Lists.{items_of};
ghost use Rattle.active_config.specs.Tree.{state_count};
ghost use Rattle.checked_chart.specs.Chart.{junction_count};
ghost use Rattle.checked_chart.specs.Kept.{chart_of};
ghost use Rattle.checked_chart.specs.Views.{trans_seen, list_seen};
ghost use Rattle.chart_parts.specs.Parts as spec;
ghost use Rattle.flow_base.specs.declared.chart_limits.TheConstants.{TRANSITION_LIMIT};

use crate::part::{Owner, Part, TransPart};
use checked_chart::{Chart, ListKind, Trans};
use flow_base::{List, Memory};

/// Appends the parts of a transition.
fn append_transition(
    out: &mut List<Part>,
    owner: Owner,
    place: u32,
    t: &Trans,
) -> Result<(), Memory>
    ensures { OnOk result (items_of out.new
        ≡ items_of out.old ++ spec.trans_parts owner place (trans_seen t.now)) }
{
    if t.guard.is_some() {
        out.push(Part::Transition(TransPart::Guard, owner, place))?;
    }
    if !t.cond.items().is_empty() {
        out.push(Part::Transition(TransPart::ConditionOn, owner, place))?;
        out.push(Part::Transition(TransPart::ConditionBare, owner, place))?;
    }
    if !t.act.items().is_empty() {
        out.push(Part::Transition(TransPart::Action, owner, place))?;
    }
    Ok(())
}

/// Appends the parts of the transitions of a list.
fn append_transitions(out: &mut List<Part>, owner: Owner, list: &[Trans]) -> Result<(), Memory>
    requires { length (list_seen list.now) ≤ TRANSITION_LIMIT }
    ensures { OnOk result (items_of out.new
        ≡ items_of out.old ++ spec.list_parts owner 0 (list_seen list.now)) }
{
    for (place, t) in list.iter().enumerate() {
        append_transition(out, owner, place as u32, t)?;
    }
    Ok(())
}

/// Appends the parts of the transitions of a list of a state.
fn append_list_of(
    out: &mut List<Part>,
    chart: &Chart,
    state: u32,
    kind: ListKind,
) -> Result<(), Memory>
    requires { state < state_count (chart_of chart.now).tree }
    ensures { OnOk result (items_of out.new
        ≡ items_of out.old ++ spec.own_parts (chart_of chart.now) state kind) }
{
    // Only the proof reads the tree: the chart is valid.
    let _ = chart.shape();
    append_transitions(out, Owner::State(state, kind), chart.list(state, kind))
}

/// Appends the parts of the transitions of a state.
#[tactic(auto, unfolding(crate::specs::Parts::state_parts))]
pub(crate) fn append_transitions_of(
    out: &mut List<Part>,
    chart: &Chart,
    state: u32,
) -> Result<(), Memory>
    requires { state < state_count (chart_of chart.now).tree }
    ensures { OnOk result (items_of out.new
        ≡ items_of out.old ++ spec.state_parts (chart_of chart.now) state) }
{
    append_list_of(out, chart, state, ListKind::Outer)?;
    append_list_of(out, chart, state, ListKind::Inner)?;
    append_list_of(out, chart, state, ListKind::Default)
}

/// Appends the parts of the transitions of a junction.
pub(crate) fn append_junction(
    out: &mut List<Part>,
    chart: &Chart,
    junction: u32,
) -> Result<(), Memory>
    requires { junction < junction_count (chart_of chart.now) }
    ensures { OnOk result (items_of out.new
        ≡ items_of out.old ++ spec.junction_parts (chart_of chart.now) junction) }
{
    // Only the proof reads the tree: the chart is valid.
    let _ = chart.shape();
    append_transitions(out, Owner::Junction(junction), chart.junction(junction))
}
