//! The faults of lists, and of the junctions that are reached from them.
ghost use Rattle.std.specs.Prelude.{◌≡◌, ◌<◌, ◌↔◌, ℕ, List, [], length, true, slice_index, IsTrue};
ghost use Rattle.active_config.specs.Tree.{state_count};
ghost use Rattle.chart_tree.specs.declared.fault.FormKind.TheVariants as kinds;
ghost use Rattle.chart_tree.specs.declared.first.FaultAt.{FaultAt};
ghost use Rattle.chart_tree.specs.First.{at_place, IsOne, Passed};
ghost use Rattle.checked_chart.specs.declared.parts.ListKind.TheVariants.{Default};
ghost use Rattle.checked_chart.specs.Reached.{Reached, Meets};
ghost use Rattle.chart_structure.specs.declared.net.Arrow.{Arrow};
ghost use Rattle.chart_structure.specs.Marks.{IsIn};
ghost use Rattle.chart_structure.specs.Net as spec;
ghost use Rattle.chart_structure.specs.Reached.{links_of};
ghost use Rattle.chart_structure.specs.Structure.{IsLast, ListFault, StructureFault};

use crate::dests::with_dests;
use crate::net::{Arrow, Net};
use chart_tree::{FaultAt, FormKind, keep};
use checked_chart::ListKind;

/// Whether a list has no transitions.
pub fn is_empty(list: &[Arrow]) -> bool
    ensures { IsTrue result ↔ (list.now ≡ []) }
{
    list.is_empty()
}

/// Whether a transition has an event or a guard.
fn is_open(arrow: Arrow) -> bool
    ensures { result ≡ arrow.«open» }
{
    arrow.open
}

/// The first fault, with that of the last transition of a list that is met from a default list.
fn with_last(net: &Net<'_>, state: u32, list: &[Arrow], first: Option<FaultAt>) -> Option<FaultAt>
    requires state { state < state_count net.now.tree }
    requires met { Meets (links_of net.now) (spec.list_of net.now state Default) list.now }
    requires one { IsOne (StructureFault net.now) first }
    ensures one { IsOne (StructureFault net.now) result }
    ensures old { (f : FaultAt) → Passed first f → Passed result f }
    ensures new { (a : Arrow) → IsLast list.now a → a.«open» ≡ true →
        Passed result (at_place kinds.DefaultOpen a.at) }
{
    // Only the contract reads these: the list is met from one of this state.
    let _ = net;
    let _ = state;
    if is_empty(list) {
        return first;
    }
    let last = list[list.len() - 1];
    if is_open(last) {
        let kind = FormKind::DefaultOpen;
        keep(first, FaultAt { kind, at: last.at })
    } else {
        first
    }
}

/// The first fault, with those of a list that is met.
pub fn with_list(
    net: &Net<'_>,
    state: u32,
    kind: ListKind,
    list: &[Arrow],
    first: Option<FaultAt>,
) -> Option<FaultAt>
    requires state { state < state_count net.now.tree }
    requires dests { (a : Arrow) → spec.Has list.now a → spec.IsDest net.now a.to }
    requires met { Meets (links_of net.now) (spec.list_of net.now state kind) list.now }
    requires one { IsOne (StructureFault net.now) first }
    ensures one { IsOne (StructureFault net.now) result }
    ensures old { (f : FaultAt) → Passed first f → Passed result f }
    ensures new { (f : FaultAt) → ListFault net.now state list.now kind f → Passed result f }
{
    let kept = with_dests(net, state, kind, list, first);
    match kind {
        ListKind::Default => with_last(net, state, list, kept),
        ListKind::Outer => kept,
        ListKind::Inner => kept,
    }
}

/// The first fault, with those of a junction that is reached.
fn with_junction(
    net: &Net<'_>,
    state: u32,
    kind: ListKind,
    junction: u32,
    first: Option<FaultAt>,
) -> Option<FaultAt>
    requires state { state < state_count net.now.tree }
    requires within { junction < spec.junction_count net.now }
    requires reached { Reached (links_of net.now) (spec.list_of net.now state kind) junction }
    requires one { IsOne (StructureFault net.now) first }
    ensures one { IsOne (StructureFault net.now) result }
    ensures old { (f : FaultAt) → Passed first f → Passed result f }
    ensures new { (f : FaultAt) → ListFault net.now state (spec.junction_list net.now junction) kind f
        → Passed result f }
    ensures empty { kind ≡ Default → spec.junction_list net.now junction ≡ [] →
        Passed result (at_place kinds.DefaultOpen (spec.junction_name net.now junction)) }
{
    let list = net.junction(junction);
    let kept = with_list(net, state, kind, list, first);
    match kind {
        ListKind::Default => {
            if is_empty(list) {
                let kind = FormKind::DefaultOpen;
                let at = net.junction_name(junction);
                keep(kept, FaultAt { kind, at })
            } else {
                kept
            }
        }
        ListKind::Outer => kept,
        ListKind::Inner => kept,
    }
}

/// The first fault, with those of the junctions that are reached.
pub fn with_junctions(
    net: &Net<'_>,
    state: u32,
    kind: ListKind,
    found: &[u32],
    first: Option<FaultAt>,
) -> Option<FaultAt>
    requires state { state < state_count net.now.tree }
    requires within { (i : ℕ) → i < length found.now → slice_index found.now i < spec.junction_count net.now }
    requires reached { (i : ℕ) → i < length found.now →
        Reached (links_of net.now) (spec.list_of net.now state kind) (slice_index found.now i) }
    requires one { IsOne (StructureFault net.now) first }
    ensures one { IsOne (StructureFault net.now) result }
    ensures old { (f : FaultAt) → Passed first f → Passed result f }
    ensures new { (j : ℕ) → IsIn found.now j → (f : FaultAt) →
        ListFault net.now state (spec.junction_list net.now j) kind f → Passed result f }
    ensures empty { kind ≡ Default → (j : ℕ) → IsIn found.now j → spec.junction_list net.now j ≡ [] →
        Passed result (at_place kinds.DefaultOpen (spec.junction_name net.now j)) }
{
    let mut kept = first;
    for junction in found {
        kept = with_junction(net, state, kind, *junction, kept);
    }
    kept
}
