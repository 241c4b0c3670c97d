//! The faults of states: their compositions, default lists and history.
ghost use Rattle.std.specs.Prelude.{◌≡◌, ◌≢◌, ◌<◌, ◌↔◌, Some, slice_get, [], IsTrue};
ghost use Rattle.token_grammar.specs.declared.token.Span.{Span};
ghost use Rattle.active_config.specs.declared.comp.Comp.TheVariants as comps;
ghost use Rattle.active_config.specs.Tree.{state_count, children_of};
ghost use Rattle.chart_tree.specs.declared.fault.FormKind.{FormKind};
ghost use Rattle.chart_tree.specs.declared.fault.FormKind.TheVariants as kinds;
ghost use Rattle.chart_tree.specs.declared.first.FaultAt.{FaultAt};
ghost use Rattle.chart_tree.specs.First.{at_place, IsOne, Passed};
ghost use Rattle.checked_chart.specs.declared.parts.ListKind.TheVariants.{Default};
ghost use Rattle.chart_structure.specs.declared.net.Arrow.{Arrow};
ghost use Rattle.chart_structure.specs.Net as spec;
ghost use Rattle.chart_structure.specs.Structure.{StateFault, StructureFault};
ghost use Rattle.chart_structure.specs.Tests as tests;

use crate::kept::with_fault;
use crate::lists::is_empty;
use crate::net::Net;
use active_config::Comp;
use chart_tree::{FaultAt, FormKind, keep};
use checked_chart::ListKind;

/// Whether a composition word is a leaf.
fn is_leaf(word: Comp) -> bool
    ensures { result ≡ tests.is_leaf word }
{
    match word {
        Comp::Leaf => true,
        Comp::Or | Comp::And => false,
    }
}

/// What is wrong with the composition of a state.
fn comp_fault(root: bool, word: Comp, childless: bool, listless: bool) -> Option<FormKind>
    ensures { result ≡ tests.comp_fault root word childless listless }
{
    if childless {
        if root || !is_leaf(word) {
            Some(FormKind::EmptyComposition)
        } else {
            None
        }
    } else if word.is_or() && listless {
        Some(FormKind::DefaultMissing)
    } else {
        None
    }
}

/// Whether a state has no children.
fn is_childless(net: &Net<'_>, state: u32) -> bool
    requires state { state < state_count net.now.tree }
    ensures { IsTrue result ↔ (children_of net.now.tree state ≡ []) }
{
    net.shape().first_child(state).is_none()
}

/// Whether a state is the root.
fn is_root(state: u32) -> bool
    ensures { IsTrue result ↔ (state ≡ 0) }
{
    state == 0
}

/// The first fault, with that of the composition of a state.
fn with_composition(net: &Net<'_>, state: u32, first: Option<FaultAt>) -> Option<FaultAt>
    requires state { state < state_count net.now.tree }
    requires one { IsOne (StructureFault net.now) first }
    ensures one { IsOne (StructureFault net.now) result }
    ensures old { (f : FaultAt) → Passed first f → Passed result f }
    ensures new { (wrong : FormKind) → tests.IsCompFault net.now state wrong →
        Passed result (at_place wrong (spec.name_of net.now state)) }
{
    let wrong = comp_fault(
        is_root(state),
        net.word(state),
        is_childless(net, state),
        is_empty(net.list(state, ListKind::Default)),
    );
    with_fault(wrong, net.name(state), first)
}

/// The first fault, with that of a default list in an AND or a leaf.
fn with_unwanted(net: &Net<'_>, state: u32, first: Option<FaultAt>) -> Option<FaultAt>
    requires state { state < state_count net.now.tree }
    requires one { IsOne (StructureFault net.now) first }
    ensures one { IsOne (StructureFault net.now) result }
    ensures old { (f : FaultAt) → Passed first f → Passed result f }
    ensures new { (a : Arrow) → spec.word_of net.now state ≢ comps.Or
        → slice_get (spec.list_of net.now state Default) 0 ≡ Some a
        → Passed result (at_place kinds.DefaultUnwanted a.at) }
{
    let list = net.list(state, ListKind::Default);
    if net.word(state).is_or() || is_empty(list) {
        return first;
    }
    let kind = FormKind::DefaultUnwanted;
    keep(
        first,
        FaultAt {
            kind,
            at: list[0].at,
        },
    )
}

/// The first fault, with that of history in an AND or a leaf.
fn with_history(net: &Net<'_>, state: u32, first: Option<FaultAt>) -> Option<FaultAt>
    requires state { state < state_count net.now.tree }
    requires one { IsOne (StructureFault net.now) first }
    ensures one { IsOne (StructureFault net.now) result }
    ensures old { (f : FaultAt) → Passed first f → Passed result f }
    ensures new { (at : Span) → spec.word_of net.now state ≢ comps.Or
        → spec.history_of net.now state ≡ Some at
        → Passed result (at_place kinds.HistoryUnwanted at) }
{
    match net.history(state) {
        None => first,
        Some(at) => {
            if net.word(state).is_or() {
                first
            } else {
                let kind = FormKind::HistoryUnwanted;
                keep(first, FaultAt { kind, at })
            }
        }
    }
}

/// The first fault, with those of a state.
pub fn with_state(net: &Net<'_>, state: u32, first: Option<FaultAt>) -> Option<FaultAt>
    requires state { state < state_count net.now.tree }
    requires one { IsOne (StructureFault net.now) first }
    ensures one { IsOne (StructureFault net.now) result }
    ensures old { (f : FaultAt) → Passed first f → Passed result f }
    ensures new { (f : FaultAt) → StateFault net.now state f → Passed result f }
{
    let composed = with_composition(net, state, first);
    let unwanted = with_unwanted(net, state, composed);
    with_history(net, state, unwanted)
}
