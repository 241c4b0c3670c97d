//! The faults of destinations.
ghost use Rattle.std.specs.Prelude.{◌≡◌, ◌<◌, ℕ};
ghost use Rattle.active_config.specs.Tree as tree;
ghost use Rattle.active_config.specs.Tree.{state_count};
ghost use Rattle.chart_tree.specs.declared.fault.FormKind.{FormKind};
ghost use Rattle.chart_tree.specs.declared.first.FaultAt.{FaultAt};
ghost use Rattle.chart_tree.specs.First.{at_place, IsOne, Passed};
ghost use Rattle.checked_chart.specs.Reached.{Meets};
ghost use Rattle.chart_structure.specs.declared.net.Arrow.{Arrow};
ghost use Rattle.chart_structure.specs.Net as spec;
ghost use Rattle.chart_structure.specs.Reached.{links_of};
ghost use Rattle.chart_structure.specs.Structure.{StructureFault};
ghost use Rattle.chart_structure.specs.Tests as tests;

use crate::kept::with_fault;
use crate::net::{Arrow, Net};
use active_config::{Comp, Shape};
use chart_tree::{FaultAt, FormKind};
use checked_chart::{Dest, ListKind, outer_home};

/// Whether a state is another one or below it.
#[tactic(auto, unfolding(active_config::specs::Tree::is_at_or_below))]
fn is_at_or_below(shape: &Shape, state: u32, above: u32) -> bool
    requires state { state < state_count shape.now }
    requires above { above < state_count shape.now }
    ensures { result ≡ tree.is_at_or_below shape.now state above }
{
    state == above || shape.is_below(state, above)
}

/// What is wrong with a home of this composition.
fn crossing(word: Comp) -> Option<FormKind>
    ensures { result ≡ tests.crossing word }
{
    if word.is_or() {
        None
    } else {
        Some(FormKind::CrossesRegions)
    }
}

/// What is wrong with a state to which a list leads.
fn dest_fault(net: &Net<'_>, state: u32, kind: ListKind, dest: u32) -> Option<FormKind>
    requires state { state < state_count net.now.tree }
    requires dest { dest < state_count net.now.tree }
    ensures { result ≡ tests.dest_fault net.now state kind dest }
{
    let shape = net.shape();
    match kind {
        ListKind::Default => {
            if shape.is_below(dest, state) {
                None
            } else {
                Some(FormKind::DefaultLeaves)
            }
        }
        ListKind::Inner => {
            if is_at_or_below(shape, dest, state) {
                crossing(net.word(state))
            } else {
                Some(FormKind::InnerLeaves)
            }
        }
        ListKind::Outer => crossing(net.word(outer_home(shape, state, dest))),
    }
}

/// The first fault, with that of one destination.
fn with_dest(
    net: &Net<'_>,
    state: u32,
    kind: ListKind,
    arrow: Arrow,
    first: Option<FaultAt>,
) -> Option<FaultAt>
    requires state { state < state_count net.now.tree }
    requires dest { spec.IsDest net.now arrow.to }
    ensures { result ≡ tests.with_dest net.now state kind arrow.to arrow.to_at first }
{
    match arrow.to {
        Dest::Junction(_) => first,
        Dest::State(dest) => with_fault(dest_fault(net, state, kind, dest), arrow.to_at, first),
    }
}

/// The first fault, with those of the destinations of a list that is met.
pub fn with_dests(
    net: &Net<'_>,
    state: u32,
    kind: ListKind,
    list: &[Arrow],
    first: Option<FaultAt>,
) -> Option<FaultAt>
    requires state { state < state_count net.now.tree }
    requires dests { (a : Arrow) → spec.Has list.now a → spec.IsDest net.now a.to }
    requires met { Meets (links_of net.now) (spec.list_of net.now state kind) list.now }
    requires one { IsOne (StructureFault net.now) first }
    ensures one { IsOne (StructureFault net.now) result }
    ensures old { (f : FaultAt) → Passed first f → Passed result f }
    ensures new { (a : Arrow) (d : ℕ) (wrong : FormKind) →
        tests.IsDestFault net.now state kind list.now a d wrong → Passed result (at_place wrong a.to_at) }
{
    let mut kept = first;
    for arrow in list {
        kept = with_dest(net, state, kind, *arrow, kept);
    }
    kept
}
