//! The pass over a resolved chart.
ghost use Rattle.std.specs.Prelude.{◌≡◌, map};
ghost use Rattle.std.specs.List.{AllByRecursion, flat_map};
ghost use Rattle.flow_base.specs.Lists.{items_of};
ghost use Rattle.actions.specs.Names.{names_of};
ghost use Rattle.resolved_tree.specs.Faults.{first_with, first_of};
ghost use Rattle.resolved_tree.specs.Promise.{KeepsPromise, IsStateOf, AreTrans};
ghost use Rattle.resolved_tree.specs.Resolved.{Junction};
ghost use Rattle.resolved_tree.specs.Views.{state_of, junction_of, resolved_of};
ghost use Rattle.chart_types.specs.Types as spec;

use crate::inits::with_inits;
use crate::statements::with_block;
use crate::transitions::with_list;
use chart_tree::FaultAt;
use resolved_tree::{Resolved, ResolvedJunction, ResolvedState};

/// The first fault, with those of a state.
#[tactic(auto, using(crate::proofs::FaultLemmas::steps))]
fn with_state(resolved: &Resolved, state: &ResolvedState, found: Option<FaultAt>) -> Option<FaultAt>
    requires { IsStateOf (resolved_of resolved.now) (state_of state.now) }
    ensures { result ≡ first_with found
        (spec.state_faults (names_of resolved.now.names) (state_of state.now)) }
{
    let found = with_block(resolved, state.entry.items(), found);
    let found = with_block(resolved, state.during.items(), found);
    let found = with_block(resolved, state.exit.items(), found);
    let found = with_list(resolved, state.outer.items(), found);
    let found = with_list(resolved, state.inner.items(), found);
    with_list(resolved, state.default.items(), found)
}

/// The first fault, with those of states.
fn with_states(
    resolved: &Resolved,
    states: &[ResolvedState],
    found: Option<FaultAt>,
) -> Option<FaultAt>
    requires { AllByRecursion (IsStateOf (resolved_of resolved.now)) (map state_of states.now) }
    ensures { result ≡ first_with found
        (flat_map (spec.state_faults (names_of resolved.now.names)) (map state_of states.now)) }
{
    let mut first = found;
    for state in states {
        first = with_state(resolved, state, first);
    }
    first
}

/// The first fault, with those of a junction.
fn with_junction(
    resolved: &Resolved,
    junction: &ResolvedJunction,
    found: Option<FaultAt>,
) -> Option<FaultAt>
    requires { AreTrans (resolved_of resolved.now) (junction_of junction.now).list }
    ensures { result ≡ first_with found
        (spec.list_faults (names_of resolved.now.names) (junction_of junction.now).list) }
{
    with_list(resolved, junction.list.items(), found)
}

/// The first fault, with those of junctions.
fn with_junctions(
    resolved: &Resolved,
    junctions: &[ResolvedJunction],
    found: Option<FaultAt>,
) -> Option<FaultAt>
    requires { AllByRecursion (λ (j : Junction). AreTrans (resolved_of resolved.now) j.list)
        (map junction_of junctions.now) }
    ensures { result ≡ first_with found
        (flat_map (λ (j : Junction). spec.list_faults (names_of resolved.now.names) j.list)
        (map junction_of junctions.now)) }
{
    let mut first = found;
    for junction in junctions {
        first = with_junction(resolved, junction, first);
    }
    first
}

/// The first fault of the types of a resolved chart, by place, and at one place by number. It takes
/// no memory.
#[tactic(auto, using(crate::proofs::FaultLemmas::steps), unfolding(resolved_tree::specs::Faults::first_of, crate::specs::Types::type_faults))]
pub fn first_type_fault(resolved: &Resolved) -> Option<FaultAt>
    requires { KeepsPromise (resolved_of resolved.now) }
    ensures { result ≡ first_of (spec.type_faults (resolved_of resolved.now)) }
{
    let found = with_inits(resolved.names.vars.items(), resolved.inits.items(), None);
    let found = with_states(resolved, resolved.states.items(), found);
    with_junctions(resolved, resolved.junctions.items(), found)
}
