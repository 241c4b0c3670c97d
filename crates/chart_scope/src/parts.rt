//! What a resolved chart has beside the tree of its states.
ghost use Rattle.std.specs.Prelude.{◌≡◌, ◌<◌, ◌^◌, None, length, map, IfOk, IfErr};
ghost use Rattle.actions.specs.Names.{names_of};
ghost use Rattle.chart_tree.specs.Views.{chart_of};
ghost use Rattle.chart_places.specs.Placed.{Placed, placed_states, placed_junctions};
ghost use Rattle.chart_places.specs.Scopes.{scopes_of};
ghost use Rattle.chart_places.specs.Survey.{placed_of, owned_of};
ghost use Rattle.resolved_tree.specs.Faults.{first_with};
ghost use Rattle.chart_scope.specs.Names.{Refuses};
ghost use Rattle.chart_scope.specs.Parts.{doubled_names, with_tree};
ghost use Rattle.chart_scope.specs.Resolution.{AreVarsOf, IsResolved, event_decl};

use crate::doubled::{with_events, with_junctions, with_states, with_vars};
use crate::{declarations, states};
use actions::Names;
use chart_places::{OwnedJunction, PlacedState, Scopes};
use chart_tree::{ChartText, FaultAt, FormFault, InitText};
use flow_base::List;
use resolved_tree::{ResolvedJunction, ResolvedState};
use std::alloc::{AllocError, Global};

/// What a resolved chart has beside the tree of its states.
#[derive(Drop)]
pub(crate) struct Parts {
    pub names: Names,
    pub inits: List<InitText>,
    pub states: List<ResolvedState>,
    pub junctions: List<ResolvedJunction>,
}

/// The names of the states, the data and the events of a chart text.
fn names(alloc: Global, chart: &ChartText, states: &[PlacedState<'_>]) -> Result<Names, AllocError>
    ensures states { IfOk result (λ r. (names_of r).states
        ≡ map (λ (x : Placed). x.parts.name.text) (map placed_of states.now)) }
    ensures vars { IfOk result (λ r. AreVarsOf (chart_of chart.now).vars (names_of r).vars) }
    ensures events { IfOk result (λ r. (names_of r).events
        ≡ map event_decl (chart_of chart.now).events) }
{
    Ok(Names {
        states: declarations::state_names(alloc, states)?,
        vars: declarations::vars(alloc, chart.vars.items())?,
        events: declarations::events(alloc, chart.events.items())?,
    })
}

/// The first fault of names that stand twice.
fn names_twice(
    scopes: &Scopes<'_>,
    chart: &ChartText,
    states: &[PlacedState<'_>],
    junctions: &[OwnedJunction<'_>],
) -> Option<FaultAt>
    requires scopes { scopes.now ≡ scopes_of (chart_of chart.now) }
    requires states { map placed_of states.now ≡ placed_states (chart_of chart.now).root }
    requires junctions { map owned_of junctions.now
        ≡ placed_junctions (placed_states (chart_of chart.now).root) }
    requires few_states { length states.now < 2 ^ 32 }
    requires few_junctions { length junctions.now < 2 ^ 32 }
    requires few_events { length (chart_of chart.now).events < 2 ^ 32 }
    requires few_vars { length (chart_of chart.now).vars < 2 ^ 32 }
    ensures { result ≡ first_with None (doubled_names scopes.now) }
{
    let mut found: Option<FaultAt> = None;
    with_events(scopes, chart.events.items(), &mut found);
    with_vars(scopes, chart.vars.items(), &mut found);
    with_states(scopes, states, &mut found);
    with_junctions(scopes, junctions, &mut found);
    found
}

/// What the resolved chart of a chart text has beside its tree, given its states and junctions and
/// the scopes of its names; or the first fault of its names.
pub(crate) fn resolve_parts(
    alloc: Global,
    scopes: &Scopes<'_>,
    chart: &ChartText,
    states: &[PlacedState<'_>],
    junctions: &[OwnedJunction<'_>],
) -> Result<Parts, FormFault>
    requires scopes { scopes.now ≡ scopes_of (chart_of chart.now) }
    requires states { map placed_of states.now ≡ placed_states (chart_of chart.now).root }
    requires junctions { map owned_of junctions.now
        ≡ placed_junctions (placed_states (chart_of chart.now).root) }
    requires few_states { length states.now < 2 ^ 32 }
    requires few_junctions { length junctions.now < 2 ^ 32 }
    requires few_events { length (chart_of chart.now).events < 2 ^ 32 }
    requires few_vars { length (chart_of chart.now).vars < 2 ^ 32 }
    ensures resolved { IfOk result (λ p. IsResolved (chart_of chart.now)
        (with_tree scopes.now.tree p)) }
    ensures refused { IfErr result (Refuses (chart_of chart.now)) }
{
    let mut found = names_twice(scopes, chart, states, junctions);
    let built_states = states::states(alloc, scopes, states, &mut found)?;
    let built_junctions = states::junctions(alloc, scopes, junctions, &mut found)?;
    match found {
        Some(fault) => Err(FormFault::At(fault.kind, fault.at)),
        None => Ok(Parts {
            inits: declarations::inits(alloc, chart.vars.items())?,
            names: names(alloc, chart, states)?,
            states: built_states,
            junctions: built_junctions,
        }),
    }
}
