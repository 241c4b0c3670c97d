//! The resolved chart of a chart text.
ghost use Rattle.std.specs.Prelude.{◌≡◌, ◌<◌, ◌^◌, length, map, IfOk, IfErr};
ghost use Rattle.chart_tree.specs.Views.{chart_of};
ghost use Rattle.chart_places.specs.Placed.{placed_states, placed_junctions};
ghost use Rattle.chart_places.specs.Scopes.{scopes_of};
ghost use Rattle.chart_places.specs.Survey.{placed_of, owned_of};
ghost use Rattle.resolved_tree.specs.Views.{resolved_of};
ghost use Rattle.chart_scope.specs.Names.{Refuses};
ghost use Rattle.chart_scope.specs.Resolution.{IsResolved};

use crate::parts::resolve_parts;
use chart_places::{OwnedJunction, PlacedState, Scopes, junctions_of, shape_of, survey};
use chart_tree::{ChartText, FormFault};
use flow_base::Memory;
use resolved_tree::Resolved;
use std::alloc::Global;

/// The resolved chart of a chart text, given its states and junctions and the scopes of its names,
/// whose tree it takes.
fn resolve_in(
    alloc: Global,
    scopes: Scopes<'_>,
    chart: &ChartText,
    states: &[PlacedState<'_>],
    junctions: &[OwnedJunction<'_>],
) -> Result<Resolved, FormFault>
    requires scopes { scopes ≡ scopes_of (chart_of chart.now) }
    requires states { map placed_of states.now ≡ placed_states (chart_of chart.now).root }
    requires junctions { map owned_of junctions.now
        ≡ placed_junctions (placed_states (chart_of chart.now).root) }
    requires few_states { length states.now < 2 ^ 32 }
    requires few_junctions { length junctions.now < 2 ^ 32 }
    requires few_events { length (chart_of chart.now).events < 2 ^ 32 }
    requires few_vars { length (chart_of chart.now).vars < 2 ^ 32 }
    ensures resolved { IfOk result (λ r. IsResolved (chart_of chart.now) (resolved_of r)) }
    ensures refused { IfErr result (Refuses (chart_of chart.now)) }
{
    let parts = resolve_parts(alloc, &scopes, chart, states, junctions);
    let shape = scopes.into_shape();
    let parts = parts?;
    Ok(Resolved {
        shape,
        names: parts.names,
        inits: parts.inits,
        states: parts.states,
        junctions: parts.junctions,
    })
}

/// The scopes of the names of a chart text, given its states and junctions.
fn scopes_in<'a>(
    alloc: Global,
    chart: &'a ChartText,
    states: &[PlacedState<'a>],
    junctions: &[OwnedJunction<'a>],
) -> Result<Scopes<'a>, Memory>
    requires few { length states.now < 2 ^ 32 }
    requires states { map placed_of states.now ≡ placed_states (chart_of chart.now).root }
    requires junctions { map owned_of junctions.now
        ≡ placed_junctions (placed_states (chart_of chart.now).root) }
    ensures { IfOk result (λ p. p ≡ scopes_of (chart_of chart.now)) }
{
    let shape = shape_of(alloc, states)?;
    Scopes::make(alloc, shape, states, junctions, chart)
}

/// The resolved chart of a chart text, given its states and junctions.
fn resolve_placed(
    alloc: Global,
    chart: &ChartText,
    states: &[PlacedState<'_>],
    junctions: &[OwnedJunction<'_>],
) -> Result<Resolved, FormFault>
    requires states { map placed_of states.now ≡ placed_states (chart_of chart.now).root }
    requires junctions { map owned_of junctions.now
        ≡ placed_junctions (placed_states (chart_of chart.now).root) }
    requires few_states { length states.now < 2 ^ 32 }
    requires few_junctions { length junctions.now < 2 ^ 32 }
    requires few_events { length (chart_of chart.now).events < 2 ^ 32 }
    requires few_vars { length (chart_of chart.now).vars < 2 ^ 32 }
    ensures resolved { IfOk result (λ r. IsResolved (chart_of chart.now) (resolved_of r)) }
    ensures refused { IfErr result (Refuses (chart_of chart.now)) }
{
    let Ok(scopes) = scopes_in(alloc, chart, states, junctions) else {
        return Err(FormFault::Memory);
    };
    resolve_in(alloc, scopes, chart, states, junctions)
}

/// The resolved chart of a chart text, or the first fault of its names, by place, and at one place
/// by number.
pub fn resolve(alloc: Global, chart: &ChartText) -> Result<Resolved, FormFault>
    requires states { length (placed_states (chart_of chart.now).root) < 2 ^ 32 }
    requires junctions { length (scopes_of (chart_of chart.now)).junctions < 2 ^ 32 }
    requires events { length (chart_of chart.now).events < 2 ^ 32 }
    requires vars { length (chart_of chart.now).vars < 2 ^ 32 }
    ensures resolved { IfOk result (λ r. IsResolved (chart_of chart.now) (resolved_of r)) }
    ensures refused { IfErr result (Refuses (chart_of chart.now)) }
{
    let Ok(states) = survey(alloc, &chart.root) else {
        return Err(FormFault::Memory);
    };
    let Ok(junctions) = junctions_of(alloc, &states) else {
        return Err(FormFault::Memory);
    };
    resolve_placed(alloc, chart, &states, &junctions)
}
