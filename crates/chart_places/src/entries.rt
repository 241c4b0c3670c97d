//! The tables of the names of states, junctions, events and data.
ghost use Rattle.std.specs.Prelude.{◌≡◌, ◌++◌, ◌∷◌, [], map, IfOk, OnOk};
ghost use Rattle.chart_tree.specs.Views.{var_of, chart_of};
ghost use Rattle.chart_places.specs.Survey.{placed_of, owned_of};
ghost use Rattle.chart_places.specs.Tables as spec;

use crate::junctions::OwnedJunction;
use crate::states::PlacedState;
use crate::table::{DeclaredNames, Entry};
use chart_tree::{ChartText, EventText, NameText, VarText};
use flow_base::Memory;
use std::alloc::Global;

/// Appends a name.
fn push<'a>(
    names: &mut Vec<Entry<'a>>,
    owner: Option<u32>,
    name: &'a NameText,
) -> Result<(), Memory>
    ensures { OnOk result (map spec.declared_of names.new.items ≡ map spec.declared_of names.old.items
        ++ record { owner = owner; name = name.now } ∷ []) }
{
    names.push(Entry { owner, name })?;
    Ok(())
}

/// The names of states, each in its parent.
#[tactic(auto, using(crate::proofs::SurveyLemmas::named))]
fn of_states<'a>(alloc: Global, states: &[PlacedState<'a>]) -> Result<DeclaredNames<'a>, Memory>
    ensures { IfOk result (λ t. t ≡ map spec.state_name (map placed_of states.now)) }
{
    let mut names = Vec::new(alloc);
    for place in states {
        push(&mut names, place.parent, &place.state.name)?;
    }
    let table = DeclaredNames::make(alloc, names)?;
    Ok(table)
}

/// The names of junctions, each in its state.
fn of_junctions<'a>(
    alloc: Global,
    junctions: &[OwnedJunction<'a>],
) -> Result<DeclaredNames<'a>, Memory>
    ensures { IfOk result (λ t. t ≡ map spec.junction_name (map owned_of junctions.now)) }
{
    let mut names = Vec::new(alloc);
    for owned in junctions {
        push(&mut names, Some(owned.owner), &owned.junction.name)?;
    }
    let table = DeclaredNames::make(alloc, names)?;
    Ok(table)
}

/// The names of events.
fn of_events(alloc: Global, events: &[EventText]) -> Result<DeclaredNames<'_>, Memory>
    ensures { IfOk result (λ t. t ≡ map spec.event_name events.now) }
{
    let mut names = Vec::new(alloc);
    for event in events {
        push(&mut names, None, &event.name)?;
    }
    let table = DeclaredNames::make(alloc, names)?;
    Ok(table)
}

/// The names of data.
fn of_vars(alloc: Global, vars: &[VarText]) -> Result<DeclaredNames<'_>, Memory>
    ensures { IfOk result (λ t. t ≡ map spec.var_name (map var_of vars.now)) }
{
    let mut names = Vec::new(alloc);
    for var in vars {
        push(&mut names, None, &var.name)?;
    }
    let table = DeclaredNames::make(alloc, names)?;
    Ok(table)
}

/// The names of states and those of junctions.
pub fn of_tree<'a>(
    alloc: Global,
    states: &[PlacedState<'a>],
    junctions: &[OwnedJunction<'a>],
) -> Result<(DeclaredNames<'a>, DeclaredNames<'a>), Memory>
    ensures states { IfOk result (λ t. t.0 ≡ map spec.state_name (map placed_of states.now)) }
    ensures junctions { IfOk result (λ t.
        t.1 ≡ map spec.junction_name (map owned_of junctions.now)) }
{
    let states = of_states(alloc, states)?;
    match of_junctions(alloc, junctions) {
        Ok(junctions) => Ok((states, junctions)),
        Err(refused) => {
            drop(states);
            Err(refused)
        }
    }
}

/// The names of events and those of data.
pub fn of_declarations(
    alloc: Global,
    chart: &ChartText,
) -> Result<(DeclaredNames<'_>, DeclaredNames<'_>), Memory>
    ensures events { IfOk result (λ t. t.0 ≡ map spec.event_name (chart_of chart.now).events) }
    ensures vars { IfOk result (λ t. t.1 ≡ map spec.var_name (chart_of chart.now).vars) }
{
    let events = of_events(alloc, chart.events.items())?;
    match of_vars(alloc, chart.vars.items()) {
        Ok(vars) => Ok((events, vars)),
        Err(refused) => {
            drop(events);
            Err(refused)
        }
    }
}
