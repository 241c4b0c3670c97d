//! The tree of the states of a chart text.
ghost use Rattle.std.specs.Prelude.{◌≡◌, ◌<◌, ◌^◌, length, map, IfOk};
ghost use Rattle.active_config.specs.Tree.{IsTree};
ghost use Rattle.chart_places.specs.Placed as spec;
ghost use Rattle.chart_places.specs.Survey.{placed_of, parent_numbers};

use crate::states::PlacedState;
use active_config::{Comp, Shape};
use chart_tree::CompText;
use flow_base::Memory;
use std::alloc::{AllocError, Global};

/// The composition of a state with children that has the word: an OR where no word stands.
fn parent_comp(word: CompText) -> Comp
    ensures { result ≡ spec.parent_comp word }
{
    match word {
        CompText::None => Comp::Or,
        CompText::Or => Comp::Or,
        CompText::And => Comp::And,
    }
}

/// The composition of a state. Without children it is a leaf, whatever its word.
#[tactic(auto, using(crate::proofs::SurveyLemmas::seen))]
fn placed_comp(place: PlacedState<'_>) -> Comp
    ensures { result ≡ spec.placed_comp (placed_of place.entry) }
{
    if place.state.states.items().is_empty() {
        Comp::Leaf
    } else {
        parent_comp(place.state.comp)
    }
}

/// The parents of states, 0 for the root.
fn parents(alloc: Global, states: &[PlacedState<'_>]) -> Result<Vec<u32>, AllocError>
    ensures { IfOk result (λ v. v.items ≡ parent_numbers (map placed_of states.now)) }
{
    let mut parents = Vec::new(alloc);
    for place in states {
        parents.push(place.parent.unwrap_or(0))?;
    }
    Ok(parents)
}

/// The compositions of states.
fn comps(alloc: Global, states: &[PlacedState<'_>]) -> Result<Vec<Comp>, AllocError>
    ensures { IfOk result (λ v. v.items ≡ map spec.placed_comp (map placed_of states.now)) }
{
    let mut comps = Vec::new(alloc);
    for place in states {
        comps.push(placed_comp(*place))?;
    }
    Ok(comps)
}

/// The tree of the states of a chart text, which are in pre-order.
pub fn shape_of(alloc: Global, states: &[PlacedState<'_>]) -> Result<Shape, Memory>
    requires few { length states.now < 2 ^ 32 }
    requires tree { IsTree (spec.placed_tree (map placed_of states.now)) }
    ensures { IfOk result (λ t. t ≡ spec.placed_tree (map placed_of states.now)) }
{
    let parents = parents(alloc, states)?;
    let comps = comps(alloc, states)?;
    match Shape::make(alloc, parents, comps) {
        Ok(shape) => Ok(shape),
        Err(_) => Err(Memory),
    }
}
