//! The states of a chart text in pre-order.
ghost use Rattle.std.specs.Prelude.{◌≡◌, ◌++◌, map, vec_len, IfOk, OnOk};
ghost use Rattle.chart_tree.specs.Views.{state_of};
ghost use Rattle.chart_places.specs.Placed as spec;
ghost use Rattle.chart_places.specs.Survey.{placed_of, placed_row};

use chart_tree::StateText;
use flow_base::Memory;
use std::alloc::Global;

/// A state of a chart text.
#[derive(Clone, Copy)]
pub struct PlacedState<'a> {
    /// The number of its parent. The root alone has none.
    pub parent: Option<u32>,
    /// The state.
    pub state: &'a StateText,
}

/// Appends a state and those below it.
#[cycle(survey)]
fn place_state<'a>(
    places: &mut Vec<PlacedState<'a>>,
    parent: Option<u32>,
    state: &'a StateText,
) -> Result<(), Memory>
    ensures { OnOk result (map placed_of places.new.items ≡ map placed_of places.old.items
        ++ spec.placed_from parent (vec_len places.old) (state_of state.now)) }
{
    if places.len() > u32::MAX as usize {
        return Err(Memory);
    }
    let number = places.len() as u32;
    places.push(PlacedState { parent, state })?;
    place_below(places, number, state.states.items())
}

/// Appends child states of a state, and those below them.
#[cycle(survey)]
fn place_below<'a>(
    places: &mut Vec<PlacedState<'a>>,
    parent: u32,
    states: &'a [StateText],
) -> Result<(), Memory>
    ensures { OnOk result (map placed_of places.new.items ≡ map placed_of places.old.items
        ++ placed_row parent (vec_len places.old) (map state_of states.now)) }
{
    for state in states {
        place_state(places, Some(parent), state)?;
    }
    Ok(())
}

/// The states of a chart text in pre-order, the root first. 2^32 states or more count as out of
/// memory.
pub fn survey(alloc: Global, root: &StateText) -> Result<Vec<PlacedState<'_>>, Memory>
    ensures { IfOk result (λ v. map placed_of v.items ≡ spec.placed_states (state_of root.now)) }
{
    let mut places = Vec::new(alloc);
    place_state(&mut places, None, root)?;
    Ok(places)
}
