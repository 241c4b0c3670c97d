//! The junctions of a chart text in the order of the text.
ghost use Rattle.std.specs.Prelude.{◌≡◌, ◌<◌, ◌≤◌, ◌^◌, length, map, IfOk, OnOk};
ghost use Rattle.std.specs.List.{insert};
ghost use Rattle.chart_tree.specs.Views.{junction_of};
ghost use Rattle.chart_places.specs.Placed as spec;
ghost use Rattle.chart_places.specs.Survey.{placed_of, owned_of, IsInOrder};

use crate::scopes::is_earlier;
use crate::states::PlacedState;
use chart_tree::JunctionText;
use flow_base::Memory;
use std::alloc::{AllocError, Global};

/// A junction of a chart text.
#[derive(Clone, Copy)]
pub struct OwnedJunction<'a> {
    /// The number of the state in which it stands.
    pub owner: u32,
    /// The junction.
    pub junction: &'a JunctionText,
}

/// Where a junction is to be put among those in order: right after the last one that stands ahead
/// of it in the text, or has its place.
fn place_among(all: &[OwnedJunction<'_>], new: OwnedJunction<'_>) -> usize
    requires { IsInOrder (map owned_of all.now) }
    ensures within { result ≤ length all.now }
    ensures place { spec.inserted (owned_of new.entry) (map owned_of all.now)
        ≡ insert (map owned_of all.now) result (owned_of new.entry) }
{
    let mut at = all.len();
    while at > 0 {
        if !is_earlier(new.junction.name.at, all[at - 1].junction.name.at) {
            return at;
        }
        at -= 1;
    }
    0
}

/// Puts the junctions of a state among those in order.
fn place_junctions<'a>(
    all: &mut Vec<OwnedJunction<'a>>,
    owner: u32,
    junctions: &'a [JunctionText],
) -> Result<(), AllocError>
    requires { IsInOrder (map owned_of all.old.items) }
    ensures { OnOk result (map owned_of all.new.items ≡ spec.in_text_order (map owned_of all.old.items)
        (spec.owned_by owner (map junction_of junctions.now))) }
{
    for junction in junctions {
        let new = OwnedJunction { owner, junction };
        let at = place_among(all, new);
        all.insert(at, new)?;
    }
    Ok(())
}

/// The junctions of all states in order.
fn collect<'a>(
    alloc: Global,
    states: &[PlacedState<'a>],
) -> Result<Vec<OwnedJunction<'a>>, AllocError>
    requires { length states.now < 2 ^ 32 }
    ensures { IfOk result (λ v. map owned_of v.items ≡ spec.placed_junctions (map placed_of states.now)) }
{
    let mut all = Vec::new(alloc);
    for (i, place) in states.iter().enumerate() {
        place_junctions(&mut all, i as u32, place.state.junctions.items())?;
    }
    Ok(all)
}

/// The junctions of the states of a chart text, in the order in which their names stand in it.
pub fn junctions_of<'a>(
    alloc: Global,
    states: &[PlacedState<'a>],
) -> Result<Vec<OwnedJunction<'a>>, Memory>
    requires few { length states.now < 2 ^ 32 }
    ensures { IfOk result (λ v. map owned_of v.items ≡ spec.placed_junctions (map placed_of states.now)) }
{
    Ok(collect(alloc, states)?)
}
