//! The children of a state.
ghost use Rattle.std.specs.Prelude.{◌≡◌, ◌<◌, IfOk};
ghost use Rattle.std.specs.List.{AllByRecursion};
ghost use Rattle.flow_base.specs.Lists.{items_of};
ghost use Rattle.active_config.specs.Tree.{IsTree, state_count, children_of};

use active_config::Shape;
use flow_base::{List, Memory};
use std::alloc::Global;

/// The children of a state, in order.
pub(crate) fn children(alloc: Global, shape: &Shape, state: u32) -> Result<List<u32>, Memory>
    requires tree { IsTree shape.now }
    requires state { state < state_count shape.now }
    ensures children { IfOk result (λ list. items_of list ≡ children_of shape.now state) }
    ensures within { IfOk result (λ list.
        AllByRecursion (λ x. x < state_count shape.now) (items_of list)) }
{
    let mut list = List::of(Vec::new(alloc));
    let mut next = shape.first_child(state);
    while let Some(child) = next {
        list.push(child)?;
        next = shape.next_sibling(child);
    }
    Ok(list)
}
