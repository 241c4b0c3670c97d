//! How many ORs stand before each state.
ghost use Rattle.std.specs.Prelude.{◌≡◌, ◌<◌, IfOk, if◌then◌else◌};
ghost use Rattle.active_config.specs.Tree.{comp_of, state_count, is_or};
ghost use Rattle.c_shape.specs.Parts.{AreRanks};

use active_config::{Comp, Shape};
use flow_base::Memory;
use std::alloc::Global;

/// For each state how many ORs have a number below its own, and how many ORs there are.
#[derive(Drop)]
pub(crate) struct Ranks {
    pub ranks: Vec<u32>,
    pub ors: u32,
}

/// 1 for an OR and 0 for another state.
fn or_at(tree: &Shape, state: u32) -> u32
    requires { state < state_count tree.now }
    ensures { result ≡ (if is_or (comp_of tree.now state) then 1 else 0) }
{
    match tree.comp(state) {
        Comp::Or => 1,
        Comp::Leaf | Comp::And => 0,
    }
}

/// The ranks of the states of a tree.
pub(crate) fn ranks_of(alloc: Global, tree: &Shape) -> Result<Ranks, Memory>
    ensures { IfOk result (λ made. AreRanks tree.now made.ors made.ranks.items) }
{
    let mut ranks = Vec::new(alloc);
    let mut ors: u32 = 0;
    for state in 0..tree.len() {
        ranks.push(ors)?;
        ors += or_at(tree, state);
    }
    Ok(Ranks { ranks, ors })
}
