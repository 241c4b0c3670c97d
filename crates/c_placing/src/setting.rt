//! Parameters that are set to arguments.
ghost use Rattle.std.specs.Prelude.{◌≡◌, ◌+◌, ◌<◌, ◌^◌, IfOk, length};
ghost use Rattle.flow_base.specs.Lists.{items_of};
ghost use Rattle.c_subset.specs.Lines.{exprs_of};
ghost use Rattle.c_trees.specs.Blocks.{block_of};
ghost use Rattle.c_placing.specs.Placing as spec;

use c_subset::{CExpr, CType};
use c_trees::{Tree, boxed};
use flow_base::{List, Memory};
use std::alloc::Global;

/// The statements after those that set the parameters of these types to as many arguments; the
/// first parameter has the number that is the base. `Memory` only where memory was refused.
#[tactic(auto, unfolding(crate::specs::Placing::set_parameters))]
pub fn with_parameters(
    alloc: Global,
    base: u32,
    types: &[CType],
    args: List<CExpr>,
    rest: Box<Tree>,
) -> Result<Box<Tree>, Memory>
    requires same { length (items_of args) ≡ length types.now }
    requires fits { base + length types.now < 2 ^ 32 }
    ensures { IfOk result (λ made. block_of made.value
        ≡ spec.set_parameters base 0 types.now (exprs_of (items_of args)) (block_of rest.value)) }
{
    let mut left = args.into_items();
    let mut tree = rest;
    'each: while let Some(arg) = left.pop() {
        let number = left.len();
        tree = boxed(
            alloc,
            Tree::Set(types[number], base + number as u32, arg, tree),
        )?;
    }
    Ok(tree)
}
