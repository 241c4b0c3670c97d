//! A function without what nobody needs.
ghost use Rattle.std.specs.Prelude.{IfOk};
ghost use Rattle.c_subset.specs.Trees as c;
ghost use Rattle.c_subset.specs.Lines.{IsFunction};
ghost use Rattle.c_pruned.specs.Pruned.{pruned_of};

use crate::pruning::prune;
use c_subset::Function;
use c_trees::{is_short, lines_of_tree, tree_of};
use flow_base::Memory;
use std::alloc::Global;

/// The function without what nobody needs: parts of an `if` that do nothing or are never taken, what
/// stands after two parts that always return, and an `else` after one. One of more than 1,000 lines
/// stays as it is.
///
/// It takes memory for a tree of its lines. `Memory` only where memory was refused.
pub fn pruned_function(alloc: Global, function: Function) -> Result<Function, Memory>
    ensures { IfOk result (λ made. (g : c.Function) → IsFunction function g →
        IsFunction made (pruned_of g)) }
{
    if !is_short(function.lines.items()) {
        return Ok(function);
    }
    let mut tree = tree_of(alloc, function.lines)?;
    prune(alloc, &mut tree)?;
    let lines = lines_of_tree(alloc, tree)?;
    Ok(Function {
        result: function.result,
        parameters: function.parameters,
        lines,
    })
}
