//! A function without sets that nothing reads.
ghost use Rattle.std.specs.Prelude.{IfOk};
ghost use Rattle.c_subset.specs.Trees as c;
ghost use Rattle.c_subset.specs.Lines.{IsFunction};
ghost use Rattle.c_unread.specs.Unread.{trimmed_of};

use crate::trimming::trim;
use c_subset::Function;
use c_trees::{is_short, lines_of_tree, tree_of};
use flow_base::Memory;
use std::alloc::Global;

/// The function without sets of locals that nothing reads; what a call returns and nothing reads goes
/// to a local that no line reads. One of more than 1,000 lines stays as it is.
///
/// It takes memory for a tree of its lines. `Memory` only where memory was refused.
pub fn trimmed_function(alloc: Global, function: Function) -> Result<Function, Memory>
    ensures { IfOk result (λ made. (g : c.Function) → IsFunction function g →
        IsFunction made (trimmed_of g)) }
{
    if !is_short(function.lines.items()) {
        return Ok(function);
    }
    let tree = tree_of(alloc, function.lines)?;
    let trimmed = trim(alloc, Box::into_inner(tree), Vec::new(alloc))?;
    let lines = lines_of_tree(alloc, trimmed.tree)?;
    Ok(Function {
        result: function.result,
        parameters: function.parameters,
        lines,
    })
}
