//! What nobody needs goes from functions.
ghost use Rattle.std.specs.Prelude.{IfOk, List, map};
ghost use Rattle.c_subset.specs.Trees as c;
ghost use Rattle.c_functions.specs.Plans.{Shape};
ghost use Rattle.c_bare.specs.Bare.{AreFunctions};
ghost use Rattle.c_unread.specs.Unread.{trimmed_of};
ghost use Rattle.c_pruned.specs.Pruned.{pruned_of};
ghost use Rattle.c_passes.specs.Passed.{ArePassed};

use c_pruned::pruned_function;
use c_subset::Function;
use c_unread::trimmed_function;
use flow_base::Memory;
use std::alloc::Global;

/// How often what nobody needs is taken out: where something is gone, something else may be needed
/// no longer.
const ROUNDS: u32 = 3;

/// The functions of a file without sets of locals that nothing reads.
fn trimmed(alloc: Global, functions: Vec<Function>) -> Result<Vec<Function>, Memory>
    ensures { IfOk result (λ made. (gs : List c.Function) → AreFunctions functions.items gs
        → AreFunctions made.items (map trimmed_of gs)) }
{
    let mut made = Vec::new(alloc);
    for function in functions {
        made.push(trimmed_function(alloc, function)?)?;
    }
    Ok(made)
}

/// The functions of a file without parts of an `if` that nobody needs.
fn pruned(alloc: Global, functions: Vec<Function>) -> Result<Vec<Function>, Memory>
    ensures { IfOk result (λ made. (gs : List c.Function) → AreFunctions functions.items gs
        → AreFunctions made.items (map pruned_of gs)) }
{
    let mut made = Vec::new(alloc);
    for function in functions {
        made.push(pruned_function(alloc, function)?)?;
    }
    Ok(made)
}

/// The functions of a file without what nobody needs: sets of locals that nothing reads, and parts
/// of an `if`.
pub fn tidied(alloc: Global, functions: Vec<Function>) -> Result<Vec<Function>, Memory>
    ensures { IfOk result (λ made. (K : Shape) (file : c.File) →
        ArePassed K file functions.items → ArePassed K file made.items) }
{
    let mut made = functions;
    for _ in 0..ROUNDS {
        let fewer = trimmed(alloc, made)?;
        made = pruned(alloc, fewer)?;
    }
    Ok(made)
}
