//! One function of a file in which calls are replaced by bodies.
ghost use Rattle.std.specs.Prelude.{◌≡◌, IfOk, IfSome, true};
ghost use Rattle.std.specs.Prelude as prelude;
ghost use Rattle.flow_base.specs.Lists.{items_of};
ghost use Rattle.c_subset.specs.Trees as c;
ghost use Rattle.c_bare.specs.Bare.{AreFunctions};
ghost use Rattle.c_trees.specs.Blocks.{block_of};
ghost use Rattle.c_inlined.specs.Inlined as spec;
ghost use Rattle.c_inlined.specs.Inlined.{IsMadeOf};

use crate::inlining::{Caller, inline};
use crate::reading::tree_reads_below;
use c_placing::{NotPlaced, placed};
use c_subset::{CType, Function};
use c_trees::{Tree, lines_of_tree};
use flow_base::{List, Memory};
use std::alloc::Global;

/// The most locals of a function in which calls are replaced.
const MOST_LOCALS: u32 = 1_000;

/// A number above those of all locals that statements read, if it isn't too large.
fn base_of(tree: &Tree) -> Option<u32>
    ensures { IfSome result (λ base. spec.block_reads_below base (block_of tree.now) ≡ true) }
{
    for base in 0..MOST_LOCALS {
        if tree_reads_below(base, tree) {
            return Some(base);
        }
    }
    None
}

/// The types of the parameters.
fn copied_types(alloc: Global, types: &[CType]) -> Result<List<CType>, Memory>
    ensures { IfOk result (λ made. items_of made ≡ types.now) }
{
    let mut made = List::of(Vec::new(alloc));
    for of in types {
        made.push(*of)?;
    }
    Ok(made)
}

/// The function with this number, where calls of functions with a flag are replaced by their
/// bodies. A call stays one where the flag isn't set, where the function is this one, and where its
/// statements can't go on where they return.
///
/// None where the function reads locals with numbers past 1,000. `Memory` only where memory was
/// refused.
pub fn inlined_function(
    alloc: Global,
    functions: &[Function],
    flags: &[bool],
    number: u32,
) -> Result<Option<Function>, Memory>
    ensures { IfOk result (λ made. IfSome made (λ made. (gs : prelude.List c.Function) →
        AreFunctions functions.now gs → IsMadeOf gs number made)) }
{
    let function = match functions.get(number as usize) {
        Some(function) => function,
        None => return Ok(None),
    };
    let mut tree = match placed(alloc, 0, function.lines.items()) {
        Ok(tree) => tree,
        Err(NotPlaced::Number) => return Ok(None),
        Err(NotPlaced::Memory) => return Err(Memory),
    };
    let Some(base) = base_of(&tree) else {
        return Ok(None);
    };
    let caller = Caller {
        number,
        result: function.result,
        base,
    };
    inline(alloc, functions, flags, caller, &mut tree)?;
    let lines = lines_of_tree(alloc, tree)?;
    let parameters = copied_types(alloc, function.parameters.items())?;
    Ok(Some(Function {
        result: function.result,
        parameters,
        lines,
    }))
}
