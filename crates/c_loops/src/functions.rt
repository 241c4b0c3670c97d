//! A function as a loop where it may be one.
ghost use Rattle.std.specs.Prelude.{◌≡◌, IfOk, length};
ghost use Rattle.flow_base.specs.Lists.{items_of};
ghost use Rattle.c_subset.specs.Trees as c;
ghost use Rattle.c_subset.specs.Lines.{IsFunction, lines_in, lines_of};
ghost use Rattle.c_trees.specs.Blocks.{block_of};
ghost use Rattle.c_loops.specs.Loops as spec;
ghost use Rattle.c_loops.specs.Loops.{looped};

use crate::deciding::loops;
use crate::expressions::is_word;
use crate::turns::write_again_after;
use c_subset::{CExpr, CType, Function, Line};
use c_trees::{Tree, lines_of_tree, put, tree_of};
use flow_base::{List, Memory};
use std::alloc::Global;

/// The most lines of a function that may be a loop.
const MOST_LINES: usize = 1_000;

/// Whether these are the types of the parameters of a procedure.
fn are_words(types: &[CType]) -> bool
    ensures { result ≡ spec.are_words 0 types.now }
{
    match types {
        [event, depth, base, home, last] => {
            is_word(*event) && is_word(*depth) && is_word(*base) && is_word(*home) && is_word(*last)
        }
        _ => false,
    }
}

/// Whether a function may be a loop: its result and its parameters are words, and it isn't too
/// long.
fn may_loop(function: &Function) -> bool
    ensures { result ≡ spec.may_loop function.now.result (items_of function.now.parameters)
        (length (items_of function.now.lines)) }
{
    is_word(function.result)
        && are_words(function.parameters.items())
        && function.lines.items().len() <= MOST_LINES
}

/// The lines of the loop whose turns are these statements.
#[tactic(auto, using(c_trees::proofs::Lists::writes), unfolding(c_subset::specs::Lines::lines_of))]
fn lines_of_loop(alloc: Global, number: u32, tree: Box<Tree>) -> Result<List<Line>, Memory>
    ensures { IfOk result (λ made. lines_in (items_of made)
        ≡ lines_of (spec.forever (spec.again number (block_of tree.value)))) }
{
    let mut made = List::of(Vec::new(alloc));
    write_again_after(
        number,
        tree,
        Line::While(CExpr::Const(CType::Truth, 1)),
        &mut made,
    )?;
    put(&mut made, Line::Close)?;
    Ok(made)
}

/// The lines of the statements, as a loop where they may be one.
fn turned_lines(alloc: Global, number: u32, tree: Box<Tree>) -> Result<List<Line>, Memory>
    ensures { IfOk result (λ made. lines_in (items_of made)
        ≡ lines_of (spec.turned number (block_of tree.value))) }
{
    if loops(number, &tree) {
        lines_of_loop(alloc, number, tree)
    } else {
        lines_of_tree(alloc, tree)
    }
}

/// The function with this number, as a loop where it may be one: where it is of a procedure, isn't
/// longer than 1,000 lines, calls itself, and each result of it that it has from itself is what it
/// returns.
///
/// It takes memory for a tree of its lines. `Memory` only where memory was refused.
pub fn with_loop(alloc: Global, number: u32, function: Function) -> Result<Function, Memory>
    ensures { IfOk result (λ made. (g : c.Function) → IsFunction function g →
        IsFunction made (looped number g)) }
{
    if !may_loop(&function) {
        return Ok(function);
    }
    let tree = tree_of(alloc, function.lines)?;
    let lines = turned_lines(alloc, number, tree)?;
    Ok(Function {
        result: function.result,
        parameters: function.parameters,
        lines,
    })
}
