//! The functions of a file with decided tests.
ghost use Rattle.std.specs.Prelude.{◌≡◌, true, IfOk};
ghost use Rattle.flow_base.specs.Lists.{items_of};
ghost use Rattle.c_subset.specs.Trees as c;
ghost use Rattle.c_subset.specs.Lines.{IsFunction, lines_in, lines_of};
ghost use Rattle.c_decided.specs.Made as spec;
ghost use Rattle.c_trees.specs.Blocks.{block_of};
ghost use Rattle.c_decided.specs.Views.{plan_of};

use crate::plan::Plan;
use crate::steps::alone;
use crate::walking::{Own, Unfit, find, walk};
use c_facts::copied;
use c_subset::{Function, Line};
use c_trees::{Tree, boxed, lines_of_tree, tree_of};
use flow_base::{List, Memory};
use std::alloc::Global;

/// The lines of a tree.
fn written(alloc: Global, tree: Tree) -> Result<List<Line>, Memory>
    ensures { IfOk result (λ made. lines_in (items_of made) ≡ lines_of (block_of tree)) }
{
    let holder = boxed(alloc, tree)?;
    lines_of_tree(alloc, holder)
}

/// Statements from where their function begins, gone through.
fn walked(alloc: Global, tree: Tree, plan: &Plan, own: Own) -> Result<Tree, Unfit>
    ensures { IfOk result (λ made.
        (block_of made ≡ spec.body_of (plan_of plan.now) own.number own.result (block_of tree))
        × (spec.is_right (plan_of plan.now) own.number own.result (block_of tree) ≡ true)) }
{
    match find(plan, own.number) {
        None => {
            drop(tree);
            Err(Unfit::NotRight)
        }
        Some(facts) => match copied(alloc, &facts.begins) {
            Err(Memory) => {
                drop(tree);
                Err(Unfit::NoMemory)
            }
            Ok(begins) => {
                let made = walk(alloc, tree, plan, own, &alone(begins))?;
                drop(made.after);
                Ok(made.tree)
            }
        },
    }
}

/// The lines of a body with decided tests.
fn decided_lines(
    alloc: Global,
    lines: List<Line>,
    plan: &Plan,
    own: Own,
) -> Result<List<Line>, Unfit>
    ensures { IfOk result (λ made. (b : c.Block) → lines_in (items_of lines) ≡ lines_of b →
        spec.AreMadeLines (plan_of plan.now) own.number own.result b (lines_in (items_of made))) }
{
    let tree = tree_of(alloc, lines)?;
    let made = walked(alloc, Box::into_inner(tree), plan, own)?;
    Ok(written(alloc, made)?)
}

/// The function with this number with decided tests, or as it is where the plan says that it stays.
///
/// `NotRight` where the plan isn't right for it, `NoMemory` where memory was refused.
pub fn decided_function(
    alloc: Global,
    plan: &Plan,
    number: u32,
    function: Function,
) -> Result<Function, Unfit>
    ensures { IfOk result (λ made. (g : c.Function) → IsFunction function g →
        spec.IsMadeFunction (plan_of plan.now) number g made) }
{
    let own = Own {
        number,
        result: function.result,
    };
    let parameters = function.parameters;
    let lines = decided_lines(alloc, function.lines, plan, own)?;
    Ok(Function {
        result: own.result,
        parameters,
        lines,
    })
}
