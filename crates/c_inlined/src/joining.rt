//! Statements before others.
ghost use Rattle.std.specs.Prelude.{◌≡◌};
ghost use Rattle.c_trees.specs.Blocks.{block_of};
ghost use Rattle.c_inlined.specs.Continued as spec;

use c_trees::Tree;
use std::mem;

/// Puts other statements after these; nothing comes after a `return`.
#[tactic(auto, unfolding(crate::specs::Continued::before))]
pub fn follow(tree: &mut Tree, rest: Box<Tree>)
    ensures { block_of tree.new ≡ spec.before (block_of tree.old) (block_of rest.value) }
{
    match tree {
        Tree::End => drop(mem::replace(tree, Box::into_inner(rest))),
        Tree::Set(_, _, _, next) => follow(next, rest),
        Tree::Store(_, _, next) => follow(next, rest),
        Tree::StoreAt(_, _, _, next) => follow(next, rest),
        Tree::Call(_, _, _, _, next) => follow(next, rest),
        Tree::Select(_, _, _, _, _, next) => follow(next, rest),
        Tree::If(_, _, _, next) => follow(next, rest),
        Tree::While(_, _, next) => follow(next, rest),
        Tree::Return(_) => drop(rest),
    }
}
