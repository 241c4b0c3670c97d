//! How statements end, and statements one after another.
ghost use Rattle.std.specs.Prelude.{◌≡◌};
ghost use Rattle.c_trees.specs.Blocks.{block_of};
ghost use Rattle.c_pruned.specs.Ends as spec;

use c_trees::Tree;
use std::mem;

/// Whether statements end by `return`, if they end.
#[tactic(auto, unfolding(crate::specs::Ends::always_returns))]
pub fn always_returns(tree: &Tree) -> bool
    ensures { result ≡ spec.always_returns (block_of tree.now) }
{
    match tree {
        Tree::End => false,
        Tree::Set(_, _, _, rest)
        | Tree::Store(_, _, rest)
        | Tree::StoreAt(_, _, _, rest)
        | Tree::Call(_, _, _, _, rest)
        | Tree::Select(_, _, _, _, _, rest)
        | Tree::While(_, _, rest) => always_returns(rest),
        Tree::If(_, first, second, rest) => {
            (always_returns(first) && always_returns(second)) || always_returns(rest)
        }
        Tree::Return(_) => true,
    }
}

/// Puts other statements after these.
#[tactic(auto, unfolding(crate::specs::Ends::followed_by))]
fn follow(tree: &mut Tree, rest: Box<Tree>)
    ensures { block_of tree.new ≡ spec.followed_by (block_of tree.old) (block_of rest.value) }
{
    match tree {
        Tree::End => drop(mem::replace(tree, Box::into_inner(rest))),
        Tree::Set(_, _, _, next) => follow(next, rest),
        Tree::Store(_, _, next) => follow(next, rest),
        Tree::StoreAt(_, _, _, next) => follow(next, rest),
        Tree::Call(_, _, _, _, next) => follow(next, rest),
        Tree::Select(_, _, _, _, _, next) => follow(next, rest),
        Tree::If(_, _, _, next) => follow(next, rest),
        Tree::While(_, _, next) => follow(next, rest),
        Tree::Return(_) => drop(rest),
    }
}

/// Statements, and others after them.
pub fn followed_by(tree: Box<Tree>, rest: Box<Tree>) -> Box<Tree>
    ensures { block_of result.value ≡ spec.followed_by (block_of tree.value) (block_of rest.value) }
{
    let mut made = tree;
    follow(&mut made, rest);
    made
}

/// Statements, and others after them where that can be reached.
pub fn then_on(tree: Box<Tree>, rest: Box<Tree>) -> Box<Tree>
    ensures { block_of result.value ≡ spec.then_on (block_of tree.value) (block_of rest.value) }
{
    if always_returns(&tree) {
        return tree;
    }
    followed_by(tree, rest)
}
