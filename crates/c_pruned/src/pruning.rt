//! Statements without what nobody needs.
ghost use Rattle.std.specs.Prelude.{◌≡◌, IfOk, OnOk};
ghost use Rattle.c_subset.specs.Lines.{expr_of};
ghost use Rattle.c_subset.specs.Trees as c;
ghost use Rattle.c_trees.specs.Blocks.{block_of};
ghost use Rattle.c_pruned.specs.Pruned as spec;
ghost use Rattle.c_pruned.specs.Tests as tests;

use crate::ends::{always_returns, followed_by, then_on};
use crate::tests::{boxed_test, negated, truth_of};
use c_subset::CExpr;
use c_trees::{Tree, boxed, is_end};
use flow_base::Memory;
use std::alloc::Global;
use std::mem;

/// `if (test) { first } else { second }` before other statements.
fn whole_if(
    alloc: Global,
    test: Box<CExpr>,
    first: Box<Tree>,
    second: Box<Tree>,
    rest: Box<Tree>,
) -> Result<Box<Tree>, Memory>
    ensures { IfOk result (λ made. block_of made.value ≡ c.If (expr_of test.value)
        (block_of first.value) (block_of second.value) (block_of rest.value)) }
{
    boxed(alloc, Tree::If(Box::into_inner(test), first, second, rest))
}

/// `if (test) { first }` before other statements.
fn plain_if(
    alloc: Global,
    test: Box<CExpr>,
    first: Box<Tree>,
    rest: Box<Tree>,
) -> Result<Box<Tree>, Memory>
    ensures { IfOk result (λ made. block_of made.value
        ≡ c.If (expr_of test.value) (block_of first.value) c.End (block_of rest.value)) }
{
    let none = boxed(alloc, Tree::End)?;
    whole_if(alloc, test, first, none, rest)
}

/// `if (test) { if (inner) { first } else { second } after }` before other statements: one `if`
/// where nothing else stands in it.
fn nested_if(
    alloc: Global,
    test: Box<CExpr>,
    inner: Box<CExpr>,
    first: Box<Tree>,
    second: Box<Tree>,
    after: Box<Tree>,
    rest: Box<Tree>,
) -> Result<Box<Tree>, Memory>
    ensures { IfOk result (λ made. block_of made.value ≡ spec.only_if (expr_of test.value)
        (c.If (expr_of inner.value) (block_of first.value) (block_of second.value)
        (block_of after.value)) (block_of rest.value)) }
{
    if is_end(&second) && is_end(&after) {
        let both = boxed_test(alloc, CExpr::Both(test, inner))?;
        return plain_if(alloc, both, first, rest);
    }
    let part = whole_if(alloc, inner, first, second, after)?;
    plain_if(alloc, test, part, rest)
}

/// `if (test) { first }` before other statements: where all of the part is an `if` without a second
/// part, one test does for both.
fn only_if(
    alloc: Global,
    test: Box<CExpr>,
    first: Box<Tree>,
    rest: Box<Tree>,
) -> Result<Box<Tree>, Memory>
    ensures { IfOk result (λ made. block_of made.value
        ≡ spec.only_if (expr_of test.value) (block_of first.value) (block_of rest.value)) }
{
    let part = Box::into_inner(first);
    match part {
        Tree::If(expr, own, second, after) => {
            let inner = boxed_test(alloc, expr)?;
            nested_if(alloc, test, inner, own, second, after, rest)
        }
        Tree::End
        | Tree::Set(..)
        | Tree::Store(..)
        | Tree::StoreAt(..)
        | Tree::Call(..)
        | Tree::Select(..)
        | Tree::While(..)
        | Tree::Return(..) => plain_if(alloc, test, boxed(alloc, part)?, rest),
    }
}

/// An `if` of which neither part always returns.
fn falling_if(
    alloc: Global,
    test: Box<CExpr>,
    first: Box<Tree>,
    second: Box<Tree>,
    rest: Box<Tree>,
) -> Result<Box<Tree>, Memory>
    ensures { IfOk result (λ made. block_of made.value ≡ spec.falling_if (expr_of test.value)
        (block_of first.value) (block_of second.value) (block_of rest.value)) }
{
    if is_end(&first) {
        return only_if(alloc, negated(alloc, test)?, second, rest);
    }
    if is_end(&second) {
        return only_if(alloc, test, first, rest);
    }
    whole_if(alloc, test, first, second, rest)
}

/// An `if`: a part that always returns comes first, and the other one stands after it.
fn flat_if(
    alloc: Global,
    test: Box<CExpr>,
    first: Box<Tree>,
    second: Box<Tree>,
    rest: Box<Tree>,
) -> Result<Box<Tree>, Memory>
    ensures { IfOk result (λ made. block_of made.value ≡ spec.flat_if (expr_of test.value)
        (block_of first.value) (block_of second.value) (block_of rest.value)) }
{
    if always_returns(&first) {
        return only_if(alloc, test, first, then_on(second, rest));
    }
    if always_returns(&second) {
        let opposed = negated(alloc, test)?;
        return only_if(alloc, opposed, second, followed_by(first, rest));
    }
    falling_if(alloc, test, first, second, rest)
}

/// Whether both parts are the same.
fn are_same(first: &Tree, second: &Tree) -> bool
    ensures { result ≡ spec.are_same (block_of first.now) (block_of second.now) }
{
    is_end(first) && is_end(second)
}

/// An `if` whose test isn't known: it isn't needed where both parts are the same.
fn tested_if(
    alloc: Global,
    test: Box<CExpr>,
    first: Box<Tree>,
    second: Box<Tree>,
    rest: Box<Tree>,
) -> Result<Box<Tree>, Memory>
    ensures { IfOk result (λ made. block_of made.value ≡ spec.tested_if (expr_of test.value)
        (block_of first.value) (block_of second.value) (block_of rest.value)) }
{
    if are_same(&first, &second) {
        return Ok(then_on(first, rest));
    }
    flat_if(alloc, test, first, second, rest)
}

/// An `if`, or the part that is taken where that is known.
fn decided_if(
    alloc: Global,
    test: Box<CExpr>,
    first: Box<Tree>,
    second: Box<Tree>,
    rest: Box<Tree>,
) -> Result<Box<Tree>, Memory>
    ensures { IfOk result (λ made. block_of made.value
        ≡ spec.decided_if (tests.truth_of (expr_of test.value)) (expr_of test.value)
        (block_of first.value) (block_of second.value) (block_of rest.value)) }
{
    match truth_of(&test) {
        Some(true) => Ok(then_on(first, rest)),
        Some(false) => Ok(then_on(second, rest)),
        None => tested_if(alloc, test, first, second, rest),
    }
}

/// Takes what nobody needs out of statements whose parts are pruned.
fn simplify(alloc: Global, tree: &mut Tree) -> Result<(), Memory>
    ensures { OnOk result (block_of tree.new ≡ spec.simplified (block_of tree.old)) }
{
    let old = mem::replace(tree, Tree::End);
    match old {
        Tree::If(expr, first, second, rest) => {
            let test = boxed_test(alloc, expr)?;
            let made = decided_if(alloc, test, first, second, rest)?;
            drop(mem::replace(tree, Box::into_inner(made)));
        }
        Tree::End
        | Tree::Set(..)
        | Tree::Store(..)
        | Tree::StoreAt(..)
        | Tree::Call(..)
        | Tree::Select(..)
        | Tree::While(..)
        | Tree::Return(..) => drop(mem::replace(tree, old)),
    }
    Ok(())
}

/// Takes what nobody needs out of statements, from the innermost to the outermost.
#[tactic(auto, unfolding(crate::specs::Pruned::pruned))]
pub fn prune(alloc: Global, tree: &mut Tree) -> Result<(), Memory>
    ensures { OnOk result (block_of tree.new ≡ spec.pruned (block_of tree.old)) }
{
    match tree {
        Tree::Set(_, _, _, rest) => prune(alloc, rest),
        Tree::Store(_, _, rest) => prune(alloc, rest),
        Tree::StoreAt(_, _, _, rest) => prune(alloc, rest),
        Tree::Call(_, _, _, _, rest) => prune(alloc, rest),
        Tree::Select(_, _, _, _, _, rest) => prune(alloc, rest),
        Tree::If(_, first, second, rest) => {
            prune(alloc, first)?;
            prune(alloc, second)?;
            prune(alloc, rest)?;
            simplify(alloc, tree)
        }
        Tree::While(_, first, rest) => {
            prune(alloc, first)?;
            prune(alloc, rest)
        }
        Tree::End | Tree::Return(_) => Ok(()),
    }
}
