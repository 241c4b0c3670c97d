//! Statements that go on where they return.
ghost use Rattle.std.specs.Prelude.{◌≡◌, IfOk, OnOk, true};
ghost use Rattle.c_subset.specs.Lines.{expr_of};
ghost use Rattle.c_subset.specs.Trees as c;
ghost use Rattle.c_trees.specs.Blocks.{block_of};
ghost use Rattle.c_inlined.specs.Continued as spec;
ghost use Rattle.c_inlined.specs.Inlined.{brought, set_result};

use crate::deciding::{always_returns, neither_returns};
use c_bare::is_same;
use c_subset::{CExpr, CType};
use c_trees::{Tree, boxed};
use flow_base::Memory;
use std::alloc::Global;
use std::mem;

/// The local that has the result of a call.
#[derive(Clone, Copy)]
pub struct Target {
    /// The type of what the function returns.
    pub result: CType,
    /// The type of the local.
    pub of: CType,
    /// Its number.
    pub local: u32,
}

/// What is returned, brought to the type of the function's result before it is brought to that of
/// the local.
fn brought(alloc: Global, target: Target, expr: CExpr) -> Result<CExpr, Memory>
    ensures { IfOk result (λ made.
        expr_of made ≡ brought target.result target.of (expr_of expr)) }
{
    if is_same(target.result, target.of) {
        return Ok(expr);
    }
    CExpr::cast(alloc, target.result, expr)
}

/// The statement that sets the local to what is returned.
fn set_result(alloc: Global, target: Target, expr: CExpr) -> Result<Tree, Memory>
    ensures { IfOk result (λ made. block_of made
        ≡ set_result target.result target.of target.local (expr_of expr)) }
{
    let end = boxed(alloc, Tree::End)?;
    let value = brought(alloc, target, expr)?;
    Ok(Tree::Set(target.of, target.local, value, end))
}

/// Puts the statement that sets the local in place of a `return`; others stay.
fn set_in_place(alloc: Global, target: Target, tree: &mut Tree) -> Result<(), Memory>
    ensures { OnOk result ((e : c.CExpr) → block_of tree.old ≡ c.Return e →
        block_of tree.new ≡ set_result target.result target.of target.local e) }
{
    let old = mem::replace(tree, Tree::End);
    match old {
        Tree::Return(expr) => {
            let made = set_result(alloc, target, expr)?;
            drop(mem::replace(tree, made));
        }
        Tree::End
        | Tree::Set(..)
        | Tree::Store(..)
        | Tree::StoreAt(..)
        | Tree::Call(..)
        | Tree::Select(..)
        | Tree::If(..)
        | Tree::While(..) => drop(mem::replace(tree, old)),
    }
    Ok(())
}

/// Puts the statement that sets the local in place of each `return`, and other statements where
/// these fall through. Where a part of an `if` may return, what comes after the `if` belongs to the
/// part that doesn't always return.
#[tactic(auto, unfolding(crate::specs::Continued::continued, crate::specs::Continued::can_go_on))]
pub fn go_on(alloc: Global, target: Target, tree: &mut Tree, after: Box<Tree>) -> Result<(), Memory>
    requires can { spec.can_go_on (block_of tree.old) ≡ true }
    ensures { OnOk result (block_of tree.new
        ≡ spec.continued (set_result target.result target.of target.local)
        (block_of tree.old) (block_of after.value)) }
{
    match tree {
        Tree::End => {
            drop(mem::replace(tree, Box::into_inner(after)));
            Ok(())
        }
        Tree::Set(_, _, _, rest) => go_on(alloc, target, rest, after),
        Tree::Store(_, _, rest) => go_on(alloc, target, rest, after),
        Tree::StoreAt(_, _, _, rest) => go_on(alloc, target, rest, after),
        Tree::Call(_, _, _, _, rest) => go_on(alloc, target, rest, after),
        Tree::Select(_, _, _, _, _, rest) => go_on(alloc, target, rest, after),
        Tree::If(_, first, second, rest) => {
            if neither_returns(first, second) {
                return go_on(alloc, target, rest, after);
            }
            go_on(alloc, target, rest, after)?;
            let end = boxed(alloc, Tree::End)?;
            let none = boxed(alloc, Tree::End)?;
            let last = mem::replace(rest, end);
            if always_returns(first) {
                go_on(alloc, target, first, none)?;
                return go_on(alloc, target, second, last);
            }
            go_on(alloc, target, first, last)?;
            go_on(alloc, target, second, none)
        }
        Tree::While(_, _, rest) => go_on(alloc, target, rest, after),
        Tree::Return(_) => {
            drop(after);
            set_in_place(alloc, target, tree)
        }
    }
}
