//! Locals that may be read from some place of a function on.
ghost use Rattle.std.specs.Prelude.{◌≡◌, ◌++◌, ◌∷◌, [], IfOk, OnOk};
ghost use Rattle.flow_base.specs.Lists.{items_of};
ghost use Rattle.c_subset.specs.Lines.{expr_of, exprs_of};
ghost use Rattle.c_trees.specs.Blocks.{block_of};
ghost use Rattle.c_unread.specs.Live as spec;

use crate::local_name::LocalName;
use c_bare::is_it;
use c_subset::{CExpr, CType};
use c_trees::Tree;
use flow_base::Memory;
use std::alloc::Global;

/// The number of locals that take what nothing reads: the C of a chart reads none of so large a number.
const UNREAD: u32 = 1_000;

/// Whether a local is one of these.
pub fn is_live(of: CType, number: u32, live: &[LocalName]) -> bool
    ensures { result ≡ spec.is_live of number live.now }
{
    live.iter()
        .any(|local| is_it(of, number as usize, local.of, local.number))
}

/// The number of the local that takes what a call returns, where these may be read after it: its own,
/// or that of locals that nothing reads.
pub fn taken_by(of: CType, number: u32, live: &[LocalName]) -> u32
    ensures { result ≡ spec.taken_by of number live.now }
{
    if is_live(of, number, live) || is_live(of, UNREAD, live) {
        number
    } else {
        UNREAD
    }
}

/// Adds a local, unless it is one of them.
fn add(of: CType, number: u32, live: &mut Vec<LocalName>) -> Result<(), Memory>
    ensures { OnOk result (live.new.items ≡ spec.with_local of number live.old.items) }
{
    if is_live(of, number, live) {
        return Ok(());
    }
    live.push(LocalName { of, number })?;
    Ok(())
}

/// Takes a local away.
pub fn take_away(of: CType, number: u32, live: &mut Vec<LocalName>)
    ensures { live.new.items ≡ spec.without of number live.old.items }
{
    live.retain(|local| !is_it(local.of, local.number as usize, of, number));
}

/// A copy of them.
pub fn copied(alloc: Global, live: &[LocalName]) -> Result<Vec<LocalName>, Memory>
    ensures { IfOk result (λ made. made.items ≡ live.now) }
{
    let mut made = Vec::new(alloc);
    for local in live {
        made.push(*local)?;
    }
    Ok(made)
}

/// Adds all of these.
pub fn add_all(others: &[LocalName], live: &mut Vec<LocalName>) -> Result<(), Memory>
    ensures { OnOk result (live.new.items ≡ spec.united others.now live.old.items) }
{
    match others {
        [] => Ok(()),
        [first, rest @ ..] => {
            add(first.of, first.number, live)?;
            add_all(rest, live)
        }
    }
}

/// Adds those that an expression reads.
#[tactic(auto, unfolding(crate::specs::Live::with_read))]
pub fn add_read(expr: &CExpr, live: &mut Vec<LocalName>) -> Result<(), Memory>
    ensures { OnOk result (live.new.items
        ≡ spec.with_read (expr_of expr.now) live.old.items) }
{
    match expr {
        CExpr::Const(..) | CExpr::Field(_) => Ok(()),
        CExpr::Local(of, number) => add(*of, *number, live),
        CExpr::Element(_, inner)
        | CExpr::Cast(_, inner)
        | CExpr::Minus(inner)
        | CExpr::Bang(inner) => add_read(inner, live),
        CExpr::Calc(_, left, right) => {
            add_read(left, live)?;
            add_read(right, live)
        }
        CExpr::Divide(_, left, right) => {
            add_read(left, live)?;
            add_read(right, live)
        }
        CExpr::Bits(_, left, right) => {
            add_read(left, live)?;
            add_read(right, live)
        }
        CExpr::Compare(_, left, right) => {
            add_read(left, live)?;
            add_read(right, live)
        }
        CExpr::Both(left, right) | CExpr::Either(left, right) => {
            add_read(left, live)?;
            add_read(right, live)
        }
        CExpr::Choose(_, test, left, right) => {
            add_read(test, live)?;
            add_read(left, live)?;
            add_read(right, live)
        }
    }
}

/// Adds those that these expressions read.
pub fn add_all_read(exprs: &[CExpr], live: &mut Vec<LocalName>) -> Result<(), Memory>
    ensures { OnOk result (live.new.items
        ≡ spec.with_all_read (exprs_of exprs.now) live.old.items) }
{
    match exprs {
        [] => Ok(()),
        [first, rest @ ..] => {
            add_read(first, live)?;
            add_all_read(rest, live)
        }
    }
}

/// Adds those that statements read anywhere.
#[tactic(auto, unfolding(crate::specs::Live::with_named))]
pub fn add_named(tree: &Tree, live: &mut Vec<LocalName>) -> Result<(), Memory>
    ensures { OnOk result (live.new.items
        ≡ spec.with_named (block_of tree.now) live.old.items) }
{
    match tree {
        Tree::End => Ok(()),
        Tree::Set(_, _, expr, rest) | Tree::Store(_, expr, rest) => {
            add_read(expr, live)?;
            add_named(rest, live)
        }
        Tree::StoreAt(_, index, expr, rest) => {
            add_read(index, live)?;
            add_read(expr, live)?;
            add_named(rest, live)
        }
        Tree::Call(_, _, _, args, rest) => {
            add_all_read(args.items(), live)?;
            add_named(rest, live)
        }
        Tree::Select(_, _, expr, _, args, rest) => {
            add_read(expr, live)?;
            add_all_read(args.items(), live)?;
            add_named(rest, live)
        }
        Tree::If(expr, first, second, rest) => {
            add_read(expr, live)?;
            add_named(first, live)?;
            add_named(second, live)?;
            add_named(rest, live)
        }
        Tree::While(expr, first, rest) => {
            add_read(expr, live)?;
            add_named(first, live)?;
            add_named(rest, live)
        }
        Tree::Return(expr) => add_read(expr, live),
    }
}
