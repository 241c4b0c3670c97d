//! Statements without sets that nothing reads, from the last to the first.
//!
//! An expression of which nothing is made goes to `drop` by name, since a drop at the end of a
//! scope would be written out for each of its variants.
ghost use Rattle.std.specs.Prelude.{◌≡◌, [], IfOk};
ghost use Rattle.flow_base.specs.Lists.{items_of};
ghost use Rattle.c_subset.specs.Lines.{expr_of, exprs_of};
ghost use Rattle.c_subset.specs.Trees as c;
ghost use Rattle.c_trees.specs.Blocks.{block_of};
ghost use Rattle.c_unread.specs.Live as names;
ghost use Rattle.c_unread.specs.Unread as spec;
ghost use Rattle.c_unread.specs.Views.{trimmed_in};

use crate::live::{
    add_all, add_all_read, add_named, add_read, copied, is_live, take_away, taken_by,
};
use crate::local_name::LocalName;
use c_subset::{CExpr, CType, Case};
use c_trees::{Tree, boxed};
use flow_base::{List, Memory};
use std::alloc::Global;

/// Statements, and the locals that they, and what comes after them, may read before they are set.
#[derive(Drop)]
pub struct Trimmed {
    /// The statements.
    pub tree: Box<Tree>,
    /// The locals.
    pub live: Vec<LocalName>,
}

/// Statements with what may be read from their beginning on.
fn with_live(alloc: Global, tree: Tree, live: Vec<LocalName>) -> Result<Trimmed, Memory>
    ensures { IfOk result (λ made. trimmed_in made
        ≡ record { block = block_of tree; live = live.items }) }
{
    let tree = boxed(alloc, tree)?;
    Ok(Trimmed { tree, live })
}

/// What an expression may read, with these.
fn with_read(expr: &CExpr, live: Vec<LocalName>) -> Result<Vec<LocalName>, Memory>
    ensures { IfOk result (λ made. made.items
        ≡ names.with_read (expr_of expr.now) live.items) }
{
    let mut live = live;
    add_read(expr, &mut live)?;
    Ok(live)
}

/// What arguments may read, with these.
fn with_all_read(args: &[CExpr], live: Vec<LocalName>) -> Result<Vec<LocalName>, Memory>
    ensures { IfOk result (λ made. made.items
        ≡ names.with_all_read (exprs_of args.now) live.items) }
{
    let mut live = live;
    add_all_read(args, &mut live)?;
    Ok(live)
}

/// These without a local.
fn without(of: CType, number: u32, live: Vec<LocalName>) -> Vec<LocalName>
    ensures { result.items ≡ names.without of number live.items }
{
    let mut live = live;
    take_away(of, number, &mut live);
    live
}

/// `x = e;` before others, where the local may be read after it.
fn set_before(
    alloc: Global,
    of: CType,
    number: u32,
    expr: CExpr,
    rest: Trimmed,
) -> Result<Trimmed, Memory>
    ensures { IfOk result (λ made. trimmed_in made
        ≡ spec.set_before (names.is_live of number rest.live.items) of number (expr_of expr)
        (trimmed_in rest)) }
{
    if !is_live(of, number, &rest.live) {
        drop(expr);
        return Ok(rest);
    }
    match with_read(&expr, without(of, number, rest.live)) {
        Ok(live) => with_live(alloc, Tree::Set(of, number, expr, rest.tree), live),
        Err(Memory) => {
            drop(expr);
            Err(Memory)
        }
    }
}

/// `m->f = e;` before others.
fn store_before(alloc: Global, field: u32, expr: CExpr, rest: Trimmed) -> Result<Trimmed, Memory>
    ensures { IfOk result (λ made. trimmed_in made ≡ record {
      block = c.Store field (expr_of expr) (block_of rest.tree.value);
      live = names.with_read (expr_of expr) rest.live.items;
    }) }
{
    match with_read(&expr, rest.live) {
        Ok(live) => with_live(alloc, Tree::Store(field, expr, rest.tree), live),
        Err(Memory) => {
            drop(expr);
            Err(Memory)
        }
    }
}

/// What both expressions of `m->a[i] = e;` may read, with these.
fn both_read(index: &CExpr, expr: &CExpr, live: Vec<LocalName>) -> Result<Vec<LocalName>, Memory>
    ensures { IfOk result (λ made. made.items
        ≡ names.with_read (expr_of expr.now) (names.with_read (expr_of index.now) live.items)) }
{
    with_read(expr, with_read(index, live)?)
}

/// `m->a[i] = e;` before others.
fn store_at_before(
    alloc: Global,
    row: u32,
    index: CExpr,
    expr: CExpr,
    rest: Trimmed,
) -> Result<Trimmed, Memory>
    ensures { IfOk result (λ made. trimmed_in made ≡ record {
      block = c.StoreAt row (expr_of index) (expr_of expr) (block_of rest.tree.value);
      live = names.with_read (expr_of expr) (names.with_read (expr_of index) rest.live.items);
    }) }
{
    match both_read(&index, &expr, rest.live) {
        Ok(live) => with_live(alloc, Tree::StoreAt(row, index, expr, rest.tree), live),
        Err(Memory) => {
            drop(index);
            drop(expr);
            Err(Memory)
        }
    }
}

/// `x = f(m, e, ..);` before others: where they don't read x, a local that nothing reads takes what
/// is returned.
fn call_before(
    alloc: Global,
    of: CType,
    number: u32,
    function: u32,
    args: List<CExpr>,
    rest: Trimmed,
) -> Result<Trimmed, Memory>
    ensures { IfOk result (λ made. trimmed_in made ≡ record {
      block = c.Call of (names.taken_by of number rest.live.items) function (exprs_of (items_of args)) (block_of rest.tree.value);
      live = names.with_all_read (exprs_of (items_of args)) (names.without of number rest.live.items);
    }) }
{
    let taker = taken_by(of, number, &rest.live);
    let live = with_all_read(args.items(), without(of, number, rest.live))?;
    with_live(
        alloc,
        Tree::Call(of, taker, function, args, rest.tree),
        live,
    )
}

/// What a `switch` may read, with these.
fn select_reads(
    expr: &CExpr,
    args: &[CExpr],
    live: Vec<LocalName>,
) -> Result<Vec<LocalName>, Memory>
    ensures { IfOk result (λ made. made.items ≡ names.with_all_read (exprs_of args.now)
        (names.with_read (expr_of expr.now) live.items)) }
{
    with_all_read(args, with_read(expr, live)?)
}

/// `switch` before others: its local is chosen as that of a call.
fn select_before(
    alloc: Global,
    of: CType,
    number: u32,
    expr: CExpr,
    cases: List<Case>,
    args: List<CExpr>,
    rest: Trimmed,
) -> Result<Trimmed, Memory>
    ensures { IfOk result (λ made. trimmed_in made ≡ record {
      block = c.Select of (names.taken_by of number rest.live.items) (expr_of expr) (items_of cases) (exprs_of (items_of args))
          (block_of rest.tree.value);
      live = names.with_all_read (exprs_of (items_of args))
          (names.with_read (expr_of expr) rest.live.items);
    }) }
{
    let taker = taken_by(of, number, &rest.live);
    match select_reads(&expr, args.items(), rest.live) {
        Ok(live) => {
            with_live(
                alloc,
                Tree::Select(of, taker, expr, cases, args, rest.tree),
                live,
            )
        }
        Err(Memory) => {
            drop(expr);
            Err(Memory)
        }
    }
}

/// What either part of an `if` may read.
fn united(others: Vec<LocalName>, live: Vec<LocalName>) -> Result<Vec<LocalName>, Memory>
    ensures { IfOk result (λ made. made.items ≡ names.united others.items live.items) }
{
    let mut live = live;
    add_all(&others, &mut live)?;
    Ok(live)
}

/// What an `if` may read.
fn if_reads(
    expr: &CExpr,
    first: Vec<LocalName>,
    second: Vec<LocalName>,
) -> Result<Vec<LocalName>, Memory>
    ensures { IfOk result (λ made. made.items
        ≡ names.with_read (expr_of expr.now) (names.united first.items second.items)) }
{
    with_read(expr, united(first, second)?)
}

/// `if` before others.
fn if_before(
    alloc: Global,
    expr: CExpr,
    first: Trimmed,
    second: Trimmed,
    rest: Box<Tree>,
) -> Result<Trimmed, Memory>
    ensures { IfOk result (λ made. trimmed_in made ≡ record {
      block = c.If (expr_of expr) (block_of first.tree.value) (block_of second.tree.value)
          (block_of rest.value);
      live = names.with_read (expr_of expr) (names.united first.live.items second.live.items);
    }) }
{
    match if_reads(&expr, first.live, second.live) {
        Ok(live) => with_live(alloc, Tree::If(expr, first.tree, second.tree, rest), live),
        Err(Memory) => {
            drop(expr);
            Err(Memory)
        }
    }
}

/// What a turn of a `while` may read, with what comes after it.
fn turn_reads(test: &CExpr, turn: &Tree, live: Vec<LocalName>) -> Result<Vec<LocalName>, Memory>
    ensures { IfOk result (λ made. made.items
        ≡ names.with_named (block_of turn.now) (names.with_read (expr_of test.now) live.items)) }
{
    let mut live = with_read(test, live)?;
    add_named(turn, &mut live)?;
    Ok(live)
}

/// `return e;`
fn returned(alloc: Global, expr: CExpr) -> Result<Trimmed, Memory>
    ensures { IfOk result (λ made. trimmed_in made ≡ record {
      block = c.Return (expr_of expr);
      live = names.with_read (expr_of expr) [];
    }) }
{
    match with_read(&expr, Vec::new(alloc)) {
        Ok(live) => with_live(alloc, Tree::Return(expr), live),
        Err(Memory) => {
            drop(expr);
            Err(Memory)
        }
    }
}

/// An expression in a box, which is dropped by one call.
fn held(alloc: Global, expr: CExpr) -> Result<Box<CExpr>, Memory>
    ensures { IfOk result (λ holder. holder.value ≡ expr) }
{
    Ok(Box::new(alloc, expr)?)
}

/// The statements without sets that nothing reads, before others that may read these locals.
#[tactic(auto, unfolding(crate::specs::Unread::trimmed))]
pub fn trim(alloc: Global, tree: Tree, live: Vec<LocalName>) -> Result<Trimmed, Memory>
    ensures { IfOk result (λ made. trimmed_in made
        ≡ spec.trimmed (block_of tree) live.items) }
{
    match tree {
        Tree::End => with_live(alloc, Tree::End, live),
        Tree::Set(of, number, expr, rest) => {
            let expr = held(alloc, expr)?;
            let rest = trim(alloc, Box::into_inner(rest), live)?;
            set_before(alloc, of, number, Box::into_inner(expr), rest)
        }
        Tree::Store(field, expr, rest) => {
            let expr = held(alloc, expr)?;
            let rest = trim(alloc, Box::into_inner(rest), live)?;
            store_before(alloc, field, Box::into_inner(expr), rest)
        }
        Tree::StoreAt(row, index, expr, rest) => {
            let index = held(alloc, index)?;
            let expr = held(alloc, expr)?;
            let rest = trim(alloc, Box::into_inner(rest), live)?;
            store_at_before(
                alloc,
                row,
                Box::into_inner(index),
                Box::into_inner(expr),
                rest,
            )
        }
        Tree::Call(of, number, function, args, rest) => {
            let rest = trim(alloc, Box::into_inner(rest), live)?;
            call_before(alloc, of, number, function, args, rest)
        }
        Tree::Select(of, number, expr, cases, args, rest) => {
            let expr = held(alloc, expr)?;
            let rest = trim(alloc, Box::into_inner(rest), live)?;
            select_before(alloc, of, number, Box::into_inner(expr), cases, args, rest)
        }
        Tree::If(expr, first, second, rest) => {
            let test = held(alloc, expr)?;
            let rest = trim(alloc, Box::into_inner(rest), live)?;
            let own = copied(alloc, &rest.live)?;
            let first = trim(alloc, Box::into_inner(first), own)?;
            let second = trim(alloc, Box::into_inner(second), rest.live)?;
            if_before(alloc, Box::into_inner(test), first, second, rest.tree)
        }
        Tree::While(expr, turn, rest) => {
            let test = held(alloc, expr)?;
            let rest = trim(alloc, Box::into_inner(rest), live)?;
            let live = turn_reads(&test, &turn, rest.live)?;
            let own = copied(alloc, &live)?;
            let turn = trim(alloc, Box::into_inner(turn), own)?;
            with_live(
                alloc,
                Tree::While(Box::into_inner(test), turn.tree, rest.tree),
                live,
            )
        }
        Tree::Return(expr) => returned(alloc, expr),
    }
}
