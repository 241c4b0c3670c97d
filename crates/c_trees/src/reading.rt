//! Lines as trees: they are read from the last to the first.
//!
//! An expression or a line of which nothing is made goes to `drop` by name: a single drop at the
//! end of a scope would be written out for each of its variants, and make the proof long.
ghost use Rattle.std.specs.Prelude.{◌≡◌, ◌∷◌, [], IfOk, false};
ghost use Rattle.flow_base.specs.Lists.{items_of};
ghost use Rattle.c_subset.specs.Lines.{expr_of, line_of, lines_in, lines_of};
ghost use Rattle.c_subset.specs.Trees as c;
ghost use Rattle.c_trees.specs.Blocks.{block_of};
ghost use Rattle.c_trees.specs.Reading as spec;
ghost use Rattle.c_trees.specs.Reading.{opens_of};

use crate::trees::Tree;
use c_subset::{CExpr, Line};
use flow_base::{List, Memory};
use std::alloc::Global;

/// What is read of each block that is open, the innermost first.
#[derive(Drop)]
enum Stack {
    /// No block is open.
    Empty,
    /// A block, whether it is the first part of an `if` with a second one, and those around it.
    Top(Box<Tree>, bool, Box<Stack>),
}

/// The tree in a box.
pub fn boxed(alloc: Global, tree: Tree) -> Result<Box<Tree>, Memory>
    ensures { IfOk result (λ holder. holder.value ≡ tree) }
{
    match Box::new(alloc, tree) {
        Ok(holder) => Ok(holder),
        Err(refused) => {
            drop(refused);
            Err(Memory)
        }
    }
}

/// One more block is open, of which nothing is read.
fn opened(alloc: Global, has_else: bool, below: Stack) -> Result<Stack, Memory>
    ensures { IfOk result (λ stack. opens_of stack
        ≡ record { block = c.End; has_else = has_else } ∷ opens_of below) }
{
    let tree = boxed(alloc, Tree::End)?;
    let holder = Box::new(alloc, below)?;
    Ok(Stack::Top(tree, has_else, holder))
}

/// A statement without parts before others; another line changes nothing.
pub fn step(line: Line, rest: Box<Tree>) -> Tree
    ensures { block_of result ≡ spec.step (line_of line) (block_of rest.value) }
{
    match line {
        Line::Set(of, local, expr) => Tree::Set(of, local, expr, rest),
        Line::Store(field, expr) => Tree::Store(field, expr, rest),
        Line::StoreAt(row, index, expr) => Tree::StoreAt(row, index, expr, rest),
        Line::Call(of, local, function, args) => Tree::Call(of, local, function, args, rest),
        Line::Select(of, local, expr, cases, args) => {
            Tree::Select(of, local, expr, cases, args, rest)
        }
        Line::Return(expr) => Tree::Return(expr),
        Line::If(expr) | Line::While(expr) => {
            drop(expr);
            Box::into_inner(rest)
        }
        Line::Else | Line::Close => Box::into_inner(rest),
    }
}

/// The line before what is read of the innermost block.
fn on_top(alloc: Global, line: Line, stack: Stack) -> Result<Stack, Memory>
    ensures { IfOk result (λ next. opens_of next ≡ spec.on_top (line_of line) (opens_of stack)) }
{
    match stack {
        Stack::Empty => {
            drop(line);
            Ok(Stack::Empty)
        }
        Stack::Top(rest, has_else, below) => {
            let tree = boxed(alloc, step(line, rest))?;
            Ok(Stack::Top(tree, has_else, below))
        }
    }
}

/// An `if` with both parts before what comes after it.
fn close_after(
    alloc: Global,
    expr: CExpr,
    first: Box<Tree>,
    second: Box<Tree>,
    stack: Stack,
) -> Result<Stack, Memory>
    ensures { IfOk result (λ next. opens_of next ≡ spec.close_after (expr_of expr)
        (block_of first.value) (block_of second.value) (opens_of stack)) }
{
    match stack {
        Stack::Empty => {
            drop(expr);
            Ok(Stack::Empty)
        }
        Stack::Top(rest, has_else, below) => {
            let tree = boxed(alloc, Tree::If(expr, first, second, rest))?;
            Ok(Stack::Top(tree, has_else, below))
        }
    }
}

/// `if (e) { .. } else { .. }` before what comes after it.
fn close_both(alloc: Global, expr: CExpr, first: Box<Tree>, stack: Stack) -> Result<Stack, Memory>
    ensures { IfOk result (λ next. opens_of next
        ≡ spec.close_both (expr_of expr) (block_of first.value) (opens_of stack)) }
{
    match stack {
        Stack::Empty => {
            drop(expr);
            Ok(Stack::Empty)
        }
        Stack::Top(second, _, below) => {
            close_after(alloc, expr, first, second, Box::into_inner(below))
        }
    }
}

/// `if (e) { .. }` before what comes after it.
fn close_first(alloc: Global, expr: CExpr, first: Box<Tree>, stack: Stack) -> Result<Stack, Memory>
    ensures { IfOk result (λ next. opens_of next
        ≡ spec.close_after (expr_of expr) (block_of first.value) c.End (opens_of stack)) }
{
    match boxed(alloc, Tree::End) {
        Ok(second) => close_after(alloc, expr, first, second, stack),
        Err(Memory) => {
            drop(expr);
            Err(Memory)
        }
    }
}

/// The line `if (e) {`.
fn close_if(alloc: Global, expr: CExpr, stack: Stack) -> Result<Stack, Memory>
    ensures { IfOk result (λ next. opens_of next ≡ spec.close_if (expr_of expr) (opens_of stack)) }
{
    match stack {
        Stack::Empty => {
            drop(expr);
            Ok(Stack::Empty)
        }
        Stack::Top(first, has_else, below) => {
            if has_else {
                close_both(alloc, expr, first, Box::into_inner(below))
            } else {
                close_first(alloc, expr, first, Box::into_inner(below))
            }
        }
    }
}

/// `while (e) { .. }` before what comes after it.
fn close_loop(alloc: Global, expr: CExpr, first: Box<Tree>, stack: Stack) -> Result<Stack, Memory>
    ensures { IfOk result (λ next. opens_of next
        ≡ spec.close_loop (expr_of expr) (block_of first.value) (opens_of stack)) }
{
    match stack {
        Stack::Empty => {
            drop(expr);
            Ok(Stack::Empty)
        }
        Stack::Top(rest, has_else, below) => {
            let tree = boxed(alloc, Tree::While(expr, first, rest))?;
            Ok(Stack::Top(tree, has_else, below))
        }
    }
}

/// The line `while (e) {`.
fn close_while(alloc: Global, expr: CExpr, stack: Stack) -> Result<Stack, Memory>
    ensures { IfOk result (λ next. opens_of next
        ≡ spec.close_while (expr_of expr) (opens_of stack)) }
{
    match stack {
        Stack::Empty => {
            drop(expr);
            Ok(Stack::Empty)
        }
        Stack::Top(first, _, below) => close_loop(alloc, expr, first, Box::into_inner(below)),
    }
}

/// A line before those that were read.
fn read_line(alloc: Global, line: Line, stack: Stack) -> Result<Stack, Memory>
    ensures { IfOk result (λ next. opens_of next ≡ spec.read_line (line_of line) (opens_of stack)) }
{
    match line {
        Line::If(expr) => close_if(alloc, expr, stack),
        Line::Else => opened(alloc, true, stack),
        Line::While(expr) => close_while(alloc, expr, stack),
        Line::Close => opened(alloc, false, stack),
        Line::Set(..)
        | Line::Store(..)
        | Line::StoreAt(..)
        | Line::Call(..)
        | Line::Select(..)
        | Line::Return(..) => on_top(alloc, line, stack),
    }
}

/// The lines, read.
#[tactic(auto, unfolding(crate::specs::Reading::read_lines))]
fn read_lines(alloc: Global, lines: Vec<Line>) -> Result<Stack, Memory>
    ensures { IfOk result (λ stack. opens_of stack ≡ spec.read_lines (lines_in lines.items)
        (record { block = c.End; has_else = false } ∷ [])) }
{
    let mut left = lines;
    let mut stack = opened(alloc, false, Stack::Empty)?;
    'lines: while let Some(line) = left.pop() {
        stack = read_line(alloc, line, stack)?;
    }
    Ok(stack)
}

/// The statements of which these are the lines.
pub fn tree_of(alloc: Global, lines: List<Line>) -> Result<Box<Tree>, Memory>
    ensures { IfOk result (λ tree. (b : c.Block) → lines_in (items_of lines) ≡ lines_of b
        → block_of tree.value ≡ b) }
{
    match read_lines(alloc, lines.into_items())? {
        Stack::Empty => boxed(alloc, Tree::End),
        Stack::Top(tree, _, _) => Ok(tree),
    }
}
