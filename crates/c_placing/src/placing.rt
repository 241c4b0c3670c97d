//! Lines of a function with other numbers for its locals.
ghost use Rattle.std.specs.Prelude.{◌≡◌, ◌+◌, IfOk, map};
ghost use Rattle.flow_base.specs.Lists.{items_of};
ghost use Rattle.c_subset.specs.Lines.{expr_of, exprs_of, line_of, lines_in, lines_of};
ghost use Rattle.c_subset.specs.Trees as c;
ghost use Rattle.c_trees.specs.Blocks.{block_of};
ghost use Rattle.c_placing.specs.Placing as spec;
ghost use Rattle.c_placing.specs.PlacedLines as by_line;

use c_subset::{CExpr, Case, Line};
use c_trees::{Tree, tree_of};
use flow_base::{List, Memory};
use std::alloc::Global;

/// Why lines aren't placed.
#[derive(Clone, Copy)]
pub enum NotPlaced {
    /// Memory ran out.
    Memory,
    /// A local would have a number past the last one.
    Number,
}

impl From<Memory> for NotPlaced {
    fn from(_refused: Memory) -> NotPlaced {
        NotPlaced::Memory
    }
}

/// The number of a local from the base on.
fn moved(base: u32, number: u32) -> Result<u32, NotPlaced>
    ensures { IfOk result (λ moved. moved ≡ base + number) }
{
    match base.checked_add(number) {
        Some(moved) => Ok(moved),
        None => Err(NotPlaced::Number),
    }
}

/// The expression in a box.
fn boxed(alloc: Global, expr: CExpr) -> Result<Box<CExpr>, Memory>
    ensures { IfOk result (λ holder. holder.value ≡ expr) }
{
    Ok(Box::new(alloc, expr)?)
}

/// The placed expression in a box.
#[cycle(placed_expr)]
fn placed_box(alloc: Global, base: u32, expr: &CExpr) -> Result<Box<CExpr>, NotPlaced>
    ensures { IfOk result (λ made.
        expr_of made.value ≡ spec.placed_expr base (expr_of expr.now)) }
{
    Ok(boxed(alloc, placed_expr(alloc, base, expr)?)?)
}

/// An expression whose locals have numbers from the base on.
#[cycle(placed_expr)]
#[tactic(auto, unfolding(crate::specs::Placing::placed_expr))]
fn placed_expr(alloc: Global, base: u32, expr: &CExpr) -> Result<CExpr, NotPlaced>
    ensures { IfOk result (λ made. expr_of made ≡ spec.placed_expr base (expr_of expr.now)) }
{
    match expr {
        CExpr::Const(of, value) => Ok(CExpr::Const(*of, *value)),
        CExpr::Field(field) => Ok(CExpr::Field(*field)),
        CExpr::Element(row, index) => Ok(CExpr::Element(*row, placed_box(alloc, base, index)?)),
        CExpr::Local(of, number) => Ok(CExpr::Local(*of, moved(base, *number)?)),
        CExpr::Cast(to, inner) => Ok(CExpr::Cast(*to, placed_box(alloc, base, inner)?)),
        CExpr::Minus(inner) => Ok(CExpr::Minus(placed_box(alloc, base, inner)?)),
        CExpr::Bang(inner) => Ok(CExpr::Bang(placed_box(alloc, base, inner)?)),
        CExpr::Calc(op, left, right) => {
            let left = placed_box(alloc, base, left)?;
            Ok(CExpr::Calc(*op, left, placed_box(alloc, base, right)?))
        }
        CExpr::Divide(op, left, right) => {
            let left = placed_box(alloc, base, left)?;
            Ok(CExpr::Divide(*op, left, placed_box(alloc, base, right)?))
        }
        CExpr::Bits(op, left, right) => {
            let left = placed_box(alloc, base, left)?;
            Ok(CExpr::Bits(*op, left, placed_box(alloc, base, right)?))
        }
        CExpr::Compare(op, left, right) => {
            let left = placed_box(alloc, base, left)?;
            Ok(CExpr::Compare(*op, left, placed_box(alloc, base, right)?))
        }
        CExpr::Both(left, right) => {
            let left = placed_box(alloc, base, left)?;
            Ok(CExpr::Both(left, placed_box(alloc, base, right)?))
        }
        CExpr::Either(left, right) => {
            let left = placed_box(alloc, base, left)?;
            Ok(CExpr::Either(left, placed_box(alloc, base, right)?))
        }
        CExpr::Choose(to, test, left, right) => {
            let test = placed_box(alloc, base, test)?;
            let left = placed_box(alloc, base, left)?;
            Ok(CExpr::Choose(*to, test, left, placed_box(alloc, base, right)?))
        }
    }
}

/// Placed expressions.
fn placed_exprs(alloc: Global, base: u32, exprs: &[CExpr]) -> Result<List<CExpr>, NotPlaced>
    ensures { IfOk result (λ made.
        exprs_of (items_of made) ≡ spec.placed_exprs base (exprs_of exprs.now)) }
{
    let mut made = List::of(Vec::new(alloc));
    for expr in exprs {
        made.push(placed_expr(alloc, base, expr)?)?;
    }
    Ok(made)
}

/// The same cases.
fn copied_cases(alloc: Global, cases: &[Case]) -> Result<List<Case>, Memory>
    ensures { IfOk result (λ made. items_of made ≡ cases.now) }
{
    let mut made = List::of(Vec::new(alloc));
    for case in cases {
        made.push(*case)?;
    }
    Ok(made)
}

/// A line whose locals have numbers from the base on.
fn placed_line(alloc: Global, base: u32, line: &Line) -> Result<Line, NotPlaced>
    ensures { IfOk result (λ made. line_of made ≡ by_line.placed_line base (line_of line.now)) }
{
    match line {
        Line::Set(of, local, expr) => {
            let local = moved(base, *local)?;
            Ok(Line::Set(*of, local, placed_expr(alloc, base, expr)?))
        }
        Line::Store(field, expr) => Ok(Line::Store(*field, placed_expr(alloc, base, expr)?)),
        Line::StoreAt(row, index, expr) => {
            let index = placed_box(alloc, base, index)?;
            let expr = placed_expr(alloc, base, expr)?;
            Ok(Line::StoreAt(*row, Box::into_inner(index), expr))
        }
        Line::Call(of, local, function, args) => {
            let local = moved(base, *local)?;
            let args = placed_exprs(alloc, base, args.items())?;
            Ok(Line::Call(*of, local, *function, args))
        }
        Line::Select(of, local, expr, cases, args) => {
            let local = moved(base, *local)?;
            let cases = copied_cases(alloc, cases.items())?;
            let args = placed_exprs(alloc, base, args.items())?;
            let expr = placed_expr(alloc, base, expr)?;
            Ok(Line::Select(*of, local, expr, cases, args))
        }
        Line::If(expr) => Ok(Line::If(placed_expr(alloc, base, expr)?)),
        Line::Else => Ok(Line::Else),
        Line::While(expr) => Ok(Line::While(placed_expr(alloc, base, expr)?)),
        Line::Close => Ok(Line::Close),
        Line::Return(expr) => Ok(Line::Return(placed_expr(alloc, base, expr)?)),
    }
}

/// Placed lines.
fn placed_lines(alloc: Global, base: u32, lines: &[Line]) -> Result<List<Line>, NotPlaced>
    ensures { IfOk result (λ made.
        lines_in (items_of made) ≡ map (by_line.placed_line base) (lines_in lines.now)) }
{
    let mut made = List::of(Vec::new(alloc));
    for line in lines {
        made.push(placed_line(alloc, base, line)?)?;
    }
    Ok(made)
}

/// The statements of which these are the lines, whose locals have numbers from the base on.
///
/// `Number` where a local would have one past the last, and `Memory` only where memory was refused.
pub fn placed(alloc: Global, base: u32, lines: &[Line]) -> Result<Box<Tree>, NotPlaced>
    ensures { IfOk result (λ made. (b : c.Block) → lines_in lines.now ≡ lines_of b →
        block_of made.value ≡ spec.placed base b) }
{
    let lines = placed_lines(alloc, base, lines)?;
    Ok(tree_of(alloc, lines)?)
}
