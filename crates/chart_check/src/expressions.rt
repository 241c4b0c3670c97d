//! Expressions and statements without their places.
ghost use Rattle.std.specs.Prelude.{◌≡◌, IfOk};
ghost use Rattle.std.specs.List.{AllByRecursion};
ghost use Rattle.flow_base.specs.Lists.{items_of};
ghost use Rattle.actions.specs.Trees as seen;
ghost use Rattle.resolved_tree.specs.Plain as plain;
ghost use Rattle.resolved_tree.specs.Promise.{IsInRange, IsStmt};
ghost use Rattle.resolved_tree.specs.Resolved.{Resolved};
ghost use Rattle.resolved_tree.specs.Views.{expr_of, stmt_of, block_of};
ghost use Rattle.checked_chart.specs.Views.{block_seen};

use actions::{Expr, Stmt};
use chart_tree::UnWord;
use chart_types::{op_of, signed_literal};
use flow_base::List;
use resolved_tree::{ResolvedExpr, ResolvedStmt};
use std::alloc::{AllocError, Global};

/// An expression without its places. Its literals are in range.
pub fn plain_expr(alloc: Global, expr: &ResolvedExpr) -> Result<Expr, AllocError>
    requires { (r : Resolved) × IsInRange r (expr_of expr.now) }
    ensures { IfOk result (λ made. seen.expr_of made ≡ plain.plain_expr (expr_of expr.now)) }
{
    match expr {
        ResolvedExpr::Lit(lit, _) => Ok(Expr::Lit(signed_literal(false, *lit))),
        ResolvedExpr::Flag(value, _) => Ok(Expr::Flag(*value)),
        ResolvedExpr::Name(datum) => Ok(Expr::Read(datum.number)),
        ResolvedExpr::Active(state, _) => Ok(Expr::Active(state.number)),
        ResolvedExpr::Unary(word, operand, _) => {
            let inner = Box::new(alloc, plain_expr(alloc, operand)?)?;
            match word {
                UnWord::Neg => Ok(Expr::Neg(inner)),
                UnWord::Not => Ok(Expr::Not(inner)),
            }
        }
        ResolvedExpr::Binary(word, left, right, _) => {
            let plain_left = Box::new(alloc, plain_expr(alloc, left)?)?;
            let plain_right = Box::new(alloc, plain_expr(alloc, right)?)?;
            Ok(Expr::Bin(op_of(*word), plain_left, plain_right))
        }
    }
}

/// A statement without its places.
fn plain_stmt(alloc: Global, stmt: &ResolvedStmt) -> Result<Stmt, AllocError>
    requires { (r : Resolved) × IsStmt r (stmt_of stmt.now) }
    ensures { IfOk result (λ made. seen.stmt_of made ≡ plain.plain_stmt (stmt_of stmt.now)) }
{
    match stmt {
        ResolvedStmt::Assign(datum, value) => {
            Ok(Stmt::Assign(datum.number, plain_expr(alloc, value)?))
        }
        ResolvedStmt::Send(event, None) => Ok(Stmt::Send(event.number)),
        ResolvedStmt::Send(event, Some(state)) => Ok(Stmt::SendTo(event.number, state.number)),
        ResolvedStmt::Emit(event) => Ok(Stmt::Emit(event.number)),
    }
}

/// Statements without their places.
pub fn plain_block(alloc: Global, block: &List<ResolvedStmt>) -> Result<List<Stmt>, AllocError>
    requires { (r : Resolved) × AllByRecursion (IsStmt r) (block_of (items_of block.now)) }
    ensures { IfOk result (λ made. block_seen (items_of made)
        ≡ plain.plain_block (block_of (items_of block.now))) }
{
    let mut made = Vec::new(alloc);
    for stmt in block.items() {
        made.push(plain_stmt(alloc, stmt)?)?;
    }
    Ok(List::of(made))
}
