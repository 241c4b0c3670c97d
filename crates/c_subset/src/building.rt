//! Expressions in boxes.
ghost use Rattle.std.specs.Prelude.{◌≡◌, IfOk};
ghost use Rattle.c_subset.specs.Lines.{expr_of};
ghost use Rattle.c_subset.specs.Trees as c;

use crate::trees::{Arithmetic, Bitwise, CExpr, CType, Comparison, Division};
use flow_base::Memory;
use std::alloc::Global;

/// The expression in a box.
fn boxed(alloc: Global, expr: CExpr) -> Result<Box<CExpr>, Memory>
    ensures { IfOk result (λ holder. holder.value ≡ expr) }
{
    Ok(Box::new(alloc, expr)?)
}

impl CExpr {
    /// `m->a[e]`, an element of array `row` of the struct.
    pub fn element(alloc: Global, row: u32, index: CExpr) -> Result<CExpr, Memory>
        ensures { IfOk result (λ expr. expr_of expr ≡ c.Element row (expr_of index)) }
    {
        Ok(CExpr::Element(row, boxed(alloc, index)?))
    }

    /// `(T)e`
    pub fn cast(alloc: Global, to: CType, expr: CExpr) -> Result<CExpr, Memory>
        ensures { IfOk result (λ cast. expr_of cast ≡ c.Cast to (expr_of expr)) }
    {
        Ok(CExpr::Cast(to, boxed(alloc, expr)?))
    }

    /// `-e`
    pub fn minus(alloc: Global, expr: CExpr) -> Result<CExpr, Memory>
        ensures { IfOk result (λ minus. expr_of minus ≡ c.Minus (expr_of expr)) }
    {
        Ok(CExpr::Minus(boxed(alloc, expr)?))
    }

    /// `!e`
    pub fn bang(alloc: Global, expr: CExpr) -> Result<CExpr, Memory>
        ensures { IfOk result (λ bang. expr_of bang ≡ c.Bang (expr_of expr)) }
    {
        Ok(CExpr::Bang(boxed(alloc, expr)?))
    }

    /// `a + b`, `a - b` or `a * b`
    pub fn calc(alloc: Global, op: Arithmetic, left: CExpr, right: CExpr) -> Result<CExpr, Memory>
        ensures { IfOk result (λ expr. expr_of expr ≡ c.Calc op (expr_of left) (expr_of right)) }
    {
        Ok(CExpr::Calc(op, boxed(alloc, left)?, boxed(alloc, right)?))
    }

    /// `a / b` or `a % b`
    pub fn divide(alloc: Global, op: Division, left: CExpr, right: CExpr) -> Result<CExpr, Memory>
        ensures { IfOk result (λ expr. expr_of expr ≡ c.Divide op (expr_of left) (expr_of right)) }
    {
        Ok(CExpr::Divide(op, boxed(alloc, left)?, boxed(alloc, right)?))
    }

    /// `a & b` or `a | b`
    pub fn bits(alloc: Global, op: Bitwise, left: CExpr, right: CExpr) -> Result<CExpr, Memory>
        ensures { IfOk result (λ expr. expr_of expr ≡ c.Bits op (expr_of left) (expr_of right)) }
    {
        Ok(CExpr::Bits(op, boxed(alloc, left)?, boxed(alloc, right)?))
    }

    /// `a == b` and the other comparisons
    pub fn compare(
        alloc: Global,
        op: Comparison,
        left: CExpr,
        right: CExpr,
    ) -> Result<CExpr, Memory>
        ensures { IfOk result (λ expr. expr_of expr ≡ c.Compare op (expr_of left) (expr_of right)) }
    {
        Ok(CExpr::Compare(op, boxed(alloc, left)?, boxed(alloc, right)?))
    }

    /// `a && b`
    pub fn both(alloc: Global, left: CExpr, right: CExpr) -> Result<CExpr, Memory>
        ensures { IfOk result (λ expr. expr_of expr ≡ c.Both (expr_of left) (expr_of right)) }
    {
        Ok(CExpr::Both(boxed(alloc, left)?, boxed(alloc, right)?))
    }

    /// `a || b`
    pub fn either(alloc: Global, left: CExpr, right: CExpr) -> Result<CExpr, Memory>
        ensures { IfOk result (λ expr. expr_of expr ≡ c.Either (expr_of left) (expr_of right)) }
    {
        Ok(CExpr::Either(boxed(alloc, left)?, boxed(alloc, right)?))
    }

    /// `test ? (T)left : (T)right`
    pub fn choose(
        alloc: Global,
        to: CType,
        test: CExpr,
        left: CExpr,
        right: CExpr,
    ) -> Result<CExpr, Memory>
        ensures { IfOk result (λ expr.
            expr_of expr ≡ c.Choose to (expr_of test) (expr_of left) (expr_of right)) }
    {
        let test = boxed(alloc, test)?;
        Ok(CExpr::Choose(to, test, boxed(alloc, left)?, boxed(alloc, right)?))
    }
}
