//! Quotients.
ghost use Rattle.std.specs.Prelude.{◌≡◌, ◌+◌, ◌<◌, ◌^◌, ◌-◌, ◌≤◌, ◌∷◌, [], max, IfOk, OnOk, IsOk};
ghost use Rattle.flow_base.specs.Lists.{items_of};
ghost use Rattle.actions.specs.Sorts.{IsNarrow, binary_sort};
ghost use Rattle.c_subset.specs.Lines.{Appends, expr_of, exprs_of};
ghost use Rattle.c_subset.specs.Trees as c;
ghost use Rattle.c_functions.specs.Code as code;
ghost use Rattle.c_functions.specs.Translation as spec;
ghost use Rattle.c_functions.specs.Plans.{faulted};
ghost use Rattle.c_functions.specs.Plans as plans;
ghost use Rattle.c_shape.specs.FileShapes.{shape_seen};
ghost use Rattle.c_expression_writer.specs.Written.{IsWritten, seen};

use crate::arithmetic::brought;
use crate::lines::{put, put_fault_if};
use crate::operand::Operand;
use crate::precision::{Precisions, precision_of, quotient_width};
use crate::sorts::sort_in;
use actions::{ExprSort, Op, binary_sort};
use c_functions::function_offsets::QUOTIENTS_OFFSET;
use c_shape::FileShape;
use c_subset::{CExpr, CType, Comparison, Line, Width};
use flow_base::{Fault, List, Memory};
use std::alloc::Global;

/// The width of the type of a quotient.
fn division_width(left: ExprSort, right: ExprSort) -> Width
    requires left { IsNarrow left }
    requires right { IsNarrow right }
    ensures { result ≡ spec.division_width left right }
{
    match (precision_of(left), precision_of(right)) {
        (Some(left), Some(right)) => quotient_width(Precisions { left, right }),
        (Some(_), None) => Width::W32,
        (None, _) => Width::W32,
    }
}

/// How many bits more after the point the dividend of a quotient of these sorts gets.
fn dividend_bits(of: Precisions) -> u32
    requires { IsOk (binary_sort Op.Div (ExprSort.Number of.left.frac of.left.size)
        (ExprSort.Number of.right.frac of.right.size)) }
    ensures bits { result ≡ (max of.left.frac of.right.frac - of.left.frac) + of.right.frac }
    ensures few { result ≤ 100 }
{
    of.left.frac.max(of.right.frac) - of.left.frac + of.right.frac
}

/// The dividend of a quotient, with as many bits after the point as the quotient and the divisor
/// have.
fn dividend(alloc: Global, left: ExprSort, right: ExprSort, expr: CExpr) -> Result<CExpr, Memory>
    requires sorted { IsOk (binary_sort Op.Div left right) }
    requires left { IsNarrow left }
    requires right { IsNarrow right }
    ensures { IfOk result (λ made. expr_of made ≡ spec.dividend_c left right (expr_of expr)) }
{
    match (precision_of(left), precision_of(right)) {
        (Some(left), Some(right)) => {
            let of = Precisions { left, right };
            brought(alloc, quotient_width(of), dividend_bits(of), expr)
        }
        (Some(_), None) => Ok(expr),
        (None, _) => Ok(expr),
    }
}

/// The test that a local is 0.
fn is_zero(alloc: Global, to: CType, local: u32) -> Result<CExpr, Memory>
    ensures { IfOk result (λ test. expr_of test ≡ spec.is_zero_c to (c.Local to local)) }
{
    let value = CExpr::Local(to, local);
    CExpr::compare(alloc, Comparison::IsEqual, value, CExpr::Const(to, 0))
}

/// The number of the function for quotients of that width.
pub fn helper(shape: &FileShape<'_>, width: Width) -> u32
    ensures { result ≡ plans.helper (shape_seen shape.now) width }
{
    let place = match width {
        Width::W8 => 0,
        Width::W16 => 1,
        Width::W32 => 2,
        Width::W64 => 3,
        Width::W128 => 4,
    };
    shape.procs + QUOTIENTS_OFFSET + place
}

/// Two arguments.
fn two(alloc: Global, left: CExpr, right: CExpr) -> Result<List<CExpr>, Memory>
    ensures { IfOk result (λ list. exprs_of (items_of list) ≡ expr_of left ∷ expr_of right ∷ []) }
{
    let list = vec![in alloc; left, right]?;
    Ok(List::of(list))
}

/// Appends a call of the function for quotients.
#[tactic(auto, using(std::proofs::Common::append_assoc), unfolding(c_subset::specs::Lines::lines_of, c_functions::specs::Code::written))]
pub(crate) fn put_division(
    alloc: Global,
    shape: &FileShape<'_>,
    out: &mut List<Line>,
    width: Width,
    local: u32,
    dividend: CExpr,
    divisor: CExpr,
) -> Result<(), Memory>
    ensures { OnOk result (Appends (items_of out.old) (items_of out.new)
        (code.written (plans.helper (shape_seen shape.now)) (faulted (shape_seen shape.now))
        (code.Divide width local (expr_of dividend) (expr_of divisor)))) }
{
    let arguments = two(alloc, dividend, divisor)?;
    put(
        out,
        Line::Call(CType::Signed(width), local, helper(shape, width), arguments),
    )
}

/// Appends that the divisor is set as a local, and the fault where it is 0.
#[tactic(auto, using(std::proofs::Common::append_assoc), unfolding(c_subset::specs::Lines::lines_of, c_functions::specs::Code::written))]
fn put_divisor(
    alloc: Global,
    shape: &FileShape<'_>,
    out: &mut List<Line>,
    width: Width,
    local: u32,
    expr: CExpr,
) -> Result<(), Memory>
    ensures { OnOk result (Appends (items_of out.old) (items_of out.new)
        (code.written (plans.helper (shape_seen shape.now)) (faulted (shape_seen shape.now))
        (code.Then (code.Set (CType.Signed width) local (expr_of expr))
        (code.FaultIf Fault.Zero (spec.is_zero_c (CType.Signed width)
        (c.Local (CType.Signed width) local)))))) }
{
    let to = CType::Signed(width);
    put(out, Line::Set(to, local, expr))?;
    let test = is_zero(alloc, to, local)?;
    put_fault_if(shape, out, Fault::Zero, test)
}

/// Appends a quotient of two operands.
pub(crate) fn quotient(
    alloc: Global,
    shape: &FileShape<'_>,
    out: &mut List<Line>,
    left: Operand,
    right: Operand,
) -> Result<Operand, Memory>
    requires sorted { IsOk (binary_sort Op.Div left.sort right.sort) }
    requires left { IsNarrow left.sort }
    requires right { IsNarrow right.sort }
    requires room { right.next + 2 < 2 ^ 32 }
    ensures { IfOk result (IsWritten (shape_seen shape.now) (items_of out.old) (items_of out.new)
        (spec.quotient_flat left.sort right.sort (seen left) (seen right))
        (spec.sort_in (binary_sort Op.Div left.sort right.sort))) }
{
    let width = division_width(left.sort, right.sort);
    let local = right.next;
    let sort = sort_in(binary_sort(Op::Div, left.sort, right.sort));
    match put_divisor(alloc, shape, out, width, local, right.expr) {
        Ok(()) => {
            let dividend = dividend(alloc, left.sort, right.sort, left.expr)?;
            let divisor = CExpr::Local(CType::Signed(width), local);
            put_division(alloc, shape, out, width, local + 1, dividend, divisor)?;
            Ok(Operand {
                expr: CExpr::Local(CType::Signed(width), local + 1),
                sort,
                next: local + 2,
            })
        }
        Err(Memory) => {
            drop(left);
            Err(Memory)
        }
    }
}
