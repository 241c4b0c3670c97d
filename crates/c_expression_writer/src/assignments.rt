//! Assignments.
ghost use Rattle.std.specs.Prelude.{◌≡◌, ◌+◌, ◌≤◌, ◌<◌, ◌^◌, ◌++◌, ◌∷◌, [], length, OnOk, IsOk};
ghost use Rattle.flow_base.specs.Lists.{items_of};
ghost use Rattle.flow_base.specs.declared.chart_limits.TheConstants.{OPERATOR_LIMIT};
ghost use Rattle.actions.specs.Sorts.{IsNarrow, scope_of, sort_of};
ghost use Rattle.actions.specs.Trees as trees;
ghost use Rattle.checked_chart.specs.Expressions.{operator_count};
ghost use Rattle.c_subset.specs.Lines as lines;
ghost use Rattle.c_subset.specs.Lines.{Appends, expr_of, lines_in};
ghost use Rattle.c_subset.specs.Trees as c;
ghost use Rattle.c_functions.specs.Assigning.{assigned_block, stores_of};
ghost use Rattle.c_functions.specs.Code as code;
ghost use Rattle.c_functions.specs.Storing as spec;
ghost use Rattle.c_functions.specs.Plans as plans;
ghost use Rattle.c_shape.specs.FileShapes.{shape_seen};
ghost use Rattle.c_expression_writer.specs.Written.{seen};

use crate::arithmetic::{brought, power};
use crate::ends::{Brought, out_of_range, saturated, value};
use crate::expressions::{FIRST_FREE, write_operand};
use crate::lines::{put, put_fault_if};
use crate::operand::Operand;
use crate::precision::{Precision, floored_width, precision_of, size_at};
use crate::quotients::put_division;
use crate::wraps::{low_bits, rest_of, signed};
use actions::{Expr, Sort};
use c_shape::FileShape;
use c_subset::{CExpr, CType, Line, Width};
use fixed_point::{Mode, Scale};
use flow_base::{Fault, List, Memory};
use std::alloc::Global;

/// Appends that a number is brought to a fraction, by floor, as a local.
#[tactic(auto, using(std::proofs::Common::append_assoc), unfolding(c_subset::specs::Lines::lines_of, c_functions::specs::Code::written))]
fn put_floored(
    alloc: Global,
    shape: &FileShape<'_>,
    out: &mut List<Line>,
    from: Precision,
    frac: u32,
    local: u32,
    expr: CExpr,
) -> Result<(), Memory>
    requires { frac ≤ 64 }
    ensures { OnOk result (Appends (items_of out.old) (items_of out.new)
        (code.written (plans.helper (shape_seen shape.now)) (plans.faulted (shape_seen shape.now))
        (spec.floored_code local from.frac from.size frac (expr_of expr)))) }
{
    let width = floored_width(from, frac);
    if from.frac <= frac {
        let value = brought(alloc, width, frac - from.frac, expr)?;
        return put(out, Line::Set(CType::Signed(width), local, value));
    }
    let divisor = power(width, from.frac - frac);
    put_division(alloc, shape, out, width, local, expr, divisor)
}

/// Appends that a datum takes the nearest number in range.
#[tactic(auto, using(std::proofs::Common::append_assoc), unfolding(c_subset::specs::Lines::lines_of, c_functions::specs::Code::written))]
fn store_saturated(
    alloc: Global,
    out: &mut List<Line>,
    datum: u32,
    of: Brought,
) -> Result<(), Memory>
    ensures { OnOk result (Appends (items_of out.old) (items_of out.new)
        (c.Store datum (spec.saturated_c of.scale of.size of.width
        (c.Local (CType.Signed of.width) of.local)))) }
{
    let kept = saturated(alloc, of)?;
    put(out, Line::Store(datum, kept))
}

/// Appends that a datum takes a number in range, and the fault where it isn't.
#[tactic(auto, using(std::proofs::Common::append_assoc), unfolding(c_subset::specs::Lines::lines_of, c_functions::specs::Code::written))]
fn store_checked(
    alloc: Global,
    shape: &FileShape<'_>,
    out: &mut List<Line>,
    datum: u32,
    of: Brought,
) -> Result<(), Memory>
    ensures { OnOk result (Appends (items_of out.old) (items_of out.new) (λ rest.
        code.written (plans.helper (shape_seen shape.now)) (plans.faulted (shape_seen shape.now))
        (code.FaultIf (Fault.Overflow datum) (spec.out_c of.scale of.size of.width
        (c.Local (CType.Signed of.width) of.local)))
        (c.Store datum (c.Local (CType.Signed of.width) of.local) rest))) }
{
    let test = out_of_range(alloc, of)?;
    put_fault_if(shape, out, Fault::Overflow(datum), test)?;
    put(out, Line::Store(datum, value(of)))
}

/// Appends that a local has the low bits of a number.
fn put_low(alloc: Global, out: &mut List<Line>, of: Brought) -> Result<(), Memory>
    requires { of.local + 1 < 2 ^ 32 }
    ensures { OnOk result (lines_in (items_of out.new) ≡ lines_in (items_of out.old)
        ++ lines.Set (CType.Unsigned Width.W64) (of.local + 1)
        (spec.low_bits_c of.scale (c.Local (CType.Signed of.width) of.local)) ∷ []) }
{
    let low = low_bits(alloc, of.scale, value(of))?;
    put(
        out,
        Line::Set(CType::Unsigned(Width::W64), of.local + 1, low),
    )
}

/// Appends that a datum without a sign takes the low bits of a number.
#[tactic(auto, using(std::proofs::Common::append_assoc), unfolding(c_subset::specs::Lines::lines_of))]
fn store_low(alloc: Global, out: &mut List<Line>, datum: u32, of: Brought) -> Result<(), Memory>
    requires { of.local + 1 < 2 ^ 32 }
    ensures { OnOk result (Appends (items_of out.old) (items_of out.new) (λ rest.
        c.Set (CType.Unsigned Width.W64) (of.local + 1)
        (spec.low_bits_c of.scale (c.Local (CType.Signed of.width) of.local))
        (c.Store datum (c.Local (CType.Unsigned Width.W64) (of.local + 1)) rest))) }
{
    put_low(alloc, out, of)?;
    let kept = CExpr::Local(CType::Unsigned(Width::W64), of.local + 1);
    put(out, Line::Store(datum, kept))
}

/// Appends that a datum with a sign takes the number in range that differs by a multiple of
/// `2^width`.
#[tactic(auto, using(std::proofs::Common::append_assoc), unfolding(c_subset::specs::Lines::lines_of))]
fn store_signed(alloc: Global, out: &mut List<Line>, datum: u32, of: Brought) -> Result<(), Memory>
    requires { of.local + 2 < 2 ^ 32 }
    ensures { OnOk result (Appends (items_of out.old) (items_of out.new) (λ rest.
        c.Set (CType.Unsigned Width.W64) (of.local + 1)
        (spec.low_bits_c of.scale (c.Local (CType.Signed of.width) of.local))
        (c.Set (CType.Unsigned Width.W64) (of.local + 2)
        (spec.rest_c of.scale (c.Local (CType.Unsigned Width.W64) (of.local + 1)))
        (c.Store datum (spec.signed_c of.scale (c.Local (CType.Unsigned Width.W64) (of.local + 1))
        (c.Local (CType.Unsigned Width.W64) (of.local + 2))) rest)))) }
{
    put_low(alloc, out, of)?;
    let rest = rest_of(alloc, of.scale, of.local + 1)?;
    put(
        out,
        Line::Set(CType::Unsigned(Width::W64), of.local + 2, rest),
    )?;
    let kept = signed(alloc, of.scale, of.local + 1, of.local + 2)?;
    put(out, Line::Store(datum, kept))
}

/// A datum that takes a number.
#[derive(Clone, Copy)]
struct Target {
    /// The number of the datum.
    datum: u32,
    /// What numbers it has.
    scale: Scale,
    /// What is done with a number out of range.
    mode: Mode,
}

/// Appends that a datum takes a number.
fn store_number(
    alloc: Global,
    shape: &FileShape<'_>,
    out: &mut List<Line>,
    to: Target,
    from: Precision,
    number: Operand,
) -> Result<(), Memory>
    requires { number.next + 2 < 2 ^ 32 }
    ensures { OnOk result (Appends (items_of out.old) (items_of out.new)
        (assigned_block (plans.helper (shape_seen shape.now)) (plans.faulted (shape_seen shape.now))
        to.datum (spec.stored_c to.datum from.frac from.size to.scale to.mode (seen number)))) }
{
    let frac = u32::from(to.scale.frac);
    let of = Brought {
        scale: to.scale,
        size: size_at(frac, from),
        width: floored_width(from, frac),
        local: number.next,
    };
    put_floored(alloc, shape, out, from, frac, number.next, number.expr)?;
    match to.mode {
        Mode::Saturate => store_saturated(alloc, out, to.datum, of),
        Mode::Wrap if to.scale.signed => store_signed(alloc, out, to.datum, of),
        Mode::Wrap => store_low(alloc, out, to.datum, of),
        Mode::Error => store_checked(alloc, shape, out, to.datum, of),
    }
}

/// Appends that a datum of that sort and mode takes an operand.
#[tactic(auto, using(std::proofs::Common::append_assoc), unfolding(c_subset::specs::Lines::lines_of, c_functions::specs::Code::written))]
fn store_operand(
    alloc: Global,
    shape: &FileShape<'_>,
    out: &mut List<Line>,
    datum: u32,
    sort: Sort,
    mode: Mode,
    operand: Operand,
) -> Result<(), Memory>
    requires narrow { IsNarrow operand.sort }
    requires room { operand.next + 2 < 2 ^ 32 }
    ensures { OnOk result (Appends (items_of out.old) (items_of out.new)
        (assigned_block (plans.helper (shape_seen shape.now)) (plans.faulted (shape_seen shape.now))
        datum (stores_of datum sort mode operand.sort (seen operand)))) }
{
    match (sort, precision_of(operand.sort)) {
        (Sort::Number(scale), Some(from)) => {
            let to = Target { datum, scale, mode };
            store_number(alloc, shape, out, to, from, operand)
        }
        (Sort::Number(_), None) => put(out, Line::Store(datum, operand.expr)),
        (Sort::Flag, _) => put(out, Line::Store(datum, operand.expr)),
    }
}

/// Appends the assignment of an expression to a datum.
pub fn write_assign(
    alloc: Global,
    shape: &FileShape<'_>,
    out: &mut List<Line>,
    datum: u32,
    expr: &Expr,
) -> Result<(), Memory>
    requires datum { datum < length (shape_seen shape.now).names.vars }
    requires sorted { IsOk (sort_of (scope_of (shape_seen shape.now).names)
        (trees.expr_of expr.now)) }
    requires operators { operator_count (trees.expr_of expr.now) ≤ OPERATOR_LIMIT }
    ensures { OnOk result (Appends (items_of out.old) (items_of out.new)
        (plans.assign_c (shape_seen shape.now) datum (trees.expr_of expr.now))) }
{
    let operand = write_operand(alloc, shape, out, FIRST_FREE, expr)?;
    let var = &shape.names.vars.items()[datum as usize];
    store_operand(alloc, shape, out, datum, var.sort, var.mode, operand)
}
