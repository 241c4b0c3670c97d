//! What lines read and use.
ghost use Rattle.std.specs.Prelude.{◌≡◌};
ghost use Rattle.std.specs.List.{list_any};
ghost use Rattle.c_subset.specs.declared.trees.Case.{Case};
ghost use Rattle.c_subset.specs.Lines.{expr_of, exprs_of, line_of, lines_in};
ghost use Rattle.c_text.specs.Functions as using;
ghost use Rattle.c_text.specs.Labels.{labels_of};
ghost use Rattle.c_text.specs.Reading as spec;

use crate::kinds::{function_kind, takes_struct};
use crate::labels::Labels;
use crate::locals::LocalName;
use crate::statements::local_of;
use crate::types::is_same;
use c_subset::{CExpr, CType, Case, Line};

/// Whether both are the same local.
pub fn is_same_local(left: LocalName, right: LocalName) -> bool
    ensures { result ≡ spec.same_local left right }
{
    left.number == right.number && is_same(left.of, right.of)
}

/// Whether there are cases. A `switch` without any does nothing, and isn't written.
pub fn has_cases(cases: &[Case]) -> bool
    ensures { result ≡ spec.has_cases cases.now }
{
    !cases.is_empty()
}

/// Whether an expression reads a local.
fn reads(local: LocalName, expr: &CExpr) -> bool
    ensures { result ≡ spec.reads local (expr_of expr.now) }
{
    match expr {
        CExpr::Const(..) | CExpr::Field(_) => false,
        CExpr::Local(of, number) => is_same_local(local, local_of(*of, *number)),
        CExpr::Element(_, inner)
        | CExpr::Cast(_, inner)
        | CExpr::Minus(inner)
        | CExpr::Bang(inner) => reads(local, inner),
        CExpr::Calc(_, left, right)
        | CExpr::Divide(_, left, right)
        | CExpr::Bits(_, left, right)
        | CExpr::Compare(_, left, right)
        | CExpr::Both(left, right)
        | CExpr::Either(left, right) => reads(local, left) || reads(local, right),
        CExpr::Choose(_, test, left, right) => {
            reads(local, test) || reads(local, left) || reads(local, right)
        }
    }
}

/// Whether one of these expressions reads a local.
fn any_reads(local: LocalName, exprs: &[CExpr]) -> bool
    ensures { result ≡ list_any (spec.reads local) (exprs_of exprs.now) }
{
    for expr in exprs {
        if reads(local, expr) {
            return true;
        }
    }
    false
}

/// Whether a line reads a local.
fn line_reads(local: LocalName, line: &Line) -> bool
    ensures { result ≡ spec.line_reads local (line_of line.now) }
{
    match line {
        Line::Set(_, _, expr)
        | Line::Store(_, expr)
        | Line::If(expr)
        | Line::While(expr)
        | Line::Return(expr) => reads(local, expr),
        Line::StoreAt(_, index, expr) => reads(local, index) || reads(local, expr),
        Line::Call(_, _, _, args) => any_reads(local, args.items()),
        Line::Select(_, _, expr, cases, args) => {
            has_cases(cases.items()) && (reads(local, expr) || any_reads(local, args.items()))
        }
        Line::Else | Line::Close => false,
    }
}

/// Whether one of these lines reads a local.
pub fn any_line_reads(local: LocalName, lines: &[Line]) -> bool
    ensures { result ≡ list_any (spec.line_reads local) (lines_in lines.now) }
{
    for line in lines {
        if line_reads(local, line) {
            return true;
        }
    }
    false
}

/// The local of a type and a number, where one of these lines reads it.
pub fn read_local(lines: &[Line], of: CType, number: u32) -> Option<LocalName>
    ensures { result ≡ spec.read_local (lines_in lines.now) of number }
{
    let local = local_of(of, number);
    if any_line_reads(local, lines) {
        Some(local)
    } else {
        None
    }
}

/// Whether an expression reads the struct.
fn reads_struct(expr: &CExpr) -> bool
    ensures { result ≡ using.reads_struct (expr_of expr.now) }
{
    match expr {
        CExpr::Const(..) | CExpr::Local(..) => false,
        CExpr::Field(_) | CExpr::Element(..) => true,
        CExpr::Cast(_, inner) | CExpr::Minus(inner) | CExpr::Bang(inner) => reads_struct(inner),
        CExpr::Calc(_, left, right)
        | CExpr::Divide(_, left, right)
        | CExpr::Bits(_, left, right)
        | CExpr::Compare(_, left, right)
        | CExpr::Both(left, right)
        | CExpr::Either(left, right) => reads_struct(left) || reads_struct(right),
        CExpr::Choose(_, test, left, right) => {
            reads_struct(test) || reads_struct(left) || reads_struct(right)
        }
    }
}

/// Whether one of these expressions reads the struct.
fn any_reads_struct(exprs: &[CExpr]) -> bool
    ensures { result ≡ list_any using.reads_struct (exprs_of exprs.now) }
{
    for expr in exprs {
        if reads_struct(expr) {
            return true;
        }
    }
    false
}

/// Whether a call of a function has the struct as an argument.
fn passes_struct(labels: &Labels<'_>, function: u32) -> bool
    ensures { result ≡ using.passes_struct (labels_of labels.now) function }
{
    takes_struct(function_kind(labels, function))
}

/// Whether one of these cases has the struct as an argument.
fn any_passes_struct(labels: &Labels<'_>, cases: &[Case]) -> bool
    ensures { result
        ≡ list_any (λ (c : Case). using.passes_struct (labels_of labels.now) c.function) cases.now }
{
    for case in cases {
        if passes_struct(labels, case.function) {
            return true;
        }
    }
    false
}

/// Whether a line uses the struct.
fn line_uses_struct(labels: &Labels<'_>, line: &Line) -> bool
    ensures { result ≡ using.line_uses_struct (labels_of labels.now) (line_of line.now) }
{
    match line {
        Line::Set(_, _, expr) | Line::If(expr) | Line::While(expr) | Line::Return(expr) => {
            reads_struct(expr)
        }
        Line::Store(..) | Line::StoreAt(..) => true,
        Line::Call(_, _, function, args) => {
            passes_struct(labels, *function) || any_reads_struct(args.items())
        }
        Line::Select(_, _, expr, cases, args) => {
            has_cases(cases.items())
                && (reads_struct(expr)
                    || any_passes_struct(labels, cases.items())
                    || any_reads_struct(args.items()))
        }
        Line::Else | Line::Close => false,
    }
}

/// Whether one of these lines uses the struct.
pub fn any_line_uses_struct(labels: &Labels<'_>, lines: &[Line]) -> bool
    ensures { result
        ≡ list_any (using.line_uses_struct (labels_of labels.now)) (lines_in lines.now) }
{
    for line in lines {
        if line_uses_struct(labels, line) {
            return true;
        }
    }
    false
}
