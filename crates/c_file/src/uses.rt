//! Whether the functions of a file need a type of 128 bits.
ghost use Rattle.std.specs.Prelude.{◌≡◌, map};
ghost use Rattle.std.specs.List.{list_any};
ghost use Rattle.c_subset.specs.Lines.{expr_of, line_of, lines_in};
ghost use Rattle.c_file.specs.Uses as spec;

use c_subset::{CExpr, CType, Line, Width};

/// Whether a type has 128 bits.
fn is_wide_type(of: CType) -> bool
    ensures { result ≡ spec.is_wide_type of }
{
    match of {
        CType::Signed(width) | CType::Unsigned(width) => is_wide_width(width),
        CType::Truth => false,
    }
}

/// Whether a width is that of 128 bits.
fn is_wide_width(width: Width) -> bool
    ensures { result ≡ spec.is_wide_width width }
{
    match width {
        Width::W8 | Width::W16 | Width::W32 | Width::W64 => false,
        Width::W128 => true,
    }
}

/// Whether an expression names a type of 128 bits.
fn is_wide_expr(expr: &CExpr) -> bool
    ensures { result ≡ spec.is_wide_expr (expr_of expr.now) }
{
    match expr {
        CExpr::Const(of, _) | CExpr::Local(of, _) => is_wide_type(*of),
        CExpr::Field(_) => false,
        CExpr::Element(_, inner) | CExpr::Minus(inner) | CExpr::Bang(inner) => is_wide_expr(inner),
        CExpr::Cast(to, inner) => is_wide_type(*to) || is_wide_expr(inner),
        CExpr::Calc(_, left, right) => is_wide_expr(left) || is_wide_expr(right),
        CExpr::Divide(_, left, right) => is_wide_expr(left) || is_wide_expr(right),
        CExpr::Bits(_, left, right) => is_wide_expr(left) || is_wide_expr(right),
        CExpr::Compare(_, left, right) => is_wide_expr(left) || is_wide_expr(right),
        CExpr::Both(left, right) => is_wide_expr(left) || is_wide_expr(right),
        CExpr::Either(left, right) => is_wide_expr(left) || is_wide_expr(right),
        CExpr::Choose(of, test, left, right) => {
            is_wide_type(*of) || is_wide_expr(test) || is_wide_expr(left) || is_wide_expr(right)
        }
    }
}

/// Whether one of the expressions names a type of 128 bits.
fn any_wide(exprs: &[CExpr]) -> bool
    ensures { result ≡ list_any spec.is_wide_expr (map expr_of exprs.now) }
{
    for expr in exprs {
        if is_wide_expr(expr) {
            return true;
        }
    }
    false
}

/// Whether a line names a type of 128 bits.
fn is_wide_line(line: &Line) -> bool
    ensures { result ≡ spec.is_wide_line (line_of line.now) }
{
    match line {
        Line::Set(of, _, expr) => is_wide_type(*of) || is_wide_expr(expr),
        Line::Store(_, expr) | Line::If(expr) | Line::While(expr) | Line::Return(expr) => {
            is_wide_expr(expr)
        }
        Line::StoreAt(_, index, expr) => is_wide_expr(index) || is_wide_expr(expr),
        Line::Call(of, _, _, arguments) => is_wide_type(*of) || any_wide(arguments.items()),
        Line::Select(of, _, expr, _, arguments) => {
            is_wide_type(*of) || is_wide_expr(expr) || any_wide(arguments.items())
        }
        Line::Else | Line::Close => false,
    }
}

/// Whether one of the lines names a type of 128 bits.
pub(crate) fn are_wide(lines: &[Line]) -> bool
    ensures { result ≡ list_any spec.is_wide_line (lines_in lines.now) }
{
    for line in lines {
        if is_wide_line(line) {
            return true;
        }
    }
    false
}
