//! Expressions, printed.
ghost use Rattle.std.specs.Prelude.{◌≡◌, ◌++◌, string_bytes, OnOk};
ghost use Rattle.c_subset.specs.Lines.{expr_of};
ghost use Rattle.c_text.specs.declared.kinds.Kind.TheVariants.{Outside};
ghost use Rattle.c_text.specs.Expressions as spec;
ghost use Rattle.c_text.specs.Labels.{labels_of};

use crate::constants::print_constant;
use crate::fields::{print_field_label, print_row_label};
use crate::kinds::Kind;
use crate::labels::Labels;
use crate::locals::{LocalName, print_local_label};
use crate::types::{is_same, print_cast};
use c_subset::{Arithmetic, Bitwise, CExpr, CType, Comparison, Division};
use std::alloc::AllocError;

/// The word of a sum, a difference or a product.
fn arithmetic_word(op: Arithmetic) -> &'static str
    ensures { result.now ≡ spec.arithmetic_word op }
{
    match op {
        Arithmetic::Plus => " + ",
        Arithmetic::Less => " - ",
        Arithmetic::Times => " * ",
    }
}

/// The word of a division.
fn division_word(op: Division) -> &'static str
    ensures { result.now ≡ spec.division_word op }
{
    match op {
        Division::Quotient => " / ",
        Division::Remainder => " % ",
    }
}

/// The word of an operator on bits.
fn bitwise_word(op: Bitwise) -> &'static str
    ensures { result.now ≡ spec.bitwise_word op }
{
    match op {
        Bitwise::BitAnd => " & ",
        Bitwise::BitOr => " | ",
    }
}

/// The word of a comparison.
fn comparison_word(op: Comparison) -> &'static str
    ensures { result.now ≡ spec.comparison_word op }
{
    match op {
        Comparison::IsEqual => " == ",
        Comparison::IsUnequal => " != ",
        Comparison::IsBelow => " < ",
        Comparison::IsAtMost => " <= ",
        Comparison::IsAbove => " > ",
        Comparison::IsAtLeast => " >= ",
    }
}

/// Whether an expression stands in parentheses where it is an operand.
fn is_compound(expr: &CExpr) -> bool
    ensures { result ≡ spec.is_compound (expr_of expr.now) }
{
    match expr {
        CExpr::Const(..)
        | CExpr::Field(..)
        | CExpr::Element(..)
        | CExpr::Local(..)
        | CExpr::Cast(..) => false,
        CExpr::Minus(..)
        | CExpr::Bang(..)
        | CExpr::Calc(..)
        | CExpr::Divide(..)
        | CExpr::Bits(..)
        | CExpr::Compare(..)
        | CExpr::Both(..)
        | CExpr::Either(..)
        | CExpr::Choose(..) => true,
    }
}

/// Whether an expression is `&&`.
fn is_both(expr: &CExpr) -> bool
    ensures { result ≡ spec.is_both (expr_of expr.now) }
{
    matches!(expr, CExpr::Both(..))
}

/// Whether an expression is `||`.
fn is_either(expr: &CExpr) -> bool
    ensures { result ≡ spec.is_either (expr_of expr.now) }
{
    matches!(expr, CExpr::Either(..))
}

/// Whether an expression is a constant, a local or a cast of exactly that type.
fn is_of_type(of: CType, expr: &CExpr) -> bool
    ensures { result ≡ spec.is_of_type of (expr_of expr.now) }
{
    match expr {
        CExpr::Const(own, _) | CExpr::Local(own, _) | CExpr::Cast(own, _) => is_same(*own, of),
        CExpr::Field(..)
        | CExpr::Element(..)
        | CExpr::Minus(..)
        | CExpr::Bang(..)
        | CExpr::Calc(..)
        | CExpr::Divide(..)
        | CExpr::Bits(..)
        | CExpr::Compare(..)
        | CExpr::Both(..)
        | CExpr::Either(..)
        | CExpr::Choose(..) => false,
    }
}

/// Appends an expression in a function of that kind.
#[tactic(auto, unfolding(crate::specs::Expressions::bare))]
#[cycle(printed)]
pub fn print_bare(
    out: &mut String,
    labels: &Labels<'_>,
    kind: Kind,
    expr: &CExpr,
) -> Result<(), AllocError>
    ensures { OnOk result (string_bytes out.new ≡ string_bytes out.old
        ++ spec.bare (labels_of labels.now) kind (expr_of expr.now)) }
{
    match expr {
        CExpr::Const(of, number) => print_constant(out, labels.chart, *of, *number),
        CExpr::Field(field) => {
            out.push_str("m->")?;
            print_field_label(out, labels, *field)
        }
        CExpr::Element(row, index) => {
            out.push_str("m->")?;
            print_row_label(out, *row)?;
            out.push_str("[")?;
            print_bare(out, labels, kind, index)?;
            out.push_str("]")
        }
        CExpr::Local(of, number) => {
            let local = LocalName {
                of: *of,
                number: *number as usize,
            };
            print_local_label(out, kind, local)
        }
        CExpr::Cast(to, inner) => {
            print_cast(out, labels.chart, *to)?;
            print_operand(out, labels, kind, inner)
        }
        CExpr::Minus(inner) => {
            out.push_str("-")?;
            print_operand(out, labels, kind, inner)
        }
        CExpr::Bang(inner) => {
            out.push_str("!")?;
            print_operand(out, labels, kind, inner)
        }
        CExpr::Calc(op, left, right) => {
            print_left(out, labels, kind, left, arithmetic_word(*op))?;
            print_operand(out, labels, kind, right)
        }
        CExpr::Divide(op, left, right) => {
            print_left(out, labels, kind, left, division_word(*op))?;
            print_operand(out, labels, kind, right)
        }
        CExpr::Bits(op, left, right) => {
            print_left(out, labels, kind, left, bitwise_word(*op))?;
            print_operand(out, labels, kind, right)
        }
        CExpr::Compare(op, left, right) => {
            print_left(out, labels, kind, left, comparison_word(*op))?;
            print_operand(out, labels, kind, right)
        }
        CExpr::Both(left, right) => {
            print_first(out, labels, kind, left, is_both(left), " && ")?;
            print_operand(out, labels, kind, right)
        }
        CExpr::Either(left, right) => {
            print_first(out, labels, kind, left, is_either(left), " || ")?;
            print_operand(out, labels, kind, right)
        }
        CExpr::Choose(to, test, left, right) => {
            print_operand(out, labels, kind, test)?;
            out.push_str(" ? ")?;
            print_brought(out, labels, kind, *to, left)?;
            out.push_str(" : ")?;
            print_brought(out, labels, kind, *to, right)
        }
    }
}

/// Appends an operand, and the operator after it.
#[cycle(printed)]
fn print_left(
    out: &mut String,
    labels: &Labels<'_>,
    kind: Kind,
    left: &CExpr,
    word: &str,
) -> Result<(), AllocError>
    ensures { OnOk result (string_bytes out.new ≡ string_bytes out.old
        ++ (spec.operand (labels_of labels.now) kind (expr_of left.now) ++ word.now)) }
{
    print_operand(out, labels, kind, left)?;
    out.push_str(word)
}

/// Appends the first operand of `&&` or `||`, which may be of the same operator, and the operator.
#[cycle(printed)]
#[tactic(auto, unfolding(crate::specs::Expressions::first_text))]
fn print_first(
    out: &mut String,
    labels: &Labels<'_>,
    kind: Kind,
    left: &CExpr,
    is_same: bool,
    word: &str,
) -> Result<(), AllocError>
    ensures { OnOk result (string_bytes out.new ≡ string_bytes out.old
        ++ (spec.first_text is_same (expr_of left.now)
        (spec.bare (labels_of labels.now) kind (expr_of left.now)) ++ word.now)) }
{
    if is_same {
        print_bare(out, labels, kind, left)?;
    } else {
        print_operand(out, labels, kind, left)?;
    }
    out.push_str(word)
}

/// Appends an expression as an operand.
#[tactic(auto, unfolding(crate::specs::Expressions::wrapped))]
#[cycle(printed)]
fn print_operand(
    out: &mut String,
    labels: &Labels<'_>,
    kind: Kind,
    expr: &CExpr,
) -> Result<(), AllocError>
    ensures { OnOk result (string_bytes out.new ≡ string_bytes out.old
        ++ spec.operand (labels_of labels.now) kind (expr_of expr.now)) }
{
    if is_compound(expr) {
        out.push_str("(")?;
        print_bare(out, labels, kind, expr)?;
        out.push_str(")")
    } else {
        print_bare(out, labels, kind, expr)
    }
}

/// Appends an expression brought to a type, as an operand.
#[tactic(auto, unfolding(crate::specs::Expressions::brought_text))]
#[cycle(printed)]
pub fn print_brought(
    out: &mut String,
    labels: &Labels<'_>,
    kind: Kind,
    to: CType,
    expr: &CExpr,
) -> Result<(), AllocError>
    ensures { OnOk result (string_bytes out.new ≡ string_bytes out.old
        ++ spec.brought (labels_of labels.now) kind to (expr_of expr.now)) }
{
    if is_of_type(to, expr) {
        print_operand(out, labels, kind, expr)
    } else {
        print_cast(out, labels.chart, to)?;
        print_operand(out, labels, kind, expr)
    }
}

/// Appends an expression as it stands in a call from outside, such as the start.
pub fn print_test(out: &mut String, labels: &Labels<'_>, expr: &CExpr) -> Result<(), AllocError>
    ensures { OnOk result (string_bytes out.new ≡ string_bytes out.old
        ++ spec.bare (labels_of labels.now) Outside (expr_of expr.now)) }
{
    print_bare(out, labels, Kind::Outside, expr)
}
