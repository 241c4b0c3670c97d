//! Statements, printed.
ghost use Rattle.std.specs.Prelude.{◌≡◌, ◌<◌, ◌++◌, ◌∷◌, [], codes, string_bytes, OnOk};
ghost use Rattle.c_subset.specs.Lines.{expr_of, exprs_of, line_of, lines_in};
ghost use Rattle.c_text.specs.Labels.{labels_of, local_label, field_label, type_of_field};
ghost use Rattle.c_text.specs.Statements as spec;

use crate::expressions::{print_bare, print_brought};
use crate::fields::{field_type, print_field_label, print_row_label};
use crate::kinds::{Kind, function_kind, print_function_label, takes_struct};
use crate::labels::Labels;
use crate::locals::{LocalName, print_local_label};
use crate::numbers::print_number;
use crate::reading::{has_cases, read_local};
use crate::types::is_truth;
use c_functions::WORD;
use c_subset::{CExpr, CType, Case, Line};
use std::alloc::AllocError;

/// Appends four blanks for each depth.
pub fn print_indent(out: &mut String, depth: usize) -> Result<(), AllocError>
    ensures { OnOk result (string_bytes out.new ≡ string_bytes out.old ++ spec.indent depth) }
{
    for level in 0..depth {
        out.push_str("    ")?;
    }
    Ok(())
}

/// What stands before the argument with that number.
pub fn comma(kind: Kind, number: usize) -> &'static str
    ensures { result.now ≡ spec.comma kind number }
{
    if takes_struct(kind) || 0 < number {
        ", "
    } else {
        ""
    }
}

/// The depth after a line.
fn depth_after(depth: usize, line: &Line) -> usize
    requires { depth < usize.MAX }
    ensures { result ≡ spec.depth_after depth (line_of line.now) }
{
    match line {
        Line::If(_) | Line::While(_) => depth + 1,
        Line::Close => depth.saturating_sub(1),
        Line::Set(..)
        | Line::Store(..)
        | Line::StoreAt(..)
        | Line::Call(..)
        | Line::Select(..)
        | Line::Else
        | Line::Return(_) => depth,
    }
}

/// Appends what is stored in an object of that type.
#[tactic(auto, unfolding(crate::specs::Statements::stored))]
fn print_stored(
    out: &mut String,
    labels: &Labels<'_>,
    kind: Kind,
    to: CType,
    expr: &CExpr,
) -> Result<(), AllocError>
    ensures { OnOk result (string_bytes out.new ≡ string_bytes out.old
        ++ spec.stored (labels_of labels.now) kind to (expr_of expr.now)) }
{
    if is_truth(to) {
        print_bare(out, labels, kind, expr)
    } else {
        print_brought(out, labels, kind, to, expr)
    }
}

/// Appends what is stored, and the end of its line.
fn print_value(
    out: &mut String,
    labels: &Labels<'_>,
    kind: Kind,
    to: CType,
    expr: &CExpr,
) -> Result<(), AllocError>
    ensures { OnOk result (string_bytes out.new ≡ string_bytes out.old
        ++ (spec.stored (labels_of labels.now) kind to (expr_of expr.now)
        ++ (codes ";" ++ 10 ∷ []))) }
{
    print_stored(out, labels, kind, to, expr)?;
    out.push_str(";\n")
}

/// Appends the arguments of a function of the kind `callee`.
fn print_arguments(
    out: &mut String,
    labels: &Labels<'_>,
    kind: Kind,
    callee: Kind,
    args: &[CExpr],
) -> Result<(), AllocError>
    ensures { OnOk result (string_bytes out.new ≡ string_bytes out.old
        ++ spec.arguments_text (labels_of labels.now) kind callee 0 (exprs_of args.now)) }
{
    for (number, arg) in args.iter().enumerate() {
        print_argument(out, labels, kind, callee, number, arg)?;
    }
    Ok(())
}

/// Appends an argument of a function of the kind `callee`.
#[tactic(auto, unfolding(crate::specs::Statements::argument_text))]
fn print_argument(
    out: &mut String,
    labels: &Labels<'_>,
    kind: Kind,
    callee: Kind,
    number: usize,
    arg: &CExpr,
) -> Result<(), AllocError>
    ensures { OnOk result (string_bytes out.new ≡ string_bytes out.old
        ++ spec.argument_text (labels_of labels.now) kind callee number (expr_of arg.now)) }
{
    out.push_str(comma(callee, number))?;
    match callee {
        Kind::Floor(width) => print_brought(out, labels, kind, CType::Signed(width), arg),
        Kind::Procedure | Kind::Home | Kind::Noted | Kind::Outside => {
            print_bare(out, labels, kind, arg)
        }
    }
}

/// Appends what stands before a call, whose result the local is given, if there is one.
fn print_given(out: &mut String, kind: Kind, local: Option<LocalName>) -> Result<(), AllocError>
    ensures { OnOk result
        (string_bytes out.new ≡ string_bytes out.old ++ spec.given_text kind local) }
{
    match local {
        Some(local) => {
            print_local_label(out, kind, local)?;
            out.push_str(" = ")
        }
        None => out.push_str("(void)"),
    }
}

/// Appends a call whose result the local is given, if there is one.
#[tactic(auto, unfolding(crate::specs::Statements::call_text))]
fn print_call(
    out: &mut String,
    labels: &Labels<'_>,
    kind: Kind,
    depth: usize,
    local: Option<LocalName>,
    function: u32,
    args: &[CExpr],
) -> Result<(), AllocError>
    ensures { OnOk result (string_bytes out.new ≡ string_bytes out.old
        ++ spec.call_text (labels_of labels.now) kind depth local function (exprs_of args.now)) }
{
    print_indent(out, depth)?;
    print_given(out, kind, local)?;
    let callee = function_kind(labels, function);
    print_function_label(out, labels, function)?;
    out.push_str(if takes_struct(callee) { "(m" } else { "(" })?;
    print_arguments(out, labels, kind, callee, args)?;
    out.push_str(");\n")
}

/// Appends that a local is given the value of an expression.
#[tactic(auto, unfolding(crate::specs::Statements::set_text))]
fn print_set(
    out: &mut String,
    labels: &Labels<'_>,
    kind: Kind,
    depth: usize,
    local: LocalName,
    expr: &CExpr,
) -> Result<(), AllocError>
    ensures { OnOk result (string_bytes out.new ≡ string_bytes out.old
        ++ spec.set_text (labels_of labels.now) kind depth local.of local.number
        (expr_of expr.now)) }
{
    print_indent(out, depth)?;
    print_local_label(out, kind, local)?;
    out.push_str(" = ")?;
    print_value(out, labels, kind, local.of, expr)
}

/// Appends a case of a `switch`.
#[tactic(auto, unfolding(crate::specs::Statements::case_text))]
fn print_case(
    out: &mut String,
    labels: &Labels<'_>,
    kind: Kind,
    depth: usize,
    local: Option<LocalName>,
    case: Case,
    args: &[CExpr],
) -> Result<(), AllocError>
    requires { depth < usize.MAX }
    ensures { OnOk result (string_bytes out.new ≡ string_bytes out.old
        ++ spec.case_text (labels_of labels.now) kind depth local (exprs_of args.now) case) }
{
    print_indent(out, depth)?;
    print_number(out, "case ", u128::from(case.label))?;
    out.push_str("u:\n")?;
    print_call(out, labels, kind, depth + 1, local, case.function, args)?;
    print_indent(out, depth + 1)?;
    out.push_str("break;\n")
}

/// Appends the cases of a `switch`.
fn print_cases(
    out: &mut String,
    labels: &Labels<'_>,
    kind: Kind,
    depth: usize,
    local: Option<LocalName>,
    cases: &[Case],
    args: &[CExpr],
) -> Result<(), AllocError>
    requires { depth < usize.MAX }
    ensures { OnOk result (string_bytes out.new ≡ string_bytes out.old
        ++ spec.cases_text (labels_of labels.now) kind depth local (exprs_of args.now)
        cases.now) }
{
    for case in cases {
        print_case(out, labels, kind, depth, local, *case, args)?;
    }
    Ok(())
}

/// Appends the end of a `switch`.
#[tactic(auto, unfolding(crate::specs::Statements::default_text))]
fn print_default(out: &mut String, depth: usize) -> Result<(), AllocError>
    requires { depth < usize.MAX }
    ensures { OnOk result (string_bytes out.new ≡ string_bytes out.old ++ spec.default_text depth) }
{
    print_words(
        out,
        depth,
        "default: /* Nothing is done for another number. */\n",
    )?;
    print_words(out, depth + 1, "break;\n")?;
    print_words(out, depth, "}\n")
}

/// Appends a line that opens a block: a word, an expression and a brace.
#[tactic(auto, unfolding(crate::specs::Statements::opening_text))]
fn print_opening(
    out: &mut String,
    labels: &Labels<'_>,
    kind: Kind,
    depth: usize,
    word: &str,
    expr: &CExpr,
) -> Result<(), AllocError>
    ensures { OnOk result (string_bytes out.new ≡ string_bytes out.old
        ++ spec.opening_text (labels_of labels.now) kind depth word.now (expr_of expr.now)) }
{
    print_indent(out, depth)?;
    out.push_str(word)?;
    print_bare(out, labels, kind, expr)?;
    out.push_str(") {\n")
}

/// Appends a `switch`, where it has cases.
#[tactic(auto, unfolding(crate::specs::Statements::switch_text))]
fn print_switch(
    out: &mut String,
    labels: &Labels<'_>,
    kind: Kind,
    depth: usize,
    local: Option<LocalName>,
    expr: &CExpr,
    cases: &[Case],
    args: &[CExpr],
) -> Result<(), AllocError>
    requires { depth < usize.MAX }
    ensures { OnOk result (string_bytes out.new ≡ string_bytes out.old
        ++ spec.switch_text (labels_of labels.now) kind depth local (expr_of expr.now) cases.now
        (exprs_of args.now)) }
{
    if !has_cases(cases) {
        return Ok(());
    }
    print_opening(out, labels, kind, depth, "switch (", expr)?;
    print_cases(out, labels, kind, depth, local, cases, args)?;
    print_default(out, depth)
}

/// Appends a blank depth and words.
fn print_words(out: &mut String, depth: usize, words: &str) -> Result<(), AllocError>
    ensures { OnOk result
        (string_bytes out.new ≡ string_bytes out.old ++ (spec.indent depth ++ words.now)) }
{
    print_indent(out, depth)?;
    out.push_str(words)
}

/// Appends one of the lines of a function that gives a `result_type`.
#[tactic(auto, unfolding(crate::specs::Statements::line_text))]
fn print_line(
    out: &mut String,
    labels: &Labels<'_>,
    kind: Kind,
    lines: &[Line],
    result_type: CType,
    depth: usize,
    line: &Line,
) -> Result<(), AllocError>
    requires { depth < usize.MAX }
    ensures { OnOk result (string_bytes out.new ≡ string_bytes out.old
        ++ spec.line_text (labels_of labels.now) kind (lines_in lines.now) result_type depth
        (line_of line.now)) }
{
    match line {
        Line::Set(of, number, expr) => {
            print_set(out, labels, kind, depth, local_of(*of, *number), expr)
        }
        Line::Store(field, expr) => print_store(out, labels, kind, depth, *field, expr),
        Line::StoreAt(row, index, expr) => {
            print_words(out, depth, "m->")?;
            print_row_label(out, *row)?;
            out.push_str("[")?;
            print_bare(out, labels, kind, index)?;
            out.push_str("] = ")?;
            print_value(out, labels, kind, WORD, expr)
        }
        Line::Call(of, number, function, args) => {
            let local = read_local(lines, *of, *number);
            print_call(out, labels, kind, depth, local, *function, args.items())
        }
        Line::Select(of, number, expr, cases, args) => {
            let local = read_local(lines, *of, *number);
            let cases = cases.items();
            print_switch(out, labels, kind, depth, local, expr, cases, args.items())
        }
        Line::If(expr) => print_opening(out, labels, kind, depth, "if (", expr),
        Line::Else => print_words(out, depth.saturating_sub(1), "} else {\n"),
        Line::While(expr) => print_opening(out, labels, kind, depth, "while (", expr),
        Line::Close => print_words(out, depth.saturating_sub(1), "}\n"),
        Line::Return(expr) => {
            print_words(out, depth, "return ")?;
            print_value(out, labels, kind, result_type, expr)
        }
    }
}

/// The local of that type and number.
pub fn local_of(of: CType, number: u32) -> LocalName
    ensures { result ≡ record { of = of; number = number } }
{
    LocalName {
        of,
        number: number as usize,
    }
}

/// Appends a store in a field.
fn print_store(
    out: &mut String,
    labels: &Labels<'_>,
    kind: Kind,
    depth: usize,
    field: u32,
    expr: &CExpr,
) -> Result<(), AllocError>
    ensures { OnOk result (string_bytes out.new ≡ string_bytes out.old ++ (spec.indent depth
        ++ (codes "m->" ++ (field_label (labels_of labels.now) field ++ (codes " = "
        ++ (spec.stored (labels_of labels.now) kind (type_of_field (labels_of labels.now) field)
        (expr_of expr.now) ++ (codes ";" ++ 10 ∷ []))))))) }
{
    print_words(out, depth, "m->")?;
    print_field_label(out, labels, field)?;
    out.push_str(" = ")?;
    print_value(out, labels, kind, field_type(labels, field), expr)
}

/// Appends the lines of a function that gives a `result_type`, the first one at depth 1.
pub fn print_lines(
    out: &mut String,
    labels: &Labels<'_>,
    kind: Kind,
    result_type: CType,
    lines: &[Line],
) -> Result<(), AllocError>
    ensures { OnOk result (string_bytes out.new ≡ string_bytes out.old
        ++ spec.lines_text (labels_of labels.now) kind (lines_in lines.now) result_type 1
        (lines_in lines.now)) }
{
    let mut depth: usize = 1;
    for line in lines {
        print_line(out, labels, kind, lines, result_type, depth, line)?;
        depth = depth_after(depth, line);
    }
    Ok(())
}
