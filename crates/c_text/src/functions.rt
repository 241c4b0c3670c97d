//! Functions, printed.
ghost use Rattle.std.specs.Prelude.{◌≡◌, ◌++◌, ◌∷◌, [], codes, string_bytes, OnOk, IfOk};
ghost use Rattle.std.specs.List.{list_any};
ghost use Rattle.flow_base.specs.Lists.{items_of};
ghost use Rattle.c_subset.specs.Lines.{line_of, lines_in};
ghost use Rattle.c_text.specs.Functions as spec;
ghost use Rattle.c_text.specs.Labels.{labels_of, local_label};
ghost use Rattle.c_text.specs.Reading.{line_reads, same_local};
ghost use Rattle.c_text.specs.Types.{type_text};

use crate::kinds::{Kind, function_kind, print_function_label, takes_struct};
use crate::labels::Labels;
use crate::locals::{LocalName, print_local_label};
use crate::reading::{any_line_reads, any_line_uses_struct, has_cases, is_same_local, read_local};
use crate::statements::{comma, local_of, print_lines};
use crate::types::print_type;
use c_names::print_chart_name;
use c_subset::{CType, Function, Line};
use std::alloc::{AllocError, Global};

/// What stands before the type of a function.
fn linkage_word(kind: Kind) -> &'static str
    ensures { result.now ≡ spec.linkage_text kind }
{
    match kind {
        Kind::Procedure | Kind::Home | Kind::Noted | Kind::Floor(_) => "static ",
        Kind::Outside => "",
    }
}

/// Appends the declaration of the function with that number, which has this result and these
/// parameters, with a newline. It only reads the struct, or may change it. This project's choice.
pub fn print_prototype(
    out: &mut String,
    labels: &Labels<'_>,
    number: u32,
    only_reads: bool,
    gives: CType,
    parameters: &[CType],
) -> Result<(), AllocError>
    ensures { OnOk result (string_bytes out.new ≡ string_bytes out.old
        ++ spec.prototype_text (labels_of labels.now) number only_reads gives parameters.now) }
{
    print_head(out, labels, number, only_reads, gives, parameters)?;
    out.push_str(";\n")
}

/// Appends the head of a function.
#[tactic(auto, unfolding(crate::specs::Functions::head_text))]
fn print_head(
    out: &mut String,
    labels: &Labels<'_>,
    number: u32,
    only_reads: bool,
    gives: CType,
    parameters: &[CType],
) -> Result<(), AllocError>
    ensures { OnOk result (string_bytes out.new ≡ string_bytes out.old
        ++ spec.head_text (labels_of labels.now) number only_reads gives parameters.now) }
{
    let kind = function_kind(labels, number);
    out.push_str(linkage_word(kind))?;
    print_type(out, labels.chart, gives)?;
    out.push_str(" ")?;
    print_function_label(out, labels, number)?;
    print_list(out, labels, kind, only_reads, parameters)
}

/// Appends the list of parameters.
#[tactic(auto, unfolding(crate::specs::Functions::list_text))]
fn print_list(
    out: &mut String,
    labels: &Labels<'_>,
    kind: Kind,
    only_reads: bool,
    parameters: &[CType],
) -> Result<(), AllocError>
    ensures { OnOk result (string_bytes out.new ≡ string_bytes out.old
        ++ spec.list_text (labels_of labels.now) kind only_reads parameters.now) }
{
    out.push_str("(")?;
    print_struct_parameter(out, labels, kind, only_reads)?;
    print_parameters(out, labels, kind, parameters)?;
    out.push_str(")")
}

/// Appends the struct as a parameter, where there is one.
fn print_struct_parameter(
    out: &mut String,
    labels: &Labels<'_>,
    kind: Kind,
    only_reads: bool,
) -> Result<(), AllocError>
    ensures { OnOk result (string_bytes out.new ≡ string_bytes out.old
        ++ spec.struct_parameter (labels_of labels.now) kind only_reads) }
{
    if takes_struct(kind) {
        out.push_str(const_word(only_reads))?;
        print_chart_name(out, labels.chart, "chart")?;
        out.push_str(" *m")
    } else {
        Ok(())
    }
}

/// What stands before the struct of a function that only reads it.
fn const_word(only_reads: bool) -> &'static str
    ensures { result.now ≡ spec.const_text only_reads }
{
    if only_reads { "const " } else { "" }
}

/// Appends the parameters.
fn print_parameters(
    out: &mut String,
    labels: &Labels<'_>,
    kind: Kind,
    parameters: &[CType],
) -> Result<(), AllocError>
    ensures { OnOk result (string_bytes out.new ≡ string_bytes out.old
        ++ spec.parameters_text (labels_of labels.now) kind 0 parameters.now) }
{
    for (number, of) in parameters.iter().enumerate() {
        print_parameter(out, labels, kind, number, *of)?;
    }
    Ok(())
}

/// Appends a parameter.
#[tactic(auto, unfolding(crate::specs::Functions::parameter_text))]
fn print_parameter(
    out: &mut String,
    labels: &Labels<'_>,
    kind: Kind,
    number: usize,
    of: CType,
) -> Result<(), AllocError>
    ensures { OnOk result (string_bytes out.new ≡ string_bytes out.old
        ++ spec.parameter_text (labels_of labels.now) kind number of) }
{
    out.push_str(comma(kind, number))?;
    print_typed(out, labels, kind, LocalName { of, number })
}

/// Appends the type and the name of a local.
fn print_typed(
    out: &mut String,
    labels: &Labels<'_>,
    kind: Kind,
    local: LocalName,
) -> Result<(), AllocError>
    ensures { OnOk result (string_bytes out.new ≡ string_bytes out.old
        ++ spec.local_text (labels_of labels.now) kind local.of local.number) }
{
    print_type(out, labels.chart, local.of)?;
    out.push_str(" ")?;
    print_local_label(out, kind, local)
}

/// The local that a line gives a value, if there is one: of a call where one of the lines reads it.
fn local_set(lines: &[Line], line: &Line) -> Option<LocalName>
    ensures { result ≡ spec.local_set (lines_in lines.now) (line_of line.now) }
{
    match line {
        Line::Set(of, number, _) => Some(local_of(*of, *number)),
        Line::Call(of, number, _, _) => read_local(lines, *of, *number),
        Line::Select(of, number, _, cases, _) => {
            if has_cases(cases.items()) {
                read_local(lines, *of, *number)
            } else {
                None
            }
        }
        Line::Store(..)
        | Line::StoreAt(..)
        | Line::If(_)
        | Line::Else
        | Line::While(_)
        | Line::Close
        | Line::Return(_) => None,
    }
}

/// Whether the local is one of these.
fn is_among(seen: &[LocalName], local: LocalName) -> bool
    ensures { result ≡ list_any (same_local local) seen.now }
{
    for other in seen {
        if is_same_local(local, *other) {
            return true;
        }
    }
    false
}

/// Adds the locals that lines give a value to those that are there.
fn add_locals(seen: &mut Vec<LocalName>, lines: &[Line]) -> Result<(), AllocError>
    ensures { OnOk result (seen.new.items
        ≡ spec.with_locals (lines_in lines.now) seen.old.items (lines_in lines.now)) }
{
    for line in lines {
        add_local(seen, local_set(lines, line))?;
    }
    Ok(())
}

/// Adds a local, where it isn't there.
fn add_local(seen: &mut Vec<LocalName>, local: Option<LocalName>) -> Result<(), AllocError>
    ensures { OnOk result (seen.new.items ≡ spec.with_local seen.old.items local) }
{
    match local {
        Some(local) => {
            if is_among(seen, local) {
                Ok(())
            } else {
                seen.push(local)?;
                Ok(())
            }
        }
        None => Ok(()),
    }
}

/// The parameters.
fn parameters_of(alloc: Global, types: &[CType]) -> Result<Vec<LocalName>, AllocError>
    ensures { IfOk result (λ locals. locals.items ≡ spec.parameters_from 0 types.now) }
{
    let mut locals = Vec::new(alloc);
    for (number, of) in types.iter().enumerate() {
        locals.push(LocalName { of: *of, number })?;
    }
    Ok(locals)
}

/// Appends the declarations of locals.
fn print_declarations(
    out: &mut String,
    labels: &Labels<'_>,
    kind: Kind,
    locals: &[LocalName],
) -> Result<(), AllocError>
    ensures { OnOk result (string_bytes out.new ≡ string_bytes out.old
        ++ spec.declarations_text (labels_of labels.now) kind locals.now) }
{
    for local in locals {
        print_declaration(out, labels, kind, *local)?;
    }
    Ok(())
}

/// Appends the declaration of a local.
#[tactic(auto, unfolding(crate::specs::Functions::declaration_text))]
fn print_declaration(
    out: &mut String,
    labels: &Labels<'_>,
    kind: Kind,
    local: LocalName,
) -> Result<(), AllocError>
    ensures { OnOk result (string_bytes out.new ≡ string_bytes out.old
        ++ spec.declaration_text (labels_of labels.now) kind local) }
{
    out.push_str("    ")?;
    print_typed(out, labels, kind, local)?;
    out.push_str(";\n")
}

/// Appends a use of each of these locals that no line reads.
fn print_unread(
    out: &mut String,
    kind: Kind,
    locals: &[LocalName],
    lines: &[Line],
) -> Result<(), AllocError>
    ensures { OnOk result (string_bytes out.new ≡ string_bytes out.old
        ++ spec.unread_text kind (lines_in lines.now) locals.now) }
{
    for local in locals {
        print_unread_line(out, kind, *local, lines)?;
    }
    Ok(())
}

/// Appends a use of a local that no line reads.
#[tactic(auto, unfolding(crate::specs::Functions::unread_line))]
fn print_unread_line(
    out: &mut String,
    kind: Kind,
    local: LocalName,
    lines: &[Line],
) -> Result<(), AllocError>
    ensures { OnOk result (string_bytes out.new ≡ string_bytes out.old
        ++ spec.unread_line kind (lines_in lines.now) local) }
{
    if any_line_reads(local, lines) {
        Ok(())
    } else {
        out.push_str("    (void)")?;
        print_local_label(out, kind, local)?;
        out.push_str(";\n")
    }
}

/// Appends a use of the struct, where no line uses it.
fn print_unused(
    out: &mut String,
    labels: &Labels<'_>,
    kind: Kind,
    lines: &[Line],
) -> Result<(), AllocError>
    ensures { OnOk result (string_bytes out.new ≡ string_bytes out.old
        ++ spec.unused_text (labels_of labels.now) kind (lines_in lines.now)) }
{
    if takes_struct(kind) && !any_line_uses_struct(labels, lines) {
        out.push_str("    (void)m;\n")
    } else {
        Ok(())
    }
}

/// Appends what stands in a body before its lines: declarations, and uses of what isn't used.
fn print_opening_lines(
    alloc: Global,
    out: &mut String,
    labels: &Labels<'_>,
    kind: Kind,
    types: &[CType],
    lines: &[Line],
) -> Result<(), AllocError>
    ensures { OnOk result (string_bytes out.new ≡ string_bytes out.old
        ++ (spec.declarations_text (labels_of labels.now) kind
        (spec.locals_set types.now (lines_in lines.now))
        ++ (spec.unread_text kind (lines_in lines.now) (spec.parameters_from 0 types.now)
        ++ spec.unused_text (labels_of labels.now) kind (lines_in lines.now)))) }
{
    print_locals_set(alloc, out, labels, kind, types, lines)?;
    print_unread_parameters(alloc, out, kind, types, lines)?;
    print_unused(out, labels, kind, lines)
}

/// Appends the declarations of the locals that lines give a value, without parameters of these types.
#[tactic(auto, unfolding(crate::specs::Functions::locals_set))]
fn print_locals_set(
    alloc: Global,
    out: &mut String,
    labels: &Labels<'_>,
    kind: Kind,
    types: &[CType],
    lines: &[Line],
) -> Result<(), AllocError>
    ensures { OnOk result (string_bytes out.new ≡ string_bytes out.old
        ++ spec.declarations_text (labels_of labels.now) kind
        (spec.locals_set types.now (lines_in lines.now))) }
{
    let mut locals = parameters_of(alloc, types)?;
    add_locals(&mut locals, lines)?;
    print_declarations(out, labels, kind, &locals[types.len()..])
}

/// Appends a use of each parameter that no line reads.
fn print_unread_parameters(
    alloc: Global,
    out: &mut String,
    kind: Kind,
    types: &[CType],
    lines: &[Line],
) -> Result<(), AllocError>
    ensures { OnOk result (string_bytes out.new ≡ string_bytes out.old
        ++ spec.unread_text kind (lines_in lines.now) (spec.parameters_from 0 types.now)) }
{
    let locals = parameters_of(alloc, types)?;
    print_unread(out, kind, &locals, lines)
}

/// Appends the function with that number, from its lines. It only reads the struct, or may change it.
/// How it is spelled is this project's choice.
#[tactic(auto, unfolding(crate::specs::Functions::function_text))]
pub fn print_function(
    alloc: Global,
    out: &mut String,
    labels: &Labels<'_>,
    number: u32,
    only_reads: bool,
    function: &Function,
) -> Result<(), AllocError>
    ensures { OnOk result (string_bytes out.new ≡ string_bytes out.old
        ++ spec.function_text (labels_of labels.now) number only_reads function.now.result
        (items_of function.now.parameters) (lines_in (items_of function.now.lines))) }
{
    let kind = function_kind(labels, number);
    let types = function.parameters.items();
    let lines = function.lines.items();
    print_head(out, labels, number, only_reads, function.result, types)?;
    out.push_str("\n{\n")?;
    print_opening_lines(alloc, out, labels, kind, types, lines)?;
    print_lines(out, labels, kind, function.result, lines)?;
    out.push_str("}\n")
}
