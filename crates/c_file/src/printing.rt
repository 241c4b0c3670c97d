//! A source, printed.
ghost use Rattle.std.specs.Prelude.{◌≡◌, ◌<◌, ◌++◌, ◌&&◌, IfOk, OnOk, Some, false, length, map};
ghost use Rattle.std.specs.Prelude.{slice_get, slice_index_or, string_bytes};
ghost use Rattle.c_subset.specs.Trees as c;
ghost use Rattle.c_text.specs.Functions.{prototype_text};
ghost use Rattle.c_text.specs.Labels.{labels_of};
ghost use Rattle.c_file.specs.Changing.{only_reads};
ghost use Rattle.c_file.specs.Comments.{said_of};
ghost use Rattle.c_file.specs.Made.{AreUses, IsMade, IsOrderOf, functions_of};
ghost use Rattle.c_file.specs.Order.{AreBelow, declared_in};
ghost use Rattle.c_file.specs.Reached.{is_written};
ghost use Rattle.c_file.specs.Source as spec;
ghost use Rattle.c_file.specs.Uses.{is_wide};

use crate::comments::print_comment;
use crate::known::Uses;
use crate::made::Made;
use crate::order::Order;
use c_header::{Identity, print_identity, print_named, print_sum_numbers};
use c_text::{print_function, print_prototype};
use code_fields::print_number;
use flow_base::{Bounds, Memory};
use std::alloc::{AllocError, Global};

/// Whether a function is written.
fn is_written(made: &Made<'_>, uses: &Uses, number: u32) -> bool
    requires is { IsMade made.now }
    requires uses { AreUses (labels_of made.now.labels) (functions_of made.now) uses.now }
    requires within { number < length (functions_of made.now) }
    ensures { result ≡ is_written uses.now.reached.items number }
{
    uses.reached[number as usize]
}

/// Whether a function only reads the struct.
fn only_reads(made: &Made<'_>, uses: &Uses, number: u32) -> bool
    requires is { IsMade made.now }
    requires uses { AreUses (labels_of made.now.labels) (functions_of made.now) uses.now }
    requires within { number < length (functions_of made.now) }
    ensures { result ≡ only_reads uses.now.changing.items number }
{
    !uses.changing[number as usize]
}

/// Whether a function is written and names a type of 128 bits.
fn is_wide(made: &Made<'_>, uses: &Uses, number: u32) -> bool
    requires is { IsMade made.now }
    requires uses { AreUses (labels_of made.now.labels) (functions_of made.now) uses.now }
    requires within { number < length (functions_of made.now) }
    ensures { result ≡ (is_written uses.now.reached.items number
        && slice_index_or (map is_wide (functions_of made.now)) number false) }
{
    is_written(made, uses, number) && uses.wide[number as usize]
}

/// Whether a function that is written names a type of 128 bits.
pub(crate) fn any_wide(made: &Made<'_>, uses: &Uses) -> bool
    requires is { IsMade made.now }
    requires uses { AreUses (labels_of made.now.labels) (functions_of made.now) uses.now }
    ensures { result ≡ spec.any_wide uses.now.reached.items 0 (functions_of made.now) }
{
    for number in 0..made.count() {
        if is_wide(made, uses, number) {
            return true;
        }
    }
    false
}

/// Appends words and the name of the chart.
fn print_words(out: &mut String, words: &str, chart: &str) -> Result<(), AllocError>
    ensures { OnOk result
        (string_bytes out.new ≡ string_bytes out.old ++ (words.now ++ chart.now)) }
{
    out.push_str(words)?;
    out.push_str(chart)
}

/// Appends the comment that says what the file is, and the header of the chart.
#[tactic(auto, unfolding(crate::specs::Source::opening_text))]
fn print_opening(
    alloc: Global,
    out: &mut String,
    chart: &str,
    identity: Identity,
) -> Result<(), AllocError>
    ensures { OnOk result (string_bytes out.new
        ≡ string_bytes out.old ++ spec.opening_text chart.now identity) }
{
    print_identity(alloc, out, chart, identity)?;
    print_words(out, "   ", chart)?;
    print_words(out, ".h says how it is used. */\n#include \"", chart)?;
    out.push_str(".h\"\n\n")?;
    Ok(())
}

/// Appends words, and that a number of the header is this one.
#[tactic(auto, unfolding(crate::specs::Source::number_is))]
fn print_number_is(
    out: &mut String,
    front: &str,
    chart: &str,
    name: &str,
    number: u64,
) -> Result<(), AllocError>
    ensures { OnOk result (string_bytes out.new
        ≡ string_bytes out.old ++ spec.number_is front.now chart.now name.now number) }
{
    print_named(out, front, chart, name)?;
    print_number(out, "", number)?;
    Ok(())
}

/// Appends that the header has these bounds and these numbers.
#[tactic(auto, unfolding(crate::specs::Source::sizes_fit))]
fn print_sizes_fit(
    out: &mut String,
    chart: &str,
    bounds: Bounds,
    outputs: u32,
    notes: u64,
    calls: u64,
) -> Result<(), AllocError>
    ensures { OnOk result (string_bytes out.new
        ≡ string_bytes out.old ++ spec.sizes_fit chart.now bounds outputs notes calls) }
{
    print_named(
        out,
        "/* C refuses this type where the header has another of these numbers. */\ntypedef char ",
        chart,
        "header_fits[((",
    )?;
    print_number_is(out, "", chart, "DEPTH == ", u64::from(bounds.depth))?;
    print_number_is(
        out,
        ")\n    && (",
        chart,
        "STEPS == ",
        u64::from(bounds.steps),
    )?;
    print_number_is(out, ")\n    && (", chart, "OUTPUTS == ", u64::from(outputs))?;
    print_number_is(out, ")\n    && (", chart, "NOTES == ", notes)?;
    print_number_is(out, ")\n    && (", chart, "CALLS == ", calls)?;
    Ok(())
}

/// Appends the type that C refuses where the header has another of these numbers, or is of another
/// chart.
#[tactic(auto, unfolding(crate::specs::Source::fits_text))]
fn print_fits(
    alloc: Global,
    out: &mut String,
    made: &Made<'_>,
    calls: u64,
    identity: Identity,
) -> Result<(), AllocError>
    ensures { OnOk result (string_bytes out.new ≡ string_bytes out.old
        ++ spec.fits_text made.now.name.now identity made.now.shape.bounds made.now.shape.outputs
        made.now.shape.notes calls) }
{
    let chart = made.name;
    let shape = &made.shape;
    print_sizes_fit(out, chart, shape.bounds, shape.outputs, shape.notes, calls)?;
    let and = ")\n    && (";
    print_sum_numbers(alloc, out, and, and, chart, " == ", &identity.sum)?;
    out.push_str(")) ? 1 : -1];\n")?;
    Ok(())
}

/// Appends the types of 128 bits, where one is named.
fn print_wide(out: &mut String, chart: &str, wide: bool) -> Result<(), AllocError>
    ensures { OnOk result
        (string_bytes out.new ≡ string_bytes out.old ++ spec.wide_text chart.now wide) }
{
    if wide {
        print_named(out, "\n__extension__ typedef __int128 ", chart, "int128;\n")?;
        print_named(
            out,
            "__extension__ typedef unsigned __int128 ",
            chart,
            "uint128;\n",
        )?;
    }
    Ok(())
}

/// Appends the declaration of a function.
fn print_declared(
    out: &mut String,
    made: &Made<'_>,
    uses: &Uses,
    number: u32,
) -> Result<(), AllocError>
    requires is { IsMade made.now }
    requires uses { AreUses (labels_of made.now.labels) (functions_of made.now) uses.now }
    requires within { number < length (functions_of made.now) }
    ensures { OnOk result ((g : c.Function) → slice_get (functions_of made.now) number ≡ Some g
        → string_bytes out.new ≡ string_bytes out.old ++ prototype_text
        (labels_of made.now.labels) number (only_reads uses.now.changing.items number) g.result
        g.parameters) }
{
    let reads = only_reads(made, uses, number);
    let function = made.function(number);
    let parameters = function.parameters.items();
    print_prototype(
        out,
        &made.labels,
        number,
        reads,
        function.result,
        parameters,
    )?;
    Ok(())
}

/// Appends the declaration of the function that has a number in the file.
fn print_declaration(
    out: &mut String,
    made: &Made<'_>,
    uses: &Uses,
    number: u32,
) -> Result<(), AllocError>
    requires is { IsMade made.now }
    requires uses { AreUses (labels_of made.now.labels) (functions_of made.now) uses.now }
    requires within { number < length (functions_of made.now) }
    ensures { OnOk result (string_bytes out.new ≡ string_bytes out.old ++ spec.declared_text
        (labels_of made.now.labels) uses.now.changing.items (functions_of made.now) number) }
{
    print_declared(out, made, uses, number)?;
    Ok(())
}

/// Appends the declarations of functions.
fn print_each_declared(
    out: &mut String,
    made: &Made<'_>,
    uses: &Uses,
    numbers: &[u32],
) -> Result<(), AllocError>
    requires is { IsMade made.now }
    requires uses { AreUses (labels_of made.now.labels) (functions_of made.now) uses.now }
    requires within { AreBelow (length (functions_of made.now)) numbers.now }
    ensures { OnOk result (string_bytes out.new ≡ string_bytes out.old
        ++ spec.each_declared (labels_of made.now.labels) uses.now.changing.items
        (functions_of made.now) numbers.now) }
{
    for number in numbers {
        print_declaration(out, made, uses, *number)?;
    }
    Ok(())
}

/// Appends the declarations of functions under a blank line, where there are any.
fn print_under_blank(
    out: &mut String,
    made: &Made<'_>,
    uses: &Uses,
    numbers: &[u32],
) -> Result<(), AllocError>
    requires is { IsMade made.now }
    requires uses { AreUses (labels_of made.now.labels) (functions_of made.now) uses.now }
    requires within { AreBelow (length (functions_of made.now)) numbers.now }
    ensures { OnOk result (string_bytes out.new ≡ string_bytes out.old
        ++ spec.declarations_text (labels_of made.now.labels) uses.now.changing.items
        (functions_of made.now) numbers.now) }
{
    if numbers.is_empty() {
        return Ok(());
    }
    out.push_str("\n")?;
    print_each_declared(out, made, uses, numbers)?;
    Ok(())
}

/// Appends the declarations of the functions that are called before they stand.
fn print_declarations(
    out: &mut String,
    made: &Made<'_>,
    uses: &Uses,
    order: &Order,
) -> Result<(), AllocError>
    requires is { IsMade made.now }
    requires uses { AreUses (labels_of made.now.labels) (functions_of made.now) uses.now }
    requires order { IsOrderOf (labels_of made.now.labels) (functions_of made.now)
        uses.now.reached.items order.now }
    ensures { OnOk result (string_bytes out.new ≡ string_bytes out.old
        ++ spec.declarations_text (labels_of made.now.labels) uses.now.changing.items
        (functions_of made.now) (declared_in (labels_of made.now.labels) (functions_of made.now)
        order.now.functions.items)) }
{
    print_under_blank(out, made, uses, &order.declared)?;
    Ok(())
}

/// Appends a function under its comment.
fn print_commented(
    alloc: Global,
    out: &mut String,
    made: &Made<'_>,
    uses: &Uses,
    number: u32,
) -> Result<(), Memory>
    requires is { IsMade made.now }
    requires uses { AreUses (labels_of made.now.labels) (functions_of made.now) uses.now }
    requires within { number < length (functions_of made.now) }
    ensures { OnOk result ((g : c.Function) → slice_get (functions_of made.now) number ≡ Some g
        → string_bytes out.new ≡ string_bytes out.old ++ spec.commented_text
        (labels_of made.now.labels) (said_of made.now.said) uses.now.changing.items number g) }
{
    print_comment(out, &made.said, number)?;
    let reads = only_reads(made, uses, number);
    let function = made.function(number);
    print_function(alloc, out, &made.labels, number, reads, function)?;
    Ok(())
}

/// Appends the function that has a number in the file.
fn print_numbered(
    alloc: Global,
    out: &mut String,
    made: &Made<'_>,
    uses: &Uses,
    number: u32,
) -> Result<(), Memory>
    requires is { IsMade made.now }
    requires uses { AreUses (labels_of made.now.labels) (functions_of made.now) uses.now }
    requires within { number < length (functions_of made.now) }
    ensures { OnOk result (string_bytes out.new ≡ string_bytes out.old ++ spec.numbered_text
        (labels_of made.now.labels) (said_of made.now.said) uses.now.changing.items
        (functions_of made.now) number) }
{
    print_commented(alloc, out, made, uses, number)?;
    Ok(())
}

/// Appends functions.
fn print_functions(
    alloc: Global,
    out: &mut String,
    made: &Made<'_>,
    uses: &Uses,
    numbers: &[u32],
) -> Result<(), Memory>
    requires is { IsMade made.now }
    requires uses { AreUses (labels_of made.now.labels) (functions_of made.now) uses.now }
    requires within { AreBelow (length (functions_of made.now)) numbers.now }
    ensures { OnOk result (string_bytes out.new ≡ string_bytes out.old
        ++ spec.functions_text (labels_of made.now.labels) (said_of made.now.said)
        uses.now.changing.items (functions_of made.now) numbers.now) }
{
    for number in numbers {
        print_numbered(alloc, out, made, uses, *number)?;
    }
    Ok(())
}

/// Appends what stands before the functions.
fn print_front(
    alloc: Global,
    out: &mut String,
    made: &Made<'_>,
    uses: &Uses,
    order: &Order,
    calls: u64,
    identity: Identity,
) -> Result<(), AllocError>
    requires is { IsMade made.now }
    requires uses { AreUses (labels_of made.now.labels) (functions_of made.now) uses.now }
    requires order { IsOrderOf (labels_of made.now.labels) (functions_of made.now)
        uses.now.reached.items order.now }
    ensures { OnOk result (string_bytes out.new ≡ string_bytes out.old
        ++ spec.front_text (labels_of made.now.labels) identity made.now.shape.bounds
        made.now.shape.outputs made.now.shape.notes calls (functions_of made.now)
        uses.now.reached.items uses.now.changing.items order.now.functions.items) }
{
    print_opening(alloc, out, made.name, identity)?;
    print_fits(alloc, out, made, calls, identity)?;
    print_wide(out, made.name, any_wide(made, uses))?;
    print_declarations(out, made, uses, order)
}

/// Appends a source of the functions that are written.
fn print_source(
    alloc: Global,
    out: &mut String,
    made: &Made<'_>,
    uses: &Uses,
    order: &Order,
    calls: u64,
    identity: Identity,
) -> Result<(), Memory>
    requires is { IsMade made.now }
    requires uses { AreUses (labels_of made.now.labels) (functions_of made.now) uses.now }
    requires order { IsOrderOf (labels_of made.now.labels) (functions_of made.now)
        uses.now.reached.items order.now }
    ensures { OnOk result (string_bytes out.new ≡ string_bytes out.old
        ++ spec.source_text (labels_of made.now.labels) (said_of made.now.said) identity
        made.now.shape.bounds made.now.shape.outputs made.now.shape.notes calls
        (functions_of made.now) uses.now.reached.items uses.now.changing.items
        order.now.functions.items) }
{
    print_front(alloc, out, made, uses, order, calls, identity)?;
    print_functions(alloc, out, made, uses, &order.functions)?;
    Ok(())
}

/// A source of this making, for a header that has this number of calls.
pub(crate) fn printed_source(
    alloc: Global,
    made: &Made<'_>,
    uses: &Uses,
    order: &Order,
    calls: u64,
    identity: Identity,
) -> Result<String, Memory>
    requires is { IsMade made.now }
    requires uses { AreUses (labels_of made.now.labels) (functions_of made.now) uses.now }
    requires order { IsOrderOf (labels_of made.now.labels) (functions_of made.now)
        uses.now.reached.items order.now }
    ensures { IfOk result (λ text. string_bytes text ≡ spec.source_text (labels_of made.now.labels)
        (said_of made.now.said) identity made.now.shape.bounds made.now.shape.outputs
        made.now.shape.notes calls (functions_of made.now) uses.now.reached.items
        uses.now.changing.items order.now.functions.items) }
{
    let mut text = String::new(alloc);
    print_source(alloc, &mut text, made, uses, order, calls, identity)?;
    Ok(text)
}
