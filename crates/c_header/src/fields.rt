//! The fields of the struct, printed.
ghost use Rattle.std.specs.Prelude.{◌≡◌, ◌+◌, ◌<◌, ◌^◌, ◌++◌, length, string_bytes, OnOk};
ghost use Rattle.c_shape.specs.FileShapes.{shape_seen};
ghost use Rattle.c_text.specs.Labels.{labels_of};
ghost use Rattle.c_header.specs.Fields as spec;
ghost use Rattle.c_header.specs.Header.{rows_text};

use actions::{Sort, Var};
use c_shape::FileShape;
use c_text::{Labels, print_field_label, print_field_type};
use code_fields::{print_number, print_signed, print_sort, var_kind_word};
use fixed_point::Scale;
use std::alloc::AllocError;

/// Appends the type and the name of a field, and the beginning of its comment.
#[tactic(auto, unfolding(crate::specs::Fields::field_start))]
pub(crate) fn print_field(
    out: &mut String,
    labels: &Labels<'_>,
    field: u32,
) -> Result<(), AllocError>
    ensures { OnOk result (string_bytes out.new
        ≡ string_bytes out.old ++ spec.field_start (labels_of labels.now) field) }
{
    out.push_str("    ")?;
    print_field_type(out, labels, field)?;
    out.push_str(" ")?;
    print_field_label(out, labels, field)?;
    out.push_str("; /* ")
}

/// Appends a field with that comment.
pub(crate) fn print_commented(
    out: &mut String,
    labels: &Labels<'_>,
    field: u32,
    comment: &str,
) -> Result<(), AllocError>
    ensures { OnOk result (string_bytes out.new
        ≡ string_bytes out.old ++ spec.field_line (labels_of labels.now) field comment.now) }
{
    print_field(out, labels, field)?;
    out.push_str(comment)?;
    out.push_str(" */\n")
}

/// Appends the fields of data.
pub(crate) fn print_data(
    out: &mut String,
    labels: &Labels<'_>,
    vars: &[Var],
) -> Result<(), AllocError>
    requires { length vars.now < 2 ^ 32 }
    ensures { OnOk result (string_bytes out.new
        ≡ string_bytes out.old ++ spec.data_text (labels_of labels.now) 0 vars.now) }
{
    for (number, var) in vars.iter().enumerate() {
        print_datum(out, labels, number as u32, var)?;
    }
    Ok(())
}

/// Appends the field of a datum.
fn print_datum(
    out: &mut String,
    labels: &Labels<'_>,
    field: u32,
    var: &Var,
) -> Result<(), AllocError>
    ensures { OnOk result (string_bytes out.new
        ≡ string_bytes out.old ++ spec.datum_line (labels_of labels.now) field var.now) }
{
    print_field(out, labels, field)?;
    out.push_str(var_kind_word(var.kind))?;
    print_values(out, var.sort)?;
    out.push_str(" */\n")
}

/// Appends the values of a datum; those of a flag are its type's.
#[tactic(auto, unfolding(crate::specs::Fields::values_text))]
fn print_values(out: &mut String, sort: Sort) -> Result<(), AllocError>
    ensures { OnOk result
        (string_bytes out.new ≡ string_bytes out.old ++ spec.values_text sort) }
{
    match sort {
        Sort::Flag => Ok(()),
        Sort::Number(scale) => print_range(out, scale),
    }
}

/// Appends the values of a number.
#[tactic(auto, unfolding(crate::specs::Fields::values_text))]
fn print_range(out: &mut String, scale: Scale) -> Result<(), AllocError>
    ensures { OnOk result (string_bytes out.new
        ≡ string_bytes out.old ++ spec.values_text (Sort.Number scale)) }
{
    out.push_str(" ")?;
    print_sort(out, Sort::Number(scale))?;
    print_limits(out, scale)?;
    print_unit(out, scale.frac)
}

/// Appends the least and the greatest mantissa.
#[tactic(auto, unfolding(crate::specs::Fields::limits_text))]
fn print_limits(out: &mut String, scale: Scale) -> Result<(), AllocError>
    ensures { OnOk result
        (string_bytes out.new ≡ string_bytes out.old ++ spec.limits_text scale) }
{
    print_signed(out, ": ", scale.least())?;
    print_signed(out, " to ", scale.greatest())
}

/// Appends the unit of a number with a fraction.
fn print_unit(out: &mut String, frac: u8) -> Result<(), AllocError>
    ensures { OnOk result (string_bytes out.new ≡ string_bytes out.old ++ spec.unit_text frac) }
{
    if frac == 0 {
        Ok(())
    } else {
        print_number(out, ", in units of 2^-", u64::from(frac))
    }
}

/// What the field of the used steps is.
fn used_words(counted: bool) -> &'static str
    ensures { result.now ≡ spec.used_words counted }
{
    if counted {
        "steps of the last event"
    } else {
        "not used: no event can overrun the bound of steps"
    }
}

/// Appends the fields between those of data and those of states, where steps are counted or not.
#[tactic(auto, unfolding(crate::specs::Fields::counters_text))]
pub(crate) fn print_counters(
    out: &mut String,
    labels: &Labels<'_>,
    counted: bool,
    first: u32,
) -> Result<(), AllocError>
    requires { first + 5 < 2 ^ 32 }
    ensures { OnOk result (string_bytes out.new
        ≡ string_bytes out.old ++ spec.counters_text (labels_of labels.now) counted first) }
{
    print_commented(out, labels, first, used_words(counted))?;
    print_commented(out, labels, first + 1, "how many events it emitted")?;
    print_commented(
        out,
        labels,
        first + 2,
        "how many entries of note[] are in use",
    )?;
    print_commented(out, labels, first + 3, "its fault")?;
    print_commented(
        out,
        labels,
        first + 4,
        "the datum that overflowed, by its number from 0",
    )?;
    print_commented(
        out,
        labels,
        first + 5,
        "whether a run goes on: 0 before it and after a fault",
    )
}

/// Appends the arrays.
#[tactic(auto, unfolding(crate::specs::Header::rows_text))]
pub(crate) fn print_rows(out: &mut String, shape: &FileShape<'_>) -> Result<(), AllocError>
    ensures { OnOk result
        (string_bytes out.new ≡ string_bytes out.old ++ rows_text (shape_seen shape.now)) }
{
    print_number(out, "    uint32_t out[", u64::from(shape.outputs))?;
    print_number(
        out,
        "]; /* the events that the last event emitted */\n    uint32_t note[",
        shape.notes,
    )?;
    out.push_str("]; /* what is to be done before the event goes on */\n")
}
