//! Words with the chart's name, printed.
ghost use Rattle.std.specs.Prelude.{◌≡◌, ◌++◌, string_bytes, OnOk};
ghost use Rattle.c_header.specs.Header as spec;

use c_names::print_chart_name;
use code_fields::print_number;
use std::alloc::AllocError;

/// Appends words, the chart's name, and other words.
pub(crate) fn print_titled(
    out: &mut String,
    front: &str,
    chart: &str,
    back: &str,
) -> Result<(), AllocError>
    ensures { OnOk result (string_bytes out.new
        ≡ string_bytes out.old ++ spec.titled_text front.now chart.now back.now) }
{
    out.push_str(front)?;
    out.push_str(chart)?;
    out.push_str(back)
}

/// Appends words, one of the chart's names in C, and other words: `back` begins with the word
/// that stands after the chart's name and `_`. This project's choice (`specs/Header.antt`).
///
/// On an error a part of it was appended.
pub fn print_named(out: &mut String, front: &str, chart: &str, back: &str) -> Result<(), AllocError>
    ensures { OnOk result (string_bytes out.new
        ≡ string_bytes out.old ++ spec.named_text front.now chart.now back.now) }
{
    out.push_str(front)?;
    print_chart_name(out, chart, back)
}

/// Appends the definition of a number.
#[tactic(auto, unfolding(crate::specs::Header::define_line))]
pub(crate) fn print_define(
    out: &mut String,
    chart: &str,
    prefix: &str,
    name: &str,
    number: u64,
) -> Result<(), AllocError>
    ensures { OnOk result (string_bytes out.new
        ≡ string_bytes out.old ++ spec.define_line chart.now prefix.now name.now number) }
{
    print_named(out, "enum { ", chart, prefix)?;
    out.push_str(name)?;
    print_number(out, " = ", number)?;
    out.push_str(" };\n")
}
