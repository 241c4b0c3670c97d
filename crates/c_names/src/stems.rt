//! A chart's name in names of C.
ghost use Rattle.std.specs.Prelude.{◌≡◌, ◌++◌, bytes_eq, string_bytes, OnOk};
ghost use Rattle.std.specs.List.{list_any};
ghost use Rattle.c_names.specs.Stems as spec;

use crate::reserved::begins_reserved;
use std::alloc::AllocError;

/// Appends a name with each `_` doubled. This project's choice.
#[tactic(auto, unfolding(crate::specs::Stems::doubled))]
pub fn print_doubled(out: &mut String, name: &str) -> Result<(), AllocError>
    ensures { OnOk result (string_bytes out.new ≡ string_bytes out.old ++ spec.doubled name.now) }
{
    for letter in name.chars() {
        print_letter(out, letter)?;
    }
    Ok(())
}

/// Appends a letter of a name.
fn print_letter(out: &mut String, letter: char) -> Result<(), AllocError>
    ensures { OnOk result
        (string_bytes out.new ≡ string_bytes out.old ++ spec.letter_text letter) }
{
    if letter == '_' {
        out.push_str("__")
    } else {
        out.push(letter)
    }
}

/// Whether a chart's name is one of those before which more stands.
fn is_listed(name: &[u8]) -> bool
    ensures { result ≡ list_any (bytes_eq name.now) spec.taken_names }
{
    name == b"va".as_slice()
        || name == b"LC".as_slice()
        || name == b"SIG".as_slice()
        || name == b"FE".as_slice()
        || name == b"FP".as_slice()
        || name == b"in".as_slice()
        || name == b"out".as_slice()
        || name == b"loc".as_slice()
}

/// Whether more stands before a chart's name.
#[tactic(auto, unfolding(crate::specs::Stems::is_taken))]
fn is_taken(name: &str) -> bool
    ensures { result ≡ spec.is_taken name.now }
{
    let bytes = name.as_bytes();
    is_listed(bytes) || begins_reserved(bytes) || bytes.starts_with(b"flow_".as_slice())
}

/// Appends a chart's name as it stands in names of C.
#[tactic(auto, unfolding(crate::specs::Stems::stem))]
fn print_stem(out: &mut String, chart: &str) -> Result<(), AllocError>
    ensures { OnOk result (string_bytes out.new ≡ string_bytes out.old ++ spec.stem chart.now) }
{
    if is_taken(chart) {
        out.push_str("flow__")?;
    }
    print_doubled(out, chart)
}

/// Appends a name of a chart's files: the chart's name, `_` and a word. This project's choice.
#[tactic(auto, unfolding(crate::specs::Stems::name_of_chart))]
pub fn print_chart_name(out: &mut String, chart: &str, word: &str) -> Result<(), AllocError>
    ensures { OnOk result (string_bytes out.new
        ≡ string_bytes out.old ++ spec.name_of_chart chart.now word.now) }
{
    print_stem(out, chart)?;
    out.push_str("_")?;
    out.push_str(word)
}

/// Appends the name that the first lines of a chart's header define. This project's choice.
#[tactic(auto, unfolding(crate::specs::Stems::guard_of_chart))]
pub fn print_guard_name(out: &mut String, chart: &str) -> Result<(), AllocError>
    ensures { OnOk result (string_bytes out.new
        ≡ string_bytes out.old ++ spec.guard_of_chart chart.now) }
{
    out.push_str("FLOW__")?;
    print_stem(out, chart)?;
    out.push_str("__H")
}
