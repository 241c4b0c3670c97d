//! What functions are for, and their names.
ghost use Rattle.std.specs.Prelude.{◌≡◌, ◌++◌, string_bytes, slice_get, slice_index_or, OnOk};
ghost use Rattle.std.specs.Option.{option_copied};
ghost use Rattle.c_text.specs.Labels as spec;

use crate::labels::Labels;
use crate::numbers::print_number;
use c_names::print_chart_name;
use c_subset::Width;
use std::alloc::AllocError;

/// What a function is for.
#[derive(Clone, Copy)]
pub enum Kind {
    /// A procedure of the code.
    Procedure,
    /// A test of a state that is an argument.
    Home,
    /// The call of a noted procedure, whose number is an argument.
    Noted,
    /// The floor of a quotient of numbers of that width.
    Floor(Width),
    /// A call from outside: that stores the first values, the start or a reaction.
    Outside,
}

/// What a function is for.
#[tactic(auto, unfolding(crate::specs::Labels::function_kind))]
pub fn function_kind(labels: &Labels<'_>, function: u32) -> Kind
    ensures { result ≡ spec.function_kind (spec.labels_of labels.now) function }
{
    if function < labels.procs {
        Kind::Procedure
    } else {
        other_kind(function - labels.procs)
    }
}

/// What a function after those of procedures is for.
fn other_kind(place: u32) -> Kind
    ensures { result ≡ slice_index_or spec.other_kinds place Kind.Outside }
{
    match place {
        0 => Kind::Home,
        1 => Kind::Home,
        2 => Kind::Noted,
        3 => Kind::Floor(Width::W8),
        4 => Kind::Floor(Width::W16),
        5 => Kind::Floor(Width::W32),
        6 => Kind::Floor(Width::W64),
        7 => Kind::Floor(Width::W128),
        _ => Kind::Outside,
    }
}

/// Whether a function has the struct as its first argument.
pub fn takes_struct(kind: Kind) -> bool
    ensures { result ≡ spec.takes_struct kind }
{
    match kind {
        Kind::Procedure | Kind::Home | Kind::Noted | Kind::Outside => true,
        Kind::Floor(_) => false,
    }
}

/// Appends the name of a function, and nothing where there is none. This project's choice.
#[tactic(auto, unfolding(crate::specs::Labels::function_label))]
pub fn print_function_label(
    out: &mut String,
    labels: &Labels<'_>,
    function: u32,
) -> Result<(), AllocError>
    ensures { OnOk result (string_bytes out.new ≡ string_bytes out.old
        ++ spec.function_label (spec.labels_of labels.now) function) }
{
    if function < labels.procs {
        print_chart_name(out, labels.chart, "p")?;
        print_number(out, "", u128::from(function))
    } else {
        match other_word(function - labels.procs) {
            Some(word) => print_chart_name(out, labels.chart, word),
            None => Ok(()),
        }
    }
}

/// The word of a function after those of procedures, by its place among these.
fn other_word(place: u32) -> Option<&'static str>
    ensures { option_copied result ≡ slice_get spec.other_words place }
{
    match place {
        0 => Some("is_on"),
        1 => Some("is_bare"),
        2 => Some("noted"),
        3 => Some("div8"),
        4 => Some("div16"),
        5 => Some("div32"),
        6 => Some("div64"),
        7 => Some("div128"),
        8 => Some("init"),
        9 => Some("start"),
        10 => Some("react"),
        _ => None,
    }
}
