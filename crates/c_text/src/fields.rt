//! The names and types of fields, and the names of arrays.
ghost use Rattle.std.specs.Prelude.{◌≡◌, ◌+◌, ◌++◌, [], replicate, string_bytes};
ghost use Rattle.std.specs.Prelude.{slice_index_or, OnOk};
ghost use Rattle.c_text.specs.Labels as spec;
ghost use Rattle.c_text.specs.Types.{type_text};

use crate::labels::Labels;
use crate::numbers::print_number;
use crate::types::print_type;
use actions::{Var, VarKind};
use c_functions::WORD;
use c_subset::{CType, Width};
use std::alloc::AllocError;

/// Appends the name of a field, and nothing where there is none. This project's choice.
#[tactic(auto, unfolding(crate::specs::Labels::field_label, crate::specs::Labels::field_labels))]
pub fn print_field_label(
    out: &mut String,
    labels: &Labels<'_>,
    field: u32,
) -> Result<(), AllocError>
    ensures { OnOk result (string_bytes out.new ≡ string_bytes out.old
        ++ spec.field_label (spec.labels_of labels.now) field) }
{
    let data = labels.names.vars.items();
    let place = field as usize;
    if place < data.len() {
        print_datum_label(out, &data[place])
    } else {
        print_counter_label(out, labels, place - data.len())
    }
}

/// What stands before the name of a datum.
fn kind_word(kind: VarKind) -> &'static str
    ensures { result.now ≡ spec.kind_word kind }
{
    match kind {
        VarKind::Input => "in_",
        VarKind::Output => "out_",
        VarKind::Local => "loc_",
    }
}

/// Appends the name of a datum's field.
fn print_datum_label(out: &mut String, datum: &Var) -> Result<(), AllocError>
    ensures { OnOk result
        (string_bytes out.new ≡ string_bytes out.old ++ spec.datum_label datum.now) }
{
    out.push_str(kind_word(datum.kind))?;
    out.push_str(datum.name.text())
}

/// Appends the name of a field after those of data.
fn print_counter_label(
    out: &mut String,
    labels: &Labels<'_>,
    place: usize,
) -> Result<(), AllocError>
    ensures { OnOk result (string_bytes out.new ≡ string_bytes out.old
        ++ slice_index_or (spec.counter_labels ++ spec.state_labels (spec.labels_of labels.now))
        place []) }
{
    match place {
        0 => out.push_str("used"),
        1 => out.push_str("outs"),
        2 => out.push_str("noted"),
        3 => out.push_str("fault"),
        4 => out.push_str("fault_datum"),
        5 => out.push_str("ready"),
        _ => print_state_label(out, labels, place - 6),
    }
}

/// Appends the name of a field of states.
fn print_state_label(out: &mut String, labels: &Labels<'_>, place: usize) -> Result<(), AllocError>
    ensures { OnOk result (string_bytes out.new ≡ string_bytes out.old
        ++ slice_index_or (spec.state_labels (spec.labels_of labels.now)) place []) }
{
    let ors = labels.ors as usize;
    if place < ors {
        print_number(out, "child_", place as u128)
    } else if place - ors < ors {
        print_number(out, "last_", (place - ors) as u128)
    } else if place - ors - ors < labels.words as usize {
        print_number(out, "flags_", (place - ors - ors) as u128)
    } else {
        Ok(())
    }
}

/// Appends the type of a field.
pub fn print_field_type(out: &mut String, labels: &Labels<'_>, field: u32) -> Result<(), AllocError>
    ensures { OnOk result (string_bytes out.new ≡ string_bytes out.old
        ++ type_text (spec.labels_of labels.now).chart
        (spec.type_of_field (spec.labels_of labels.now) field)) }
{
    print_type(out, labels.chart, field_type(labels, field))
}

/// The type of a field, `uint32_t` where there is none.
#[tactic(auto, unfolding(crate::specs::Labels::type_of_field, crate::specs::Labels::field_types))]
pub fn field_type(labels: &Labels<'_>, field: u32) -> CType
    ensures { result ≡ spec.type_of_field (spec.labels_of labels.now) field }
{
    let data = labels.names.vars.items();
    let place = field as usize;
    if place < data.len() {
        c_functions::field_type(data[place].sort)
    } else {
        state_type(
            labels.ors as usize,
            labels.words as usize,
            place - data.len(),
        )
    }
}

/// The type of a field after those of data.
fn state_type(ors: usize, words: usize, place: usize) -> CType
    ensures { result ≡ slice_index_or (replicate 6 (CType.Unsigned Width.W32)
        ++ (replicate (ors + ors) (CType.Unsigned Width.W16)
        ++ replicate words (CType.Unsigned Width.W32))) place (CType.Unsigned Width.W32) }
{
    if place < 6 {
        WORD
    } else {
        number_type(ors, words, place - 6)
    }
}

/// The type of a field after those of counters.
fn number_type(ors: usize, words: usize, place: usize) -> CType
    ensures { result ≡ slice_index_or (replicate (ors + ors) (CType.Unsigned Width.W16)
        ++ replicate words (CType.Unsigned Width.W32)) place (CType.Unsigned Width.W32) }
{
    if place < ors || place - ors < ors {
        CType::Unsigned(Width::W16)
    } else {
        WORD
    }
}

/// Appends the name of an array, and nothing where there is none.
#[tactic(auto, unfolding(crate::specs::Labels::row_label))]
pub fn print_row_label(out: &mut String, row: u32) -> Result<(), AllocError>
    ensures { OnOk result (string_bytes out.new ≡ string_bytes out.old ++ spec.row_label row) }
{
    match row {
        0 => out.push_str("out"),
        1 => out.push_str("note"),
        _ => Ok(()),
    }
}
