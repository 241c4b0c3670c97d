//! The names of locals.
ghost use Rattle.std.specs.Prelude.{◌≡◌, ◌++◌, ◌∷◌, [], codes, string_bytes, slice_get, OnOk};
ghost use Rattle.std.specs.Option.{option_copied};
ghost use Rattle.c_text.specs.Labels as spec;

use crate::kinds::Kind;
use crate::numbers::print_number;
use crate::types::is_same;
use c_functions::WORD;
use c_subset::{CType, Width};
use std::alloc::AllocError;

/// A local: its type and its number.
#[derive(Clone, Copy)]
pub struct LocalName {
    /// Its type.
    pub of: CType,
    /// Its number.
    pub number: usize,
}

/// Appends the name of a local.
#[tactic(auto, unfolding(crate::specs::Labels::local_label))]
pub fn print_local_label(out: &mut String, kind: Kind, local: LocalName) -> Result<(), AllocError>
    ensures { OnOk result (string_bytes out.new
        ≡ string_bytes out.old ++ spec.local_label kind local.of local.number) }
{
    match first_label(kind, local) {
        Some(label) => out.push_str(label),
        None => print_number(out, type_short(local.of), local.number as u128),
    }
}

/// The name of a local that is one of the first of its type.
fn first_label(kind: Kind, local: LocalName) -> Option<&'static str>
    ensures { option_copied result ≡ slice_get (spec.first_labels kind local.of) local.number }
{
    match kind {
        Kind::Procedure | Kind::Outside => {
            if is_same(local.of, WORD) {
                word_label(local.number)
            } else {
                None
            }
        }
        Kind::Home => {
            if is_same(local.of, WORD) && local.number == 0 {
                Some("state")
            } else {
                None
            }
        }
        Kind::Noted => {
            if is_same(local.of, WORD) {
                noted_label(local.number)
            } else {
                None
            }
        }
        Kind::Floor(width) => {
            if is_same(local.of, CType::Signed(width)) {
                floor_label(local.number)
            } else {
                None
            }
        }
    }
}

/// The name of one of the first words of a procedure.
fn word_label(number: usize) -> Option<&'static str>
    ensures { option_copied result ≡ slice_get spec.word_labels number }
{
    match number {
        0 => Some("event"),
        1 => Some("depth"),
        2 => Some("base"),
        3 => Some("home"),
        4 => Some("result"),
        5 => Some("cursor"),
        _ => None,
    }
}

/// The name of a parameter of the function that calls noted procedures.
fn noted_label(number: usize) -> Option<&'static str>
    ensures { option_copied result ≡ slice_get spec.noted_labels number }
{
    match number {
        0 => Some("event"),
        1 => Some("depth"),
        2 => Some("base"),
        3 => Some("home"),
        4 => Some("result"),
        5 => Some("note"),
        _ => None,
    }
}

/// The name of an argument of a division.
fn floor_label(number: usize) -> Option<&'static str>
    ensures { option_copied result ≡ slice_get (codes "a" ∷ codes "b" ∷ []) number }
{
    match number {
        0 => Some("a"),
        1 => Some("b"),
        _ => None,
    }
}

/// What stands before the number of a local.
fn type_short(of: CType) -> &'static str
    ensures { result.now ≡ spec.type_short of }
{
    match of {
        CType::Signed(width) => signed_short(width),
        CType::Unsigned(width) => unsigned_short(width),
        CType::Truth => "b_",
    }
}

/// What stands before the number of a signed local.
fn signed_short(width: Width) -> &'static str
    ensures { result.now ≡ spec.type_short (CType.Signed width) }
{
    match width {
        Width::W8 => "i8_",
        Width::W16 => "i16_",
        Width::W32 => "i32_",
        Width::W64 => "i64_",
        Width::W128 => "i128_",
    }
}

/// What stands before the number of an unsigned local.
fn unsigned_short(width: Width) -> &'static str
    ensures { result.now ≡ spec.type_short (CType.Unsigned width) }
{
    match width {
        Width::W8 => "u8_",
        Width::W16 => "u16_",
        Width::W32 => "u32_",
        Width::W64 => "u64_",
        Width::W128 => "u128_",
    }
}
