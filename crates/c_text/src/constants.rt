//! Constants, printed.
ghost use Rattle.std.specs.Prelude.{◌≡◌, ◌^◌, ◌-◌, ◌++◌, codes, decimal, string_bytes, OnOk};
ghost use Rattle.c_subset.specs.Meaning.{bits};
ghost use Rattle.c_text.specs.Types as spec;

use crate::numbers::print_number;
use crate::types::print_cast;
use c_subset::{CType, Width};
use std::alloc::AllocError;

/// The parts of a wide constant are below this number.
const PART: u128 = 1 << 62;

/// Two parts of a wide constant stand for numbers below this one.
const TWO_PARTS: u128 = 1 << 124;

/// Appends a constant. It is taken to be a value of its type, and `int` to have 32 bits.
///
/// Source: C99, 6.4.4.1 and 7.18.4; in which of these forms is this project's choice.
#[tactic(auto, unfolding(crate::specs::Types::constant_text))]
pub fn print_constant(
    out: &mut String,
    chart: &str,
    of: CType,
    number: i128,
) -> Result<(), AllocError>
    ensures { OnOk result
        (string_bytes out.new ≡ string_bytes out.old ++ spec.constant_text chart.now of number) }
{
    match of {
        CType::Signed(_) | CType::Unsigned(_) => {
            out.push_str(narrow_word(of))?;
            print_whole(out, chart, of, number)
        }
        CType::Truth => out.push_str(if number == 0 { "false" } else { "true" }),
    }
}

/// What stands before a constant of a type narrower than `int`.
fn narrow_word(of: CType) -> &'static str
    ensures { result.now ≡ spec.narrow_text of }
{
    match of {
        CType::Signed(Width::W8) => "(int8_t)",
        CType::Signed(Width::W16) => "(int16_t)",
        CType::Unsigned(Width::W8) => "(uint8_t)",
        CType::Unsigned(Width::W16) => "(uint16_t)",
        CType::Signed(Width::W32 | Width::W64 | Width::W128)
        | CType::Unsigned(Width::W32 | Width::W64 | Width::W128)
        | CType::Truth => "",
    }
}

/// Appends a whole number.
#[tactic(auto, unfolding(crate::specs::Types::number_text))]
fn print_whole(out: &mut String, chart: &str, of: CType, number: i128) -> Result<(), AllocError>
    ensures { OnOk result
        (string_bytes out.new ≡ string_bytes out.old ++ spec.number_text chart.now of number) }
{
    let magnitude = number.unsigned_abs();
    if number < 0 {
        print_negative(out, chart, of, magnitude)
    } else {
        print_magnitude(out, chart, of, magnitude)
    }
}

/// Appends a number below 0 of that magnitude.
#[tactic(auto, unfolding(crate::specs::Types::negative_text))]
fn print_negative(
    out: &mut String,
    chart: &str,
    of: CType,
    magnitude: u128,
) -> Result<(), AllocError>
    ensures { OnOk result
        (string_bytes out.new ≡ string_bytes out.old ++ spec.negative_text chart.now of magnitude) }
{
    out.push_str("(-")?;
    if is_least(of, magnitude) {
        print_magnitude(out, chart, of, magnitude.saturating_sub(1))?;
        out.push_str(" - 1)")
    } else {
        print_magnitude(out, chart, of, magnitude)?;
        out.push_str(")")
    }
}

/// Whether the least number of a signed type has that magnitude.
fn is_least(of: CType, magnitude: u128) -> bool
    ensures { result ≡ spec.is_least of magnitude }
{
    match of {
        CType::Signed(width) => magnitude == least_magnitude(width),
        CType::Unsigned(_) | CType::Truth => false,
    }
}

/// The magnitude of the least number of a signed type.
fn least_magnitude(width: Width) -> u128
    ensures { result ≡ 2 ^ (bits width - 1) }
{
    match width {
        Width::W8 => 1 << 7,
        Width::W16 => 1 << 15,
        Width::W32 => 1 << 31,
        Width::W64 => 1 << 63,
        Width::W128 => 1 << 127,
    }
}

/// Appends a number that isn't below 0.
#[tactic(auto, unfolding(crate::specs::Types::magnitude_text))]
fn print_magnitude(out: &mut String, chart: &str, of: CType, number: u128) -> Result<(), AllocError>
    ensures { OnOk result
        (string_bytes out.new ≡ string_bytes out.old ++ spec.magnitude_text chart.now of number) }
{
    match of {
        CType::Signed(Width::W8 | Width::W16 | Width::W32) | CType::Truth => {
            print_number(out, "", number)
        }
        CType::Unsigned(Width::W8 | Width::W16 | Width::W32) => print_between(out, "", number, "u"),
        CType::Signed(Width::W64) => print_between(out, "INT64_C(", number, ")"),
        CType::Unsigned(Width::W64) => print_between(out, "UINT64_C(", number, ")"),
        CType::Signed(Width::W128) | CType::Unsigned(Width::W128) => print_parts(
            out, chart, of, number,
        ),
    }
}

/// Appends words, a number and words.
fn print_between(
    out: &mut String,
    before: &str,
    number: u128,
    after: &str,
) -> Result<(), AllocError>
    ensures { OnOk result (string_bytes out.new
        ≡ string_bytes out.old ++ (before.now ++ (decimal number ++ after.now))) }
{
    print_number(out, before, number)?;
    out.push_str(after)
}

/// Appends a number of 128 bits.
#[tactic(auto, unfolding(crate::specs::Types::parts_text))]
fn print_parts(out: &mut String, chart: &str, of: CType, number: u128) -> Result<(), AllocError>
    ensures { OnOk result
        (string_bytes out.new ≡ string_bytes out.old ++ spec.parts_text chart.now of number) }
{
    if number < TWO_PARTS {
        print_two_parts(out, chart, of, number)
    } else {
        out.push_str("(")?;
        print_two_parts(out, chart, of, number / PART)?;
        print_last_part(out, number % PART)
    }
}

/// Appends a number of 128 bits that is below 2^124.
#[tactic(auto, unfolding(crate::specs::Types::two_parts_text))]
fn print_two_parts(out: &mut String, chart: &str, of: CType, number: u128) -> Result<(), AllocError>
    ensures { OnOk result
        (string_bytes out.new ≡ string_bytes out.old ++ spec.two_parts_text chart.now of number) }
{
    if number < PART {
        print_part(out, chart, of, number)
    } else {
        out.push_str("(")?;
        print_part(out, chart, of, number / PART)?;
        print_last_part(out, number % PART)
    }
}

/// Appends the first part of a number.
fn print_part(out: &mut String, chart: &str, of: CType, number: u128) -> Result<(), AllocError>
    ensures { OnOk result
        (string_bytes out.new ≡ string_bytes out.old ++ spec.part_text chart.now of number) }
{
    print_cast(out, chart, of)?;
    print_between(out, "INT64_C(", number, ")")
}

/// Appends what stands after the first part: 2^62 as a factor, and the last part.
fn print_last_part(out: &mut String, number: u128) -> Result<(), AllocError>
    ensures { OnOk result (string_bytes out.new ≡ string_bytes out.old
        ++ (codes " * INT64_C(4611686018427387904) + INT64_C(" ++ (decimal number ++ codes "))"))) }
{
    print_between(
        out,
        " * INT64_C(4611686018427387904) + INT64_C(",
        number,
        "))",
    )
}
