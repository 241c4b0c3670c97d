//! The names of types.
ghost use Rattle.std.specs.Prelude.{◌≡◌, ◌++◌, string_bytes, OnOk};
ghost use Rattle.c_subset.specs.Meaning.{bits};
ghost use Rattle.c_subset.specs.Running.{same_type};
ghost use Rattle.c_text.specs.Expressions.{is_truth};
ghost use Rattle.c_text.specs.Types as spec;

use c_names::print_chart_name;
use c_subset::{CType, Width};
use std::alloc::AllocError;

/// How many bits a width has.
pub fn bits(width: Width) -> u32
    ensures { result ≡ bits width }
{
    match width {
        Width::W8 => 8,
        Width::W16 => 16,
        Width::W32 => 32,
        Width::W64 => 64,
        Width::W128 => 128,
    }
}

/// Whether both are one type.
pub fn is_same(left: CType, right: CType) -> bool
    ensures { result ≡ same_type left right }
{
    match left {
        CType::Signed(width) => match right {
            CType::Signed(other) => bits(width) == bits(other),
            CType::Unsigned(_) | CType::Truth => false,
        },
        CType::Unsigned(width) => match right {
            CType::Unsigned(other) => bits(width) == bits(other),
            CType::Signed(_) | CType::Truth => false,
        },
        CType::Truth => is_truth(right),
    }
}

/// Whether it is the type of truth values.
pub fn is_truth(of: CType) -> bool
    ensures truth { result ≡ is_truth of }
    ensures same { result ≡ same_type CType.Truth of }
{
    match of {
        CType::Signed(_) | CType::Unsigned(_) => false,
        CType::Truth => true,
    }
}

/// Appends the name of a signed type.
fn print_signed(out: &mut String, chart: &str, width: Width) -> Result<(), AllocError>
    ensures { OnOk result (string_bytes out.new
        ≡ string_bytes out.old ++ spec.type_text chart.now (CType.Signed width)) }
{
    match width {
        Width::W8 => out.push_str("int8_t"),
        Width::W16 => out.push_str("int16_t"),
        Width::W32 => out.push_str("int32_t"),
        Width::W64 => out.push_str("int64_t"),
        Width::W128 => print_chart_name(out, chart, "int128"),
    }
}

/// Appends the name of an unsigned type.
fn print_unsigned(out: &mut String, chart: &str, width: Width) -> Result<(), AllocError>
    ensures { OnOk result (string_bytes out.new
        ≡ string_bytes out.old ++ spec.type_text chart.now (CType.Unsigned width)) }
{
    match width {
        Width::W8 => out.push_str("uint8_t"),
        Width::W16 => out.push_str("uint16_t"),
        Width::W32 => out.push_str("uint32_t"),
        Width::W64 => out.push_str("uint64_t"),
        Width::W128 => print_chart_name(out, chart, "uint128"),
    }
}

/// Appends the name of a type. Source: C99, 7.18.1.1 and 7.16. Types of 128 bits have names with
/// the chart's, which its source defines.
pub fn print_type(out: &mut String, chart: &str, of: CType) -> Result<(), AllocError>
    ensures { OnOk result
        (string_bytes out.new ≡ string_bytes out.old ++ spec.type_text chart.now of) }
{
    match of {
        CType::Signed(width) => print_signed(out, chart, width),
        CType::Unsigned(width) => print_unsigned(out, chart, width),
        CType::Truth => out.push_str("bool"),
    }
}

/// Appends `(T)`.
pub fn print_cast(out: &mut String, chart: &str, to: CType) -> Result<(), AllocError>
    ensures { OnOk result
        (string_bytes out.new ≡ string_bytes out.old ++ spec.cast_text chart.now to) }
{
    out.push_str("(")?;
    print_type(out, chart, to)?;
    out.push_str(")")
}
