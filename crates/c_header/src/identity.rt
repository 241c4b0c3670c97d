//! What both files of a chart say of their making, printed.
ghost use Rattle.std.specs.Prelude.{◌≡◌, ◌++◌, ◌<◌, string_bytes, OnOk};
ghost use Rattle.c_header.specs.Identity as spec;

use crate::words::{print_named, print_titled};
use code_fields::print_number;
use flow_base::Bounds;
use hex::encode;
use std::alloc::{AllocError, Global};

/// What a file of a chart is made of, so that a file of another chart, or of another making, isn't
/// taken for it.
#[derive(Clone, Copy)]
pub struct Identity {
    /// The bounds that were asked for, or those that the chart gives.
    pub bounds: Bounds,
    /// The first 64 bits of the MD5 of the chart's canonical text, as `flowc fmt` writes it.
    pub sum: [u8; 8],
}

/// The version of `chart_to_c`.
pub fn version() -> &'static str
    ensures { result.now ≡ spec.version }
{
    "1.0.0"
}

/// Appends how both files begin: an open comment that says by which program they are made, under
/// which bounds, and of which chart.
///
/// The text is this project's choice (`specs/Identity.antt`). On an error a part of it was appended.
#[tactic(auto, unfolding(crate::specs::Identity::identity_text))]
pub fn print_identity(
    alloc: Global,
    out: &mut String,
    chart: &str,
    identity: Identity,
) -> Result<(), AllocError>
    ensures { OnOk result (string_bytes out.new
        ≡ string_bytes out.old ++ spec.identity_text chart.now identity) }
{
    let digits = encode(alloc, &identity.sum)?;
    print_titled(
        out,
        "/* The C of the chart ",
        chart,
        ", written by chart_to_c ",
    )?;
    out.push_str(version())?;
    print_number(out, " with --depth ", u64::from(identity.bounds.depth))?;
    print_number(out, " --steps ", u64::from(identity.bounds.steps))?;
    print_titled(
        out,
        ". Do not edit.\n   The sum of the chart is ",
        &digits,
        ", the first 64 bits of the MD5 of its canonical text.\n",
    )
}

/// Appends the name of 16 bits of the sum, and these bits, with words before and between.
#[tactic(auto, unfolding(crate::specs::Identity::sum_number))]
fn print_sum_number(
    alloc: Global,
    out: &mut String,
    front: &str,
    chart: &str,
    between: &str,
    sum: &[u8; 8],
    place: usize,
) -> Result<(), AllocError>
    requires { place < 4 }
    ensures { OnOk result (string_bytes out.new ≡ string_bytes out.old
        ++ spec.sum_number front.now chart.now between.now sum.now place) }
{
    let digits = encode(alloc, &[sum[place + place], sum[place + place + 1]])?;
    print_named(out, front, chart, "SUM_")?;
    print_number(out, "", place as u64)?;
    out.push_str(between)?;
    out.push_str("0x")?;
    out.push_str(&digits)
}

/// Appends the four numbers of a sum, each under its name, with words before the first one and
/// words before each other one.
///
/// On an error a part of it was appended.
#[tactic(auto, unfolding(crate::specs::Identity::sum_numbers))]
pub fn print_sum_numbers(
    alloc: Global,
    out: &mut String,
    front: &str,
    next: &str,
    chart: &str,
    between: &str,
    sum: &[u8; 8],
) -> Result<(), AllocError>
    ensures { OnOk result (string_bytes out.new ≡ string_bytes out.old
        ++ spec.sum_numbers front.now next.now chart.now between.now sum.now) }
{
    print_sum_number(alloc, out, front, chart, between, sum, 0)?;
    print_sum_number(alloc, out, next, chart, between, sum, 1)?;
    print_sum_number(alloc, out, next, chart, between, sum, 2)?;
    print_sum_number(alloc, out, next, chart, between, sum, 3)
}

/// Appends the numbers of the sum in the header.
#[tactic(auto, unfolding(crate::specs::Identity::sums_text))]
pub(crate) fn print_sums(
    alloc: Global,
    out: &mut String,
    chart: &str,
    identity: Identity,
) -> Result<(), AllocError>
    ensures { OnOk result (string_bytes out.new
        ≡ string_bytes out.old ++ spec.sums_text chart.now identity) }
{
    out.push_str("\n/* The sum of the chart, by 16 bits: the source compares it. */\n")?;
    print_sum_numbers(alloc, out, "enum { ", ", ", chart, " = ", &identity.sum)?;
    out.push_str(" };\n\n")
}
