//! The answer: the ranges of a chart, or that none are known.
ghost use Rattle.std.specs.Prelude.{◌≡◌, codes, string_bytes, IfOk};
ghost use Rattle.checked_chart.specs.Kept.{chart_of};
ghost use Rattle.range_check.specs.Runs.{StaysInRanges};
ghost use Rattle.range_text.specs.Answer.{AnswersRanges, TellsRanges};

use crate::lines::ranges_text;
use crate::values::push;
use checked_chart::Chart;
use flow_base::Memory;
use range_check::Method;
use range_rules::Certificate;
use range_search::{Limits, find};
use range_spans::Gap;
use range_worlds::Lack;
use std::alloc::Global;

/// How far the search for a certificate goes. Where `apart` says so, sets of worlds in which flags of
/// the chart differ are kept apart: that tells more, and takes more work.
fn limits(apart: bool) -> Limits {
    Limits {
        method: Method {
            apart,
            deep: 400,
            steps: 400_000,
        },
        rounds: 200,
        mends: 10_000,
        patience: 3,
        sets: 2_000,
    }
}

/// Why nothing is said of a chart, where the search lacks that.
fn gap_of(lack: Lack) -> Gap {
    match lack {
        Lack::Memory => Gap::Memory,
        Lack::Sent(cell) => {
            drop(cell);
            Gap::Unknown
        }
        Lack::Unknown | Lack::Zero | Lack::Overflow(_) | Lack::Beyond(..) | Lack::GivenUp => {
            Gap::Unknown
        }
    }
}

/// A certificate that all runs of a chart keep to, with sets of worlds kept apart or not.
fn found_by(alloc: Global, chart: &Chart, apart: bool) -> Result<Certificate, Gap>
    ensures { IfOk result (λ cert. StaysInRanges (chart_of chart.now) cert) }
{
    match find(alloc, chart, limits(apart)) {
        Ok(cert) => Ok(cert),
        Err(lack) => Err(gap_of(lack)),
    }
}

/// A certificate that all runs of a chart keep to. Where none is found with sets of worlds kept apart,
/// one without is searched for.
fn found(alloc: Global, chart: &Chart) -> Result<Certificate, Gap>
    ensures { IfOk result (λ cert. StaysInRanges (chart_of chart.now) cert) }
{
    match found_by(alloc, chart, true) {
        Ok(cert) => Ok(cert),
        Err(Gap::Memory) => Err(Gap::Memory),
        Err(Gap::Unknown) => {
            let cert = found_by(alloc, chart, false)?;
            Ok(cert)
        }
    }
}

/// The lines of the ranges of a chart.
fn lines(alloc: Global, chart: &Chart) -> Result<String, Gap>
    ensures { IfOk result (λ text. TellsRanges (chart_of chart.now) (string_bytes text)) }
{
    let cert = found(alloc, chart)?;
    let text = ranges_text(alloc, chart.names(), &cert)?;
    Ok(text)
}

/// The text that says that nothing is known.
fn unknown(alloc: Global) -> Result<String, Gap>
    ensures { IfOk result (λ text. string_bytes text ≡ codes "unknown\n") }
{
    let mut out = String::new(alloc);
    push(&mut out, "unknown\n")?;
    Ok(out)
}

/// The text that tells the ranges of a chart: a line for each datum with the ends of a span that it
/// never leaves, in any run by the rules, within an event too; then `no zero`, where no divisor is
/// ever 0, and for each datum of mode `error` that never overflows `no overflow` with its name. Where
/// no certificate is found that proves it, the text is `unknown`: so for most charts with a loop of
/// junctions, and for charts with too many sets of states that may be active at once.
pub fn told_ranges(alloc: Global, chart: &Chart) -> Result<String, Memory>
    ensures { IfOk result (λ text. AnswersRanges (chart_of chart.now) (string_bytes text)) }
{
    match lines(alloc, chart) {
        Ok(text) => Ok(text),
        Err(Gap::Memory) => Err(Memory),
        Err(Gap::Unknown) => match unknown(alloc) {
            Ok(text) => Ok(text),
            Err(_) => Err(Memory),
        },
    }
}
