//! An accepted chart from a file.
ghost use Rattle.checked_chart.specs.Kept.{chart_of};
ghost use Rattle.accepted_charts.specs.Accepted.{IsAccepted};
ghost use Rattle.commands.specs.Call.{sources_of};
ghost use Rattle.commands.specs.Reading.{FileGives};
ghost use Rattle.commands.specs.Accepted.{IsCounted, RefusesAccepted};

use crate::file::{FileEnd, read_text};
use crate::refusal::{Refusal, TOO_LONG, end_of_fault};
use accepted_charts::check_text;
use chart_check::Checked;
use chart_tree::CHART_TEXT_LIMIT;
use checked_chart::Chart;
use flow_base::Inputs;
use std::alloc::Global;

/// Reads the file of that name as the text of a chart that is accepted, and counts its pairs.
pub fn read_checked<I: Inputs>(
    alloc: Global,
    inputs: &mut I,
    name: &str,
) -> Result<Checked, FileEnd<Refusal>>
    ensures { FileGives CHART_TEXT_LIMIT (λ text c. IsCounted text (chart_of c.chart) c.pairs)
        RefusesAccepted (sources_of I.Inputs inputs.old) (sources_of I.Inputs inputs.new) name.now result }
{
    let text = read_text(alloc, inputs, name, CHART_TEXT_LIMIT, TOO_LONG)?;
    match check_text(alloc, &text) {
        Ok(checked) => Ok(checked),
        Err(fault) => Err(end_of_fault(fault)),
    }
}

/// Reads the file of that name as the text of a chart that is accepted.
pub fn read_accepted<I: Inputs>(
    alloc: Global,
    inputs: &mut I,
    name: &str,
) -> Result<Chart, FileEnd<Refusal>>
    ensures { FileGives CHART_TEXT_LIMIT (λ text chart. IsAccepted text (chart_of chart))
        RefusesAccepted (sources_of I.Inputs inputs.old) (sources_of I.Inputs inputs.new) name.now result }
{
    Ok(read_checked(alloc, inputs, name)?.chart)
}
