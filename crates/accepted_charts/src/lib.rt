//! Reads a chart text to the chart that may be run, or finds its first fault.
//!
//! Read `specs/Accepted.antt`: which texts are accepted, and which fault of another one is the
//! first.
#![tactic(auto)]

ghost use Rattle.std.specs.Prelude.{◌≡◌, IfOk, IfErr};
ghost use Rattle.checked_chart.specs.Kept.{chart_of};
ghost use Rattle.checked_chart.specs.Reached.{ChartPairs};
ghost use Rattle.accepted_charts.specs.Accepted.{IsAccepted, Refuses, IsFaultOf};

mod laws;
mod promise_laws;

use chart_check::{Checked, check};
use chart_reader::read_chart;
use chart_scope::resolve;
use chart_tree::FormFault;
use checked_chart::Chart;
use flow_base::Memory;
pub use laws::{a_text_has_one_answer, a_text_is_accepted_or_refused, accepted_charts_are_valid};
pub use promise_laws::{chart_texts_are_small, resolved_charts_keep_their_promise};
use std::alloc::Global;

/// The chart of a text that has no fault, and the number of its pairs.
///
/// A text that has one is refused with its first fault: TextTooLong, else the first fault of
/// reading, else of names, else of types, else of structure, else of the number of pairs; in each
/// pass by place, and at one place by number.
pub fn check_text(alloc: Global, text: &[u8]) -> Result<Checked, FormFault>
    ensures accepted { IfOk result (λ c. IsAccepted text.now (chart_of c.chart)) }
    ensures pairs { IfOk result (λ c. ChartPairs (chart_of c.chart) c.pairs) }
    ensures refused { IfErr result (Refuses text.now) }
{
    let tree = read_chart(alloc, text)?;
    let resolved = resolve(alloc, &tree)?;
    check(alloc, resolved)
}

/// The chart of a text that has no fault; another text is refused as by `check_text`.
pub fn accept_chart(alloc: Global, text: &[u8]) -> Result<Chart, FormFault>
    ensures accepted { IfOk result (λ c. IsAccepted text.now (chart_of c)) }
    ensures refused { IfErr result (Refuses text.now) }
{
    match check_text(alloc, text) {
        Ok(checked) => Ok(checked.chart),
        Err(fault) => Err(fault),
    }
}

/// The first fault of a text, none where it is accepted.
pub fn chart_fault(alloc: Global, text: &[u8]) -> Result<Option<FormFault>, Memory>
    ensures { IfOk result (IsFaultOf text.now) }
{
    match accept_chart(alloc, text) {
        Ok(_) => Ok(None),
        Err(FormFault::Memory) => Err(Memory),
        Err(fault) => Ok(Some(fault)),
    }
}
