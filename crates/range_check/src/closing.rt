//! Whether a certificate is closed.
ghost use Rattle.std.specs.Prelude.{IfOk, length};
ghost use Rattle.std.specs.Bool.{OnTrue};
ghost use Rattle.checked_chart.specs.Kept.{chart_of};
ghost use Rattle.range_rules.specs.Closed.{IsClosed};
ghost use Rattle.range_worlds.specs.Leads.{chart_in, cert_in};
ghost use Rattle.range_check.specs.Places.{Starts, ReactsTo, ReactsToInput, ReactsToAll, ReactsFrom, ReactsFromAll};
ghost use Rattle.range_check.specs.Runs.{StaysInRanges};

use crate::check::{are_accepted, are_cells_closed, processes};
use crate::places::{covers_inputs, first, freed};
use actions::{Event, EventDecl, EventKind};
use checked_chart::Chart;
use range_moves::enter;
use range_rules::{Around, Certificate};
use range_worlds::{Lack, Setting, add};
use std::alloc::Global;
use std::cell::Cell as Counter;

/// How a certificate is checked. No contract depends on it.
#[derive(Clone, Copy)]
pub struct Method {
    /// Whether sets of worlds are kept apart where flags of the chart differ.
    pub apart: bool,
    /// How many calls may be open at once.
    pub deep: u32,
    /// How many transitions may be looked at.
    pub steps: u64,
}

/// Where the start may lead. Answers: those of `enter`, and `Beyond` where a first value isn't in the
/// span in which its datum always is.
pub fn start_ends(setting: &Setting<'_>, deep: u32) -> Result<Vec<Around>, Lack>
    ensures { IfOk result (λ ys. Starts setting.now ys.items) }
{
    let x = first(setting)?;
    let xs = add(setting, Vec::new(setting.alloc), x)?;
    let ys = enter(setting, xs, 0, 0, Event::Start, deep)?;
    Ok(ys)
}

/// Whether the start leads to sets between two events.
fn starts(setting: &Setting<'_>, deep: u32) -> Result<bool, Lack>
    ensures { IfOk result (λ b. OnTrue b (Starts setting.now (cert_in setting.now).rest.items)) }
{
    let ys = start_ends(setting, deep)?;
    Ok(are_accepted(setting, &ys, &setting.cert.rest))
}

/// Whether an event leads from the worlds of a set to sets between two events.
fn reacts_to(setting: &Setting<'_>, y: &Around, event: Event, deep: u32) -> Result<bool, Lack>
    ensures { IfOk result (λ b. OnTrue b (ReactsTo setting.now y.now event)) }
{
    let right = processes(setting, y, 0, event, &setting.cert.rest, deep)?;
    Ok(right)
}

/// Whether an event, if it is an input event, leads from the worlds of a set to sets between two
/// events.
fn reacts_to_input(
    setting: &Setting<'_>,
    y: &Around,
    event: &EventDecl,
    number: u32,
    deep: u32,
) -> Result<bool, Lack>
    ensures { IfOk result (λ b. OnTrue b (ReactsToInput setting.now y.now event.now number)) }
{
    match event.kind {
        EventKind::Local | EventKind::Output => Ok(true),
        EventKind::Input => {
            let right = reacts_to(setting, y, Event::Named(number), deep)?;
            Ok(right)
        }
    }
}

/// Whether each event that can be given leads from the worlds of a set to sets between two events.
fn reacts_to_all(setting: &Setting<'_>, y: &Around, deep: u32) -> Result<bool, Lack>
    ensures { IfOk result (λ b. OnTrue b (ReactsToAll setting.now y.now)) }
{
    let tick = reacts_to(setting, y, Event::Tick, deep)?;
    if !tick {
        return Ok(false);
    }
    let events = setting.chart.names().events.items();
    for (number, event) in events.iter().enumerate() {
        let right = reacts_to_input(setting, y, event, number as u32, deep)?;
        if !right {
            return Ok(false);
        }
    }
    Ok(true)
}

/// Whether each event that can be given, with any inputs, leads from a set to sets between two
/// events.
fn reacts_from(setting: &Setting<'_>, x: &Around, deep: u32) -> Result<bool, Lack>
    ensures { IfOk result (λ b. OnTrue b (ReactsFrom setting.now x.now)) }
{
    let y = freed(setting, x)?;
    let right = reacts_to_all(setting, &y, deep)?;
    Ok(right)
}

/// Whether each event that can be given, with any inputs, leads from each set between two events to
/// such sets again.
fn reacts_from_all(setting: &Setting<'_>, deep: u32) -> Result<bool, Lack>
    ensures { IfOk result (λ b. OnTrue b (ReactsFromAll setting.now
        (length (cert_in setting.now).rest.items))) }
{
    for i in 0..setting.cert.rest.len() {
        let right = reacts_from(setting, &setting.cert.rest[i], deep)?;
        if !right {
            return Ok(false);
        }
    }
    Ok(true)
}

/// Whether the certificate of a setting is closed.
fn closes(setting: &Setting<'_>, deep: u32) -> Result<bool, Lack>
    ensures { IfOk result (λ b. OnTrue b (IsClosed (chart_in setting.now) (cert_in setting.now))) }
{
    if !covers_inputs(setting) {
        return Ok(false);
    }
    let cells = are_cells_closed(setting, deep)?;
    if !cells {
        return Ok(false);
    }
    let start = starts(setting, deep)?;
    if !start {
        return Ok(false);
    }
    let reacts = reacts_from_all(setting, deep)?;
    Ok(reacts)
}

/// Whether a certificate of a chart is closed: each value of an input is in its span, each cell is
/// right where the cells that it calls are, the start leads to a set between two events, and so does
/// each event that can be given, from such a set with any inputs. The contract says what `true`
/// means, also for runs. Where the answer is `false`, some set isn't inside those that the
/// certificate has for it. Other answers say what the certificate lacks: `Zero`, `Overflow`,
/// `Beyond`, `Sent`; or that nothing is said of it: `GivenUp` where all steps were used; `Unknown`
/// where a number doesn't fit 128 bits or is that of no state, datum or junction, or where more than
/// `deep` calls would be open, as around a cycle of junctions; and `Memory`.
pub fn is_closed(
    alloc: Global,
    chart: &Chart,
    cert: &Certificate,
    method: Method,
) -> Result<bool, Lack>
    ensures closed { IfOk result (λ b. OnTrue b (IsClosed (chart_of chart.now) cert.now)) }
    ensures runs { IfOk result (λ b. OnTrue b (StaysInRanges (chart_of chart.now) cert.now)) }
{
    let steps = Counter::new(method.steps);
    let setting = Setting {
        alloc,
        chart,
        cert,
        apart: method.apart,
        steps: &steps,
    };
    let closed = closes(&setting, method.deep)?;
    Ok(closed)
}
