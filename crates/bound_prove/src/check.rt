//! The check of a certificate.
ghost use Rattle.std.specs.Prelude.{◌≡◌, ◌≤◌, ◌<◌, ◌^◌, ◌↔◌, ℕ, Some, length, if◌then◌else◌, IfOk, OnOk, IsTrue};
ghost use Rattle.actions.specs.declared.event.Event.TheVariants.{Named};
ghost use Rattle.checked_chart.specs.Kept.{chart_of};
ghost use Rattle.bound_prove.specs.Certs.{cells_of, IsMadeFor};
ghost use Rattle.bound_prove.specs.Checks as spec;
ghost use Rattle.bound_prove.specs.Firings.{AreRight};
ghost use Rattle.bound_prove.specs.Homes.{AreMarksFor};
ghost use Rattle.bound_prove.specs.Needs.{nothing_needed};
ghost use Rattle.bound_prove.specs.Roots as roots;
ghost use Rattle.bound_prove.specs.Tables.{IsInTable, event_index, event_count, part_count};
ghost use Rattle.bound_prove.specs.Cells.{IsGood};
ghost use Rattle.bound_prove.specs.Needs as needs;
ghost use Rattle.bound_prove.specs.declared.need.Need.{Need as NeedSpec};
ghost use Rattle.bound_prove.specs.declared.need.Part.TheVariants.{Process};

use crate::cell::Cell;
use crate::cert::{Cert, the_ends};
use crate::firings::Firings;
use crate::homes::Marks;
use crate::lookup::Lookup;
use crate::need::{DEPTH_END, Need, Part, STEP_END, nothing_needed};
use actions::{Event, EventDecl, EventKind};
use checked_chart::Chart;
use flow_base::Memory;
use std::alloc::Global;

/// The bounds that a certificate of the chart proves: under them no run of the chart has a depth or
/// a steps fault. None where it isn't good, or its roots are at the ends.
///
/// Fails only where memory does.
pub fn check_cert(alloc: Global, chart: &Chart, cert: &Cert) -> Result<Option<Need>, Memory>
    requires { IsMadeFor (chart_of chart.now) cert.now }
    ensures { IfOk result (λ answer. (n : NeedSpec) → (answer ≡ Some n)
        ↔ spec.Certifies (chart_of chart.now) (cells_of cert.now) n) }
{
    if !is_good(alloc, chart, cert)? {
        return Ok(None);
    }
    let need = root_need(chart, cert);
    if need.depth < DEPTH_END && need.steps < STEP_END {
        return Ok(Some(need));
    }
    Ok(None)
}

/// What the roots need: the start, a tick, and each input event.
fn root_need(chart: &Chart, cert: &Cert) -> Need
    ensures { result ≡ roots.root_need (chart_of chart.now) (cells_of cert.now) }
{
    let start = cert.look(Event::Start, Part::Enter, 0);
    let tick = cert.look(Event::Tick, Part::Process, 0);
    let inputs = inputs_need(cert, chart.names().events.items());
    let events = tick.or(inputs);
    start.or(events).at_least_one()
}

/// What one of the input events needs.
fn inputs_need(cert: &Cert, events: &[EventDecl]) -> Need
    requires { length events.now < 2 ^ 32 }
    ensures { result ≡ roots.inputs_need (λ e. cells_of cert.now (Named e) Process 0) 0 events.now }
{
    let mut need = Need { depth: 0, steps: 0 };
    for (number, event) in events.iter().enumerate() {
        let own = input_need(cert, number as u32, event);
        need = need.or(own);
    }
    need
}

/// What an event needs. Only an input event comes from outside.
fn input_need(cert: &Cert, number: u32, event: &EventDecl) -> Need
    ensures { result ≡ (if roots.is_input event.now.kind then cells_of cert.now
        (Named number) Process 0
        else nothing_needed) }
{
    match event.kind {
        EventKind::Input => cert.look(Event::Named(number), Part::Process, 0),
        EventKind::Local | EventKind::Output => nothing_needed(),
    }
}

/// The event of a number.
fn event_of(number: u32) -> Event
    ensures { event_index result ≡ number }
{
    match number {
        0 => Event::Start,
        1 => Event::Tick,
        _ => Event::Named(number - 2),
    }
}

/// Whether every cell covers all that it is to cover. Cells at both ends do, and so do those that
/// aren't in the table.
fn is_good(alloc: Global, chart: &Chart, cert: &Cert) -> Result<bool, Memory>
    requires { IsMadeFor (chart_of chart.now) cert.now }
    ensures { IfOk result (λ b. IsTrue b ↔ IsGood (chart_of chart.now) (cells_of cert.now)) }
{
    let events = chart.names().events.items().len() as u32 + 2;
    let mut marks = Marks::make(alloc, chart)?;
    let mut firings = Firings::make(alloc, chart)?;
    for number in 0..events {
        let event = event_of(number);
        if !is_row_good(alloc, chart, cert, &mut marks, &mut firings, event)? {
            return Ok(false);
        }
    }
    Ok(true)
}

/// Whether the cells of an event cover all that they are to cover.
fn is_row_good(
    alloc: Global,
    chart: &Chart,
    cert: &Cert,
    marks: &mut Marks,
    firings: &mut Firings,
    event: Event,
) -> Result<bool, Memory>
    requires event { event_index event < event_count (chart_of chart.now) }
    requires marks { AreMarksFor (chart_of chart.now) marks.old }
    requires firings { AreRight (chart_of chart.now) (cells_of cert.now) spec.AllDone firings.old }
    ensures good { IfOk result (λ b. IsTrue b ↔ spec.IsRowGood (chart_of chart.now)
        (cells_of cert.now) event) }
    ensures marks { OnOk result (AreMarksFor (chart_of chart.now) marks.new) }
    ensures firings { OnOk result (AreRight (chart_of chart.now)
        (cells_of cert.now) spec.AllDone firings.new) }
{
    if !is_part_good(alloc, chart, cert, marks, firings, event, Part::Junction)? {
        return Ok(false);
    }
    if !is_part_good(alloc, chart, cert, marks, firings, event, Part::Exit)? {
        return Ok(false);
    }
    if !is_part_good(alloc, chart, cert, marks, firings, event, Part::Enter)? {
        return Ok(false);
    }
    is_part_good(alloc, chart, cert, marks, firings, event, Part::Process)
}

/// How many cells a part has under an event.
fn cell_count(chart: &Chart, part: Part) -> u32
    ensures { result ≡ part_count (chart_of chart.now) part }
{
    match part {
        Part::Junction => chart.junctions(),
        Part::Exit | Part::Enter | Part::Process => chart.shape().len(),
    }
}

/// Whether the cells of a part under an event cover all that they are to cover.
fn is_part_good(
    alloc: Global,
    chart: &Chart,
    cert: &Cert,
    marks: &mut Marks,
    firings: &mut Firings,
    event: Event,
    part: Part,
) -> Result<bool, Memory>
    requires event { event_index event < event_count (chart_of chart.now) }
    requires marks { AreMarksFor (chart_of chart.now) marks.old }
    requires firings { AreRight (chart_of chart.now) (cells_of cert.now) spec.AllDone firings.old }
    ensures good { IfOk result (λ b. IsTrue b ↔ spec.IsPartGood (chart_of chart.now)
        (cells_of cert.now) event part) }
    ensures marks { OnOk result (AreMarksFor (chart_of chart.now) marks.new) }
    ensures firings { OnOk result (AreRight (chart_of chart.now)
        (cells_of cert.now) spec.AllDone firings.new) }
{
    let count = cell_count(chart, part);
    for index in 0..count {
        let cell = Cell { event, part, index };
        if !is_cell_good(alloc, chart, cert, marks, firings, cell)? {
            return Ok(false);
        }
    }
    Ok(true)
}

/// Whether a cell covers all that it is to cover. A cell at both ends does.
fn is_cell_good<'a>(
    alloc: Global,
    chart: &'a Chart,
    cert: &'a Cert,
    marks: &mut Marks,
    firings: &mut Firings,
    cell: Cell,
) -> Result<bool, Memory>
    requires cell { IsInTable (chart_of chart.now) cell.event cell.part cell.index }
    requires marks { AreMarksFor (chart_of chart.now) marks.old }
    requires firings { AreRight (chart_of chart.now) (cells_of cert.now) spec.AllDone firings.old }
    ensures good { IfOk result (λ b. IsTrue b
        ↔ spec.IsCellGood (chart_of chart.now)
        (cells_of cert.now) cell.event cell.part cell.index) }
    ensures marks { OnOk result (AreMarksFor (chart_of chart.now) marks.new) }
    ensures firings { OnOk result (AreRight (chart_of chart.now)
        (cells_of cert.now) spec.AllDone firings.new) }
{
    let given = cert.look(cell.event, cell.part, cell.index);
    if given.covers(the_ends()) {
        return Ok(true);
    }
    let look = Lookup {
        chart,
        cert,
        colours: None,
        cell,
    };
    let mut met = Vec::new(alloc);
    let wanted = look.cell_need(alloc, &mut met, marks, firings)?;
    Ok(given.covers(wanted))
}
