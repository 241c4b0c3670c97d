//! The numbers of events and faults, the bounds and the sizes, printed.
ghost use Rattle.std.specs.Prelude.{◌≡◌, ◌++◌, string_bytes, OnOk};
ghost use Rattle.c_header.specs.Header as spec;

use crate::facts::calls_number;
use crate::words::{print_define, print_named};
use actions::{EventDecl, EventKind};
use flow_base::Bounds;
use std::alloc::AllocError;

/// Appends the events, and a reaction without one.
#[tactic(auto, unfolding(crate::specs::Header::events_text))]
pub(crate) fn print_events(
    out: &mut String,
    chart: &str,
    events: &[EventDecl],
) -> Result<(), AllocError>
    ensures { OnOk result (string_bytes out.new
        ≡ string_bytes out.old ++ spec.events_text chart.now events.now) }
{
    print_named(
        out,
        "/* The events: those that ",
        chart,
        "react takes, and those that are emitted. */\n",
    )?;
    print_event_lines(out, chart, events)?;
    print_tick(out, chart, events)
}

/// Appends the number of a reaction without an event.
fn print_tick(out: &mut String, chart: &str, events: &[EventDecl]) -> Result<(), AllocError>
    ensures { OnOk result (string_bytes out.new
        ≡ string_bytes out.old ++ spec.tick_line chart.now events.now) }
{
    print_define(out, chart, "", "TICK", events.len() as u64)
}

/// Appends the numbers of events that come from outside or are emitted.
fn print_event_lines(out: &mut String, chart: &str, events: &[EventDecl]) -> Result<(), AllocError>
    ensures { OnOk result (string_bytes out.new
        ≡ string_bytes out.old ++ spec.event_lines chart.now 0 events.now) }
{
    for (number, event) in events.iter().enumerate() {
        print_event(out, chart, number, event)?;
    }
    Ok(())
}

/// Appends the number of an event, but for a local one.
fn print_event(
    out: &mut String,
    chart: &str,
    number: usize,
    event: &EventDecl,
) -> Result<(), AllocError>
    ensures { OnOk result (string_bytes out.new ≡ string_bytes out.old
        ++ spec.event_line chart.now number event.now.name event.now.kind) }
{
    match event.kind {
        EventKind::Input | EventKind::Output => {
            print_define(out, chart, "E_", event.name.text(), number as u64)
        }
        EventKind::Local => Ok(()),
    }
}

/// Appends the numbers of faults.
#[tactic(auto, unfolding(crate::specs::Header::faults_text))]
pub(crate) fn print_faults(out: &mut String, chart: &str) -> Result<(), AllocError>
    ensures { OnOk result
        (string_bytes out.new ≡ string_bytes out.old ++ spec.faults_text chart.now) }
{
    out.push_str("\n/* The faults. */\n")?;
    print_define(out, chart, "FAULT_", "NONE", 0)?;
    print_define(out, chart, "FAULT_", "DEPTH", 1)?;
    print_define(out, chart, "FAULT_", "STEPS", 2)?;
    print_define(out, chart, "FAULT_", "OVERFLOW", 3)?;
    print_define(out, chart, "FAULT_", "ZERO", 4)?;
    print_define(out, chart, "FAULT_", "EVENT", 5)
}

/// Appends the bounds, and how many entries `out[]` and `note[]` have.
#[tactic(auto, unfolding(crate::specs::Header::bounds_text))]
pub(crate) fn print_bounds(
    out: &mut String,
    chart: &str,
    bounds: Bounds,
    outputs: u32,
    notes: u64,
) -> Result<(), AllocError>
    ensures { OnOk result (string_bytes out.new
        ≡ string_bytes out.old ++ spec.bounds_text chart.now bounds outputs notes) }
{
    out.push_str(
        "\n/* The bounds of an event: how deep sends nest, and how many steps it takes. */\n",
    )?;
    print_define(out, chart, "", "DEPTH", u64::from(bounds.depth))?;
    print_define(out, chart, "", "STEPS", u64::from(bounds.steps))?;
    out.push_str("\n/* How many entries out[] and note[] have. */\n")?;
    print_define(out, chart, "", "OUTPUTS", u64::from(outputs))?;
    print_define(out, chart, "", "NOTES", notes)
}

/// Appends how many functions of the source are open at once at most.
#[tactic(auto, unfolding(crate::specs::Header::calls_text))]
pub(crate) fn print_calls(
    out: &mut String,
    chart: &str,
    calls: Option<u32>,
) -> Result<(), AllocError>
    ensures { OnOk result (string_bytes out.new
        ≡ string_bytes out.old ++ spec.calls_text chart.now calls) }
{
    out.push_str(calls_comment(calls))?;
    print_define(out, chart, "", "CALLS", calls_number(calls))?;
    print_recursion(out, chart, calls)
}

/// Appends that functions may call themselves only where the compiler is told that they may.
fn print_recursion(out: &mut String, chart: &str, calls: Option<u32>) -> Result<(), AllocError>
    ensures { OnOk result (string_bytes out.new
        ≡ string_bytes out.old ++ spec.recursion_text chart.now calls) }
{
    let Some(_) = calls else {
        print_named(out, "#if !defined(", chart, "MAY_RECURSE)\n")?;
        return print_named(
            out,
            "#error \"functions may call themselves: where they may, define ",
            chart,
            "MAY_RECURSE\"\n#endif\n",
        );
    };
    Ok(())
}

/// What the header says above that number.
fn calls_comment(calls: Option<u32>) -> &'static str
    ensures { result.now ≡ spec.calls_comment calls }
{
    let Some(_) = calls else {
        return "\n/* 0: it isn't known. Functions may call themselves, by way of others too. */\n";
    };
    "\n/* How many functions of the source are open at once at most, with start or react. */\n"
}
