//! The event file of a case.
ghost use Rattle.std.specs.Prelude.{◌≡◌, ◌++◌, ◌∷◌, [], ◌<◌, string_bytes, OnOk};
ghost use Rattle.chart_gen.specs.Cases as spec;

use crate::draws::{Draws, EventDraws};
use std::alloc::AllocError;

/// How many lines an event file has.
pub(crate) const EVENT_LINES: u32 = 20_000;

/// Appends the event lines of a case.
pub(crate) fn print_events(out: &mut String, draws: &mut Draws) -> Result<(), AllocError>
    ensures { OnOk result (string_bytes out.new ≡ string_bytes out.old
        ++ spec.text_of (spec.event_lines EVENT_LINES draws.old.seed)) }
{
    for _line in 0..EVENT_LINES {
        print_event(out, draws.event())?;
    }
    Ok(())
}

/// Appends an event line.
fn print_event(out: &mut String, drawn: EventDraws) -> Result<(), AllocError>
    requires { drawn.input < 200 }
    ensures { OnOk result (string_bytes out.new ≡ string_bytes out.old
        ++ (spec.event_line drawn ++ 10 ∷ [])) }
{
    let event = drawn.event;
    let input = i64::from(drawn.input) - 100;
    if event < 4 {
        writeln!(out, "e{event} x={input}")
    } else {
        writeln!(out, "tick x={input}")
    }
}
