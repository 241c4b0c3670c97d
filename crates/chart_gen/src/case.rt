//! A case: a chart and the events that it is run on.
ghost use Rattle.std.specs.Prelude.{◌≡◌, IfOk};
ghost use Rattle.chart_gen.specs.Cases as spec;

use crate::chart::print_chart;
use crate::draws::Draws;
use crate::events::print_events;
use flow_base::Memory;
use std::alloc::{AllocError, Global};
use std::marker::Model;

/// A chart text and an event file for it. A contract sees the bytes of both.
#[derive(Drop)]
pub struct Case {
    chart: String,
    events: String,
}

impl Model for Case {
    ghost use Rattle.std.specs.Prelude.{string_bytes};
    ghost use Rattle.chart_gen.specs.Cases.{Texts};

    ghost Value = { Texts };

    ghost view = { λ c. record { chart = string_bytes c.chart; events = string_bytes c.events } };
}

impl Case {
    /// The chart text.
    pub fn chart(&self) -> &str
        ensures { result.now ≡ self.now.chart }
    {
        self.chart.as_str()
    }

    /// The event file.
    pub fn events(&self) -> &str
        ensures { result.now ≡ self.now.events }
    {
        self.events.as_str()
    }
}

/// Case `n`: a chart of 2 to 5 regions that are active together, with 3 to 62 states in each, and
/// 20,000 event lines. Each number has one case. `Memory` where memory runs out; then no text is
/// returned.
///
/// This project's choice.
pub fn make_case(alloc: Global, n: u32) -> Result<Case, Memory>
    ensures chart { IfOk result (λ case. case.chart ≡ spec.chart_text n) }
    ensures events { IfOk result (λ case. case.events ≡ spec.events_text n) }
{
    Ok(print_case(alloc, n)?)
}

/// Case `n`, its chart before its events.
#[tactic(auto, unfolding(crate::specs::Cases::chart_text, crate::specs::Cases::events_text))]
fn print_case(alloc: Global, n: u32) -> Result<Case, AllocError>
    ensures chart { IfOk result (λ case. case.chart ≡ spec.chart_text n) }
    ensures events { IfOk result (λ case. case.events ≡ spec.events_text n) }
{
    let mut draws = Draws::new(n);
    let mut chart = String::new(alloc);
    print_chart(&mut chart, &mut draws)?;
    let mut events = String::new(alloc);
    print_events(&mut events, &mut draws)?;
    Ok(Case { chart, events })
}
