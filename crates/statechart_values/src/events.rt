//! The events of a statechart.
ghost use Rattle.std.specs.Prelude.{◌≡◌, Option};
ghost use Rattle.std.specs.Option.{option_map};
ghost use Rattle.statechart_meaning.specs.Times as spec;
ghost use Rattle.statechart_values.specs.Views.{clock_seen};

use chart_tree::NameText;
use statechart_tree::{Period, SourceEvent};

/// Whether an event of the name is declared.
pub fn is_event(events: &[SourceEvent], name: &str) -> bool
    ensures { result ≡ spec.is_event events.now name.now }
{
    for event in events {
        if event.name.text.text() == name {
            return true;
        }
    }
    false
}

/// A clock.
#[derive(Clone, Copy)]
pub struct Clock<'a> {
    /// The name of its event.
    pub name: &'a NameText,
    /// The time from one event to the next.
    pub period: Period,
}

/// The first event that has a period.
pub(crate) fn clock_of(events: &[SourceEvent]) -> Option<Clock<'_>>
    ensures { option_map clock_seen result ≡ spec.clock_of events.now }
{
    for event in events {
        if let Some(period) = event.period {
            return Some(Clock {
                name: &event.name,
                period,
            });
        }
    }
    None
}
