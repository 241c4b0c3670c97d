//! The lines of charts and routes.
ghost use Rattle.std.specs.Prelude.{◌≡◌, option_map, IfSome, IsTrue};
ghost use Rattle.std.specs.Option.{option_copied};
ghost use Rattle.chart_lexer.specs.Words.{is_name};
ghost use Rattle.net_text.specs.Fields as spec;
ghost use Rattle.net_text.specs.Views as views;

use crate::fields::{chart_number, file_of, number_within};
use crate::limits::CAP_LIMIT;
use code_fields::{behind, cut_at, name_of};

/// A chart, whose names stand in its line.
#[derive(Clone, Copy)]
pub struct ChartParts<'a> {
    /// Its name.
    pub name: &'a [u8],
    /// The file of its text.
    pub file: &'a [u8],
}

/// An event of a chart at the front of a text.
#[derive(Clone, Copy)]
pub struct EventFront<'a> {
    /// The number of the chart.
    pub chart: u32,
    /// The name of the event.
    pub event: &'a [u8],
    /// What stands after the space that follows.
    pub rest: &'a [u8],
}

/// The data of a route: both or neither.
#[derive(Clone, Copy)]
pub struct DataNames<'a> {
    /// The datum whose value is sent.
    pub source: Option<&'a [u8]>,
    /// The datum that is given the value.
    pub target: Option<&'a [u8]>,
}

/// A route, whose names stand in its line.
#[derive(Clone, Copy)]
pub struct RouteParts<'a> {
    /// The number of its line.
    pub line: u32,
    /// The chart that sends.
    pub from: u32,
    /// The event for which an item is sent.
    pub emit: &'a [u8],
    /// The chart that takes.
    pub to: u32,
    /// The event that it is given.
    pub event: &'a [u8],
    /// How many items the route holds at most.
    pub cap: u32,
    /// The datum whose value is sent.
    pub source: Option<&'a [u8]>,
    /// The datum that is given the value.
    pub target: Option<&'a [u8]>,
}

/// The chart of a line.
#[tactic(auto, unfolding(crate::specs::Fields::chart_of_line))]
pub fn chart_parts(line: &[u8]) -> Option<ChartParts<'_>>
    ensures parts { option_map views.shown_chart result ≡ spec.chart_of_line line.now }
    ensures named { IfSome result (λ chart. IsTrue (is_name chart.name.now)) }
    ensures filed { IfSome result (λ chart. IsTrue (spec.is_file_name chart.file.now)) }
{
    let parts = cut_at(behind(b"c ", line)?, b' ')?;
    let name = name_of(parts.front)?;
    let file = file_of(parts.rest)?;
    Some(ChartParts { name, file })
}

/// The route of the line of that number, in a net of so many charts.
#[tactic(auto, unfolding(crate::specs::Fields::route_of_line))]
pub fn route_parts(charts: usize, line: u32, text: &[u8]) -> Option<RouteParts<'_>>
    ensures parts { option_map views.shown_route result ≡ spec.route_of_line charts line text.now }
    ensures named { IfSome result views.HasNames }
{
    let sent = event_front(behind(b"r ", text)?, charts)?;
    let taken = event_front(sent.rest, charts)?;
    route_with_taken(line, sent, taken)
}

/// A route, from the number of items on.
fn route_with_taken<'a>(
    line: u32,
    sent: EventFront<'a>,
    taken: EventFront<'a>,
) -> Option<RouteParts<'a>>
    requires sent { IsTrue (is_name sent.event.now) }
    requires taken { IsTrue (is_name taken.event.now) }
    ensures parts { option_map views.shown_route result
        ≡ spec.route_with_taken line (views.shown_front sent.entry) (views.shown_front taken.entry) }
    ensures named { IfSome result views.HasNames }
{
    let parts = cut_at(taken.rest, b' ')?;
    let cap = number_within(parts.front, 1, CAP_LIMIT)?;
    let pair = data_names(parts.rest)?;
    Some(RouteParts {
        line,
        from: sent.chart,
        emit: sent.event,
        to: taken.chart,
        event: taken.event,
        cap,
        source: pair.source,
        target: pair.target,
    })
}

/// The event of one of so many charts at the front of a text.
fn event_front(text: &[u8], charts: usize) -> Option<EventFront<'_>>
    ensures front { option_map views.shown_front result ≡ spec.event_front charts text.now }
    ensures named { IfSome result (λ front. IsTrue (is_name front.event.now)) }
{
    let number = cut_at(text, b' ')?;
    let chart = chart_number(number.front, charts)?;
    let name = cut_at(number.rest, b' ')?;
    let event = name_of(name.front)?;
    Some(EventFront {
        chart,
        event,
        rest: name.rest,
    })
}

/// The data of a route.
#[tactic(auto, unfolding(crate::specs::Fields::data_names))]
fn data_names(text: &[u8]) -> Option<DataNames<'_>>
    ensures names { option_map views.shown_names result ≡ spec.data_names text.now }
    ensures named { IfSome result (λ pair. views.IsNameOrNone (option_copied pair.source)
        × views.IsNameOrNone (option_copied pair.target)) }
{
    if text == b"- -".as_slice() {
        return Some(DataNames {
            source: None,
            target: None,
        });
    }
    let parts = cut_at(text, b' ')?;
    let source = name_of(parts.front)?;
    let target = name_of(parts.rest)?;
    Some(DataNames {
        source: Some(source),
        target: Some(target),
    })
}
