//! What the procedures of a file do, told by the parts of the chart that they are of, and for what
//! they are copies.
ghost use Rattle.std.specs.Prelude.{◌≡◌, ◌<◌, ◌++◌, ℕ, [], OnOk, Some, length, slice_index_or};
ghost use Rattle.std.specs.Prelude.{string_bytes};
ghost use Rattle.flow_base.specs.Lists.{items_of};
ghost use Rattle.active_config.specs.Tree.{state_count};
ghost use Rattle.actions.specs.declared.event.Event.TheVariants as named;
ghost use Rattle.checked_chart.specs.Kept.{chart_of};
ghost use Rattle.code_passes.specs.declared.tag.EventTag.TheVariants as tags;
ghost use Rattle.trace_text.specs.Trace as trace;
ghost use Rattle.c_file.specs.Comments as words;
ghost use Rattle.c_file.specs.Comments.{AreOfChart, IsTagOf, said_of, words_at, words_for};
ghost use Rattle.c_file.specs.Source.{comment_of, comment_text, other_comments};

use crate::said::Said;
use actions::Event;
use chart_parts::{append_part, append_state};
use checked_chart::Chart;
use code_passes::{EventTag, Tag};
use std::alloc::AllocError;

/// Appends words for the part at that place, and nothing where there is none.
fn print_words(out: &mut String, said: &Said<'_>, place: usize) -> Result<(), AllocError>
    requires parts { AreOfChart said.now }
    ensures { OnOk result (string_bytes out.new ≡ string_bytes out.old
        ++ words_at (chart_of said.now.chart.now).tree (chart_of said.now.chart.now).names
        (items_of said.now.parts) place) }
{
    let chart = said.chart;
    match said.parts.items().get(place) {
        Some(part) => append_part(out, chart.shape(), chart.names(), *part),
        None => Ok(()),
    }
}

/// The name of an event.
fn event_name(chart: &Chart, event: u32) -> &str
    requires { event < length (chart_of chart.now).names.events }
    ensures { result.now ≡ trace.event_name (chart_of chart.now).names event }
{
    chart.names().events.items()[event as usize].name.text()
}

/// Appends for which events a procedure is.
fn print_events(out: &mut String, chart: &Chart, events: EventTag) -> Result<(), AllocError>
    requires { (e : ℕ) → events ≡ tags.Is (named.Named e)
        → e < length (chart_of chart.now).names.events }
    ensures { OnOk result (string_bytes out.new ≡ string_bytes out.old
        ++ words.event_words (chart_of chart.now).names events) }
{
    match events {
        EventTag::Any => Ok(()),
        EventTag::Is(Event::Start) => out.push_str(", where the event is the start"),
        EventTag::Is(Event::Tick) => out.push_str(", where the event is a tick"),
        EventTag::Is(Event::Named(event)) => {
            out.push_str(", where the event is ")?;
            out.push_str(event_name(chart, event))
        }
        EventTag::Other => out.push_str(", where the event is another one"),
    }
}

/// What stands before the home for which a procedure is.
fn home_start(events: EventTag) -> &'static str
    ensures { result.now ≡ words.home_start events }
{
    match events {
        EventTag::Any => ", where the home is ",
        EventTag::Is(_) | EventTag::Other => " and the home is ",
    }
}

/// Appends for which home a procedure is.
fn print_home(
    out: &mut String,
    chart: &Chart,
    events: EventTag,
    home: Option<u32>,
) -> Result<(), AllocError>
    requires { (s : ℕ) → home ≡ Some s → s < state_count (chart_of chart.now).tree }
    ensures { OnOk result (string_bytes out.new ≡ string_bytes out.old
        ++ words.home_words (chart_of chart.now).tree (chart_of chart.now).names events home) }
{
    match home {
        Some(state) => append_state(out, home_start(events), chart.shape(), chart.names(), state),
        None => Ok(()),
    }
}

/// Words for whether a procedure stands for others.
fn shared_words(is_shared: bool) -> &'static str
    ensures { result.now ≡ words.shared_words is_shared }
{
    if is_shared {
        ", and what is equal to it"
    } else {
        ""
    }
}

/// Words for whether a procedure calls the actions that were noted on the way to its part.
fn play_words(is_play: bool) -> &'static str
    ensures { result.now ≡ words.play_words is_play }
{
    if is_play {
        ", the actions noted there"
    } else {
        ""
    }
}

/// Appends for what a copy of a procedure is.
fn print_copy(out: &mut String, chart: &Chart, tag: Tag) -> Result<(), AllocError>
    requires { IsTagOf (chart_of chart.now) tag }
    ensures { OnOk result (string_bytes out.new ≡ string_bytes out.old
        ++ words.copy_words (chart_of chart.now).tree (chart_of chart.now).names tag) }
{
    out.push_str(play_words(tag.plays))?;
    print_events(out, chart, tag.event)?;
    print_home(out, chart, tag.event, tag.home)?;
    out.push_str(shared_words(tag.shared))
}

/// Appends what a procedure with a tag does.
fn print_tag(out: &mut String, said: &Said<'_>, tag: Tag) -> Result<(), AllocError>
    requires parts { AreOfChart said.now }
    requires tag { IsTagOf (chart_of said.now.chart.now) tag }
    ensures { OnOk result (string_bytes out.new ≡ string_bytes out.old
        ++ words_for (chart_of said.now.chart.now).tree (chart_of said.now.chart.now).names
        (items_of said.now.parts) said.now.origins.now tag) }
{
    let origin = said.origins.get(tag.proc as usize).copied().unwrap_or(0);
    print_words(out, said, origin as usize)?;
    print_copy(out, said.chart, tag)
}

/// What a function after those of procedures does.
fn other_comment(place: usize) -> &'static str
    ensures { result.now ≡ slice_index_or other_comments place [] }
{
    match place {
        0 => "whether a state is active",
        1 => "whether a state is active and has no active child",
        2 => "calls a noted action",
        3 | 4 | 5 | 6 | 7 => "the greatest whole number that is at most a / b",
        8 => "the first values of all data",
        9 => "the start",
        10 => "a reaction",
        _ => "",
    }
}

/// Appends what a function does.
#[tactic(auto, unfolding(crate::specs::Source::comment_of))]
fn print_comment_of(out: &mut String, said: &Said<'_>, function: u32) -> Result<(), AllocError>
    requires parts { AreOfChart said.now }
    ensures { OnOk result (string_bytes out.new ≡ string_bytes out.old
        ++ comment_of (said_of said.now) function) }
{
    let place = function as usize;
    let procs = said.tags.len();
    if place < procs {
        print_tag(out, said, said.tags[place])?;
    } else {
        out.push_str(other_comment(place - procs))?;
    }
    Ok(())
}

/// Appends a blank line and the comment above a function.
#[tactic(auto, unfolding(crate::specs::Source::comment_text))]
pub(crate) fn print_comment(
    out: &mut String,
    said: &Said<'_>,
    function: u32,
) -> Result<(), AllocError>
    requires parts { AreOfChart said.now }
    ensures { OnOk result (string_bytes out.new ≡ string_bytes out.old
        ++ comment_text (said_of said.now) function) }
{
    out.push_str("\n/* ")?;
    print_comment_of(out, said, function)?;
    out.push_str(" */\n")
}
