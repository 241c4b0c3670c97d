//! The lines of a schedule.
ghost use Rattle.std.specs.Prelude.{◌≡◌, ◌≢◌, ℕ, ◌+◌, ◌≤◌, ◌<◌, map, decimal, length, false, IfOk};
ghost use Rattle.std.specs.Prelude.{IfSome, IsTrue, OnOk};
ghost use Rattle.std.specs.List.{position, range_with_len};
ghost use Rattle.std.specs.Str.{bytes_eq};
ghost use Rattle.event_file.specs.EventLines.{event_of_line, tokens_of};
ghost use Rattle.trace_text.specs.Pieces.{Puts};
ghost use Rattle.chart_net.specs.Causes.{is_read, is_write};
ghost use Rattle.chart_net.specs.Moving as spec;
ghost use Rattle.chart_net.specs.NetParts.{AreAt, HasOver, NetIsKept};
ghost use Rattle.chart_net.specs.NetParts.{PartsFit, StandsFor, all_running};
ghost use Rattle.chart_net.specs.NetParts.{charts_of, net_shown, routes_of};
ghost use Rattle.chart_net.specs.NetRuns.{NetStep};
ghost use Rattle.chart_net.specs.Nets.{NetWorld};
ghost use Rattle.chart_net.specs.declared.seat.Seat.{Seat as SeatShown};
ghost use Rattle.chart_net.specs.Schedules.{giving_step, step_of_line, taking_step};

use crate::driver::NetEnd;
use crate::net::Net;
use crate::seat::Seat;
use actions::{Engine, Event};
use event_file::{FILE_EVENT_LIMIT, LineFault, next_token};
use flow_base::Sink;
use itoa::Buffer;
use trace_text::Pieces;

/// A step of a schedule. The values that an event gives to inputs are kept with its chart.
#[derive(Clone, Copy)]
pub(crate) enum ScheduleStep {
    /// The chart of that number is given the event.
    Give(u32, Event),
    /// An item of the route of that number is taken.
    Take(u32),
}

impl<G: Engine> Net<G> {
    /// Takes a line of a schedule and, where it is a step, does the step and puts its line. The
    /// number p is that of the last step, and the answer that after it.
    pub(crate) fn run_line<O: Sink>(
        &mut self,
        line: &[u8],
        number: u64,
        p: u64,
        pieces: &mut Pieces,
        out: &mut O,
    ) -> Result<u64, NetEnd>
        requires sound { PartsFit G.Engine self.old }
        requires stages { AreAt G.Engine self.old all_running p }
        requires few { p ≤ FILE_EVENT_LIMIT }
        requires usable { pieces.old.failed ≡ false }
        ensures done { (now : NetWorld) → StandsFor G.Engine self.old now
            → spec.LineDone (net_shown G.Engine self.old) now number p
            (step_of_line (net_shown G.Engine self.old) line.now) (StandsFor G.Engine self.new)
            (Puts (O.wrote out.old) (O.wrote out.new) (O.faults out.old) (O.faults out.new) pieces.old
            pieces.new)
            pieces.new.failed result }
        ensures failed { pieces.new.failed ≡ is_write result }
        ensures charts { charts_of G.Engine self.new ≡ charts_of G.Engine self.old }
        ensures routes { routes_of self.new ≡ routes_of self.old }
        ensures sound { PartsFit G.Engine self.new }
        ensures stages { IfOk result (AreAt G.Engine self.new all_running) }
        ensures reads { is_read result ≡ false }
        ensures over { result ≡ Err NetEnd.Memory → HasOver G.Engine self.new }
        ensures memory { IsTrue G.never_wants_memory → result ≢ Err NetEnd.Memory }
    {
        let step = match self.read_step(line) {
            Ok(Some(step)) => step,
            Ok(None) => return Ok(p),
            Err(fault) => return Err(NetEnd::Line(number, fault)),
        };
        if p >= FILE_EVENT_LIMIT {
            return Err(NetEnd::TooManyLines);
        }
        match self.do_step::<O>(step, p, pieces, out) {
            Ok(()) => Ok(p + 1),
            Err(end) => Err(end),
        }
    }

    /// Does a step, whose values are with its chart. The number is that of the last step.
    fn do_step<O: Sink>(
        &mut self,
        step: ScheduleStep,
        p: u64,
        pieces: &mut Pieces,
        out: &mut O,
    ) -> Result<(), NetEnd>
        requires sound { PartsFit G.Engine self.old }
        requires stages { AreAt G.Engine self.old all_running p }
        requires few { p < FILE_EVENT_LIMIT }
        requires usable { pieces.old.failed ≡ false }
        requires step { (said : NetStep) × spec.IsStep G.Engine self.old step said }
        ensures done { (said : NetStep) → spec.IsStep G.Engine self.old step said
            → (now : NetWorld) → StandsFor G.Engine self.old now
            → spec.StepEnds (net_shown G.Engine self.old) now said (p + 1) (StandsFor G.Engine self.new)
            (Puts (O.wrote out.old) (O.wrote out.new) (O.faults out.old) (O.faults out.new) pieces.old
            pieces.new)
            pieces.new.failed result }
        ensures failed { pieces.new.failed ≡ is_write result }
        ensures charts { charts_of G.Engine self.new ≡ charts_of G.Engine self.old }
        ensures routes { routes_of self.new ≡ routes_of self.old }
        ensures sound { PartsFit G.Engine self.new }
        ensures stages { OnOk result (AreAt G.Engine self.new all_running (p + 1)) }
        ensures reads { is_read result ≡ false }
        ensures over { result ≡ Err NetEnd.Memory → HasOver G.Engine self.new }
        ensures memory { IsTrue G.never_wants_memory → result ≢ Err NetEnd.Memory }
    {
        match step {
            ScheduleStep::Give(c, event) => self.give_event::<O>(p, c, event, pieces, out),
            ScheduleStep::Take(r) => self.take_route::<O>(p, r, pieces, out),
        }
    }

    /// Reads a line of a schedule. None where the line is skipped. The values that it gives to
    /// inputs are kept with the chart, and nothing else of the net changes.
    fn read_step(&mut self, line: &[u8]) -> Result<Option<ScheduleStep>, LineFault>
        requires { PartsFit G.Engine self.old }
        ensures read { spec.ReadsStep G.Engine self.new
            (step_of_line (net_shown G.Engine self.old) line.now) result }
        ensures kept { NetIsKept G.Engine self.old self.new }
    {
        let Some(first) = next_token(line) else {
            return Ok(None);
        };
        if first.token[0] == b'#' {
            return Ok(None);
        }
        if is_word(first.token, b"ev") {
            return self.read_event(first.rest);
        }
        if is_word(first.token, b"take") {
            return self.read_take(first.rest);
        }
        Err(LineFault::BadStep)
    }

    /// Reads what comes after `ev`: the name of a chart, and an event line for it that isn't
    /// skipped.
    fn read_event(&mut self, text: &[u8]) -> Result<Option<ScheduleStep>, LineFault>
        requires { PartsFit G.Engine self.old }
        ensures read { spec.ReadsStep G.Engine self.new
            (giving_step (net_shown G.Engine self.old) (tokens_of text.now)) result }
        ensures kept { NetIsKept G.Engine self.old self.new }
    {
        let Some(name) = next_token(text) else {
            return Err(LineFault::BadStep);
        };
        let Some(c) = self.chart_named(name.token) else {
            return Err(LineFault::BadStep);
        };
        match self.read_given(c, name.rest) {
            Ok(Some(event)) => Ok(Some(ScheduleStep::Give(c as u32, event))),
            Ok(None) => Err(LineFault::BadStep),
            Err(fault) => Err(fault),
        }
    }

    /// Reads what comes after `take`: the number of a route, and nothing else.
    fn read_take(&self, text: &[u8]) -> Result<Option<ScheduleStep>, LineFault>
        requires { PartsFit G.Engine self.now }
        ensures { spec.ReadsStep G.Engine self.now
            (taking_step (net_shown G.Engine self.now) (tokens_of text.now)) result }
    {
        let Some(word) = next_token(text) else {
            return Err(LineFault::BadStep);
        };
        if next_token(word.rest).is_some() {
            return Err(LineFault::BadStep);
        }
        match route_number(word.token, self.routes.len()) {
            Some(r) => Ok(Some(ScheduleStep::Take(r as u32))),
            None => Err(LineFault::BadStep),
        }
    }

    /// The number of the first chart of that name.
    fn chart_named(&self, name: &[u8]) -> Option<usize>
        ensures place { result ≡ position (bytes_eq name.now) (net_shown G.Engine self.now).names }
        ensures within { IfSome result (λ c. c < length self.now.seats.items) }
    {
        first_named(&self.seats, name)
    }

    /// Reads an event line for a chart.
    fn read_given(&mut self, c: usize, text: &[u8]) -> Result<Option<Event>, LineFault>
        requires sound { PartsFit G.Engine self.old }
        requires there { c < length self.old.seats.items }
        ensures read { spec.ReadsGiven G.Engine self.new c
            (event_of_line ((net_shown G.Engine self.old).declared c) text.now) result }
        ensures kept { NetIsKept G.Engine self.old self.new }
    {
        let seat = &mut self.seats[c];
        seat.read(text)
    }
}

/// Whether a token is that word.
fn is_word(token: &[u8], word: &[u8]) -> bool
    ensures { result ≡ bytes_eq token.now word.now }
{
    token == word
}

/// The place of the first chart of that name.
fn first_named<G>(seats: &[Seat<G>], name: &[u8]) -> Option<usize>
    ensures place { result ≡ position (λ (s : SeatShown G). bytes_eq name.now s.name) seats.now }
    ensures within { IfSome result (λ c. c < length seats.now) }
{
    seats.iter().position(|seat| is_named(seat, name))
}

/// Whether a chart has that name.
fn is_named<G>(seat: &Seat<G>, name: &[u8]) -> bool
    ensures { result ≡ bytes_eq name.now seat.now.name }
{
    name == seat.name.text().as_bytes()
}

/// The number below a count that a word spells, in decimal digits without leading zeros.
fn route_number(word: &[u8], count: usize) -> Option<usize>
    ensures number { result ≡ position (bytes_eq word.now) (map decimal (range_with_len 0 count)) }
    ensures within { IfSome result (λ r. r < count) }
{
    first_spelled(word, count)
}

/// The first number below a count that a word spells.
fn first_spelled(word: &[u8], count: usize) -> Option<usize>
    ensures number { result ≡ position (λ (r : ℕ). bytes_eq word.now (decimal r)) (range_with_len 0 count) }
    ensures within { IfSome result (λ r. r < count) }
{
    (0..count).position(|r| spells(word, r))
}

/// Whether a word spells a number.
fn spells(word: &[u8], number: usize) -> bool
    ensures { result ≡ bytes_eq word.now (decimal number) }
{
    let mut digits = Buffer::new();
    word == digits.format(number as u64).as_bytes()
}
