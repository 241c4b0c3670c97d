//! The moves of one step: a chart is started, is given an event, or takes an item of a route.
ghost use Rattle.std.specs.Prelude.{◌≡◌, ◌≢◌, ℕ, ◌+◌, ◌<◌, length, false, IfSome, IsTrue, OnOk};
ghost use Rattle.actions.specs.Engines.{Fresh, IsFaultOf, IsInputEvent, Running, fault_of};
ghost use Rattle.actions.specs.Runs.{CanBeGiven};
ghost use Rattle.actions.specs.declared.event.Event.TheVariants.{Named};
ghost use Rattle.trace_text.specs.Pieces.{Puts};
ghost use Rattle.trace_text.specs.Trace.{IsEventOf};
ghost use Rattle.chart_net.specs.Changes.{At, ChangesAt};
ghost use Rattle.chart_net.specs.Holding.{Sent, Took, Wait};
ghost use Rattle.chart_net.specs.Causes.{is_read, is_write};
ghost use Rattle.chart_net.specs.Moving as spec;
ghost use Rattle.chart_net.specs.NetParts.{AreAt, HasOver, PartsFit, StandsFor, all_running};
ghost use Rattle.chart_net.specs.NetParts.{charts_of, net_shown, routes_of, started_below};
ghost use Rattle.chart_net.specs.NetRuns.{Gives, Starts, Takes, inputs_of_item};
ghost use Rattle.chart_net.specs.NetTraces.{why_moved};
ghost use Rattle.chart_net.specs.Nets.{NetWorld, RouteState};
ghost use Rattle.chart_net.specs.Routes.{CanTake};
ghost use Rattle.chart_net.specs.Seats.{IsSeat, SeatMoves, names_at};
ghost use Rattle.chart_net.specs.Sending.{sends};

use crate::driver::NetEnd;
use crate::move_lines::{answer_of, put_empty, put_line};
use crate::net::Net;
use crate::sending::{send_events, take_item};
use actions::{Engine, Event, Halt, Value};
use event_file::FILE_EVENT_LIMIT;
use flow_base::{Fault, Sink};
use net_text::Route;
use trace_text::Pieces;

impl<G: Engine> Net<G> {
    /// Starts a chart, sends what it emitted, and puts the line of that.
    pub(crate) fn start_chart<O: Sink>(
        &mut self,
        c: u32,
        pieces: &mut Pieces,
        out: &mut O,
    ) -> Result<(), NetEnd>
        requires sound { PartsFit G.Engine self.old }
        requires there { c < length self.old.seats.items }
        requires stages { AreAt G.Engine self.old (started_below c) 0 }
        requires usable { pieces.old.failed ≡ false }
        ensures done { (now : NetWorld) → StandsFor G.Engine self.old now
            → spec.StepEnds (net_shown G.Engine self.old) now (Starts c) 0 (StandsFor G.Engine self.new)
            (Puts (O.wrote out.old) (O.wrote out.new) (O.faults out.old) (O.faults out.new) pieces.old
            pieces.new)
            pieces.new.failed result }
        ensures failed { pieces.new.failed ≡ is_write result }
        ensures charts { charts_of G.Engine self.new ≡ charts_of G.Engine self.old }
        ensures routes { routes_of self.new ≡ routes_of self.old }
        ensures sound { PartsFit G.Engine self.new }
        ensures stages { OnOk result (AreAt G.Engine self.new (started_below (c + 1)) 0) }
        ensures reads { is_read result ≡ false }
        ensures over { result ≡ Err NetEnd.Memory → HasOver G.Engine self.new }
        ensures memory { IsTrue G.never_wants_memory → result ≢ Err NetEnd.Memory }
    {
        let end = self.start_at(c as usize);
        self.end_move::<O>(0, c, Event::Start, end, pieces, out)
    }

    /// Gives a chart an event, with the values that are kept for its inputs, sends what it emitted,
    /// and puts the line of that. The number is that of the last step.
    pub(crate) fn give_event<O: Sink>(
        &mut self,
        p: u64,
        c: u32,
        event: Event,
        pieces: &mut Pieces,
        out: &mut O,
    ) -> Result<(), NetEnd>
        requires sound { PartsFit G.Engine self.old }
        requires there { c < length self.old.seats.items }
        requires given { At self.old.seats.items c (λ seat.
            CanBeGiven (names_at G.Engine seat) (record { event = event; inputs = seat.vals.values })) }
        requires stages { AreAt G.Engine self.old all_running p }
        requires few { p < FILE_EVENT_LIMIT }
        requires usable { pieces.old.failed ≡ false }
        ensures done { At self.old.seats.items c (λ seat. (now : NetWorld) → StandsFor G.Engine self.old now
            → spec.StepEnds (net_shown G.Engine self.old) now
            (Gives c (record { event = event; inputs = seat.vals.values })) (p + 1)
            (StandsFor G.Engine self.new)
            (Puts (O.wrote out.old) (O.wrote out.new) (O.faults out.old) (O.faults out.new) pieces.old
            pieces.new)
            pieces.new.failed result) }
        ensures failed { pieces.new.failed ≡ is_write result }
        ensures charts { charts_of G.Engine self.new ≡ charts_of G.Engine self.old }
        ensures routes { routes_of self.new ≡ routes_of self.old }
        ensures sound { PartsFit G.Engine self.new }
        ensures stages { OnOk result (AreAt G.Engine self.new all_running (p + 1)) }
        ensures reads { is_read result ≡ false }
        ensures over { result ≡ Err NetEnd.Memory → HasOver G.Engine self.new }
        ensures memory { IsTrue G.never_wants_memory → result ≢ Err NetEnd.Memory }
    {
        let end = self.give_at(c as usize, event);
        self.end_move::<O>(p + 1, c, event, end, pieces, out)
    }

    /// Takes the oldest item of a route, gives it to the chart at the end of the route, sends what
    /// that emitted, and puts the line of that. The number is that of the last step.
    pub(crate) fn take_route<O: Sink>(
        &mut self,
        p: u64,
        r: u32,
        pieces: &mut Pieces,
        out: &mut O,
    ) -> Result<(), NetEnd>
        requires sound { PartsFit G.Engine self.old }
        requires there { r < length self.old.routes.items }
        requires stages { AreAt G.Engine self.old all_running p }
        requires few { p < FILE_EVENT_LIMIT }
        requires usable { pieces.old.failed ≡ false }
        ensures done { (now : NetWorld) → StandsFor G.Engine self.old now
            → spec.StepEnds (net_shown G.Engine self.old) now (Takes r) (p + 1) (StandsFor G.Engine self.new)
            (Puts (O.wrote out.old) (O.wrote out.new) (O.faults out.old) (O.faults out.new) pieces.old
            pieces.new)
            pieces.new.failed result }
        ensures failed { pieces.new.failed ≡ is_write result }
        ensures charts { charts_of G.Engine self.new ≡ charts_of G.Engine self.old }
        ensures routes { routes_of self.new ≡ routes_of self.old }
        ensures sound { PartsFit G.Engine self.new }
        ensures stages { OnOk result (AreAt G.Engine self.new all_running (p + 1)) }
        ensures reads { is_read result ≡ false }
        ensures over { result ≡ Err NetEnd.Memory → HasOver G.Engine self.new }
        ensures memory { IsTrue G.never_wants_memory → result ≢ Err NetEnd.Memory }
    {
        let route = self.routes[r as usize];
        match self.item_from(r as usize) {
            None => put_empty::<O>(p + 1, r, pieces, out),
            Some(item) => {
                let end = self.take_at(route, item);
                self.end_move::<O>(p + 1, route.to, Event::Named(route.event), end, pieces, out)
            }
        }
    }

    /// Takes the oldest item that waits on a route. None where none waits.
    fn item_from(&mut self, r: usize) -> Option<Option<Value>>
        requires sound { PartsFit G.Engine self.old }
        requires there { r < length self.old.routes.items }
        ensures taken { (states : ℕ → RouteState) → Wait self.old.rings.items states
            → Took r states self.new.rings.items result }
        ensures seats { self.new.seats ≡ self.old.seats }
        ensures routes { self.new.routes ≡ self.old.routes }
        ensures sound { PartsFit G.Engine self.new }
        ensures item { At self.new.routes.items r (λ route. IfSome result
            (CanTake ((net_shown G.Engine self.new).declared route.to) route.target)) }
    {
        take_item(&self.routes, &mut self.rings, r)
    }

    /// Starts the engine of a chart.
    fn start_at(&mut self, c: usize) -> Result<(), Halt>
        requires there { c < length self.old.seats.items }
        requires fresh { At self.old.seats.items c (λ seat. G.stage seat.engine ≡ Fresh) }
        ensures moves { ChangesAt self.old.seats.items self.new.seats.items c
            (λ before after. SeatMoves G.Engine before after None result) }
        ensures routes { self.new.routes ≡ self.old.routes }
        ensures rings { self.new.rings ≡ self.old.rings }
        ensures memory { IsTrue G.never_wants_memory → result ≢ Err Halt.Memory }
    {
        let seat = &mut self.seats[c];
        seat.start()
    }

    /// Gives the engine of a chart an event, with the values that are kept for its inputs.
    fn give_at(&mut self, c: usize, event: Event) -> Result<(), Halt>
        requires there { c < length self.old.seats.items }
        requires running { At self.old.seats.items c (λ seat. G.stage seat.engine ≡ Running) }
        requires seat { At self.old.seats.items c (IsSeat G.Engine) }
        requires given { At self.old.seats.items c (λ seat.
            CanBeGiven (names_at G.Engine seat) (record { event = event; inputs = seat.vals.values })) }
        requires index { At self.old.seats.items c (λ seat. seat.index < FILE_EVENT_LIMIT) }
        ensures moves { ChangesAt self.old.seats.items self.new.seats.items c (λ before after.
            SeatMoves G.Engine before after
            (Some (record { event = event; inputs = before.vals.values })) result) }
        ensures routes { self.new.routes ≡ self.old.routes }
        ensures rings { self.new.rings ≡ self.old.rings }
        ensures memory { IsTrue G.never_wants_memory → result ≢ Err Halt.Memory }
    {
        let seat = &mut self.seats[c];
        seat.give(event)
    }

    /// Gives the engine of the chart at the end of a route an event for an item.
    fn take_at(&mut self, route: Route, item: Option<Value>) -> Result<(), Halt>
        requires there { route.to < length self.old.seats.items }
        requires running { At self.old.seats.items route.to (λ seat. G.stage seat.engine ≡ Running) }
        requires event { At self.old.seats.items route.to
            (λ seat. IsInputEvent (names_at G.Engine seat) route.event) }
        requires item { At self.old.seats.items route.to
            (λ seat. CanTake (names_at G.Engine seat) route.target item) }
        requires index { At self.old.seats.items route.to (λ seat. seat.index < FILE_EVENT_LIMIT) }
        ensures moves { ChangesAt self.old.seats.items self.new.seats.items route.to (λ before after.
            SeatMoves G.Engine before after (Some (record {
              event = Named route.event;
              inputs = inputs_of_item (names_at G.Engine before) route.target item;
            })) result) }
        ensures routes { self.new.routes ≡ self.old.routes }
        ensures rings { self.new.rings ≡ self.old.rings }
        ensures memory { IsTrue G.never_wants_memory → result ≢ Err Halt.Memory }
    {
        let seat = &mut self.seats[route.to as usize];
        seat.take(route.event, route.target, item)
    }

    /// Sends what a chart emitted at a move that ended so, and puts the line of the move.
    fn end_move<O: Sink>(
        &mut self,
        p: u64,
        c: u32,
        event: Event,
        end: Result<(), Halt>,
        pieces: &mut Pieces,
        out: &mut O,
    ) -> Result<(), NetEnd>
        requires sound { PartsFit G.Engine self.old }
        requires there { c < length self.old.seats.items }
        requires event { At self.old.seats.items c (λ seat. IsEventOf (names_at G.Engine seat) event) }
        requires fault { At self.old.seats.items c (λ seat. IsFaultOf (names_at G.Engine seat) (fault_of end)) }
        requires usable { pieces.old.failed ≡ false }
        ensures ends { At self.old.seats.items c
            (λ seat. (states : ℕ → RouteState) → Wait self.old.rings.items states
            → spec.MoveEndsBy (net_shown G.Engine self.old) p c seat.index event (G.world seat.engine)
            end states self.new.rings.items
            (Puts (O.wrote out.old) (O.wrote out.new) (O.faults out.old) (O.faults out.new) pieces.old
            pieces.new)
            pieces.new.failed result) }
        ensures failed { pieces.new.failed ≡ is_write result }
        ensures seats { self.new.seats ≡ self.old.seats }
        ensures routes { self.new.routes ≡ self.old.routes }
        ensures sound { PartsFit G.Engine self.new }
        ensures ok { result ≡ Ok tt → end ≡ Ok tt }
        ensures reads { is_read result ≡ false }
        ensures memory { result ≡ Err NetEnd.Memory → end ≡ Err Halt.Memory }
    {
        match end {
            Ok(()) => self.end_with::<O>(p, c, event, None, pieces, out),
            Err(Halt::Fault(fault)) => { self.end_with::<O>(p, c, event, Some(fault), pieces, out) }
            Err(Halt::Memory) => Err(NetEnd::Memory),
        }
    }

    /// Sends what a chart emitted at a move that ended in that fault or none, and puts the line of
    /// the move.
    fn end_with<O: Sink>(
        &mut self,
        p: u64,
        c: u32,
        event: Event,
        fault: Option<Fault>,
        pieces: &mut Pieces,
        out: &mut O,
    ) -> Result<(), NetEnd>
        requires sound { PartsFit G.Engine self.old }
        requires there { c < length self.old.seats.items }
        requires event { At self.old.seats.items c (λ seat. IsEventOf (names_at G.Engine seat) event) }
        requires fault { At self.old.seats.items c (λ seat. IsFaultOf (names_at G.Engine seat) fault) }
        ensures ends { At self.old.seats.items c
            (λ seat. (states : ℕ → RouteState) → Wait self.old.rings.items states
            → spec.MoveEnds (net_shown G.Engine self.old) p c seat.index event (G.world seat.engine)
            fault states self.new.rings.items
            (Puts (O.wrote out.old) (O.wrote out.new) (O.faults out.old) (O.faults out.new) pieces.old
            pieces.new)
            pieces.new.failed result) }
        ensures failed { pieces.new.failed ≡ is_write result }
        ensures seats { self.new.seats ≡ self.old.seats }
        ensures routes { self.new.routes ≡ self.old.routes }
        ensures sound { PartsFit G.Engine self.new }
        ensures ok { result ≡ Ok tt → fault ≡ None }
        ensures reads { is_read result ≡ false }
        ensures memory { result ≢ Err NetEnd.Memory }
    {
        let full = self.send_from(c, fault);
        self.put_move::<O>(p, c, event, fault, full, pieces, out)
    }

    /// Sends what a chart emitted, unless its move ended in a fault. It answers the route that was
    /// full when an item was to be sent on it.
    fn send_from(&mut self, c: u32, fault: Option<Fault>) -> Option<u32>
        requires sound { PartsFit G.Engine self.old }
        requires there { c < length self.old.seats.items }
        ensures sent { At self.old.seats.items c
            (λ seat. (states : ℕ → RouteState) → Wait self.old.rings.items states
            → Sent (sends self.old.routes.items c (G.world seat.engine) fault states)
            self.new.rings.items result) }
        ensures seats { self.new.seats ≡ self.old.seats }
        ensures routes { self.new.routes ≡ self.old.routes }
        ensures sound { PartsFit G.Engine self.new }
    {
        if fault.is_some() {
            return None;
        }
        let view = self.seats[c as usize].engine.view();
        send_events(c, view.vals, view.outputs, &self.routes, &mut self.rings)
    }

    /// Puts the line of a move of a chart, and answers how it ended.
    fn put_move<O: Sink>(
        &self,
        p: u64,
        c: u32,
        event: Event,
        fault: Option<Fault>,
        full: Option<u32>,
        pieces: &mut Pieces,
        out: &mut O,
    ) -> Result<(), NetEnd>
        requires there { c < length self.now.seats.items }
        requires seat { At self.now.seats.items c (IsSeat G.Engine) }
        requires event { At self.now.seats.items c (λ seat. IsEventOf (names_at G.Engine seat) event) }
        requires fault { At self.now.seats.items c (λ seat. IsFaultOf (names_at G.Engine seat) fault) }
        ensures put { At self.now.seats.items c (λ seat.
            Puts (O.wrote out.old) (O.wrote out.new) (O.faults out.old) (O.faults out.new) pieces.old pieces.new
            (spec.seat_line G.Engine p seat event fault full)) }
        ensures answer { result ≡ spec.answer_after pieces.new.failed p (why_moved c fault full) }
    {
        let seat = &self.seats[c as usize];
        put_line::<G, O>(p, seat, event, fault, full, pieces, out);
        answer_of(p, c, fault, full, pieces.has_failed())
    }
}
