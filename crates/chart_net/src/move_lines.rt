//! The lines of moves, and how a move ended.
ghost use Rattle.std.specs.Prelude.{◌≡◌};
ghost use Rattle.actions.specs.Engines.{IsFaultOf};
ghost use Rattle.trace_text.specs.Pieces.{Puts};
ghost use Rattle.trace_text.specs.Trace.{IsEventOf};
ghost use Rattle.chart_net.specs.Moving as spec;
ghost use Rattle.chart_net.specs.NetTraces.{ByEmpty, empty_line, why_moved};
ghost use Rattle.chart_net.specs.Seats.{IsSeat, names_at};

use crate::driver::NetEnd;
use crate::seat::Seat;
use actions::{Engine, Event};
use flow_base::{Fault, Sink};
use trace_text::{Pieces, put_full, put_trace};

/// Puts the line of a move of a chart.
pub(crate) fn put_line<G: Engine, O: Sink>(
    p: u64,
    seat: &Seat<G>,
    event: Event,
    fault: Option<Fault>,
    full: Option<u32>,
    pieces: &mut Pieces,
    out: &mut O,
)
    requires seat { IsSeat G.Engine seat.now }
    requires event { IsEventOf (names_at G.Engine seat.now) event }
    requires fault { IsFaultOf (names_at G.Engine seat.now) fault }
    ensures { Puts (O.wrote out.old) (O.wrote out.new) (O.faults out.old) (O.faults out.new) pieces.old
        pieces.new
        (spec.seat_line G.Engine p seat.now event fault full) }
{
    pieces.put_digits(p, out);
    pieces.put_byte(b' ', out);
    pieces.put(seat.name.text().as_bytes(), out);
    pieces.put_byte(b' ', out);
    put_result::<G, O>(seat, event, fault, full, pieces, out);
}

/// Puts the line of the chart's own trace.
fn put_result<G: Engine, O: Sink>(
    seat: &Seat<G>,
    event: Event,
    fault: Option<Fault>,
    full: Option<u32>,
    pieces: &mut Pieces,
    out: &mut O,
)
    requires seat { IsSeat G.Engine seat.now }
    requires event { IsEventOf (names_at G.Engine seat.now) event }
    requires fault { IsFaultOf (names_at G.Engine seat.now) fault }
    ensures { Puts (O.wrote out.old) (O.wrote out.new) (O.faults out.old) (O.faults out.new) pieces.old
        pieces.new
        (spec.own_line G.Engine seat.now event fault full) }
{
    let view = seat.engine.view();
    match fault {
        Some(_) => put_trace(seat.index, event, &view, fault, pieces, out),
        None => match full {
            Some(route) => put_full(seat.index, event, &view, route, pieces, out),
            None => put_trace(seat.index, event, &view, None, pieces, out),
        },
    }
}

/// How a move of a chart ended, where a write of its line failed or not.
pub(crate) fn answer_of(
    p: u64,
    c: u32,
    fault: Option<Fault>,
    full: Option<u32>,
    failed: bool,
) -> Result<(), NetEnd>
    ensures { result ≡ spec.answer_after failed p (why_moved c fault full) }
{
    if failed {
        return Err(NetEnd::Write);
    }
    if let Some(fault) = fault {
        return Err(NetEnd::Fault(p, c, fault));
    }
    match full {
        Some(route) => Err(NetEnd::Full(p, route)),
        None => Ok(()),
    }
}

/// Puts the line of a step that found nothing to take from a route, and answers so.
pub(crate) fn put_empty<O: Sink>(
    p: u64,
    r: u32,
    pieces: &mut Pieces,
    out: &mut O,
) -> Result<(), NetEnd>
    ensures put { Puts (O.wrote out.old) (O.wrote out.new) (O.faults out.old) (O.faults out.new)
        pieces.old pieces.new
        (empty_line p r) }
    ensures answer { result ≡ spec.answer_after pieces.new.failed p (Some (ByEmpty r)) }
{
    pieces.put_digits(p, out);
    pieces.put(b" empty ", out);
    pieces.put_digits(u64::from(r), out);
    pieces.put_byte(b'\n', out);
    if pieces.has_failed() {
        return Err(NetEnd::Write);
    }
    Err(NetEnd::Empty(p, r))
}
