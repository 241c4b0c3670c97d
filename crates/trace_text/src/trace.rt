//! The lines of a trace.
ghost use Rattle.std.specs.Prelude.{◌≡◌, ◌<◌, ◌^◌, ◌++◌, codes, decimal, length, OnOk, OnErr};
ghost use Rattle.std.specs.Io.KnownBytes.{append_known};
ghost use Rattle.flow_base.specs.Bytes.{AppendsProperFront};
ghost use Rattle.flow_base.specs.Causes.{HasCause};
ghost use Rattle.actions.specs.Engines.{IsFaultOf};
ghost use Rattle.actions.specs.Names.{names_of};
ghost use Rattle.actions.specs.World.{Fits};
ghost use Rattle.trace_text.specs.LineEnds.{IsEndOf, end_word};
ghost use Rattle.trace_text.specs.Pieces.{Puts};
ghost use Rattle.trace_text.specs.Trace as spec;

use crate::pieces::Pieces;
use crate::trace_parts::{LineEnd, event_word, put_data, put_end, put_outputs};
use crate::trace_states::put_states;
use actions::{Event, Names, View};
use flow_base::{Failed, Fault, Sink};

/// Writes the line of a trace for the start or an event, in pieces of `PIECE_SIZE` bytes and what
/// is left at its end. After an error a proper front of the line was written. It takes no memory.
///
/// Many lines that are written together are put by `put_trace`.
pub fn write_trace<O: Sink>(
    index: u64,
    event: Event,
    view: &View<'_>,
    fault: Option<Fault>,
    out: &mut O,
) -> Result<(), Failed>
    requires fits { Fits view.now.shape.now (names_of view.now.names.now) (spec.world_of view.now) }
    requires few { length (names_of view.now.names.now).vars < 2 ^ 32 }
    requires event { spec.IsEventOf (names_of view.now.names.now) event }
    requires fault { IsFaultOf (names_of view.now.names.now) fault }
    ensures ok { OnOk result (O.wrote out.new ≡ append_known (O.wrote out.old)
        (spec.trace_line view.now.shape.now (names_of view.now.names.now) (spec.world_of view.now) index event fault)) }
    ensures failed { OnErr result (AppendsProperFront (O.wrote out.old) (O.wrote out.new)
        (spec.trace_line view.now.shape.now (names_of view.now.names.now) (spec.world_of view.now) index event fault)) }
    ensures cause { HasCause (O.faults out.old) (O.faults out.new) result }
{
    let mut pieces = Pieces::new();
    put_trace(index, event, view, fault, &mut pieces, out);
    pieces.finish(out)
}

/// Writes the line of a trace for the start or an event whose outputs found a route full: as
/// `write_trace` does, with `full` and the number of the route for how it ended. It takes no memory.
pub fn write_full<O: Sink>(
    index: u64,
    event: Event,
    view: &View<'_>,
    route: u32,
    out: &mut O,
) -> Result<(), Failed>
    requires fits { Fits view.now.shape.now (names_of view.now.names.now) (spec.world_of view.now) }
    requires few { length (names_of view.now.names.now).vars < 2 ^ 32 }
    requires event { spec.IsEventOf (names_of view.now.names.now) event }
    ensures ok { OnOk result (O.wrote out.new ≡ append_known (O.wrote out.old)
        (spec.line_with view.now.shape.now (names_of view.now.names.now) (spec.world_of view.now) index event
        (spec.full_word route))) }
    ensures failed { OnErr result (AppendsProperFront (O.wrote out.old) (O.wrote out.new)
        (spec.line_with view.now.shape.now (names_of view.now.names.now) (spec.world_of view.now) index event
        (spec.full_word route))) }
    ensures cause { HasCause (O.faults out.old) (O.faults out.new) result }
{
    let mut pieces = Pieces::new();
    put_full(index, event, view, route, &mut pieces, out);
    pieces.finish(out)
}

/// Puts the line of a trace for the start or an event: its index, its word, the active states, the
/// values, what was emitted, and how it ended.
///
/// What there is no room for goes to the sink at once. After a failed write nothing more is put.
/// It takes no memory.
#[inline(always)]
pub fn put_trace<O: Sink>(
    index: u64,
    event: Event,
    view: &View<'_>,
    fault: Option<Fault>,
    pieces: &mut Pieces,
    out: &mut O,
)
    requires fits { Fits view.now.shape.now (names_of view.now.names.now) (spec.world_of view.now) }
    requires few { length (names_of view.now.names.now).vars < 2 ^ 32 }
    requires event { spec.IsEventOf (names_of view.now.names.now) event }
    requires fault { IsFaultOf (names_of view.now.names.now) fault }
    ensures { Puts (O.wrote out.old) (O.wrote out.new) (O.faults out.old) (O.faults out.new)
        pieces.old pieces.new
        (spec.trace_line view.now.shape.now (names_of view.now.names.now) (spec.world_of view.now) index event fault) }
{
    put_line(index, event, view, LineEnd::Ran(fault), pieces, out);
}

/// Puts the line of a trace for the start or an event whose outputs found a route full: as
/// `put_trace` does, with `full` and the number of the route for how it ended. It takes no memory.
pub fn put_full<O: Sink>(
    index: u64,
    event: Event,
    view: &View<'_>,
    route: u32,
    pieces: &mut Pieces,
    out: &mut O,
)
    requires fits { Fits view.now.shape.now (names_of view.now.names.now) (spec.world_of view.now) }
    requires few { length (names_of view.now.names.now).vars < 2 ^ 32 }
    requires event { spec.IsEventOf (names_of view.now.names.now) event }
    ensures { Puts (O.wrote out.old) (O.wrote out.new) (O.faults out.old) (O.faults out.new)
        pieces.old pieces.new
        (spec.line_with view.now.shape.now (names_of view.now.names.now) (spec.world_of view.now) index event
        (spec.full_word route)) }
{
    put_line(index, event, view, LineEnd::Full(route), pieces, out);
}

/// Puts a line, however it ends.
#[inline(always)]
fn put_line<O: Sink>(
    index: u64,
    event: Event,
    view: &View<'_>,
    end: LineEnd,
    pieces: &mut Pieces,
    out: &mut O,
)
    requires fits { Fits view.now.shape.now (names_of view.now.names.now) (spec.world_of view.now) }
    requires few { length (names_of view.now.names.now).vars < 2 ^ 32 }
    requires event { spec.IsEventOf (names_of view.now.names.now) event }
    requires end { IsEndOf (names_of view.now.names.now) end }
    ensures { Puts (O.wrote out.old) (O.wrote out.new) (O.faults out.old) (O.faults out.new)
        pieces.old pieces.new
        (spec.line_with view.now.shape.now (names_of view.now.names.now) (spec.world_of view.now) index event
        (end_word (names_of view.now.names.now) end)) }
{
    put_front(index, event, view, pieces, out);
    put_end(view.names, end, pieces, out);
}

/// Puts the line up to its result.
fn put_front<O: Sink>(index: u64, event: Event, view: &View<'_>, pieces: &mut Pieces, out: &mut O)
    requires fits { Fits view.now.shape.now (names_of view.now.names.now) (spec.world_of view.now) }
    requires few { length (names_of view.now.names.now).vars < 2 ^ 32 }
    requires event { spec.IsEventOf (names_of view.now.names.now) event }
    ensures { Puts (O.wrote out.old) (O.wrote out.new) (O.faults out.old) (O.faults out.new)
        pieces.old pieces.new
        (spec.line_front view.now.shape.now (names_of view.now.names.now) view.now.marks.now view.now.vals.now
        view.now.outputs.now index event) }
{
    put_head(index, event_word(view.names, event), pieces, out);
    pieces.put(b" [", out);
    put_states(view.shape, view.names, view.marks, pieces, out);
    pieces.put(b"] ", out);
    put_data(view.names, view.vals, pieces, out);
    pieces.put_byte(b' ', out);
    put_outputs(view.names, view.outputs, pieces, out);
    pieces.put_byte(b' ', out);
}

/// Puts the index and the word of an event.
fn put_head<O: Sink>(index: u64, event: &str, pieces: &mut Pieces, out: &mut O)
    ensures { Puts (O.wrote out.old) (O.wrote out.new) (O.faults out.old) (O.faults out.new)
        pieces.old pieces.new (decimal index ++ codes " " ++ event.now) }
{
    pieces.put_digits(index, out);
    pieces.put_led(b' ', event.as_bytes(), out);
}
