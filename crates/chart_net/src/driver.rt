//! A run of a net over a schedule that comes in pieces.
ghost use Rattle.std.specs.Prelude.{◌≡◌, ◌≢◌, IsTrue, Err};
ghost use Rattle.flow_base.specs.Causes.{OthersKept, NoneFalls};
ghost use Rattle.event_file.specs.Reading.{unused};
ghost use Rattle.trace_text.specs.Pieces.{nothing_held};
ghost use Rattle.step_driver.specs.Ending.{LinesEnd};
ghost use Rattle.chart_net.specs.Causes.{is_read, is_write};
ghost use Rattle.chart_net.specs.NetDriving as spec;
ghost use Rattle.chart_net.specs.NetParts.{HasOver, IsNet, charts_of, net_shown, routes_of};

use crate::net::Net;
use actions::Engine;
use event_file::{LineFault, LineReader};
use flow_base::{Fault, Inputs, Sink};
use step_driver::{NoLine, next_line};
use thiserror::Error;
use trace_text::Pieces;

/// Why a run over a schedule ended before the end of the schedule. The steps of a schedule are
/// numbered from 1, and the start of a chart is the step 0.
#[derive(Clone, Copy, Debug, PartialEq, Eq, Error)]
pub enum NetEnd {
    /// A line of the schedule has a fault: the number of the line, and the fault. The trace of the
    /// steps before it was written.
    #[error("line {0}: {1}")]
    Line(u64, LineFault),
    /// A chart has a fault: the number of the step, the number of the chart, and the fault. The
    /// line of the trace that tells it was written.
    #[error("chart {1} has a fault at step {0}")]
    Fault(u64, u32, Fault),
    /// A read failed.
    #[error("read fault")]
    Read,
    /// A write failed.
    #[error("write fault")]
    Write,
    /// The schedule has over `FILE_EVENT_LIMIT` steps. The trace of the first ones was written.
    #[error("too many steps")]
    TooManyLines,
    /// The schedule has over `FILE_LIMIT` bytes. The trace of the steps before the line that holds
    /// the first byte too many was written.
    #[error("the schedule is too long")]
    FileTooLong,
    /// An engine wants memory.
    #[error("out of memory")]
    Memory,
    /// A route was full when an item was to be sent on it: the number of the step, and the number
    /// of the route. The line of the trace that tells it was written.
    #[error("route {1} is full at step {0}")]
    Full(u64, u32),
    /// Nothing waited on a route from which an item was to be taken: the number of the step, and
    /// the number of the route. The line of the trace that tells it was written.
    #[error("route {1} is empty at step {0}")]
    Empty(u64, u32),
}

impl From<NoLine> for NetEnd {
    ghost use Rattle.std.specs.Prelude.{◌≡◌};
    ghost use Rattle.chart_net.specs.NetDriving.{end_of_line};

    ghost from_gives = { λ no_line end. end ≡ end_of_line no_line };

    fn from(no_line: NoLine) -> NetEnd {
        match no_line {
            NoLine::TooLong(number) => NetEnd::Line(number, LineFault::LineTooLong),
            NoLine::FileTooLong => NetEnd::FileTooLong,
            NoLine::Read => NetEnd::Read,
            NoLine::Write => NetEnd::Write,
        }
    }
}

/// Runs a net over the steps of a schedule: it starts the charts in order, and then takes line by
/// line. Before it reads the schedule, the lines of the trace for the starts, and for each step so
/// far, have been written. Lines whose steps are at hand together are written together,
/// `PIECE_SIZE` bytes at once.
///
/// After `Read`, the trace of the steps in the whole lines that were given has been written; after
/// `Write` a front of the trace, and after `Memory` whole lines of it. After every other answer the
/// whole trace has been written. After `Memory` the engine of a chart is at the end of its run, and
/// engines that never want memory give no `Memory`.
///
/// `Read` comes only where all bytes that were given ask for more, so what they refuse isn't kept
/// back by a further read. After every other error no more was taken of the schedule than lines
/// whose trace has been written, and `BUFFER_SIZE` bytes after them.
///
/// The net keeps its charts and routes. Nothing else is said of it, nor of the reader.
///
/// This project's choice.
pub fn net_drive<G: Engine, I: Inputs, O: Sink>(
    net: &mut Net<G>,
    inputs: &mut I,
    name: &str,
    lines: &mut LineReader,
    out: &mut O,
) -> Result<(), NetEnd>
    requires whole { IsNet G.Engine net.old }
    requires unused { lines.old ≡ unused }
    ensures drives { spec.NetDrives (net_shown G.Engine net.old)
        (record {
          wrote_before = O.wrote out.old;
          wrote_after = O.wrote out.new;
          left_before = I.left inputs.old name.now;
          left_after = I.left inputs.new name.now;
        })
        result }
    ensures charts { charts_of G.Engine net.new ≡ charts_of G.Engine net.old }
    ensures routes { routes_of net.new ≡ routes_of net.old }

    // No other file is read, and no count changes without its fault.
    ensures others { OthersKept name.now (I.left inputs.old) (I.left inputs.new) }
    ensures counts { NoneFalls (I.faults inputs.old) (I.faults inputs.new) }
    ensures reads { spec.HasReadCause name.now (I.faults inputs.old) (I.faults inputs.new) result }
    ensures writes { spec.HasWriteCause (O.faults out.old) (O.faults out.new) result }
    ensures over { result ≡ Err NetEnd.Memory → HasOver G.Engine net.new }
    ensures memory { IsTrue G.never_wants_memory → result ≢ Err NetEnd.Memory }
{
    let mut pieces = Pieces::new();
    let end = run_lines::<G, I, O>(net, inputs, name, lines, &mut pieces, out);
    if pieces.has_failed() {
        return end;
    }
    match pieces.finish(out) {
        Ok(()) => end,
        Err(_) => Err(NetEnd::Write),
    }
}

/// Starts the charts, and takes line by line. What is kept of the trace is still to be written,
/// where no write failed.
fn run_lines<G: Engine, I: Inputs, O: Sink>(
    net: &mut Net<G>,
    inputs: &mut I,
    name: &str,
    lines: &mut LineReader,
    pieces: &mut Pieces,
    out: &mut O,
) -> Result<(), NetEnd>
    requires whole { IsNet G.Engine net.old }
    requires unused { lines.old ≡ unused }
    requires empty { pieces.old ≡ nothing_held }
    ensures ends { LinesEnd (spec.net_runs (net_shown G.Engine net.old)) (spec.NetDrives (net_shown G.Engine net.old))
        (is_write result) NetEnd.Write (is_read result)
        (O.wrote out.old) (O.wrote out.new) (O.faults out.old) (O.faults out.new)
        (I.left inputs.old name.now) (I.left inputs.new name.now) pieces.new.bytes result }
    ensures failed { pieces.new.failed ≡ is_write result }
    ensures charts { charts_of G.Engine net.new ≡ charts_of G.Engine net.old }
    ensures routes { routes_of net.new ≡ routes_of net.old }
    ensures others { OthersKept name.now (I.left inputs.old) (I.left inputs.new) }
    ensures counts { NoneFalls (I.faults inputs.old) (I.faults inputs.new) }
    ensures reads { spec.HasReadCause name.now (I.faults inputs.old) (I.faults inputs.new) result }
    ensures over { result ≡ Err NetEnd.Memory → HasOver G.Engine net.new }
    ensures memory { IsTrue G.never_wants_memory → result ≢ Err NetEnd.Memory }
{
    for c in 0..net.count() as u32 {
        net.start_chart::<O>(c, pieces, out)?;
    }
    let mut last_step = 0;
    'lines: while next_line(inputs, name, lines, pieces, out)? {
        last_step = net.run_line::<O>(lines.line(), lines.number(), last_step, pieces, out)?;
    }
    Ok(())
}
