//! A net's run over a schedule, and its trace.
ghost use Rattle.std.specs.Prelude.{◌≡◌, None, Some};
ghost use Rattle.std.specs.Option.{option_map_or};
ghost use Rattle.checked_chart.specs.Chart.{Chart as ChartShown};
ghost use Rattle.commands.specs.Call.{call_of};
ghost use Rattle.commands.specs.NetCharts.{AllRead, chart_numbered, loaded_in};
ghost use Rattle.commands.specs.NetRoutes.{bad_route, routes_in};
ghost use Rattle.commands.specs.NetRules.{net_by_rules, no_names};
ghost use Rattle.commands.specs.Schedule as spec;
ghost use Rattle.net_text.specs.NetTexts.{IsNetText, net_text_of};
ghost use Rattle.trace_text.specs.Trace as lines;

use crate::fault_word::FaultWord;
use crate::net_charts::{ReadFile, chart_numbered};
use crate::net_machines::net_of_machines;
use chart_net::{NetEnd, net_drive};
use event_file::{LineFault, LineReader};
use flow_base::{Bounds, Fault, Inputs, Sink};
use net_text::{NetChart, NetText};
use std::alloc::Global;

/// How a net's run over a schedule ends, whose trace is written.
#[derive(Drop)]
pub enum ScheduleEnd {
    /// The schedule was read to its end, and the whole trace was written.
    Done,
    /// The line of that number, counted from 1, is refused. The trace of the steps before it was
    /// written.
    Line(u64, LineFault),
    /// The schedule has more steps than it may. The trace of the first ones was written.
    TooManyLines,
    /// The schedule has more bytes than it may. The trace of the steps before the line that holds
    /// the first byte too many was written.
    FileTooLong,
    /// At the step of that number a chart has the fault of that word. The line of the trace that
    /// tells it was written.
    Fault(u64, FaultWord),
    /// At the step of the first number the route of the second was full. The line of the trace that
    /// tells it was written.
    Full(u64, u32),
    /// At the step of the first number nothing waited on the route of the second. The line of the
    /// trace that tells it was written.
    Empty(u64, u32),
    /// The schedule couldn't be read.
    Read,
    /// The trace couldn't be written.
    Write,
    /// Memory ran out before anything was read or written.
    Memory,
}

/// Runs the net of the machines of charts over the schedule of that name, where each event has these
/// bounds, and writes the trace. The files of all charts must have been read, and each text of a
/// route must name one.
pub(crate) fn run_schedule<I: Inputs, O: Sink>(
    alloc: Global,
    net: &NetText,
    files: &[ReadFile],
    bounds: Bounds,
    schedule_file: &str,
    inputs: &mut I,
    out: &mut O,
) -> ScheduleEnd
    requires within { IsNetText (net_text_of net.now) }
    requires read { AllRead files.now (net_text_of net.now).charts }
    requires good { bad_route (loaded_in files.now (net_text_of net.now).charts)
        (net_text_of net.now).routes ≡ None }
    ensures { spec.ScheduleEnds (net_by_rules bounds (loaded_in files.now (net_text_of net.now).charts)
        (routes_in (loaded_in files.now (net_text_of net.now).charts) (net_text_of net.now).routes))
        (call_of I.Inputs O.Sink inputs.old inputs.new out.old out.new) schedule_file.now result }
{
    let Ok(mut machines) = net_of_machines(alloc, net, files, bounds) else {
        return ScheduleEnd::Memory;
    };
    let Ok(mut lines) = LineReader::make(alloc) else {
        return ScheduleEnd::Memory;
    };
    let answer = net_drive(&mut machines, inputs, schedule_file, &mut lines, out);
    end_of(net.charts.items(), files, answer)
}

/// The ending for an answer of the driver.
fn end_of(charts: &[NetChart], files: &[ReadFile], answer: Result<(), NetEnd>) -> ScheduleEnd
    ensures { result ≡ spec.end_by (chart_numbered charts.now files.now) answer }
{
    match answer {
        Ok(()) => ScheduleEnd::Done,
        Err(NetEnd::Line(number, fault)) => ScheduleEnd::Line(number, fault),
        Err(NetEnd::Fault(step, chart, fault)) => {
            ScheduleEnd::Fault(step, word_of(charts, files, chart, fault))
        }
        Err(NetEnd::Read) => ScheduleEnd::Read,
        Err(NetEnd::Write) => ScheduleEnd::Write,
        Err(NetEnd::TooManyLines) => ScheduleEnd::TooManyLines,
        Err(NetEnd::FileTooLong) => ScheduleEnd::FileTooLong,
        Err(NetEnd::Memory) => ScheduleEnd::Memory,
        Err(NetEnd::Full(step, route)) => ScheduleEnd::Full(step, route),
        Err(NetEnd::Empty(step, route)) => ScheduleEnd::Empty(step, route),
    }
}

/// The word of a fault of the chart of that number.
fn word_of(charts: &[NetChart], files: &[ReadFile], number: u32, fault: Fault) -> FaultWord
    ensures { result ≡ lines.result_word (option_map_or (λ (c : ChartShown). c.names)
        (chart_numbered charts.now files.now number) no_names) (Some fault) }
{
    match chart_numbered(charts, files, number) {
        Some(chart) => FaultWord::of(chart.names(), fault),
        None => FaultWord::without_names(fault),
    }
}
