//! The command `net`.
ghost use Rattle.commands.specs.Call.{call_of};
ghost use Rattle.commands.specs.NetCommand.{NetEnds, NetOthersStay};

use crate::file::FileEnd;
use crate::net_charts::read_charts;
use crate::net_file::read_net_file;
use crate::net_routes::bad_route;
use crate::refusal::Refusal;
use crate::schedule::{ScheduleEnd, run_schedule};
use flow_base::{Bounds, Inputs, Sink};
use net_text::{NetFault, NetText};
use std::alloc::Global;
use std::marker::Model;

/// A chart of a net. A contract sees its name.
#[derive(Drop)]
pub struct ChartOfNet {
    net: NetText,
    number: usize,
}

impl Model for ChartOfNet {
    ghost use Rattle.std.specs.Prelude.{List, ℕ};
    ghost use Rattle.commands.specs.NetCharts.{name_at};
    ghost use Rattle.net_text.specs.NetTexts.{net_text_of};

    ghost Value = { List ℕ };

    ghost view = { λ c. name_at (net_text_of c.net) c.number };
}

impl ChartOfNet {
    ghost use Rattle.std.specs.Prelude.{◌≡◌};
    ghost use Rattle.commands.specs.NetCharts.{name_at};
    ghost use Rattle.net_text.specs.NetTexts.{net_text_of};

    /// The chart of that number.
    fn of(net: NetText, number: usize) -> ChartOfNet
        ensures { result ≡ name_at (net_text_of net) number }
    {
        ChartOfNet { net, number }
    }

    /// Its name. It takes no memory.
    pub fn name(&self) -> &str
        ensures { result.now ≡ self.now }
    {
        match self.net.charts.items().get(self.number) {
            Some(chart) => chart.name.text(),
            None => "",
        }
    }
}

/// How `net` ends.
#[derive(Drop)]
pub enum NetCommandEnd {
    /// Nothing comes of the file of the net.
    NoNet(FileEnd<NetFault>),
    /// Nothing comes of the file of that chart.
    NoChart(ChartOfNet, FileEnd<Refusal>),
    /// The route of that line isn't one of the events and data of its charts.
    NoRoute(u32),
    /// The net ran.
    Ran(ScheduleEnd),
}

/// Reads the net of the first file and the charts of the files that it names, each file once,
/// compiles the charts, runs their code on machines over the schedule of the second file, where each
/// event has these bounds, and writes the trace. All memory is taken before the first byte of the
/// trace is written.
pub fn run_net<I: Inputs, O: Sink>(
    alloc: Global,
    net_file: &str,
    schedule_file: &str,
    bounds: Bounds,
    inputs: &mut I,
    out: &mut O,
) -> NetCommandEnd
    ensures ends { NetEnds bounds (call_of I.Inputs O.Sink inputs.old inputs.new out.old out.new)
        net_file.now schedule_file.now result }
    ensures others { NetOthersStay (call_of I.Inputs O.Sink inputs.old inputs.new out.old out.new)
        net_file.now schedule_file.now }
{
    let net = match read_net_file(alloc, inputs, net_file) {
        Ok(net) => net,
        Err(end) => return NetCommandEnd::NoNet(end),
    };
    let files = match read_charts(alloc, inputs, net.charts.items()) {
        Ok(files) => files,
        Err(unread) => {
            return NetCommandEnd::NoChart(ChartOfNet::of(net, unread.number), unread.end);
        }
    };
    if let Some(line) = bad_route(net.charts.items(), &files, net.routes.items()) {
        return NetCommandEnd::NoRoute(line);
    }
    NetCommandEnd::Ran(run_schedule(alloc, &net, &files, bounds, schedule_file, inputs, out))
}
