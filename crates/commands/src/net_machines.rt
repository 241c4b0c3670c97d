//! The net of the machines of charts.
ghost use Rattle.std.specs.Prelude.{◌≡◌, ◌<◌, ◌≤◌, [], false, is_some};
ghost use Rattle.std.specs.Prelude.{length, true, IfOk, OnOk, None};
ghost use Rattle.std.specs.List.{list_any};
ghost use Rattle.std.specs.Str.{bytes_eq};
ghost use Rattle.chart_code.specs.Bodies.{code_of_chart};
ghost use Rattle.chart_net.specs.NetParts.{IsNet, net_shown};
ghost use Rattle.checked_chart.specs.Kept.{chart_of};
ghost use Rattle.checked_chart.specs.Valid.{IsValid};
ghost use Rattle.code_machine.specs.Engine.{IsFresh};
ghost use Rattle.code_machine.specs.contracts.engine.MachineEngine.TheImpl as machine;
ghost use Rattle.commands.specs.NetCharts.{AllRead, chart_in, loaded_in};
ghost use Rattle.commands.specs.NetMachines as spec;
ghost use Rattle.commands.specs.NetRoutes.{bad_route, routes_in};
ghost use Rattle.net_text.specs.NetTexts.{IsNetText, first_repeat, names_of, net_text_of};
ghost use Rattle.net_text.specs.declared.limits.TheConstants.{CHART_LIMIT};

use crate::net_charts::{ReadFile, chart_of_file, copy_text};
use crate::net_routes::route_named;
use crate::run::printed;
use chart_net::Net;
use checked_chart::Chart;
use code_machine::Machine;
use flow_base::{Bounds, Memory};
use net_text::{NetChart, NetText};
use std::alloc::Global;

/// The net of the machines of charts and of the routes between them, where each event has these
/// bounds. The files of all charts must have been read, and each text must name a route.
pub(crate) fn net_of_machines(
    alloc: Global,
    net: &NetText,
    files: &[ReadFile],
    bounds: Bounds,
) -> Result<Net<Machine>, Memory>
    requires within { IsNetText (net_text_of net.now) }
    requires read { AllRead files.now (net_text_of net.now).charts }
    requires good { bad_route (loaded_in files.now (net_text_of net.now).charts)
        (net_text_of net.now).routes ≡ None }
    ensures { IfOk result (spec.IsMachineNet bounds
        (loaded_in files.now (net_text_of net.now).charts)
        (routes_in (loaded_in files.now (net_text_of net.now).charts) (net_text_of net.now).routes)) }
{
    let charts = net.charts.items();
    let mut machines = machines_of(alloc, charts, files, bounds)?;
    'texts: for text in net.routes.items() {
        let Some(route) = route_named(charts, files, text) else {
            // Each text names a route.
            unreachable!();
        };
        machines.add_route(route)?;
    }
    Ok(machines)
}

/// The net of the machines of charts, without routes.
fn machines_of(
    alloc: Global,
    charts: &[NetChart],
    files: &[ReadFile],
    bounds: Bounds,
) -> Result<Net<Machine>, Memory>
    requires few { length charts.now ≤ CHART_LIMIT }
    requires named { first_repeat [] (names_of charts.now) ≡ None }
    requires read { AllRead files.now charts.now }
    ensures { IfOk result (spec.IsMachineNet bounds (loaded_in files.now charts.now) []) }
{
    let mut machines = Net::new(alloc);
    'charts: for chart in charts {
        add_machine(alloc, &mut machines, chart, files, bounds)?;
    }
    Ok(machines)
}

/// Adds the machine of a chart, whose file must have been read.
fn add_machine(
    alloc: Global,
    machines: &mut Net<Machine>,
    chart: &NetChart,
    files: &[ReadFile],
    bounds: Bounds,
) -> Result<(), Memory>
    requires net { IsNet machine.ghosts machines.old }
    requires few { length (spec.machine_charts machines.old) < CHART_LIMIT }
    requires new { list_any (bytes_eq chart.now.name) (net_shown machine.ghosts machines.old).names ≡ false }
    requires read { is_some (chart_in files.now chart.now.file) ≡ true }
    ensures { OnOk result (spec.IsMachineAdded bounds chart.now (chart_in files.now chart.now.file)
        machines.old machines.new) }
{
    let Some(read) = chart_of_file(files, chart.file.text()) else {
        // The file was read.
        unreachable!();
    };
    let machine = machine_of(alloc, read, bounds)?;
    let name = copy_text(alloc, chart.name.text())?;
    machines.add_chart(name, machine)
}

/// The machine of the code of a chart.
fn machine_of(alloc: Global, chart: &Chart, bounds: Bounds) -> Result<Machine, Memory>
    ensures fresh { IfOk result (IsFresh (code_of_chart (chart_of chart.now)) bounds) }
    ensures valid { IsValid (chart_of chart.now) }
{
    // Only the proof reads the names: the chart is valid.
    let _ = chart.names();
    let code = printed(alloc, chart)?;
    Machine::make(alloc, code, bounds)
}
