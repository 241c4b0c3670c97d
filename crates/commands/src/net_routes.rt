//! The routes of a net.
ghost use Rattle.std.specs.Prelude.{◌≡◌, ◌<◌, IfSome, is_some, length, not};
ghost use Rattle.std.specs.List.{position};
ghost use Rattle.commands.specs.NetCharts.{AllRead, chart_numbered, loaded_in};
ghost use Rattle.commands.specs.NetRoutes as spec;
ghost use Rattle.net_text.specs.declared.net.RouteText.{RouteText as RouteTextShown};

use crate::net_charts::{ReadFile, chart_numbered};
use net_text::{NetChart, Route, RouteText, route_of};

/// The line of the first text that names no route, if there is one. The files of all charts must
/// have been read. It takes no memory.
pub(crate) fn bad_route(charts: &[NetChart], files: &[ReadFile], texts: &[RouteText]) -> Option<u32>
    requires { AllRead files.now charts.now }
    ensures { result ≡ spec.bad_route (loaded_in files.now charts.now) texts.now }
{
    let place = first_bad(charts, files, texts)?;
    Some(texts[place].line)
}

/// The place of the first text that names no route.
fn first_bad(charts: &[NetChart], files: &[ReadFile], texts: &[RouteText]) -> Option<usize>
    ensures place { result ≡ position (λ (text : RouteTextShown).
        not (is_some (spec.route_between text (chart_numbered charts.now files.now text.from)
        (chart_numbered charts.now files.now text.to)))) texts.now }
    ensures within { IfSome result (λ n. n < length texts.now) }
{
    texts
        .iter()
        .position(|text| names_none(charts, files, text))
}

/// Whether a text names no route.
fn names_none(charts: &[NetChart], files: &[ReadFile], text: &RouteText) -> bool
    ensures { result ≡ not (is_some (spec.route_between text.now
        (chart_numbered charts.now files.now text.now.from)
        (chart_numbered charts.now files.now text.now.to))) }
{
    route_named(charts, files, text).is_none()
}

/// The route that a text names. It takes no memory.
pub(crate) fn route_named(
    charts: &[NetChart],
    files: &[ReadFile],
    text: &RouteText,
) -> Option<Route>
    ensures route { result ≡ spec.route_between text.now
        (chart_numbered charts.now files.now text.now.from)
        (chart_numbered charts.now files.now text.now.to) }
    ensures joins { IfSome result (spec.IsJoined text.now
        (chart_numbered charts.now files.now text.now.from)
        (chart_numbered charts.now files.now text.now.to)) }
{
    let from = chart_numbered(charts, files, text.from)?;
    let to = chart_numbered(charts, files, text.to)?;
    route_of(text, from.names(), to.names())
}
