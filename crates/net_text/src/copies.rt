//! Charts and routes with texts of their own.
ghost use Rattle.std.specs.Prelude.{◌≡◌, IfOk, IsTrue};
ghost use Rattle.std.specs.Option.{option_copied};
ghost use Rattle.net_text.specs.Fields as spec;
ghost use Rattle.net_text.specs.Views as views;

use crate::lines::{RouteParts, chart_parts, route_parts};
use crate::net::{NetChart, RouteText};
use chart_lexer::name_text;
use flow_base::Text;
use std::alloc::{AllocError, Global};

/// The chart of a line, if it is one.
pub fn chart_of_line(alloc: Global, line: &[u8]) -> Result<Option<NetChart>, AllocError>
    ensures { IfOk result (λ chart. chart ≡ spec.chart_of_line line.now) }
{
    match chart_parts(line) {
        Some(parts) => Ok(Some(NetChart {
            name: name_text(alloc, parts.name)?,
            file: file_text(alloc, parts.file)?,
        })),
        None => Ok(None),
    }
}

/// A copy of the name of a file, as a text.
fn file_text(alloc: Global, file: &[u8]) -> Result<Text, AllocError>
    requires { IsTrue (spec.is_file_name file.now) }
    ensures { IfOk result (λ text. text ≡ file.now) }
{
    match str::from_utf8(file) {
        Ok(text) => Ok(Text::of(String::from_str(alloc, text)?)),
        Err(_) => unreachable!(),
    }
}

/// The route of the line of that number, in a net of so many charts, if the line is one.
pub fn route_of_line(
    alloc: Global,
    charts: usize,
    line: u32,
    text: &[u8],
) -> Result<Option<RouteText>, AllocError>
    ensures { IfOk result (λ route. route ≡ spec.route_of_line charts line text.now) }
{
    match route_parts(charts, line, text) {
        Some(parts) => Ok(Some(route_text(alloc, parts)?)),
        None => Ok(None),
    }
}

/// A route with copies of its names.
fn route_text(alloc: Global, parts: RouteParts<'_>) -> Result<RouteText, AllocError>
    requires { views.HasNames parts }
    ensures { IfOk result (λ route. route ≡ views.shown_route parts.entry) }
{
    Ok(RouteText {
        line: parts.line,
        from: parts.from,
        emit: name_text(alloc, parts.emit)?,
        to: parts.to,
        event: name_text(alloc, parts.event)?,
        cap: parts.cap,
        source: name_or_none(alloc, parts.source)?,
        target: name_or_none(alloc, parts.target)?,
    })
}

/// A copy of a name, if there is one.
fn name_or_none(alloc: Global, name: Option<&[u8]>) -> Result<Option<Text>, AllocError>
    requires { views.IsNameOrNone (option_copied name) }
    ensures { IfOk result (λ text. text ≡ option_copied name.entry) }
{
    match name {
        Some(name) => Ok(Some(name_text(alloc, name)?)),
        None => Ok(None),
    }
}
