//! Routes with numbers for their names.
ghost use Rattle.std.specs.Prelude.{◌≡◌, ◌<◌, length, option_map, IfSome};
ghost use Rattle.std.specs.List.{position};
ghost use Rattle.actions.specs.Names.{names_of};
ghost use Rattle.net_text.specs.Routes as spec;
ghost use Rattle.net_text.specs.Views as views;

use crate::net::RouteText;
use actions::{EventDecl, EventKind, Names, Sort, Var, VarKind};
use fixed_point::Scale;
use flow_base::Text;

/// A route of a net. Charts, events and data are given by number.
#[derive(Clone, Copy)]
pub struct Route {
    /// The chart that sends.
    pub from: u32,
    /// The output event of that chart for which an item is sent.
    pub emit: u32,
    /// The chart that takes.
    pub to: u32,
    /// The input event that this chart is given for an item.
    pub event: u32,
    /// How many items the route holds at most.
    pub cap: u32,
    /// The output datum of the first chart whose value is sent, if one is.
    pub source: Option<u32>,
    /// The input of the second chart that is given the value, if one is.
    pub target: Option<u32>,
}

/// The data of a route, by number.
#[derive(Clone, Copy)]
pub struct DataNumbers {
    /// The datum whose value is sent.
    pub source: Option<u32>,
    /// The datum that is given the value.
    pub target: Option<u32>,
}

/// The route that a text names, where `from` and `to` are what its two charts declare.
///
/// None exactly where the first chart has no output event of the name that the text has, or the
/// second no input event; where the text names one of SRC and DST without the other; or, if the
/// text names them, where the first chart has no output datum of the name SRC, the second has no
/// input of the name DST, or the sorts of the two differ. It takes no memory.
pub fn route_of(text: &RouteText, from: &Names, to: &Names) -> Option<Route>
    requires from_few { spec.AreFew (names_of from.now) }
    requires to_few { spec.AreFew (names_of to.now) }
    ensures route { result ≡ spec.route_of text.now (names_of from.now) (names_of to.now) }
    ensures joins { IfSome result (spec.Joins (names_of from.now) (names_of to.now)) }
    ensures same { IfSome result (spec.HasSameNumbers text.now) }
{
    route_between(text, from, to)
}

/// The route that a text names between two charts.
#[tactic(auto, unfolding(crate::specs::Routes::route_of))]
fn route_between(text: &RouteText, from: &Names, to: &Names) -> Option<Route>
    requires from_few { spec.AreFew (names_of from.now) }
    requires to_few { spec.AreFew (names_of to.now) }
    ensures { result ≡ spec.route_of text.now (names_of from.now) (names_of to.now) }
{
    let emit = output_event(text.emit.text(), from)?;
    let event = input_event(text.event.text(), to)?;
    let pair = data_numbers(from, to, &text.source, &text.target)?;
    Some(Route {
        from: text.from,
        emit,
        to: text.to,
        event,
        cap: text.cap,
        source: pair.source,
        target: pair.target,
    })
}

/// The number of the output event of that name.
fn output_event(name: &str, names: &Names) -> Option<u32>
    requires { spec.AreFew (names_of names.now) }
    ensures { result ≡ spec.output_event name.now (names_of names.now) }
{
    let events = names.events.items();
    let place = first_output_event(events, name)?;
    Some(place as u32)
}

/// The place of the output event of that name.
fn first_output_event(events: &[EventDecl], name: &str) -> Option<usize>
    ensures place { result ≡ position (spec.is_output_event name.now) events.now }
    ensures within { IfSome result (λ n. n < length events.now) }
{
    events.iter().position(|event| is_output_event(event, name))
}

/// Whether an event is an output event of that name.
fn is_output_event(event: &EventDecl, name: &str) -> bool
    ensures { result ≡ spec.is_output_event name.now event.now }
{
    event.name.text() == name && matches!(event.kind, EventKind::Output)
}

/// The number of the input event of that name.
fn input_event(name: &str, names: &Names) -> Option<u32>
    requires { spec.AreFew (names_of names.now) }
    ensures { result ≡ spec.input_event name.now (names_of names.now) }
{
    let events = names.events.items();
    let place = first_input_event(events, name)?;
    Some(place as u32)
}

/// The place of the input event of that name.
fn first_input_event(events: &[EventDecl], name: &str) -> Option<usize>
    ensures place { result ≡ position (spec.is_input_event name.now) events.now }
    ensures within { IfSome result (λ n. n < length events.now) }
{
    events.iter().position(|event| is_input_event(event, name))
}

/// Whether an event is an input event of that name.
fn is_input_event(event: &EventDecl, name: &str) -> bool
    ensures { result ≡ spec.is_input_event name.now event.now }
{
    event.name.text() == name && matches!(event.kind, EventKind::Input)
}

/// The data of a route, where it has none, or both are there and of one sort.
fn data_numbers(
    from: &Names,
    to: &Names,
    source: &Option<Text>,
    target: &Option<Text>,
) -> Option<DataNumbers>
    requires from_few { spec.AreFew (names_of from.now) }
    requires to_few { spec.AreFew (names_of to.now) }
    ensures { option_map views.shown_numbers result
        ≡ spec.data_numbers (names_of from.now) (names_of to.now) source.now target.now }
{
    match (source, target) {
        (None, None) => Some(DataNumbers {
            source: None,
            target: None,
        }),
        (Some(source), Some(target)) => numbers_named(from, to, source.text(), target.text()),
        (Some(_), None) | (None, Some(_)) => None,
    }
}

/// The data of those names.
fn numbers_named(from: &Names, to: &Names, source: &str, target: &str) -> Option<DataNumbers>
    requires from_few { spec.AreFew (names_of from.now) }
    requires to_few { spec.AreFew (names_of to.now) }
    ensures { option_map views.shown_numbers result
        ≡ spec.numbers_named (names_of from.now) (names_of to.now) source.now target.now }
{
    let sources = from.vars.items();
    let targets = to.vars.items();
    let source = first_output(sources, source)?;
    let target = first_input(targets, target)?;
    if same_sort(sources[source].sort, targets[target].sort) {
        Some(DataNumbers {
            source: Some(source as u32),
            target: Some(target as u32),
        })
    } else {
        None
    }
}

/// The place of the output datum of that name.
fn first_output(vars: &[Var], name: &str) -> Option<usize>
    ensures place { result ≡ position (spec.is_output_datum name.now) vars.now }
    ensures within { IfSome result (λ n. n < length vars.now) }
{
    vars.iter().position(|var| is_output(var, name))
}

/// Whether a datum is an output of that name.
fn is_output(var: &Var, name: &str) -> bool
    ensures { result ≡ spec.is_output_datum name.now var.now }
{
    var.name.text() == name && matches!(var.kind, VarKind::Output)
}

/// The place of the input of that name.
fn first_input(vars: &[Var], name: &str) -> Option<usize>
    ensures place { result ≡ position (spec.is_input_datum name.now) vars.now }
    ensures within { IfSome result (λ n. n < length vars.now) }
{
    vars.iter().position(|var| is_input(var, name))
}

/// Whether a datum is an input of that name.
fn is_input(var: &Var, name: &str) -> bool
    ensures { result ≡ spec.is_input_datum name.now var.now }
{
    var.name.text() == name && matches!(var.kind, VarKind::Input)
}

/// Whether two sorts are the same.
fn same_sort(source: Sort, target: Sort) -> bool
    ensures { result ≡ spec.same_sort source target }
{
    match (source, target) {
        (Sort::Flag, Sort::Flag) => true,
        (Sort::Number(source), Sort::Number(target)) => same_scale(source, target),
        (Sort::Flag, Sort::Number(_)) | (Sort::Number(_), Sort::Flag) => false,
    }
}

/// Whether two scales are the same.
fn same_scale(source: Scale, target: Scale) -> bool
    ensures { result ≡ spec.same_scale source target }
{
    source.signed == target.signed && source.width == target.width && source.frac == target.frac
}
