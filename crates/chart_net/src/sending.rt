//! How the events that a chart emitted are sent on the routes of a net.
ghost use Rattle.std.specs.Prelude.{◌≡◌, ◌<◌, ◌^◌, ℕ, length, IfSome};
ghost use Rattle.chart_net.specs.Changes.{ChangesAt};
ghost use Rattle.chart_net.specs.Holding.{HaveRoom, HaveSources, Sent, Took, Wait, finds_full};
ghost use Rattle.chart_net.specs.Holding.{ring_after};
ghost use Rattle.chart_net.specs.Nets.{RouteState};
ghost use Rattle.chart_net.specs.Rings.{later, oldest};
ghost use Rattle.chart_net.specs.Sending as spec;

use crate::ring::Ring;
use actions::{Vals, Value};
use net_text::Route;

/// Sends the events that a chart emitted, one after the other, each on every route from the chart
/// that carries it, in order of the routes. It answers the number of the route that was full when
/// an item was to be sent on it; what comes before was sent.
pub(crate) fn send_events(
    chart: u32,
    vals: &Vals,
    outputs: &[u32],
    routes: &[Route],
    rings: &mut [Ring],
) -> Option<u32>
    requires room { HaveRoom routes.now rings.old }
    requires few { length routes.now < 2 ^ 32 }
    requires sources { HaveSources chart routes.now vals.now }
    ensures room { HaveRoom routes.now rings.new }
    ensures sent { (states : ℕ → RouteState) → Wait rings.old states
        → Sent (spec.send_events routes.now chart vals.now outputs.now states) rings.new result }
{
    'events: for event in outputs {
        match send_event(chart, vals, *event, routes, rings) {
            Some(full) => return Some(full),
            None => {}
        }
    }
    None
}

/// Sends one event of a chart on every route that carries it.
fn send_event(
    chart: u32,
    vals: &Vals,
    event: u32,
    routes: &[Route],
    rings: &mut [Ring],
) -> Option<u32>
    requires room { HaveRoom routes.now rings.old }
    requires few { length routes.now < 2 ^ 32 }
    requires sources { HaveSources chart routes.now vals.now }
    ensures room { HaveRoom routes.now rings.new }
    ensures sent { (states : ℕ → RouteState) → Wait rings.old states
        → Sent (spec.send_event chart vals.now event 0 routes.now states) rings.new result }
{
    'routes: for r in 0..routes.len() {
        let ring = &mut rings[r];
        if send_item(routes[r], chart, vals, event, ring) {
            return Some(r as u32);
        }
    }
    None
}

/// Sends an event of a chart on a route, where the route carries it and its ring has room. It
/// answers whether the route carries it and its ring has none.
fn send_item(route: Route, chart: u32, vals: &Vals, event: u32, ring: &mut Ring) -> bool
    requires { route.from ≡ chart → IfSome route.source (λ v. v < length vals.now) }
    ensures full { result ≡ finds_full route chart event ring.old }
    ensures ring { ring.new ≡ ring_after route chart vals.now event ring.old }
{
    if !carries(route, chart, event) {
        return false;
    }
    if ring.is_full() {
        return true;
    }
    ring.push(item_of(route, vals));
    false
}

/// Takes the oldest item that waits on a route. None where none waits.
pub(crate) fn take_item(routes: &[Route], rings: &mut [Ring], r: usize) -> Option<Option<Value>>
    requires there { r < length routes.now }
    requires room { HaveRoom routes.now rings.old }
    ensures taken { (states : ℕ → RouteState) → Wait rings.old states → Took r states rings.new result }
    ensures room { HaveRoom routes.now rings.new }
    ensures ring { ChangesAt rings.old rings.new r (λ before after.
        (result ≡ oldest before.items) × (after ≡ record { items = later before.items; cap = before.cap })) }
{
    let ring = &mut rings[r];
    ring.take()
}

/// Whether the route leads from the chart, for that event.
fn carries(route: Route, chart: u32, event: u32) -> bool
    ensures { result ≡ spec.carries route chart event }
{
    route.from == chart && route.emit == event
}

/// The item that a route is given: the value of its source as it stands, or nothing.
fn item_of(route: Route, vals: &Vals) -> Option<Value>
    requires { IfSome route.source (λ v. v < length vals.now) }
    ensures { result ≡ spec.item_of route vals.now }
{
    match route.source {
        Some(v) => Some(vals.get(v)),
        None => None,
    }
}
