//! What a net text says.
use flow_base::{List, Text};

/// A chart of a net.
#[derive(Drop)]
pub struct NetChart {
    /// Its name, which no other chart of the net has.
    pub name: Text,
    /// The file of its text.
    pub file: Text,
}

/// A route of a net, with names for events and data. Charts are given by number.
#[derive(Drop)]
pub struct RouteText {
    /// The line of the net text in which it stands, counted from 1.
    pub line: u32,
    /// The chart that sends.
    pub from: u32,
    /// The event of that chart for which an item is sent.
    pub emit: Text,
    /// The chart that takes.
    pub to: u32,
    /// The event that this chart is given for an item.
    pub event: Text,
    /// How many items the route holds at most, 1 to `CAP_LIMIT`.
    pub cap: u32,
    /// The datum of the first chart whose value is sent, if one is.
    pub source: Option<Text>,
    /// The datum of the second chart that is given the value, if one is.
    pub target: Option<Text>,
}

/// A net: 1 to `CHART_LIMIT` charts and at most `ROUTE_LIMIT` routes.
#[derive(Drop)]
pub struct NetText {
    /// The charts in order of their numbers.
    pub charts: List<NetChart>,
    /// The routes in order of their numbers.
    pub routes: List<RouteText>,
}
