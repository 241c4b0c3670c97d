//! A chart as it is written.
use crate::name::NameText;
use crate::sort::{InitText, SortText};
use crate::state::StateText;
use flow_base::List;

/// Who raises an event.
#[derive(Clone, Copy, PartialEq, Eq)]
pub enum EventWord {
    /// The environment of the chart.
    Input,
    /// The chart, which sends it to itself.
    Local,
    /// The chart, for its environment.
    Output,
}

/// The declaration of an event.
#[derive(Drop)]
pub struct EventText {
    /// Who raises it.
    pub kind: EventWord,
    /// Its name.
    pub name: NameText,
}

/// Who sets a datum.
#[derive(Clone, Copy, PartialEq, Eq)]
pub enum VarWord {
    /// The environment of the chart.
    Input,
    /// The chart, for its environment.
    Output,
    /// The chart, for itself.
    Local,
}

/// The declaration of a datum.
#[derive(Drop)]
pub struct VarText {
    /// Who sets it.
    pub kind: VarWord,
    /// Its name.
    pub name: NameText,
    /// What values it has.
    pub sort: SortText,
    /// Its first value.
    pub init: InitText,
}

/// A chart.
#[derive(Drop)]
pub struct ChartText {
    /// The events in order of declaration.
    pub events: List<EventText>,
    /// The data in order of declaration.
    pub vars: List<VarText>,
    /// The chart itself as a state, which has no outer transitions and no exit action.
    pub root: StateText,
}
