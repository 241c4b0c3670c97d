//! A statechart as it is written.
use crate::declarations::{Constant, Enumeration, Function, SourceEvent};
use crate::state::SourceState;
use flow_base::List;

/// A statechart. Each of its lists is in the order of declaration.
#[derive(Drop)]
pub struct Statechart {
    /// The enumerations.
    pub enumerations: List<Enumeration>,
    /// The constants.
    pub constants: List<Constant>,
    /// The events, the clock among them.
    pub events: List<SourceEvent>,
    /// The functions.
    pub functions: List<Function>,
    /// The statechart itself as a state, which has no outer transitions and no exit action. Its data
    /// are those of the statechart.
    pub root: SourceState,
}
