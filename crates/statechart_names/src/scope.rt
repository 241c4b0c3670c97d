//! What a name may mean.
use chart_tree::{ExprText, NameText};
use statechart_scope::Frames;
use statechart_tree::{Enumeration, Function, SourceEvent};
use statechart_values::Valued;

/// What a statechart declares.
#[derive(Clone, Copy)]
pub struct Declared<'a> {
    /// Its enumerations.
    pub enumerations: &'a [Enumeration],
    /// Its events.
    pub events: &'a [SourceEvent],
    /// Its constants with their values.
    pub constants: &'a [Valued<'a>],
}

/// What a name may mean: an argument, a datum of a state, what the statechart declares, a function.
#[derive(Clone, Copy)]
pub struct Scope<'a> {
    /// The parameters of the function in which the name stands, if it stands in one.
    pub params: &'a [NameText],
    /// Their arguments.
    pub arguments: &'a [ExprText],
    /// The state in which the name stands, with those above it.
    pub frames: &'a Frames<'a>,
    /// What the statechart declares.
    pub declared: Declared<'a>,
    /// The state in which functions stand, which is the statechart.
    pub root: &'a Frames<'a>,
    /// The functions that may be called.
    pub functions: &'a [Function],
}
