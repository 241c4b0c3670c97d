//! The states on the way from a place to the statechart.
use statechart_tree::SourceState;

/// The states on the way from a place to the statechart, the lowest first.
#[derive(Clone, Copy)]
pub enum Frames<'a> {
    /// The statechart itself.
    Root(&'a SourceState),
    /// A state with its number, in others.
    In(&'a SourceState, u32, &'a Frames<'a>),
}
