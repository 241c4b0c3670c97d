//! What states and transitions are made of.
use actions::{Expr, Stmt};
use flow_base::List;

/// The three lists of transitions of a state.
#[derive(Clone, Copy, PartialEq, Eq)]
pub enum ListKind {
    /// Outer transitions: they are tried first while the state is active, and leave it.
    Outer,
    /// Inner transitions: they are tried after the during action, and don't leave the state.
    Inner,
    /// Default transitions: they say which child is entered where the destination names none.
    Default,
}

/// The three actions of a state.
#[derive(Clone, Copy, PartialEq, Eq)]
pub enum BlockKind {
    /// It runs once the state has become active.
    Entry,
    /// It runs where the state stays active after its outer transitions were tried.
    During,
    /// It runs before the state is left.
    Exit,
}

/// What a transition leads to.
#[derive(Clone, Copy, PartialEq, Eq)]
pub enum Dest {
    /// The state of that number.
    State(u32),
    /// The junction of that number.
    Junction(u32),
}

/// A transition. Events, data, states and junctions are given by number.
#[derive(Drop)]
pub struct Trans {
    /// The event that triggers it. Without one every event does.
    pub event: Option<u32>,
    /// Its guard, a flag.
    pub guard: Option<Expr>,
    /// Its condition action, which runs as soon as it is enabled.
    pub cond: List<Stmt>,
    /// Its transition action, which runs where the whole path is taken.
    pub act: List<Stmt>,
    /// Where it leads.
    pub dest: Dest,
}

/// What a state does. A state without a list or an action has an empty one.
#[derive(Drop)]
pub struct StateParts {
    /// Its entry action.
    pub entry: List<Stmt>,
    /// Its during action.
    pub during: List<Stmt>,
    /// Its exit action.
    pub exit: List<Stmt>,
    /// Its outer transitions, in the order in which they are tried.
    pub outer: List<Trans>,
    /// Its inner transitions.
    pub inner: List<Trans>,
    /// Its default transitions.
    pub default: List<Trans>,
    /// Whether it remembers the child that was active last, and enters that one by default.
    pub history: bool,
}
