//! What a procedure of the code of a chart is of.
use checked_chart::{BlockKind, ListKind};

/// Where a transition stands.
#[derive(Clone, Copy)]
pub enum Owner {
    /// In this list of the state of that number.
    State(u32, ListKind),
    /// In the list of the junction of that number.
    Junction(u32),
}

/// What a transition has procedures for.
#[derive(Clone, Copy)]
pub enum TransPart {
    /// Its guard.
    Guard,
    /// Its condition action in searches of outer and inner lists: it goes on while the state is
    /// active.
    ConditionOn,
    /// Its condition action in searches of default lists: it goes on while the state is active and
    /// no child of it is.
    ConditionBare,
    /// Its transition action.
    Action,
}

/// What is done in a state on the way to a state at or below it.
#[derive(Clone, Copy)]
pub enum Toward {
    /// The rest of a firing whose home is the state, once its active children are left.
    Arrive,
    /// A firing whose home is the state.
    Take,
    /// The state is entered.
    Enter,
}

/// What a procedure is of. States, junctions and the places of transitions are given by number,
/// from 0 on.
#[derive(Clone, Copy)]
pub enum Part {
    /// The end mark, to which a search of an outer or inner list goes at an empty junction.
    EndMark,
    /// An action of a state.
    Block(u32, BlockKind),
    /// A part of the transition at this place of its list.
    Transition(TransPart, Owner, u32),
    /// The active children of a state are left.
    Leave(u32),
    /// A state is left.
    Exit(u32),
    /// Work in the first state on the way to the other, which is at or below it.
    Way(Toward, u32, u32),
    /// A list of a state is searched.
    Search(u32, ListKind),
    /// The junction of that number is searched, from a list of a state.
    Junction(u32, ListKind, u32),
    /// A child of a state is entered by default.
    Defaults(u32),
    /// A state is processed.
    Process(u32),
}
