//! States, transitions and statements as they are written.
use crate::expr::ExprText;
use crate::name::{NameText, PathText};
use flow_base::List;
use token_grammar::Span;

/// A statement.
#[derive(Drop)]
pub enum StmtText {
    /// `NAME = EXPR;`
    Assign(NameText, ExprText),
    /// `send NAME;` or `send NAME to PATH;`
    Send(NameText, Option<PathText>),
    /// `emit NAME;`
    Emit(NameText),
}

/// Where a transition leads.
#[derive(Drop)]
pub enum DestText {
    /// To a state.
    State(PathText),
    /// `@NAME`: to a junction.
    Junction(NameText),
}

/// A guard, with the place of its bracket.
#[derive(Drop)]
pub struct GuardText {
    /// The expression between the brackets.
    pub expr: ExprText,
    /// Where the opening bracket stands.
    pub at: Span,
}

/// A transition. A missing block is an empty one.
#[derive(Drop)]
pub struct TransText {
    /// The place of its keyword; in a junction, which has no keywords, the place of its first
    /// token.
    pub at: Span,
    /// The event that triggers it.
    pub event: Option<NameText>,
    /// Its guard.
    pub guard: Option<GuardText>,
    /// Its condition action.
    pub cond: List<StmtText>,
    /// Its transition action.
    pub act: List<StmtText>,
    /// Where it leads.
    pub dest: DestText,
}

/// A junction.
#[derive(Drop)]
pub struct JunctionText {
    /// Its name.
    pub name: NameText,
    /// Its transitions in order.
    pub list: List<TransText>,
}

/// How a state is composed.
#[derive(Clone, Copy, PartialEq, Eq)]
pub enum CompText {
    /// Neither word stands there, and the state has no child states. A state with child states is
    /// `Or` then.
    None,
    /// One child at most is active.
    Or,
    /// All children are active.
    And,
}

/// A state. Each of its lists is in the order of the text.
#[derive(Drop)]
pub struct StateText {
    /// Its name.
    pub name: NameText,
    /// How it is composed.
    pub comp: CompText,
    /// Its entry action.
    pub entry: List<StmtText>,
    /// Its during action.
    pub during: List<StmtText>,
    /// Its exit action.
    pub exit: List<StmtText>,
    /// The place of the word `history`, where it stands.
    pub history: Option<Span>,
    /// Its outer transitions.
    pub outer: List<TransText>,
    /// Its inner transitions.
    pub inner: List<TransText>,
    /// Its default transitions.
    pub default: List<TransText>,
    /// Its junctions.
    pub junctions: List<JunctionText>,
    /// Its child states.
    pub states: List<StateText>,
}
