//! States, transitions and actions as they are written.
use crate::expr::{SourceExpr, TimeWord};
use crate::sort::SourceVar;
use crate::stmt::SourceStmt;
use chart_tree::{CompText, DestText, NameText, Span};
use flow_base::List;

/// The event of a case.
#[derive(Drop)]
pub enum Trigger {
    /// Any.
    Always,
    /// This one.
    On(NameText),
    /// `after(N, E)` and so on, with the place of the word. The name is that of an event or of a unit.
    Timed(TimeWord, SourceExpr, NameText, Span),
    /// `every(N, E)`: each time that it came N times more, with the place of the word.
    Every(SourceExpr, NameText, Span),
}

/// A guard, with the place of its bracket.
#[derive(Drop)]
pub struct SourceGuard {
    /// The expression between the brackets.
    pub expr: SourceExpr,
    /// Where the opening bracket stands.
    pub at: Span,
}

/// One of the cases in which a transition is tried.
#[derive(Drop)]
pub struct Case {
    /// The event.
    pub trigger: Trigger,
    /// The guard.
    pub guard: Option<SourceGuard>,
}

/// A transition. A missing block is an empty one.
#[derive(Drop)]
pub struct SourceTrans {
    /// The place of its keyword; in a junction, which has no keywords, the place of its first
    /// token.
    pub at: Span,
    /// Its cases in order. One that is written without any has a single one, without event and guard.
    pub cases: List<Case>,
    /// Its condition action.
    pub cond: List<SourceStmt>,
    /// Its transition action.
    pub act: List<SourceStmt>,
    /// Where it leads.
    pub dest: DestText,
}

/// A junction.
#[derive(Drop)]
pub struct SourceJunction {
    /// Its name.
    pub name: NameText,
    /// Its transitions in order.
    pub list: List<SourceTrans>,
}

/// When an action is done.
#[derive(Drop)]
pub enum ActionWord {
    /// `entry`
    Entry,
    /// `during`
    During,
    /// `exit`
    Exit,
    /// `on CASES`, with the place of the word.
    On(List<Case>, Span),
}

/// A block, and the words before it.
#[derive(Drop)]
pub struct SourceAction {
    /// The words in order. It has at least one.
    pub words: List<ActionWord>,
    /// The block.
    pub block: List<SourceStmt>,
}

/// What a state has beside its child states. Each of its lists is in the order of the text.
#[derive(Drop)]
pub struct StateParts {
    /// Its name.
    pub name: NameText,
    /// How it is composed.
    pub comp: CompText,
    /// Its data.
    pub vars: List<SourceVar>,
    /// Its actions.
    pub actions: List<SourceAction>,
    /// The place of the word `history`, where it stands.
    pub history: Option<Span>,
    /// Its outer transitions.
    pub outer: List<SourceTrans>,
    /// Its inner transitions.
    pub inner: List<SourceTrans>,
    /// Its default transitions.
    pub default: List<SourceTrans>,
    /// Its junctions.
    pub junctions: List<SourceJunction>,
}

/// A state.
#[derive(Drop)]
pub struct SourceState {
    /// What it has beside its child states.
    pub parts: StateParts,
    /// Its child states in order.
    pub states: List<SourceState>,
}
