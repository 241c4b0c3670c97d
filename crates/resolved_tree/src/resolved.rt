//! What a resolved chart is made of.
use actions::Names;
use active_config::{Comp, Shape};
use chart_tree::{BinWord, InitText, LitText, UnWord};
use flow_base::List;
use token_grammar::Span;

/// What a name or a path denotes, by number, and where it stands. The place of a path is that of
/// its first name.
#[derive(Clone, Copy)]
pub struct Ref {
    /// The number of the event, datum, state or junction.
    pub number: u32,
    /// The place of the name.
    pub at: Span,
}

/// An expression. Its places are those of the chart text.
#[derive(Drop)]
pub enum ResolvedExpr {
    /// A number.
    Lit(LitText, Span),
    /// `true` or `false`.
    Flag(bool, Span),
    /// The value of a datum.
    Name(Ref),
    /// `in(PATH)`: whether a state is active.
    Active(Ref, Span),
    /// An operator and its operand.
    Unary(UnWord, Box<ResolvedExpr>, Span),
    /// An operator with its left and its right operand.
    Binary(BinWord, Box<ResolvedExpr>, Box<ResolvedExpr>, Span),
}

/// A statement.
#[derive(Drop)]
pub enum ResolvedStmt {
    /// A datum is assigned the value of an expression.
    Assign(Ref, ResolvedExpr),
    /// An event is sent, to a state where there is one.
    Send(Ref, Option<Ref>),
    /// An event is emitted.
    Emit(Ref),
}

/// Where a transition leads.
#[derive(Clone, Copy)]
pub enum ResolvedDest {
    /// To a state.
    State(Ref),
    /// To a junction.
    Junction(Ref),
}

/// A guard, with the place of its bracket.
#[derive(Drop)]
pub struct ResolvedGuard {
    /// The expression between the brackets.
    pub expr: ResolvedExpr,
    /// Where the opening bracket stands.
    pub at: Span,
}

/// A transition.
#[derive(Drop)]
pub struct ResolvedTrans {
    /// The place of its keyword; in a junction the place of its first token.
    pub at: Span,
    /// The event that triggers it.
    pub event: Option<Ref>,
    /// Its guard.
    pub guard: Option<ResolvedGuard>,
    /// Its condition action.
    pub cond: List<ResolvedStmt>,
    /// Its transition action.
    pub act: List<ResolvedStmt>,
    /// Where it leads.
    pub dest: ResolvedDest,
}

/// A junction.
#[derive(Drop)]
pub struct ResolvedJunction {
    /// The place of its name.
    pub at: Span,
    /// Its transitions in order.
    pub list: List<ResolvedTrans>,
}

/// A state. Each of its lists is in the order of the text.
#[derive(Drop)]
pub struct ResolvedState {
    /// The place of its name.
    pub at: Span,
    /// Its composition word: `Leaf` where it has neither a word nor child states, and `Or` where it
    /// has child states and no word.
    pub word: Comp,
    /// The place of the word `history`, where it stands.
    pub history: Option<Span>,
    /// Its entry action.
    pub entry: List<ResolvedStmt>,
    /// Its during action.
    pub during: List<ResolvedStmt>,
    /// Its exit action.
    pub exit: List<ResolvedStmt>,
    /// Its outer transitions.
    pub outer: List<ResolvedTrans>,
    /// Its inner transitions.
    pub inner: List<ResolvedTrans>,
    /// Its default transitions.
    pub default: List<ResolvedTrans>,
}

/// A resolved chart.
#[derive(Drop)]
pub struct Resolved {
    /// The tree of the states, in which a state without child states is a leaf.
    pub shape: Shape,
    /// The names of the states, the data and the events. Each `init` is 0.
    pub names: Names,
    /// The first value of each datum, as it is written.
    pub inits: List<InitText>,
    /// The states in pre-order, the root first.
    pub states: List<ResolvedState>,
    /// The junctions, in the order in which their names stand in the text.
    pub junctions: List<ResolvedJunction>,
}
