//! Expressions as they are written.
use chart_tree::{BinWord, LitText, NameText, PathText, Span, UnWord};
use flow_base::List;

/// A word that asks for a count of an event.
#[derive(Clone, Copy, PartialEq, Eq)]
pub enum TimeWord {
    /// `after(N, E)`: at least that often.
    After,
    /// `before(N, E)`: less often.
    Before,
    /// `at(N, E)`: exactly that often.
    At,
}

/// An expression. Parentheses leave no trace. Its place is that of its first token; the place of a
/// binary expression is that of its operator.
#[derive(Drop)]
pub enum SourceExpr {
    /// A number, which may be one that no chart text has, as `0.1`.
    Lit(LitText, Span),
    /// `true` or `false`.
    Flag(bool, Span),
    /// `NAME`, `STATE.NAME` or `ENUMERATION.NAME`: a datum, a constant, an enumerator or a parameter.
    Name(PathText),
    /// `in(PATH)`: whether a state is active.
    Active(PathText, Span),
    /// `temporalCount(E)`: how often the event came.
    Count(NameText, Span),
    /// `after(N, E)` and so on, with the place of the word. The name is that of an event or of a unit.
    Timed(TimeWord, Box<SourceExpr>, NameText, Span),
    /// `NAME(ARGUMENTS)`: the value of a function.
    Call(NameText, List<SourceExpr>),
    /// An operator and its operand.
    Unary(UnWord, Box<SourceExpr>, Span),
    /// An operator with its left and its right operand.
    Binary(BinWord, Box<SourceExpr>, Box<SourceExpr>, Span),
}
