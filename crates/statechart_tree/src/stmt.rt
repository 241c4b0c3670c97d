//! Statements as they are written.
use crate::expr::SourceExpr;
use chart_tree::{BinWord, NameText, PathText, Span};
use flow_base::List;

/// A statement.
#[derive(Drop)]
pub enum SourceStmt {
    /// `TARGET = EXPR;`
    Assign(PathText, SourceExpr),
    /// `TARGET += EXPR;` and so on, with the place of the operator.
    Update(PathText, BinWord, SourceExpr, Span),
    /// `TARGET++;` or `TARGET--;`, with the place of the operator.
    Step(PathText, BinWord, Span),
    /// `send NAME;` or `send NAME to PATH;`
    Send(NameText, Option<PathText>),
    /// `emit NAME;`
    Emit(NameText),
    /// `NAME;`: an event is sent, or emitted if it is an output event.
    Raise(NameText),
    /// `NAME(ARGUMENTS);`: the statements of a function.
    Call(NameText, List<SourceExpr>),
}
