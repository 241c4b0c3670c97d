//! Expressions with the number of operators up to their end.
ghost use Rattle.std.specs.Prelude.{◌≡◌, IfOk};
ghost use Rattle.chart_grammar.specs.Expressions as grammar;
ghost use Rattle.chart_operands.specs.Operands.{operand_of, tail_of};

use chart_tree::{BinWord, ExprText};
use std::alloc::{AllocError, Global};
use token_grammar::Span;

/// An expression, and how many operators and opening parentheses there are up to its end.
#[derive(Drop)]
pub struct Operand {
    /// The expression.
    pub expr: ExprText,
    /// How many operators and opening parentheses, at most `OPERATOR_LIMIT`.
    pub operators: u32,
}

/// A binary operator, and the second of its operands.
#[derive(Drop)]
pub struct Tail {
    /// The operator.
    pub word: BinWord,
    /// Where it stands.
    pub at: Span,
    /// The operand after it.
    pub right: Operand,
}

/// The operand with one operator more, whose first operand is all that was read before. So
/// operators of one level group from the left. On an error both operands are dropped.
pub fn with_tail(alloc: Global, left: Operand, tail: Tail) -> Result<Operand, AllocError>
    ensures { IfOk result (λ o.
        operand_of o ≡ grammar.with_tail (operand_of left) (tail_of tail)) }
{
    let Tail { word, at, right } = tail;
    let expr = ExprText::Binary(
        word,
        Box::new(alloc, left.expr)?,
        Box::new(alloc, right.expr)?,
        at,
    );
    Ok(Operand {
        expr,
        operators: right.operators,
    })
}
