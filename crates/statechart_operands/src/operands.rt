//! Operands of expressions, and how operators join them.
ghost use Rattle.std.specs.Prelude.{◌≡◌, IfOk};
ghost use Rattle.statechart_grammar.specs.Expressions as grammar;
ghost use Rattle.statechart_operands.specs.Operands.{operand_of, tail_of, group_of};

use chart_tree::BinWord;
use statechart_tokens::Group;
use statechart_tree::SourceExpr;
use std::alloc::{AllocError, Global};
use token_grammar::Span;

/// An expression, and how many operators and opening parentheses there are up to its end.
#[derive(Drop)]
pub struct Operand {
    /// The expression.
    pub expr: SourceExpr,
    /// How many operators and opening parentheses, at most `OPERATOR_LIMIT`.
    pub operators: u32,
}

/// A binary operator, and the second of its operands.
#[derive(Drop)]
pub struct Tail {
    /// The operator.
    pub word: BinWord,
    /// Where it stands.
    pub at: Span,
    /// The operand after it.
    pub right: Operand,
}

/// The arguments of a call.
#[derive(Drop)]
pub struct Arguments {
    /// The arguments in order.
    pub exprs: Vec<SourceExpr>,
    /// How many operators and opening parentheses there are up to their end.
    pub operators: u32,
}

/// The operand with one operator more, whose first operand is all that was read before. So
/// operators of one level group from the left. On an error both operands are dropped.
pub fn with_tail(alloc: Global, left: Operand, tail: Tail) -> Result<Operand, AllocError>
    ensures { IfOk result (λ o.
        operand_of o ≡ grammar.with_tail (operand_of left) (tail_of tail)) }
{
    let Tail { word, at, right } = tail;
    let expr = SourceExpr::Binary(
        word,
        Box::new(alloc, left.expr)?,
        Box::new(alloc, right.expr)?,
        at,
    );
    Ok(Operand {
        expr,
        operators: right.operators,
    })
}

/// The levels of binary operators, from the tightest to the loosest. The operands of a level are
/// built with the operators of tighter levels.
#[derive(Clone, Copy)]
pub enum Level {
    /// `*` and `/`, between operands without a binary operator.
    Products,
    /// `+` and `-`.
    Sums,
    /// `==`, `!=`, `<`, `<=`, `>` and `>=`: one at most.
    Comparisons,
    /// `&&`.
    Conjunctions,
    /// `||`.
    Disjunctions,
}

impl Level {
    /// The operators of the level.
    pub fn operators(self) -> Group
        ensures { result ≡ group_of self }
    {
        match self {
            Level::Products => Group::Products,
            Level::Sums => Group::Sums,
            Level::Comparisons => Group::Comparisons,
            Level::Conjunctions => Group::Conjunctions,
            Level::Disjunctions => Group::Disjunctions,
        }
    }
}
