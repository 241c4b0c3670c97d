//! The faults of operators.
ghost use Rattle.std.specs.Prelude.{◌≡◌};
ghost use Rattle.actions.specs.Sorts.{with_sort};
ghost use Rattle.actions.specs.Sorts as sorts;
ghost use Rattle.resolved_tree.specs.Faults.{first_with};
ghost use Rattle.resolved_tree.specs.Plain as plain;
ghost use Rattle.chart_types.specs.Types as spec;

use crate::faults::with_fault;
use actions::{ExprFault, ExprSort, Op, binary_sort, negative_sort, not_sort};
use chart_tree::{BinWord, FaultAt, FormKind, UnWord};
use token_grammar::Span;

/// What an expression gives, or why it has no sort; and the first fault so far.
#[derive(Clone, Copy)]
pub(crate) struct Typed {
    /// The sort.
    pub sort: Result<ExprSort, ExprFault>,
    /// The first fault.
    pub found: Option<FaultAt>,
}

/// The operator of a word with two operands.
pub fn op_of(word: BinWord) -> Op
    ensures { result ≡ plain.op_of word }
{
    match word {
        BinWord::Or => Op::Or,
        BinWord::And => Op::And,
        BinWord::Eq => Op::Eq,
        BinWord::Ne => Op::Ne,
        BinWord::Lt => Op::Lt,
        BinWord::Le => Op::Le,
        BinWord::Gt => Op::Gt,
        BinWord::Ge => Op::Ge,
        BinWord::Add => Op::Add,
        BinWord::Sub => Op::Sub,
        BinWord::Mul => Op::Mul,
        BinWord::Div => Op::Div,
    }
}

/// What an operator with one operand gives for an operand of that sort.
fn unary_sort(word: UnWord, sort: ExprSort) -> Result<ExprSort, ExprFault>
    ensures { result ≡ spec.unary_sort word sort }
{
    match word {
        UnWord::Neg => negative_sort(sort),
        UnWord::Not => not_sort(sort),
    }
}

/// The kind of a fault of an operator or an assignment.
pub(crate) fn kind_of(fault: ExprFault) -> FormKind
    ensures { result ≡ spec.kind_of fault }
{
    match fault {
        ExprFault::Range | ExprFault::Clash => FormKind::TypeClash,
        ExprFault::Wide => FormKind::TooWide,
    }
}

/// The first fault, with that of an operator.
#[tactic(auto, unfolding(resolved_tree::specs::Faults::first_with))]
fn with_operator(
    given: Result<ExprSort, ExprFault>,
    at: Span,
    found: Option<FaultAt>,
) -> Option<FaultAt>
    ensures { result ≡ first_with found (spec.operator_fault given at) }
{
    match given {
        Ok(_) => found,
        Err(fault) => with_fault(kind_of(fault), at, found),
    }
}

/// What an operator with one operand gives, and the first fault with that of the operator.
#[tactic(auto, unfolding(resolved_tree::specs::Faults::first_with))]
pub(crate) fn with_unary(word: UnWord, at: Span, inner: Typed) -> Typed
    ensures sort { result.sort ≡ with_sort inner.sort (spec.unary_sort word) }
    ensures found { result.found ≡ first_with inner.found (spec.unary_fault word inner.sort at) }
{
    match inner.sort {
        Err(_) => inner,
        Ok(operand) => {
            let sort = unary_sort(word, operand);
            let found = with_operator(sort, at, inner.found);
            Typed { sort, found }
        }
    }
}

/// What an operator with two operands gives, and the first fault with that of the operator, where
/// the fault of the right operand is the first so far.
#[tactic(auto, unfolding(resolved_tree::specs::Faults::first_with))]
pub(crate) fn with_binary(
    word: BinWord,
    at: Span,
    left: Result<ExprSort, ExprFault>,
    right: Typed,
) -> Typed
    ensures sort { result.sort
        ≡ with_sort left (λ a. with_sort right.sort (sorts.binary_sort (plain.op_of word) a)) }
    ensures found { result.found
        ≡ first_with right.found (spec.binary_fault word left right.sort at) }
{
    match (left, right.sort) {
        (Ok(a), Ok(b)) => {
            let sort = binary_sort(op_of(word), a, b);
            let found = with_operator(sort, at, right.found);
            Typed { sort, found }
        }
        (Ok(_), Err(_)) => right,
        (Err(fault), _) => Typed {
            sort: Err(fault),
            found: right.found,
        },
    }
}
