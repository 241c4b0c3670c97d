//! What is known of the value of an expression.
ghost use Rattle.std.specs.Prelude.{◌≡◌, ◌<◌, IfOk};
ghost use Rattle.actions.specs.Trees.{expr_of};
ghost use Rattle.range_spans.specs.Known as spec;
ghost use Rattle.range_spans.specs.Boxes.{box_of, sort_at};
ghost use Rattle.actions.specs.Names.{names_of};

use crate::boxes::{look, right_side, sort_of};
use crate::config::Config;
use crate::declared::{Declared, Gap};
use crate::known::{Guess, Known, divides_by_zero, neg_known, not_known, of_operator, of_sort};
use crate::span::Span;
use actions::{Expr, Op};

/// What is known of an operator's value.
fn apply(op: Op, left: Guess, right: Guess) -> Result<Guess, Gap>
    ensures { IfOk result (λ g. g ≡ spec.applied_guess op left right) }
{
    match of_operator(op, left.known, right.known) {
        None => Err(Gap::Unknown),
        Some(known) => Ok(Guess {
            known,
            zero: left.zero || right.zero || divides_by_zero(op, right.known),
        }),
    }
}

/// What is known of the value of an expression, where data have these spans and the configuration
/// is that one: of a number a span of mantissas at some fraction, of a flag which truths it may
/// have, and whether a divisor may be 0. Of a wrong use of sorts, as a sum of flags, nothing is
/// known, which is no gap. Gaps: `Memory`; `Unknown` where a datum that is read isn't declared or
/// has no span, where a mantissa, also one that is brought to the fraction of the other side,
/// doesn't fit 128 bits, and those of `narrow` for the left side of `&&` and `||`.
#[tactic(auto, unfolding(crate::specs::Known::guess))]
pub fn guess(
    declared: &Declared<'_>,
    spans: &[Span],
    config: &Config,
    expr: &Expr,
) -> Result<Guess, Gap>
    ensures { IfOk result (λ g. g ≡ spec.guess (sort_at (names_of declared.now.names.now))
        (box_of spans.now) config.now
        (expr_of expr.now)) }
{
    match expr {
        Expr::Lit(n) => Ok(Guess {
            known: Known::Number(
                Span {
                    low: n.mantissa,
                    high: n.mantissa,
                },
                n.frac,
            ),
            zero: false,
        }),
        Expr::Flag(b) => Ok(Guess {
            known: Known::Truth(!*b, *b),
            zero: false,
        }),
        Expr::Read(v) => {
            let sort = sort_of(declared, *v)?;
            let span = look(spans, *v)?;
            Ok(Guess {
                known: of_sort(sort, span),
                zero: false,
            })
        }
        Expr::Active(s) => {
            let on = config.on(*s);
            Ok(Guess {
                known: Known::Truth(!on, on),
                zero: false,
            })
        }
        Expr::Neg(a) => {
            let inner = guess(declared, spans, config, a)?;
            match neg_known(inner.known) {
                None => Err(Gap::Unknown),
                Some(known) => Ok(Guess {
                    known,
                    zero: inner.zero,
                }),
            }
        }
        Expr::Not(a) => {
            let inner = guess(declared, spans, config, a)?;
            Ok(Guess {
                known: not_known(inner.known),
                zero: inner.zero,
            })
        }
        Expr::Bin(op, a, b) => {
            let left = guess(declared, spans, config, a)?;
            let inner = right_side(declared, *op, a, spans)?;
            let right = guess(declared, &inner, config, b)?;
            apply(*op, left, right)
        }
    }
}
