//! What tests tell.
ghost use Rattle.std.specs.Prelude.{◌≡◌, IfOk};
ghost use Rattle.c_subset.specs.Lines.{expr_of};
ghost use Rattle.c_facts.specs.Asking as spec;
ghost use Rattle.c_facts.specs.Views.{known_of};

use crate::constants::{constant_of, field_in, single_bit};
use crate::facts::{copied, joined, narrowed};
use crate::known::{Constant, Known, Place, Question};
use crate::numbers::agrees;
use crate::places::same_width;
use c_subset::{Bitwise, CExpr, CType, Comparison};
use flow_base::Memory;
use std::alloc::Global;

/// Whether a bit is set, by the field, the mask and the number 0.
fn bit_question(field: u32, mask: Constant, bit: Option<u32>) -> Option<Question>
    ensures { result ≡ spec.bit_question field mask bit }
{
    match bit {
        None => None,
        Some(own) => {
            Some(Question {
                place: Place::Bit(field, own),
                width: mask.width,
                number: 0,
            })
        }
    }
}

/// `(m->f & MASK) == 0`, by its operands.
fn masked_question(
    field: Option<u32>,
    mask: Option<Constant>,
    constant: Option<Constant>,
) -> Option<Question>
    ensures { result ≡ spec.masked_question field mask constant }
{
    match field {
        None => None,
        Some(own) => match mask {
            None => None,
            Some(bits) => match constant {
                None => None,
                Some(zero) => {
                    if same_width(bits.width, zero.width) && zero.number == 0 {
                        bit_question(own, bits, single_bit(32, bits.number))
                    } else {
                        None
                    }
                }
            },
        },
    }
}

/// `m->f == C`, by its operands.
fn field_question(field: Option<u32>, constant: Option<Constant>) -> Option<Question>
    ensures { result ≡ spec.field_question field constant }
{
    match field {
        None => None,
        Some(own) => match constant {
            None => None,
            Some(found) => Some(Question {
                place: Place::Field(own),
                width: found.width,
                number: found.number,
            }),
        },
    }
}

/// `(a & b) == e`
fn bits_question(op: Bitwise, left: &CExpr, right: &CExpr, other: &CExpr) -> Option<Question>
    ensures { result
        ≡ spec.bits_question op (expr_of left.now) (expr_of right.now) (expr_of other.now) }
{
    match op {
        Bitwise::BitAnd => masked_question(field_in(left), constant_of(right), constant_of(other)),
        Bitwise::BitOr => None,
    }
}

/// What a comparison of two expressions asks: a field and a constant, or a bit of a field and 0.
fn question(left: &CExpr, right: &CExpr) -> Option<Question>
    ensures { result ≡ spec.question (expr_of left.now) (expr_of right.now) }
{
    match left {
        CExpr::Field(field) => field_question(Some(*field), constant_of(right)),
        CExpr::Bits(op, first, second) => bits_question(*op, first, second, right),
        CExpr::Const(..)
        | CExpr::Element(..)
        | CExpr::Local(..)
        | CExpr::Cast(..)
        | CExpr::Minus(..)
        | CExpr::Bang(..)
        | CExpr::Calc(..)
        | CExpr::Divide(..)
        | CExpr::Compare(..)
        | CExpr::Both(..)
        | CExpr::Either(..)
        | CExpr::Choose(..) => None,
    }
}

/// Whether a comparison is one of equality, and of which kind.
pub fn equality(op: Comparison) -> Option<bool>
    ensures { result ≡ spec.equality op }
{
    match op {
        Comparison::IsEqual => Some(true),
        Comparison::IsUnequal => Some(false),
        Comparison::IsBelow | Comparison::IsAtMost | Comparison::IsAbove | Comparison::IsAtLeast =>
            None,
    }
}

/// After a comparison of that kind came out so.
fn answered(
    alloc: Global,
    known: &Known,
    way: bool,
    kind: Option<bool>,
    asked: Option<Question>,
) -> Result<Known, Memory>
    ensures { IfOk result (λ after. known_of after
        ≡ spec.answered way kind asked (known_of known.now)) }
{
    match kind {
        None => copied(alloc, known),
        Some(equal) => match asked {
            None => copied(alloc, known),
            Some(
                Question {
                    place,
                    width,
                    number,
                },
            ) => { narrowed(alloc, known, agrees(equal, way), number, place, width) }
        },
    }
}

/// After a constant came out so.
fn settled(alloc: Global, known: &Known, way: bool, of: CType, value: i128) -> Result<Known, Memory>
    ensures { IfOk result (λ after. known_of after
        ≡ spec.settled way of value (known_of known.now)) }
{
    match of {
        CType::Unsigned(_) => copied(alloc, known),
        CType::Signed(_) | CType::Truth => {
            if agrees(way, value != 0) {
                copied(alloc, known)
            } else {
                Ok(Known::Never)
            }
        }
    }
}

/// After a test that came out so: `Never` where it can't. `Memory` where there is no memory for it.
#[tactic(auto, unfolding(crate::specs::Asking::tested))]
pub fn tested(alloc: Global, expr: &CExpr, way: bool, known: &Known) -> Result<Known, Memory>
    ensures { IfOk result (λ after. known_of after
        ≡ spec.tested way (expr_of expr.now) (known_of known.now)) }
{
    match expr {
        CExpr::Const(of, value) => settled(alloc, known, way, *of, *value),
        CExpr::Bang(inner) => tested(alloc, inner, !way, known),
        CExpr::Compare(op, left, right) => {
            answered(alloc, known, way, equality(*op), question(left, right))
        }
        CExpr::Both(left, right) => {
            let yes = tested(alloc, left, true, known)?;
            let last = tested(alloc, right, way, &yes)?;
            if way {
                Ok(last)
            } else {
                let no = tested(alloc, left, false, known)?;
                joined(alloc, &no, &last)
            }
        }
        CExpr::Either(left, right) => {
            let no = tested(alloc, left, false, known)?;
            let last = tested(alloc, right, way, &no)?;
            if way {
                let yes = tested(alloc, left, true, known)?;
                joined(alloc, &yes, &last)
            } else {
                Ok(last)
            }
        }
        CExpr::Field(..)
        | CExpr::Element(..)
        | CExpr::Local(..)
        | CExpr::Cast(..)
        | CExpr::Minus(..)
        | CExpr::Calc(..)
        | CExpr::Divide(..)
        | CExpr::Bits(..)
        | CExpr::Choose(..) => copied(alloc, known),
    }
}
