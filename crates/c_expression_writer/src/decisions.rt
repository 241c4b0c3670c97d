//! `&&` and `||` whose right side has code of its own.
ghost use Rattle.std.specs.Prelude.{◌≡◌, ◌+◌, ◌<◌, ◌^◌, ◌++◌, ◌∷◌, [], IfOk, OnOk};
ghost use Rattle.flow_base.specs.Lists.{items_of};
ghost use Rattle.c_subset.specs.Lines.{expr_of, lines_in};
ghost use Rattle.c_subset.specs.Lines as lines;
ghost use Rattle.c_subset.specs.Trees as c;
ghost use Rattle.c_expression_writer.specs.Locals.{going_on};

use crate::lines::put;
use crate::operand::Operand;
use actions::{ExprSort, Op};
use c_subset::{CExpr, CType, Line};
use flow_base::{List, Memory};
use std::alloc::Global;

/// The test of the left side, as a local, under which the right side is evaluated.
fn going_on(alloc: Global, op: Op, local: u32) -> Result<CExpr, Memory>
    ensures { IfOk result (λ test. expr_of test ≡ going_on op (c.Local CType.Truth local)) }
{
    let decided = CExpr::Local(CType::Truth, local);
    match op {
        Op::Or => CExpr::bang(alloc, decided),
        Op::And | Op::Eq | Op::Ne | Op::Lt | Op::Le | Op::Gt | Op::Ge => Ok(decided),
        Op::Add | Op::Sub | Op::Mul | Op::Div => Ok(decided),
    }
}

/// Appends that the left side is set as a local, and the test whether it leaves the decision to the
/// right side, whose code follows.
#[tactic(auto, using(std::proofs::Common::append_assoc))]
pub(crate) fn begin_right_side(
    alloc: Global,
    out: &mut List<Line>,
    op: Op,
    local: u32,
    left: CExpr,
) -> Result<(), Memory>
    ensures { OnOk result (lines_in (items_of out.new) ≡ lines_in (items_of out.old)
        ++ lines.Set CType.Truth local (expr_of left)
        ∷ lines.If (going_on op (c.Local CType.Truth local)) ∷ []) }
{
    put(out, Line::Set(CType::Truth, local, left))?;
    let test = going_on(alloc, op, local)?;
    put(out, Line::If(test))
}

/// Appends that the right side is set as the local, and ends what `begin_right_side` began.
#[tactic(auto, using(std::proofs::Common::append_assoc))]
pub(crate) fn end_right_side(out: &mut List<Line>, local: u32, right: CExpr) -> Result<(), Memory>
    ensures { OnOk result (lines_in (items_of out.new) ≡ lines_in (items_of out.old)
        ++ lines.Set CType.Truth local (expr_of right) ∷ lines.Close ∷ []) }
{
    put(out, Line::Set(CType::Truth, local, right))?;
    put(out, Line::Close)
}

/// What `&&` and `||` give, as that local.
pub(crate) fn decided(local: u32) -> Operand
    requires { local + 1 < 2 ^ 32 }
    ensures expr { expr_of result.expr ≡ c.Local CType.Truth local }
    ensures sort { result.sort ≡ ExprSort.Flag }
    ensures next { result.next ≡ local + 1 }
{
    Operand {
        expr: CExpr::Local(CType::Truth, local),
        sort: ExprSort::Flag,
        next: local + 1,
    }
}
