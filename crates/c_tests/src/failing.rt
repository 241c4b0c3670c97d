//! Which instructions can fail.
ghost use Rattle.std.specs.Prelude.{◌≡◌};
ghost use Rattle.actions.specs.Trees.{expr_of};
ghost use Rattle.code_language.specs.Code.{code_of, cond_of, instr_of};
ghost use Rattle.c_functions.specs.Failing as spec;
ghost use Rattle.c_functions.specs.Plans.{declared_at};
ghost use Rattle.c_shape.specs.FileShapes.{tests_seen};

use actions::{Expr, Op};
use c_shape::Tests;
use code_language::{Cond, Instr, RawCode};
use fixed_point::Mode;

/// Whether the operator is `/`.
fn is_quotient(op: Op) -> bool
    ensures { result ≡ spec.is_quotient op }
{
    match op {
        Op::Div => true,
        Op::Or | Op::And | Op::Eq | Op::Ne | Op::Lt | Op::Le => false,
        Op::Gt | Op::Ge | Op::Add | Op::Sub | Op::Mul => false,
    }
}

/// Whether a quotient stands in the expression.
#[tactic(auto, unfolding(c_functions::specs::Failing::divides))]
fn divides(expr: &Expr) -> bool
    ensures { result ≡ spec.divides (expr_of expr.now) }
{
    match expr {
        Expr::Lit(_) | Expr::Flag(_) | Expr::Read(_) | Expr::Active(_) => false,
        Expr::Neg(inner) | Expr::Not(inner) => divides(inner),
        Expr::Bin(op, left, right) => is_quotient(*op) || divides(left) || divides(right),
    }
}

/// Whether a number out of range is a fault.
fn is_error(mode: Mode) -> bool
    ensures { result ≡ spec.is_error mode }
{
    match mode {
        Mode::Error => true,
        Mode::Saturate | Mode::Wrap => false,
    }
}

/// Whether a number out of range of a datum is a fault.
fn is_error_at(raw: &RawCode, datum: u32) -> bool
    ensures { result ≡ spec.is_error (declared_at (code_of raw.now).names datum).mode }
{
    match raw.vars.items().get(datum as usize) {
        Some(var) => is_error(var.mode),
        None => false,
    }
}

/// Whether a condition can fail.
fn cond_can_fail(cond: &Cond) -> bool
    ensures { result ≡ spec.cond_can_fail (cond_of cond.now) }
{
    match cond {
        Cond::Test(expr) => divides(expr),
        Cond::On(_) | Cond::Bare(_) | Cond::OnHome | Cond::BareHome => false,
        Cond::Current(_) | Cond::Result(_) | Cond::Last(_) => false,
    }
}

/// Whether an instruction can fail by a fault that is tested: by itself, or as it calls a procedure
/// whose result is tested.
pub(crate) fn can_fail(tests: &Tests, raw: &RawCode, instr: &Instr) -> bool
    ensures { result ≡ spec.can_fail (tests_seen tests.now) (code_of raw.now).names
        (code_of raw.now).procedures.react (instr_of instr.now) }
{
    match instr {
        Instr::Assign(datum, expr) => is_error_at(raw, *datum) || divides(expr),
        Instr::Emit(_) => tests.steps,
        Instr::Unless(_, cond) => cond_can_fail(cond),
        Instr::Call(proc, _) => tests.is_after(*proc),
        Instr::Visit(proc, _) => tests.steps || tests.is_after(*proc),
        Instr::Send(_) => tests.steps || tests.depth || tests.is_after(raw.react),
        Instr::SendTo(_, _, proc) => tests.steps || tests.depth || tests.is_after(*proc),
        Instr::Play => true,
        Instr::Mark(_) | Instr::Clear(_) | Instr::Keep(_) | Instr::Skip(_) => false,
        Instr::Home(_) | Instr::Begin | Instr::Pass | Instr::Ret(_) => false,
    }
}
