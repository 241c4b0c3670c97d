//! Whether instructions are equal, with the numbers that stand for the procedures that they name.
ghost use Rattle.std.specs.Prelude.{◌≡◌, ◌<◌, IsTrue, length};
ghost use Rattle.actions.specs.Trees.{expr_of};
ghost use Rattle.code_language.specs.Code.{cond_of, instr_of, instrs_of};
ghost use Rattle.code_merging.specs.Merged.{under};
ghost use Rattle.code_shrink.specs.Follows.{note_by, renamed};
ghost use Rattle.code_shrink.specs.Numbers.{number_by};

use actions::Expr;
use code_language::{Cond, Instr};
use code_shrink::number_at;

/// Whether two expressions are equal.
fn is_same_expr(left: &Expr, right: &Expr) -> bool
    ensures { IsTrue result → expr_of left.now ≡ expr_of right.now }
{
    match (left, right) {
        (Expr::Lit(number), Expr::Lit(other)) => *number == *other,
        (Expr::Flag(flag), Expr::Flag(other)) => *flag == *other,
        (Expr::Read(datum), Expr::Read(other)) => *datum == *other,
        (Expr::Active(state), Expr::Active(other)) => *state == *other,
        (Expr::Neg(inner), Expr::Neg(other)) => is_same_expr(inner, other),
        (Expr::Not(inner), Expr::Not(other)) => is_same_expr(inner, other),
        (Expr::Bin(op, first, second), Expr::Bin(other, third, fourth)) => {
            *op == *other && is_same_expr(first, third) && is_same_expr(second, fourth)
        }
        _ => false,
    }
}

/// Whether two conditions are equal.
fn is_same_cond(left: &Cond, right: &Cond) -> bool
    ensures { IsTrue result → cond_of left.now ≡ cond_of right.now }
{
    match (left, right) {
        (Cond::On(state), Cond::On(other)) => *state == *other,
        (Cond::Bare(state), Cond::Bare(other)) => *state == *other,
        (Cond::OnHome, Cond::OnHome) => true,
        (Cond::BareHome, Cond::BareHome) => true,
        (Cond::Current(event), Cond::Current(other)) => *event == *other,
        (Cond::Result(value), Cond::Result(other)) => *value == *other,
        (Cond::Test(expr), Cond::Test(other)) => is_same_expr(expr, other),
        (Cond::Last(state), Cond::Last(other)) => *state == *other,
        _ => false,
    }
}

/// Whether one procedure stands for both.
fn is_same_proc(numbers: &[u32], left: u32, right: u32) -> bool
    requires { 0 < length numbers.now }
    ensures { IsTrue result → number_by numbers.now left ≡ number_by numbers.now right }
{
    number_at(numbers, left) == number_at(numbers, right)
}

/// Whether two notes are none, or one procedure stands for both.
fn is_same_note(numbers: &[u32], left: Option<u32>, right: Option<u32>) -> bool
    requires { 0 < length numbers.now }
    ensures { IsTrue result
        → note_by (number_by numbers.now) left ≡ note_by (number_by numbers.now) right }
{
    match left {
        None => right.is_none(),
        Some(proc) => match right {
            None => false,
            Some(other) => is_same_proc(numbers, proc, other),
        },
    }
}

/// Whether two instructions are equal, with the numbers that stand for what they name.
#[tactic(auto, unfolding(code_shrink::specs::Follows::renamed))]
fn is_same_instr(numbers: &[u32], left: &Instr, right: &Instr) -> bool
    requires { 0 < length numbers.now }
    ensures { IsTrue result → renamed (number_by numbers.now) (instr_of left.now)
        ≡ renamed (number_by numbers.now) (instr_of right.now) }
{
    match (left, right) {
        (Instr::Assign(datum, expr), Instr::Assign(other, value)) => {
            *datum == *other && is_same_expr(expr, value)
        }
        (Instr::Emit(event), Instr::Emit(other)) => *event == *other,
        (Instr::Mark(state), Instr::Mark(other)) => *state == *other,
        (Instr::Clear(state), Instr::Clear(other)) => *state == *other,
        (Instr::Keep(state), Instr::Keep(other)) => *state == *other,
        (Instr::Unless(over, cond), Instr::Unless(other, test)) => {
            *over == *other && is_same_cond(cond, test)
        }
        (Instr::Skip(over), Instr::Skip(other)) => *over == *other,
        (Instr::Call(proc, note), Instr::Call(other, tag)) => {
            is_same_proc(numbers, *proc, *other) && is_same_note(numbers, *note, *tag)
        }
        (Instr::Visit(proc, note), Instr::Visit(other, tag)) => {
            is_same_proc(numbers, *proc, *other) && is_same_note(numbers, *note, *tag)
        }
        (Instr::Send(event), Instr::Send(other)) => *event == *other,
        (Instr::SendTo(event, state, proc), Instr::SendTo(other, place, callee)) => {
            *event == *other && *state == *place && is_same_proc(numbers, *proc, *callee)
        }
        (Instr::Play, Instr::Play) => true,
        (Instr::Home(state), Instr::Home(other)) => *state == *other,
        (Instr::Begin, Instr::Begin) => true,
        (Instr::Pass, Instr::Pass) => true,
        (Instr::Ret(value), Instr::Ret(other)) => *value == *other,
        _ => false,
    }
}

/// Whether two procedures have the same instructions, with the numbers that stand for what they
/// name.
pub(crate) fn are_same(numbers: &[u32], left: &[Instr], right: &[Instr]) -> bool
    requires { 0 < length numbers.now }
    ensures { IsTrue result → under (number_by numbers.now) (instrs_of left.now)
        ≡ under (number_by numbers.now) (instrs_of right.now) }
{
    if left.len() != right.len() {
        return false;
    }
    for (place, instr) in left.iter().enumerate() {
        if !is_same_instr(numbers, instr, &right[place]) {
            return false;
        }
    }
    true
}
