//! Numbers that equal procedures share, and different ones hardly ever. No answer depends on them.
ghost use Rattle.std.specs.Prelude.{◌<◌, length};

use actions::{Expr, Op};
use code_language::{Cond, Instr};
use code_shrink::number_at;

/// A sum with one more number.
fn mixed(sum: u64, number: u64) -> u64 {
    (sum ^ number).wrapping_mul(0x100_0000_01b3).rotate_left(23)
}

/// A sum with two more numbers.
fn mixed_two(sum: u64, kind: u64, number: u32) -> u64 {
    mixed(mixed(sum, kind), number as u64)
}

/// The number of an operator.
fn operator_number(op: Op) -> u32 {
    match op {
        Op::Or => 0,
        Op::And => 1,
        Op::Eq => 2,
        Op::Ne => 3,
        Op::Lt => 4,
        Op::Le => 5,
        Op::Gt => 6,
        Op::Ge => 7,
        Op::Add => 8,
        Op::Sub => 9,
        Op::Mul => 10,
        Op::Div => 11,
    }
}

/// A number of a mantissa: it itself, 0 for one that is below 0 or doesn't fit.
fn mantissa_number(mantissa: i128) -> u64 {
    match u64::try_from(mantissa) {
        Ok(number) => number,
        Err(_) => 0,
    }
}

/// A sum with an expression.
fn with_expr(sum: u64, expr: &Expr) -> u64 {
    match expr {
        Expr::Lit(number) => mixed_two(sum, mantissa_number(number.mantissa), number.frac),
        Expr::Flag(flag) => mixed(sum, if *flag { 32 } else { 33 }),
        Expr::Read(datum) => mixed_two(sum, 34, *datum),
        Expr::Active(state) => mixed_two(sum, 35, *state),
        Expr::Neg(inner) => with_expr(mixed(sum, 36), inner),
        Expr::Not(inner) => with_expr(mixed(sum, 37), inner),
        Expr::Bin(op, left, right) => {
            with_expr(
                with_expr(mixed_two(sum, 38, operator_number(*op)), left),
                right,
            )
        }
    }
}

/// A sum with a condition.
fn with_cond(sum: u64, cond: &Cond) -> u64 {
    match cond {
        Cond::On(state) => mixed_two(sum, 16, *state),
        Cond::Bare(state) => mixed_two(sum, 17, *state),
        Cond::OnHome => mixed(sum, 18),
        Cond::BareHome => mixed(sum, 19),
        Cond::Current(event) => mixed_two(sum, 20, *event),
        Cond::Result(value) => mixed_two(sum, 21, *value),
        Cond::Test(expr) => with_expr(mixed(sum, 22), expr),
        Cond::Last(state) => mixed_two(sum, 23, *state),
    }
}

/// A sum with a procedure that is named and its note.
fn with_call(sum: u64, numbers: &[u32], proc: u32, note: Option<u32>) -> u64
    requires { 0 < length numbers.now }
{
    let called = mixed(sum, number_at(numbers, proc) as u64);
    match note {
        Some(noted) => mixed_two(called, 24, number_at(numbers, noted)),
        None => mixed(called, 25),
    }
}

/// A sum with an instruction.
fn with_instr(sum: u64, numbers: &[u32], instr: &Instr) -> u64
    requires { 0 < length numbers.now }
{
    match instr {
        Instr::Assign(datum, expr) => with_expr(mixed_two(sum, 0, *datum), expr),
        Instr::Emit(event) => mixed_two(sum, 1, *event),
        Instr::Mark(state) => mixed_two(sum, 2, *state),
        Instr::Clear(state) => mixed_two(sum, 3, *state),
        Instr::Keep(state) => mixed_two(sum, 4, *state),
        Instr::Unless(over, cond) => with_cond(mixed_two(sum, 5, *over), cond),
        Instr::Skip(over) => mixed_two(sum, 6, *over),
        Instr::Call(proc, note) => with_call(mixed(sum, 7), numbers, *proc, *note),
        Instr::Visit(proc, note) => with_call(mixed(sum, 8), numbers, *proc, *note),
        Instr::Send(event) => mixed_two(sum, 9, *event),
        Instr::SendTo(event, state, proc) => {
            with_call(
                mixed_two(mixed_two(sum, 10, *event), 26, *state),
                numbers,
                *proc,
                None,
            )
        }
        Instr::Play => mixed(sum, 11),
        Instr::Home(state) => mixed_two(sum, 12, *state),
        Instr::Begin => mixed(sum, 13),
        Instr::Pass => mixed(sum, 14),
        Instr::Ret(value) => mixed_two(sum, 15, *value),
    }
}

/// The sum of a procedure, with the numbers that stand for what it names.
pub(crate) fn sum_of(numbers: &[u32], instrs: &[Instr]) -> u64
    requires { 0 < length numbers.now }
{
    let mut sum: u64 = 0xcbf2_9ce4_8422_2325;
    for instr in instrs {
        sum = with_instr(sum, numbers, instr);
    }
    sum
}
