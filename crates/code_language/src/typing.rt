//! Whether the types of instructions are right.
ghost use Rattle.std.specs.Prelude.{◌≡◌, ◌+◌, ◌<◌, ◌↔◌, Ok, Some, None, IfSome, slice_get, false};
ghost use Rattle.std.specs.Option.{option_map_or};
ghost use Rattle.actions.specs.Sorts as sorts;
ghost use Rattle.actions.specs.Trees.{expr_of};
ghost use Rattle.checked_chart.specs.Expressions.{operator_count};
ghost use Rattle.code_language.specs.Code.{code_of, cond_of, instr_of};
ghost use Rattle.code_language.specs.WellFormed as spec;

use crate::code::RawCode;
use crate::instr::{Cond, Instr};
use actions::{
    EventKind, Expr, ExprFault, ExprSort, Sort, Var, VarKind, assignment_fault, binary_sort,
    literal_sort, negative_sort, not_sort,
};
use fixed_point::{Num, PLACES_LIMIT, READ_LIMIT};
use flow_base::chart_limits::OPERATOR_LIMIT;

/// Whether a literal is in range: its mantissa is one that is read, and so is its fraction.
fn is_literal(number: Num) -> bool
    ensures { result ≡ spec.is_literal number }
{
    0 <= number.mantissa
        && number.mantissa < READ_LIMIT as i128
        && number.frac <= u32::from(PLACES_LIMIT)
}

/// Whether every literal of an expression is in range.
#[tactic(auto, unfolding(crate::specs::WellFormed::has_literals))]
fn has_literals(expr: &Expr) -> bool
    ensures { result ≡ spec.has_literals (expr_of expr.now) }
{
    match expr {
        Expr::Lit(number) => is_literal(*number),
        Expr::Flag(_) | Expr::Read(_) | Expr::Active(_) => true,
        Expr::Neg(inner) | Expr::Not(inner) => has_literals(inner),
        Expr::Bin(_, left, right) => has_literals(left) && has_literals(right),
    }
}

/// How many more operators there may be besides those of the expression, where there may be `most`;
/// none where the expression has more.
fn operators_left(expr: &Expr, most: u32) -> Option<u32>
    ensures left { IfSome result (λ left. left + operator_count (expr_of expr.now) ≡ most) }
    ensures over { (result ≡ None) ↔ (most < operator_count (expr_of expr.now)) }
{
    match expr {
        Expr::Lit(_) | Expr::Flag(_) | Expr::Read(_) | Expr::Active(_) => Some(most),
        Expr::Neg(inner) | Expr::Not(inner) => operators_left(inner, most.checked_sub(1)?),
        Expr::Bin(_, left, right) => {
            let most = operators_left(left, most.checked_sub(1)?)?;
            operators_left(right, most)
        }
    }
}

/// Whether an expression is short enough, and its literals are in range.
fn is_plain(expr: &Expr) -> bool
    ensures { result ≡ spec.is_plain (expr_of expr.now) }
{
    operators_left(expr, OPERATOR_LIMIT).is_some() && has_literals(expr)
}

/// What a datum of that sort gives.
fn sort_of_datum(sort: Sort) -> ExprSort
    ensures { Ok result ≡ sorts.datum_sort (Some sort) }
{
    match sort {
        Sort::Flag => ExprSort::Flag,
        Sort::Number(scale) => {
            let width = u32::from(scale.width);
            ExprSort::Number {
                frac: u32::from(scale.frac),
                size: if scale.signed { width - 1 } else { width },
            }
        }
    }
}

/// What the datum of that number gives. `Range` where there is none.
fn datum_sort(raw: &RawCode, datum: u32) -> Result<ExprSort, ExprFault>
    ensures { result
        ≡ sorts.datum_sort (slice_get (sorts.scope_of (code_of raw.now).names).sorts datum) }
{
    match raw.vars.items().get(datum as usize) {
        Some(var) => Ok(sort_of_datum(var.sort)),
        None => Err(ExprFault::Range),
    }
}

/// What `in(STATE)` gives for the state of that number. `Range` where there is none.
fn state_sort(raw: &RawCode, state: u32) -> Result<ExprSort, ExprFault>
    ensures { result ≡ sorts.state_sort (sorts.scope_of (code_of raw.now).names).states state }
{
    if (state as usize) < raw.states.items().len() {
        Ok(ExprSort::Flag)
    } else {
        Err(ExprFault::Range)
    }
}

/// The sort of an expression over what the code declares, or its first fault.
#[tactic(auto, unfolding(actions::specs::Sorts::sort_of))]
fn sort_of(raw: &RawCode, expr: &Expr) -> Result<ExprSort, ExprFault>
    ensures sort { result
        ≡ sorts.sort_of (sorts.scope_of (code_of raw.now).names) (expr_of expr.now) }
{
    match expr {
        Expr::Lit(number) => literal_sort(*number),
        Expr::Flag(_) => Ok(ExprSort::Flag),
        Expr::Read(datum) => datum_sort(raw, *datum),
        Expr::Active(state) => state_sort(raw, *state),
        Expr::Neg(inner) => negative_sort(sort_of(raw, inner)?),
        Expr::Not(inner) => not_sort(sort_of(raw, inner)?),
        Expr::Bin(op, left, right) => {
            let left = sort_of(raw, left)?;
            let right = sort_of(raw, right)?;
            binary_sort(*op, left, right)
        }
    }
}

/// Whether a datum can be given a value of that sort: it is no input, and its sort is such.
fn accepts(var: &Var, given: ExprSort) -> bool
    ensures { result ≡ spec.takes var.now (Ok given) }
{
    is_assigned(var.kind) && assignment_fault(var.sort, given).is_none()
}

/// Whether a datum can be given what the expression gives: it is no input, and of that sort.
fn takes(raw: &RawCode, datum: u32, expr: &Expr) -> bool
    ensures { let k = code_of raw.now in result ≡ option_map_or
        (λ decl. spec.takes decl (sorts.sort_of (sorts.scope_of k.names) (expr_of expr.now)))
        (slice_get k.names.vars datum) false }
{
    let Some(var) = raw.vars.items().get(datum as usize) else {
        return false;
    };
    match sort_of(raw, expr) {
        Ok(given) => accepts(var, given),
        Err(_) => false,
    }
}

/// Whether code may assign to a datum of that kind.
fn is_assigned(kind: VarKind) -> bool
    ensures { result ≡ spec.is_assigned kind }
{
    match kind {
        VarKind::Input => false,
        VarKind::Output | VarKind::Local => true,
    }
}

/// Whether an expression gives a flag.
fn is_flag(raw: &RawCode, expr: &Expr) -> bool
    ensures { result ≡ spec.is_flag
        (sorts.sort_of (sorts.scope_of (code_of raw.now).names) (expr_of expr.now)) }
{
    match sort_of(raw, expr) {
        Ok(ExprSort::Flag) => true,
        Ok(ExprSort::Number { .. }) | Err(_) => false,
    }
}

/// Whether events of that kind are output events.
fn is_output_kind(kind: EventKind) -> bool
    ensures { result ≡ spec.is_output kind }
{
    match kind {
        EventKind::Output => true,
        EventKind::Input | EventKind::Local => false,
    }
}

/// Whether the event of that number is an output event.
fn is_output(raw: &RawCode, event: u32) -> bool
    ensures { result ≡ spec.event_is (spec.known_of (code_of raw.now)) spec.is_output event }
{
    match raw.events.items().get(event as usize) {
        Some(decl) => is_output_kind(decl.kind),
        None => false,
    }
}

/// Whether events of that kind are local events.
fn is_local_kind(kind: EventKind) -> bool
    ensures { result ≡ spec.is_local kind }
{
    match kind {
        EventKind::Local => true,
        EventKind::Input | EventKind::Output => false,
    }
}

/// Whether the event of that number is a local event.
fn is_local(raw: &RawCode, event: u32) -> bool
    ensures { result ≡ spec.event_is (spec.known_of (code_of raw.now)) spec.is_local event }
{
    match raw.events.items().get(event as usize) {
        Some(decl) => is_local_kind(decl.kind),
        None => false,
    }
}

/// Whether events of that kind can be current.
fn is_trigger_kind(kind: EventKind) -> bool
    ensures { result ≡ spec.is_trigger kind }
{
    match kind {
        EventKind::Input | EventKind::Local => true,
        EventKind::Output => false,
    }
}

/// Whether the event of that number can be current.
fn is_trigger(raw: &RawCode, event: u32) -> bool
    ensures { result ≡ spec.event_is (spec.known_of (code_of raw.now)) spec.is_trigger event }
{
    match raw.events.items().get(event as usize) {
        Some(decl) => is_trigger_kind(decl.kind),
        None => false,
    }
}

/// Whether the types of a condition are right.
#[tactic(auto, unfolding(crate::specs::WellFormed::cond_typed))]
fn cond_typed(raw: &RawCode, cond: &Cond) -> bool
    ensures { result ≡ spec.cond_typed (spec.known_of (code_of raw.now)) (cond_of cond.now) }
{
    match cond {
        Cond::Current(event) => is_trigger(raw, *event),
        Cond::Test(expr) => is_plain(expr) && is_flag(raw, expr),
        Cond::On(_)
        | Cond::Bare(_)
        | Cond::OnHome
        | Cond::BareHome
        | Cond::Result(_)
        | Cond::Last(_) => true,
    }
}

/// Whether the types of an instruction are right.
#[tactic(auto, unfolding(crate::specs::WellFormed::instr_typed))]
pub fn instr_typed(raw: &RawCode, instr: &Instr) -> bool
    ensures { result ≡ spec.instr_typed (spec.known_of (code_of raw.now)) (instr_of instr.now) }
{
    match instr {
        Instr::Assign(datum, expr) => is_plain(expr) && takes(raw, *datum, expr),
        Instr::Emit(event) => is_output(raw, *event),
        Instr::Send(event) | Instr::SendTo(event, _, _) => is_local(raw, *event),
        Instr::Unless(_, cond) => cond_typed(raw, cond),
        Instr::Mark(_)
        | Instr::Clear(_)
        | Instr::Keep(_)
        | Instr::Skip(_)
        | Instr::Call(_, _)
        | Instr::Visit(_, _)
        | Instr::Play
        | Instr::Home(_)
        | Instr::Begin
        | Instr::Pass
        | Instr::Ret(_) => true,
    }
}
