//! The check that a plan of results is right.
ghost use Rattle.std.specs.Prelude.{
  ◌≡◌,
  ◌≤◌,
  ◌+◌,
  ℕ,
  IsTrue,
  None,
  Some,
  true,
  false,
  slice_get,
  slice_index_or,
};
ghost use Rattle.code_language.specs.Code.{code_of, cond_of, fetch, instr_of, instrs_of};
ghost use Rattle.code_language.specs.Instrs.{Ret};
ghost use Rattle.code_language.specs.declared.limits.TheConstants.{INSTR_LIMIT};
ghost use Rattle.code_shrink.specs.Shrunk.{IsThere};
ghost use Rattle.code_results.specs.Checked.{AreRight};
ghost use Rattle.code_results.specs.Folded as spec;
ghost use Rattle.code_results.specs.Views.{place_of, plan_of, results_of, unknown};
ghost use Rattle.code_results.specs.Results as results_spec;

use crate::plan::{KnownResults, Place, Results};
use crate::results::{all_among, is_any, may_be, one_among, only, others_among, told};
use code_language::{Cond, INSTR_LIMIT, Instr, RawCode};

/// A place of which nothing is known.
const UNKNOWN: Place = Place {
    results: Results::Any,
    may_differ: true,
    left_out: false,
};

/// What is known at a place of a procedure.
pub(crate) fn place_at(plan: &KnownResults, proc: usize, place: usize) -> Place
    ensures { place_of result ≡ (plan_of plan.now).place proc place }
{
    match plan.places.get(proc) {
        Some(places) => match places.get(place) {
            Some(known) => *known,
            None => UNKNOWN,
        },
        None => UNKNOWN,
    }
}

/// The results that a procedure may return.
fn returns_of(plan: &KnownResults, proc: usize) -> Results
    ensures { results_of result ≡ (plan_of plan.now).returns proc }
{
    match plan.returns.get(proc) {
        Some(results) => *results,
        None => Results::Any,
    }
}

/// Whether the last result may differ at the second place where it may at the first one.
fn differs_on(first: Place, second: Place) -> bool
    ensures { IsTrue result → first.may_differ ≡ true → second.may_differ ≡ true }
{
    !first.may_differ || second.may_differ
}

/// Whether a run may go on from one place of a procedure at another one, whatever the last result
/// is.
fn goes_on(plan: &KnownResults, proc: usize, from: usize, to: usize) -> bool
    ensures { IsTrue result → (r : ℕ)
        → results_spec.may_be ((plan_of plan.now).place proc from).results r ≡ true
        → spec.GoesOn (plan_of plan.now) proc from r to }
{
    let here = place_at(plan, proc, from);
    let there = place_at(plan, proc, to);
    all_among(here.results, there.results) && differs_on(here, there)
}

/// Whether a procedure may begin from a place and come back at the next one.
fn enters(plan: &KnownResults, proc: usize, place: usize, callee: usize) -> bool
    requires { place ≤ INSTR_LIMIT }
    ensures { IsTrue result → spec.Enters (plan_of plan.now) proc place callee }
{
    let next = place_at(plan, proc, place + 1);
    differs_on(place_at(plan, proc, place), place_at(plan, callee, 0))
        && all_among(returns_of(plan, callee), next.results)
}

/// Whether both places that a test leads to may be gone on at.
fn goes_both_ways(plan: &KnownResults, proc: usize, place: usize, over: u32) -> bool
    requires { place ≤ INSTR_LIMIT }
    ensures { IsTrue result → (r : ℕ)
        → results_spec.may_be ((plan_of plan.now).place proc place).results r ≡ true
        → spec.GoesOn (plan_of plan.now) proc place r (place + 1)
        × spec.GoesOn (plan_of plan.now) proc place r (place + 1 + over) }
{
    goes_on(plan, proc, place, place + 1) && goes_on(plan, proc, place, place + 1 + over as usize)
}

/// Whether a test of the last result that isn't decided is right.
fn is_open_test_right(plan: &KnownResults, proc: usize, place: usize, over: u32, value: u32) -> bool
    requires { place ≤ INSTR_LIMIT }
    ensures { IsTrue result → (r : ℕ)
        → results_spec.may_be ((plan_of plan.now).place proc place).results r ≡ true
        → spec.ResultTestIsRight (plan_of plan.now) proc place r None over value }
{
    let here = place_at(plan, proc, place);
    let next = place_at(plan, proc, place + 1);
    let far = place_at(plan, proc, place + 1 + over as usize);
    !here.may_differ
        && one_among(here.results, value, next.results)
        && others_among(here.results, value, far.results)
}

/// Whether a test of the last result is right.
fn is_result_test_right(
    plan: &KnownResults,
    proc: usize,
    place: usize,
    over: u32,
    value: u32,
) -> bool
    requires { place ≤ INSTR_LIMIT }
    ensures { IsTrue result → (r : ℕ)
        → results_spec.may_be ((plan_of plan.now).place proc place).results r ≡ true
        → spec.ResultTestIsRight (plan_of plan.now) proc place r
        (results_spec.told ((plan_of plan.now).place proc place).results value) over value }
{
    let here = place_at(plan, proc, place);
    match told(here.results, value) {
        Some(true) => goes_on(plan, proc, place, place + 1),
        Some(false) => goes_on(plan, proc, place, place + 1 + over as usize),
        None => is_open_test_right(plan, proc, place, over, value),
    }
}

/// Whether a test is right.
fn is_test_right(plan: &KnownResults, proc: usize, place: usize, over: u32, cond: &Cond) -> bool
    requires { place ≤ INSTR_LIMIT }
    ensures { IsTrue result → (r : ℕ)
        → results_spec.may_be ((plan_of plan.now).place proc place).results r ≡ true
        → spec.TestIsRight (plan_of plan.now) proc place r over (cond_of cond.now) }
{
    match cond {
        Cond::Result(value) => is_result_test_right(plan, proc, place, over, *value),
        Cond::On(_)
        | Cond::Bare(_)
        | Cond::OnHome
        | Cond::BareHome
        | Cond::Current(_)
        | Cond::Test(_)
        | Cond::Last(_) => goes_both_ways(plan, proc, place, over),
    }
}

/// The result with which a procedure returns at once, if it does.
pub(crate) fn returns_at_once(raw: &RawCode, proc: usize) -> Option<u32>
    ensures { (r : ℕ) → result ≡ Some r
        → fetch (code_of raw.now).procedures proc 0 ≡ Some (Ret r) }
{
    match raw.procs.items().get(proc) {
        Some(instrs) => first_return(instrs.items()),
        None => None,
    }
}

/// The result with which instructions return at once, if they do.
fn first_return(instrs: &[Instr]) -> Option<u32>
    ensures { (r : ℕ) → result ≡ Some r
        → slice_get (instrs_of instrs.now) 0 ≡ Some (Ret r) }
{
    match instrs.first() {
        Some(Instr::Ret(value)) => Some(*value),
        Some(_) => None,
        None => None,
    }
}

/// Whether the call of a procedure may be left out.
fn may_be_left_out(
    plan: &KnownResults,
    raw: &RawCode,
    proc: usize,
    place: usize,
    callee: usize,
) -> bool
    requires { place ≤ INSTR_LIMIT }
    ensures { IsTrue result
        → spec.MayBeLeftOut (plan_of plan.now) (code_of raw.now).procedures proc place callee }
{
    let next = place_at(plan, proc, place + 1);
    match returns_at_once(raw, callee) {
        Some(value) => may_be(next.results, value) && next.may_differ,
        None => false,
    }
}

/// Whether a call is right.
fn is_call_right(
    plan: &KnownResults,
    raw: &RawCode,
    proc: usize,
    place: usize,
    callee: usize,
) -> bool
    requires { place ≤ INSTR_LIMIT }
    ensures { IsTrue result → spec.CallIsRight (plan_of plan.now) (code_of raw.now).procedures
        proc place ((plan_of plan.now).place proc place).left_out callee }
{
    if place_at(plan, proc, place).left_out {
        may_be_left_out(plan, raw, proc, place, callee)
    } else {
        enters(plan, proc, place, callee)
    }
}

/// Whether one of the instructions returns with this result.
fn is_among_returns(instrs: &[Instr], value: u32) -> bool
    ensures { IsTrue result → (i : ℕ) × (slice_get (instrs_of instrs.now) i ≡ Some (Ret value)) }
{
    for instr in instrs {
        if is_return_of(instr, value) {
            return true;
        }
    }
    false
}

/// Whether the instruction returns with this result.
fn is_return_of(instr: &Instr, value: u32) -> bool
    ensures { IsTrue result → instr_of instr.now ≡ Ret value }
{
    match instr {
        Instr::Ret(returned) => *returned == value,
        _ => false,
    }
}

/// Whether some procedure returns with this result.
fn is_returned(raw: &RawCode, value: u32) -> bool
    ensures { IsTrue result → IsThere (code_of raw.now).procedures (Ret value) }
{
    for instrs in raw.procs.items() {
        if is_among_returns(instrs.items(), value) {
            return true;
        }
    }
    false
}

/// Whether a `Pass` is right.
fn is_pass_right(plan: &KnownResults, raw: &RawCode, proc: usize, place: usize) -> bool
    requires { place ≤ INSTR_LIMIT }
    ensures { IsTrue result → (r : ℕ)
        → results_spec.may_be ((plan_of plan.now).place proc place).results r ≡ true
        → spec.PassIsRight (plan_of plan.now) (code_of raw.now).procedures proc place r
        (results_spec.only ((plan_of plan.now).place proc place).results) }
{
    match only(place_at(plan, proc, place).results) {
        Some(0) => goes_on(plan, proc, place, place + 1),
        Some(value) => may_be(returns_of(plan, proc), value) && is_returned(raw, value),
        None => is_open_pass_right(plan, proc, place),
    }
}

/// Whether a `Pass` that isn't decided is right.
fn is_open_pass_right(plan: &KnownResults, proc: usize, place: usize) -> bool
    requires { place ≤ INSTR_LIMIT }
    ensures { IsTrue result → (r : ℕ)
        → results_spec.may_be ((plan_of plan.now).place proc place).results r ≡ true
        → (((plan_of plan.now).place proc place).may_differ ≡ false)
        × spec.PassesOn (plan_of plan.now) proc place r }
{
    let here = place_at(plan, proc, place);
    let next = place_at(plan, proc, place + 1);
    !here.may_differ
        && one_among(here.results, 0, next.results)
        && others_among(here.results, 0, returns_of(plan, proc))
}

/// Whether an instruction at a place is right, whatever the last result is.
fn is_reached_right(
    plan: &KnownResults,
    raw: &RawCode,
    proc: usize,
    place: usize,
    instr: &Instr,
) -> bool
    requires { place ≤ INSTR_LIMIT }
    ensures { IsTrue result → (r : ℕ)
        → results_spec.may_be ((plan_of plan.now).place proc place).results r ≡ true
        → spec.IsRight (plan_of plan.now) (code_of raw.now).procedures proc place r
        (instr_of instr.now) }
{
    let here = place_at(plan, proc, place);
    match instr {
        Instr::Unless(over, cond) => is_test_right(plan, proc, place, *over, cond),
        Instr::Skip(over) => goes_on(plan, proc, place, place + 1 + *over as usize),
        Instr::Call(callee, _) => is_call_right(plan, raw, proc, place, *callee as usize),
        Instr::Visit(callee, _) => enters(plan, proc, place, *callee as usize),
        Instr::Send(_) => enters(plan, proc, place, raw.react as usize),
        Instr::SendTo(_, _, callee) => {
            enters(plan, proc, place, *callee as usize) && goes_on(plan, proc, place, place + 1)
        }
        Instr::Play => {
            !here.may_differ && is_any(here.results) && goes_on(plan, proc, place, place + 1)
        }
        Instr::Pass => is_pass_right(plan, raw, proc, place),
        Instr::Ret(value) => may_be(returns_of(plan, proc), *value),
        Instr::Assign(_, _)
        | Instr::Emit(_)
        | Instr::Mark(_)
        | Instr::Clear(_)
        | Instr::Keep(_)
        | Instr::Home(_)
        | Instr::Begin => goes_on(plan, proc, place, place + 1),
    }
}

/// Whether an instruction at a place is right, whatever the last result is; where the place isn't
/// reached it is.
fn is_instr_right(
    plan: &KnownResults,
    raw: &RawCode,
    proc: usize,
    place: usize,
    instr: &Instr,
) -> bool
    requires { place ≤ INSTR_LIMIT }
    ensures { IsTrue result → (r : ℕ)
        → results_spec.may_be ((plan_of plan.now).place proc place).results r ≡ true
        → spec.IsRight (plan_of plan.now) (code_of raw.now).procedures proc place r
        (instr_of instr.now) }
{
    match place_at(plan, proc, place).results {
        Results::Nothing => true,
        Results::Any | Results::OneOf(_, _, _, _) => {
            is_reached_right(plan, raw, proc, place, instr)
        }
    }
}

/// Whether each instruction of a procedure is right.
fn is_procedure_right(plan: &KnownResults, raw: &RawCode, proc: usize, instrs: &[Instr]) -> bool
    ensures { IsTrue result → AreRight (plan_of plan.now)
        (code_of raw.now).procedures proc (instrs_of instrs.now) }
{
    if instrs.len() > INSTR_LIMIT {
        return false;
    }
    for (place, instr) in instrs.iter().enumerate() {
        if !is_instr_right(plan, raw, proc, place, instr) {
            return false;
        }
    }
    true
}

/// Whether each procedure may begin with any result.
fn may_begin(plan: &KnownResults) -> bool
    ensures { IsTrue result → (p r : ℕ)
        → results_spec.may_be ((plan_of plan.now).place p 0).results r ≡ true }
{
    for places in &plan.places {
        if !is_any_first(places) {
            return false;
        }
    }
    true
}

/// Whether the first place, if it is there, may have any result.
fn is_any_first(places: &[Place]) -> bool
    ensures { IsTrue result
        → (place_of (slice_index_or places.now 0 unknown)).results ≡ results_spec.Any }
{
    match places.first() {
        Some(place) => is_any(place.results),
        None => true,
    }
}

/// Whether the plan is right.
pub(crate) fn is_right(plan: &KnownResults, raw: &RawCode) -> bool
    ensures { IsTrue result → spec.PlanIsRight (plan_of plan.now) (code_of raw.now) }
{
    if !may_begin(plan) {
        return false;
    }
    for (proc, instrs) in raw.procs.items().iter().enumerate() {
        if !is_procedure_right(plan, raw, proc, instrs.items()) {
            return false;
        }
    }
    true
}
