//! Which copies of a plan stand for which procedures.
ghost use Rattle.std.specs.Prelude.{◌≡◌, ℕ, Option, Some, IfSome, IsTrue, slice_get};
ghost use Rattle.code_copies.specs.Facts as spec;
ghost use Rattle.code_copies.specs.Follows.{Serves, ServesNote};
ghost use Rattle.code_copies.specs.Views.{facts_of, plan_of};
ghost use Rattle.code_copies.specs.Made.{keys_of};

use crate::known::{Facts, implies, tell_home_alone};
use crate::plan::Plan;

/// What a copy takes for known, if it is there and is one of this procedure.
fn facts_of_copy(plan: &Plan, proc: u32, copy: u32) -> Option<Facts>
    ensures { IfSome result (λ facts. slice_get (keys_of (plan_of plan.now).copies) copy
        ≡ Some (record { proc = proc; facts = facts_of plan.now.sets.items facts })) }
{
    let copy = plan.copies.get(copy as usize)?;
    if copy.key.proc == proc {
        Some(copy.key.facts)
    } else {
        None
    }
}

/// Whether a copy stands for a procedure where these facts are known.
pub(crate) fn serves(plan: &Plan, facts: Facts, proc: u32, copy: u32) -> bool
    ensures { IsTrue result → Serves (keys_of (plan_of plan.now).copies)
        (facts_of plan.now.sets.items facts) proc copy }
{
    match facts_of_copy(plan, proc, copy) {
        Some(taken) => implies(&plan.sets, facts, taken),
        None => false,
    }
}

/// Whether a copy stands for a procedure where nothing is known but this home, and that the root is
/// active where it is said to be.
pub(crate) fn serves_home(
    plan: &Plan,
    home: Option<u32>,
    is_rooted: bool,
    proc: u32,
    copy: u32,
) -> bool
    ensures { IsTrue result → Serves (keys_of (plan_of plan.now).copies)
        (record (spec.at_note is_rooted) { home = home }) proc copy }
{
    match facts_of_copy(plan, proc, copy) {
        Some(taken) => tell_home_alone(&plan.sets, home, is_rooted, taken),
        None => false,
    }
}

/// Whether the note of a copy stands for a note: there is none, or its copy takes nothing for
/// known, but that the root is active where it is said to be.
pub(crate) fn serves_note(
    plan: &Plan,
    is_rooted: bool,
    note: Option<u32>,
    copy: Option<u32>,
) -> bool
    ensures { IsTrue result
        → ServesNote (keys_of (plan_of plan.now).copies) is_rooted note copy }
{
    match (note, copy) {
        (None, None) => true,
        (None, Some(_)) => false,
        (Some(_), None) => false,
        (Some(proc), Some(copy)) => serves_home(plan, None, is_rooted, proc, copy),
    }
}
