//! The check that a plan of copies is right.
ghost use Rattle.std.specs.Prelude.{
  ◌≡◌,
  ◌<◌,
  ℕ,
  List,
  ◌∷◌,
  true,
  Some,
  Vec,
  IsTrue,
  slice_get,
};
ghost use Rattle.std.specs.declared.alloc.Global.{Global};
ghost use Rattle.code_language.specs.Code.{code_of, instr_of, instrs_of};
ghost use Rattle.code_language.specs.Instrs as instrs;
ghost use Rattle.code_copies.specs.Facts.{at_start, at_reaction};
ghost use Rattle.code_copies.specs.Follows.{Serves};
ghost use Rattle.code_copies.specs.Views.{
  copy_of,
  facts_of,
  maybe_place_of,
  place_of,
  places_of,
  plan_of,
};
ghost use Rattle.code_copies.specs.Made.{
  keys_of,
  plan_setting,
  HomeIsState,
  CallServes,
  SendServes,
  IsRight,
  PlacesAreRight,
  CopyIsRight,
  PlanIsRight,
};
ghost use Rattle.code_copies.specs.Rooted.{NeverClears, IsRooted};
ghost use Rattle.code_copies.specs.declared.plan.ProcedureCopy.{ProcedureCopy};

use crate::handing::{hands_on, mark_hands_on, test_hands_on};
use crate::known::{EventFact, Facts};
use crate::plan::{Place, Plan, ProcedureCopy};
use crate::root_code::{never_clears, starts_root};
use crate::serving::{serves, serves_home, serves_note};
use actions::Event;
use code_language::{Code, Instr, PROC_LIMIT, RawCode};

/// Whether the copy and the note of a reached place stand for the procedure and the note that its
/// instruction names.
fn call_serves(plan: &Plan, place: Place, proc: u32, note: Option<u32>) -> bool
    ensures { IsTrue result → CallServes (keys_of (plan_of plan.now).copies)
        (place_of plan.now.sets.items place) proc note }
{
    serves(plan, place.facts, proc, place.copy)
        && serves_note(plan, place.facts.is_rooted, note, place.note)
}

/// Whether a copy of the reaction is sent an event at a reached place: that of the place, where the
/// root is known to be active, else that of the plan.
fn send_serves(plan: &Plan, code: &RawCode, place: Place, event: u32) -> bool
    ensures { IsTrue result
        → SendServes (plan_setting (plan_of plan.now) (code_of code.now).procedures)
        place.facts.is_rooted place.copy event }
{
    let sent = Facts {
        home: Some(0),
        event: EventFact::Is(Event::Named(event)),
        ..place.facts
    };
    if place.facts.is_rooted {
        serves(plan, sent, code.react, place.copy)
    } else {
        serves(plan, sent, code.react, plan.react)
    }
}

/// Whether a reached place is right, with this instruction, and with these places after it.
fn is_instr_right(
    plan: &Plan,
    code: &RawCode,
    place: Place,
    instr: &Instr,
    rest: &[Option<Place>],
) -> bool
    ensures { IsTrue result
        → IsRight (plan_setting (plan_of plan.now) (code_of code.now).procedures)
        (place_of plan.now.sets.items place) (instr_of instr.now)
        (places_of plan.now.sets.items rest.now) }
{
    let facts = place.facts;
    match instr {
        Instr::Assign(_, _)
        | Instr::Emit(_)
        | Instr::Clear(_)
        | Instr::Keep(_)
        | Instr::Play
        | Instr::Begin
        | Instr::Pass => hands_on(&plan.sets, facts, rest, 0),
        Instr::Mark(state) => mark_hands_on(&plan.sets, plan.keeps_root, facts, *state, rest),
        Instr::Unless(over, cond) => {
            test_hands_on(&plan.sets, plan.keeps_root, facts, *over, cond, rest)
        }
        Instr::Skip(over) => hands_on(&plan.sets, facts, rest, *over),
        Instr::Call(proc, note) | Instr::Visit(proc, note) => {
            call_serves(plan, place, *proc, *note) && hands_on(&plan.sets, facts, rest, 0)
        }
        Instr::Send(event) => {
            send_serves(plan, code, place, *event) && hands_on(&plan.sets, facts, rest, 0)
        }
        Instr::SendTo(event, _, proc) => {
            let sent = Facts {
                home: Some(0),
                event: EventFact::Is(Event::Named(*event)),
                ..facts
            };
            serves(plan, sent, *proc, place.copy) && hands_on(&plan.sets, facts, rest, 0)
        }
        Instr::Home(home) => {
            let at_home = Facts {
                home: Some(*home),
                ..facts
            };
            hands_on(&plan.sets, at_home, rest, 0)
        }
        Instr::Ret(_) => true,
    }
}

/// Whether the known home, if there is one, is a state.
fn is_home_state(code: &RawCode, facts: Facts) -> bool
    ensures { IsTrue result → (sets : List (Vec ℕ Global))
        → HomeIsState (code_of code.now).tree (facts_of sets facts) }
{
    match facts.home {
        Some(home) => (home as usize) < code.states.items().len(),
        None => true,
    }
}

/// Whether a place is right, if it is reached, so that all is right from it on where all is right
/// after it.
fn is_place_right(
    plan: &Plan,
    code: &RawCode,
    place: Option<Place>,
    instr: &Instr,
    rest: &[Option<Place>],
) -> bool
    ensures { IsTrue result → (after : List instrs.Instr)
        → PlacesAreRight (code_of code.now).tree
        (plan_setting (plan_of plan.now) (code_of code.now).procedures)
        (places_of plan.now.sets.items rest.now) after
        → PlacesAreRight (code_of code.now).tree
        (plan_setting (plan_of plan.now) (code_of code.now).procedures)
        (maybe_place_of plan.now.sets.items place ∷ places_of plan.now.sets.items rest.now)
        (instr_of instr.now ∷ after) }
{
    match place {
        Some(place) => {
            is_home_state(code, place.facts) && is_instr_right(plan, code, place, instr, rest)
        }
        None => true,
    }
}

/// Whether each place of a procedure is right where it is reached.
fn are_places_right(plan: &Plan, code: &RawCode, places: &[Option<Place>], instrs: &[Instr]) -> bool
    ensures { IsTrue result
        → PlacesAreRight (code_of code.now).tree
        (plan_setting (plan_of plan.now) (code_of code.now).procedures)
        (places_of plan.now.sets.items places.now) (instrs_of instrs.now) }
{
    if places.len() != instrs.len() {
        return false;
    }
    for (index, place) in places.iter().enumerate() {
        if !is_place_right(plan, code, *place, &instrs[index], &places[index + 1..]) {
            return false;
        }
    }
    true
}

/// Whether a copy is one of a procedure that is there, knows at first no more than it takes for
/// known, and is right everywhere.
fn is_copy_right(plan: &Plan, code: &RawCode, copy: &ProcedureCopy) -> bool
    ensures { IsTrue result → CopyIsRight (plan_of plan.now) (code_of code.now)
        (copy_of plan.now.sets.items copy.now) }
{
    match code.procs.items().get(copy.key.proc as usize) {
        Some(instrs) => {
            hands_on(&plan.sets, copy.key.facts, &copy.places, 0)
                && are_places_right(plan, code, &copy.places, instrs.items())
        }
        None => false,
    }
}

/// Whether each copy is right.
fn are_copies_right(plan: &Plan, code: &RawCode) -> bool
    ensures { IsTrue result → (i : ℕ) (c : ProcedureCopy)
        → slice_get plan.now.copies.items i ≡ Some c
        → CopyIsRight (plan_of plan.now) (code_of code.now) (copy_of plan.now.sets.items c) }
{
    for copy in &plan.copies {
        if !is_copy_right(plan, code, copy) {
            return false;
        }
    }
    true
}

/// Whether copies of lower procedures come first.
fn are_in_order(copies: &[ProcedureCopy]) -> bool
    ensures { IsTrue result → (i j : ℕ) (c d : ProcedureCopy) → slice_get copies.now i ≡ Some c
        → slice_get copies.now j ≡ Some d → c.key.proc < d.key.proc → i < j }
{
    let mut last = 0;
    for copy in copies {
        if copy.key.proc < last {
            return false;
        }
        last = copy.key.proc;
    }
    true
}

/// Whether the copies with which a start and a reaction begin stand for their procedures.
fn serve_entries(plan: &Plan, code: &RawCode) -> bool
    ensures { IsTrue result
        → Serves (keys_of (plan_of plan.now).copies) at_start (code_of code.now).procedures.start
        (plan_of plan.now).start
        × Serves (keys_of (plan_of plan.now).copies) (at_reaction plan.now.is_rooted)
        (code_of code.now).procedures.react (plan_of plan.now).react }
{
    let started = Facts {
        home: Some(0),
        event: EventFact::Is(Event::Start),
        is_rooted: false,
    };
    serves(plan, started, code.start, plan.start)
        && serves_home(plan, Some(0), plan.is_rooted, code.react, plan.react)
}

/// Whether what the plan says of the root holds.
fn is_root_right(code: &Code, plan: &Plan) -> bool
    ensures { IsTrue result
        → (plan.now.keeps_root ≡ true → NeverClears (code_of code.now).procedures)
        × (plan.now.is_rooted ≡ true
        → (plan.now.keeps_root ≡ true) × IsRooted (code_of code.now)) }
{
    if plan.keeps_root {
        let raw = code.raw();
        never_clears(raw) && (!plan.is_rooted || starts_root(raw))
    } else {
        !plan.is_rooted
    }
}

/// Whether the plan is right for the code.
///
/// It takes no memory, and its time grows with the number of places and with the sizes of the sets
/// of events that they name.
pub fn is_right(code: &Code, plan: &Plan) -> bool
    ensures { IsTrue result → PlanIsRight (plan_of plan.now) (code_of code.now) }
{
    if plan.copies.len() > PROC_LIMIT {
        return false;
    }
    if !is_root_right(code, plan) {
        return false;
    }
    let raw = code.raw();
    serve_entries(plan, raw) && are_in_order(&plan.copies) && are_copies_right(plan, raw)
}
