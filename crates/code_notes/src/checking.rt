//! The check that a plan of notes is right.
ghost use Rattle.std.specs.Prelude.{
  ◌≡◌,
  ◌≤◌,
  ◌+◌,
  Vec,
  ℕ,
  List,
  ◌++◌,
  [],
  IsTrue,
  None,
  Some,
  true,
  false,
  slice_get,
  slice_index_or,
};
ghost use Rattle.std.specs.declared.alloc.Global.{Global};
ghost use Rattle.code_language.specs.Code.{code_of, instr_of, instrs_of};
ghost use Rattle.code_language.specs.Instrs.{Ret};
ghost use Rattle.code_language.specs.declared.limits.TheConstants.{INSTR_LIMIT};
ghost use Rattle.code_shrink.specs.Shrunk.{IsThere};
ghost use Rattle.code_language.specs.Reach.{with_note};
ghost use Rattle.code_notes.specs.Checked.{AreRight};
ghost use Rattle.code_notes.specs.Views.{list_of, notes_of, place_in, places_in, plan_of, unreached};
ghost use Rattle.code_notes.specs.Noteless as spec;

use crate::lists::{is_same, is_with_note};
use crate::plan::{KnownNotes, Place};
use code_language::{INSTR_LIMIT, Instr, RawCode};

/// A place to which no run comes.
pub(crate) const UNREACHED: Place = Place {
    reached: false,
    notes: None,
    played: true,
    player: None,
};

/// What is known at a place of a procedure, of these places of each procedure.
pub(crate) fn place_among(places: &[Vec<Place>], proc: usize, place: usize) -> Place
    ensures { result ≡ slice_index_or (places_in places.now proc) place unreached }
{
    match places.get(proc) {
        Some(own) => match own.get(place) {
            Some(known) => *known,
            None => UNREACHED,
        },
        None => UNREACHED,
    }
}

/// What is known at a place of a procedure.
pub(crate) fn place_at(plan: &KnownNotes, proc: usize, place: usize) -> Place
    ensures { result ≡ place_in plan.now proc place }
{
    place_among(&plan.places, proc, place)
}

/// The list of notes with that number; one that isn't there is empty.
fn list_at(lists: &[Vec<u32>], number: u32) -> &[u32]
    ensures { result.now ≡ list_of lists.now number }
{
    match lists.get(number as usize) {
        Some(list) => list,
        None => &[],
    }
}

/// Whether the notes that are known at the second place are those that are known at the first one.
fn hands_notes(here: Place, there: Place) -> bool
    ensures { IsTrue result → (lists : List (Vec ℕ Global)) (ns : List ℕ)
        → notes_of lists there.notes ≡ Some ns → notes_of lists here.notes ≡ Some ns }
{
    match there.notes {
        Some(_) => here.notes == there.notes,
        None => true,
    }
}

/// Whether the call may have played at the second place where it may have at the first one.
fn hands_played(here: Place, there: Place) -> bool
    ensures { IsTrue result → there.played ≡ false → here.played ≡ false }
{
    there.played || !here.played
}

/// Whether there are no notes where they are known.
fn has_no_notes(lists: &[Vec<u32>], number: Option<u32>) -> bool
    ensures { IsTrue result → (ns : List ℕ) → notes_of lists.now number ≡ Some ns → ns ≡ [] }
{
    match number {
        Some(list) => list_at(lists, list).is_empty(),
        None => true,
    }
}

/// Whether a run may go on from one place of a procedure at another one.
fn goes_on(plan: &KnownNotes, proc: usize, from: usize, to: usize) -> bool
    ensures { IsTrue result → spec.GoesOn (plan_of plan.now) proc from to }
{
    let here = place_at(plan, proc, from);
    let there = place_at(plan, proc, to);
    there.reached && hands_notes(here, there) && hands_played(here, there)
}

/// The same, once the call is its own base.
fn goes_on_as_base(plan: &KnownNotes, proc: usize, from: usize, to: usize) -> bool
    ensures { IsTrue result → spec.GoesOnAsBase (plan_of plan.now) proc from to }
{
    let here = place_at(plan, proc, from);
    let there = place_at(plan, proc, to);
    there.reached && has_no_notes(&plan.lists, there.notes) && hands_played(here, there)
}

/// The same, once the call has played.
fn goes_on_played(plan: &KnownNotes, proc: usize, from: usize, to: usize) -> bool
    ensures { IsTrue result → spec.GoesOnPlayed (plan_of plan.now) proc from to }
{
    let here = place_at(plan, proc, from);
    let there = place_at(plan, proc, to);
    there.reached && hands_notes(here, there) && there.played
}

/// Whether a procedure may begin as its own base.
fn begins_as_base(plan: &KnownNotes, proc: usize) -> bool
    ensures { IsTrue result → spec.BeginsAsBase (plan_of plan.now) proc }
{
    let first = place_at(plan, proc, 0);
    first.reached && has_no_notes(&plan.lists, first.notes)
}

/// Whether the notes that are known later are those that are known before with one more, if there
/// is one.
fn adds_note(lists: &[Vec<u32>], before: Option<u32>, note: Option<u32>, after: Option<u32>) -> bool
    ensures { IsTrue result → (ns : List ℕ) → notes_of lists.now after ≡ Some ns
        → (ms : List ℕ) × (notes_of lists.now before ≡ Some ms) × (ns ≡ ms ++ with_note note []) }
{
    match (before, after) {
        (_, None) => true,
        (None, Some(_)) => false,
        (Some(list), Some(longer)) => {
            is_with_note(list_at(lists, list), note, list_at(lists, longer))
        }
    }
}

/// Whether a procedure may be called with a note from a place.
fn enters(plan: &KnownNotes, proc: usize, place: usize, callee: usize, note: Option<u32>) -> bool
    ensures { IsTrue result → spec.Enters (plan_of plan.now) proc place callee note }
{
    let here = place_at(plan, proc, place);
    let first = place_at(plan, callee, 0);
    first.reached && adds_note(&plan.lists, here.notes, note, first.notes)
}

/// Whether the new procedure runs these notes, or there is none and there are no notes.
fn runs(plan: &KnownNotes, player: Option<u32>, notes: &[u32]) -> bool
    ensures { IsTrue result → spec.Runs (plan_of plan.now) player notes.now }
{
    match player {
        Some(number) => match plan.players.get(number as usize) {
            Some(own) => is_same(own, notes),
            None => false,
        },
        None => notes.is_empty(),
    }
}

/// Whether the notes at a place are known, and what stands for `Play` there runs them.
fn plays(plan: &KnownNotes, here: Place) -> bool
    ensures { IsTrue result → (ns : List ℕ)
        × (notes_of plan.now.lists.items here.notes ≡ Some ns)
        × spec.Runs (plan_of plan.now) here.player ns }
{
    match here.notes {
        Some(list) => runs(plan, here.player, list_at(&plan.lists, list)),
        None => false,
    }
}

/// Whether `Play` at a place is right.
fn is_play_right(plan: &KnownNotes, proc: usize, place: usize) -> bool
    requires { place ≤ INSTR_LIMIT }
    ensures { IsTrue result → spec.PlayIsRight (plan_of plan.now) proc place }
{
    let here = place_at(plan, proc, place);
    !here.played && plays(plan, here) && goes_on_played(plan, proc, place, place + 1)
}

/// Whether a call with a note at a place is right.
fn is_call_right(
    plan: &KnownNotes,
    proc: usize,
    place: usize,
    callee: usize,
    note: Option<u32>,
) -> bool
    requires { place ≤ INSTR_LIMIT }
    ensures { IsTrue result → spec.Enters (plan_of plan.now) proc place callee note
        × spec.GoesOn (plan_of plan.now) proc place (place + 1) }
{
    enters(plan, proc, place, callee, note) && goes_on(plan, proc, place, place + 1)
}

/// Whether an instruction at a place is right.
fn is_instr_right(plan: &KnownNotes, proc: usize, place: usize, instr: &Instr) -> bool
    requires { place ≤ INSTR_LIMIT }
    ensures { IsTrue result → spec.IsRight (plan_of plan.now) proc place (instr_of instr.now) }
{
    match instr {
        Instr::Unless(over, _) => {
            goes_on(plan, proc, place, place + 1)
                && goes_on(plan, proc, place, place + 1 + *over as usize)
        }
        Instr::Skip(over) => goes_on(plan, proc, place, place + 1 + *over as usize),
        Instr::Call(callee, note) => is_call_right(plan, proc, place, *callee as usize, *note),
        Instr::Visit(callee, note) => is_call_right(plan, proc, place, *callee as usize, *note),
        Instr::SendTo(_, _, callee) => {
            begins_as_base(plan, *callee as usize) && goes_on(plan, proc, place, place + 1)
        }
        Instr::Play => is_play_right(plan, proc, place),
        Instr::Begin => goes_on_as_base(plan, proc, place, place + 1),
        Instr::Ret(_) => true,
        Instr::Assign(_, _)
        | Instr::Emit(_)
        | Instr::Mark(_)
        | Instr::Clear(_)
        | Instr::Keep(_)
        | Instr::Send(_)
        | Instr::Home(_)
        | Instr::Pass => goes_on(plan, proc, place, place + 1),
    }
}

/// Whether an instruction at a place is right; where no run comes there it is.
fn is_place_right(plan: &KnownNotes, proc: usize, place: usize, instr: &Instr) -> bool
    requires { place ≤ INSTR_LIMIT }
    ensures { IsTrue result → ((plan_of plan.now).place proc place).reached ≡ true
        → spec.IsRight (plan_of plan.now) proc place (instr_of instr.now) }
{
    !place_at(plan, proc, place).reached || is_instr_right(plan, proc, place, instr)
}

/// Whether each instruction of a procedure is right.
fn is_procedure_right(plan: &KnownNotes, proc: usize, instrs: &[Instr]) -> bool
    ensures { IsTrue result → AreRight (plan_of plan.now) proc (instrs_of instrs.now) }
{
    if instrs.len() > INSTR_LIMIT {
        return false;
    }
    for (place, instr) in instrs.iter().enumerate() {
        if !is_place_right(plan, proc, place, instr) {
            return false;
        }
    }
    true
}

/// Whether each of these procedures may begin as its own base.
fn are_bases(plan: &KnownNotes, notes: &[u32]) -> bool
    ensures { IsTrue result → spec.AreBases (plan_of plan.now) notes.now }
{
    for note in notes {
        if !begins_as_base(plan, *note as usize) {
            return false;
        }
    }
    true
}

/// Whether each procedure that a new one runs may begin as its own base.
fn are_players_right(plan: &KnownNotes) -> bool
    ensures { IsTrue result → (q : ℕ) (ns : List ℕ)
        → slice_get (plan_of plan.now).players q ≡ Some ns → spec.AreBases (plan_of plan.now) ns }
{
    for notes in &plan.players {
        if !are_bases(plan, notes) {
            return false;
        }
    }
    true
}

/// Whether the instruction returns with 0.
fn is_zero_return(instr: &Instr) -> bool
    ensures { IsTrue result → instr_of instr.now ≡ Ret 0 }
{
    match instr {
        Instr::Ret(value) => *value == 0,
        _ => false,
    }
}

/// Whether one of the instructions returns with 0.
fn has_zero_return(instrs: &[Instr]) -> bool
    ensures { IsTrue result → (i : ℕ) × (slice_get (instrs_of instrs.now) i ≡ Some (Ret 0)) }
{
    for instr in instrs {
        if is_zero_return(instr) {
            return true;
        }
    }
    false
}

/// Whether some procedure returns with 0.
fn returns_zero(raw: &RawCode) -> bool
    ensures { IsTrue result → IsThere (code_of raw.now).procedures (Ret 0) }
{
    for instrs in raw.procs.items() {
        if has_zero_return(instrs.items()) {
            return true;
        }
    }
    false
}

/// Whether the start, a reaction and each note that is run may begin as their own base, and some
/// procedure returns with 0.
fn begins_right(plan: &KnownNotes, raw: &RawCode) -> bool
    ensures start { IsTrue result
        → spec.BeginsAsBase (plan_of plan.now) (code_of raw.now).procedures.start }
    ensures react { IsTrue result
        → spec.BeginsAsBase (plan_of plan.now) (code_of raw.now).procedures.react }
    ensures players { IsTrue result → (q : ℕ) (ns : List ℕ)
        → slice_get (plan_of plan.now).players q ≡ Some ns → spec.AreBases (plan_of plan.now) ns }
    ensures zero { IsTrue result → IsThere (code_of raw.now).procedures (Ret 0) }
{
    begins_as_base(plan, raw.start as usize)
        && begins_as_base(plan, raw.react as usize)
        && are_players_right(plan)
        && returns_zero(raw)
}

/// Whether the plan is right.
pub(crate) fn is_right(plan: &KnownNotes, raw: &RawCode) -> bool
    ensures { IsTrue result → spec.PlanIsRight (plan_of plan.now) (code_of raw.now) }
{
    if !begins_right(plan, raw) {
        return false;
    }
    for (proc, instrs) in raw.procs.items().iter().enumerate() {
        if !is_procedure_right(plan, proc, instrs.items()) {
            return false;
        }
    }
    true
}
