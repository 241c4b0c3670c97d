//! For which `Play`s the new procedures of a plan stand.
ghost use Rattle.std.specs.Prelude.{◌≡◌, ◌↔◌, ℕ, IsTrue, Some, length, slice_get};
ghost use Rattle.code_language.specs.Code.{code_of, instr_of, instrs_of};
ghost use Rattle.code_language.specs.Instrs.{Play};
ghost use Rattle.code_notes.specs.Checked.{AreAllOf, AreOf, StandsFor};
ghost use Rattle.code_notes.specs.Views.{place_in, plan_of};

use crate::checking::place_at;
use crate::plan::{KnownNotes, PLAYER_LIMIT};
use code_language::{Instr, RawCode};

/// Whether the instruction is `Play`.
fn is_play(instr: &Instr) -> bool
    ensures { IsTrue result ↔ (instr_of instr.now ≡ Play) }
{
    match instr {
        Instr::Play => true,
        _ => false,
    }
}

/// Whether the new procedure stands for the instruction at a place, a `Play`.
fn stands_for(plan: &KnownNotes, proc: usize, place: usize, instr: &Instr, player: u32) -> bool
    ensures { IsTrue result → (instr_of instr.now ≡ Play)
        × ((place_in plan.now proc place).player ≡ Some player) }
{
    is_play(instr) && place_at(plan, proc, place).player == Some(player)
}

/// Whether the new procedure stands for a `Play` of these instructions of a procedure.
fn has_player(plan: &KnownNotes, proc: usize, instrs: &[Instr], player: u32) -> bool
    ensures { IsTrue result → (i : ℕ) × (slice_get (instrs_of instrs.now) i ≡ Some Play)
        × ((place_in plan.now proc i).player ≡ Some player) }
{
    for (place, instr) in instrs.iter().enumerate() {
        if stands_for(plan, proc, place, instr, player) {
            return true;
        }
    }
    false
}

/// Whether the new procedure stands for a `Play` of a procedure.
fn is_played(plan: &KnownNotes, raw: &RawCode, proc: u32, player: u32) -> bool
    ensures { IsTrue result
        → StandsFor (plan_of plan.now) (code_of raw.now).procedures player proc }
{
    match raw.procs.items().get(proc as usize) {
        Some(instrs) => has_player(plan, proc as usize, instrs.items(), player),
        None => false,
    }
}

/// Whether the plan tells this procedure for a new one.
fn is_of(plan: &KnownNotes, player: u32, proc: usize) -> bool
    ensures { IsTrue result → slice_get plan.now.played.items player ≡ Some proc }
{
    match plan.played.get(player as usize) {
        Some(own) => *own as usize == proc,
        None => false,
    }
}

/// Whether the plan tells this procedure for the new one that stands for the instruction at a
/// place, if the instruction is a `Play` and there is one.
fn has_own(plan: &KnownNotes, proc: usize, place: usize, instr: &Instr) -> bool
    ensures { IsTrue result → instr_of instr.now ≡ Play → (q : ℕ)
        → (place_in plan.now proc place).player ≡ Some q
        → slice_get plan.now.played.items q ≡ Some proc }
{
    if !is_play(instr) {
        return true;
    }
    match place_at(plan, proc, place).player {
        Some(player) => is_of(plan, player, proc),
        None => true,
    }
}

/// Whether the plan tells this procedure for each new one that stands for a `Play` of its
/// instructions.
fn are_of(plan: &KnownNotes, proc: usize, instrs: &[Instr]) -> bool
    ensures { IsTrue result
        → AreOf (plan_of plan.now) plan.now.played.items proc (instrs_of instrs.now) }
{
    for (place, instr) in instrs.iter().enumerate() {
        if !has_own(plan, proc, place, instr) {
            return false;
        }
    }
    true
}

/// Whether each new procedure that stands for a `Play` is told to stand for those of its procedure.
fn are_all_of(plan: &KnownNotes, raw: &RawCode) -> bool
    ensures { IsTrue result → AreAllOf (plan_of plan.now) (code_of raw.now).procedures
        plan.now.played.items }
{
    for (proc, instrs) in raw.procs.items().iter().enumerate() {
        if !are_of(plan, proc, instrs.items()) {
            return false;
        }
    }
    true
}

/// Whether each new procedure stands for a `Play` of the procedure that the plan tells.
fn stand_for_plays(plan: &KnownNotes, raw: &RawCode) -> bool
    ensures size { IsTrue result
        → length plan.now.played.items ≡ length (plan_of plan.now).players }
    ensures each { IsTrue result → (q p : ℕ) → slice_get plan.now.played.items q ≡ Some p
        → StandsFor (plan_of plan.now) (code_of raw.now).procedures q p }
{
    if plan.played.len() != plan.players.len() || plan.played.len() > PLAYER_LIMIT {
        return false;
    }
    for (player, proc) in plan.played.iter().enumerate() {
        if !is_played(plan, raw, *proc, player as u32) {
            return false;
        }
    }
    true
}

/// Whether each new procedure stands for a `Play` of the procedure that the plan tells, and for no
/// `Play` of another one.
pub(crate) fn are_played(plan: &KnownNotes, raw: &RawCode) -> bool
    ensures size { IsTrue result
        → length plan.now.played.items ≡ length (plan_of plan.now).players }
    ensures each { IsTrue result → (q p : ℕ) → slice_get plan.now.played.items q ≡ Some p
        → StandsFor (plan_of plan.now) (code_of raw.now).procedures q p }
    ensures alone { IsTrue result → AreAllOf (plan_of plan.now) (code_of raw.now).procedures
        plan.now.played.items }
{
    stand_for_plays(plan, raw) && are_all_of(plan, raw)
}
