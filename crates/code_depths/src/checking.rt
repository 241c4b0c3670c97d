//! The check that what each procedure names is within its level.
ghost use Rattle.std.specs.Prelude.{◌≡◌, ℕ, List, Some, IsTrue, slice_get};
ghost use Rattle.code_language.specs.Code.{code_of, instr_of, instrs_of};
ghost use Rattle.code_language.specs.Instrs as forms;
ghost use Rattle.code_depths.specs.Depths as spec;
ghost use Rattle.code_depths.specs.Depths.{AreLevels, IsNoteWithin, NamesWithin};

use code_language::{Instr, RawCode};

/// The level of a procedure, 0 where there is no such procedure.
pub(crate) fn level_of(levels: &[u32], proc: usize) -> u32
    ensures { result ≡ spec.level_of levels.now proc }
{
    levels.get(proc).copied().unwrap_or(0)
}

/// Whether a note, if there is one, has at most this level.
fn is_note_within(levels: &[u32], level: u32, note: Option<u32>) -> bool
    ensures { IsTrue result → IsNoteWithin levels.now level note }
{
    match note {
        Some(proc) => level_of(levels, proc as usize) <= level,
        None => true,
    }
}

/// Whether what an instruction names is within the level of its procedure.
fn names_within(levels: &[u32], level: u32, instr: &Instr) -> bool
    ensures { IsTrue result → NamesWithin levels.now level (instr_of instr.now) }
{
    match instr {
        Instr::Call(proc, note) | Instr::Visit(proc, note) => {
            level_of(levels, *proc as usize) <= level && is_note_within(levels, level, *note)
        }
        Instr::SendTo(_, _, proc) => { level_of(levels, *proc as usize) as u64 <= level as u64 + 1 }
        Instr::Assign(_, _)
        | Instr::Emit(_)
        | Instr::Mark(_)
        | Instr::Clear(_)
        | Instr::Keep(_)
        | Instr::Unless(_, _)
        | Instr::Skip(_)
        | Instr::Send(_)
        | Instr::Play
        | Instr::Home(_)
        | Instr::Begin
        | Instr::Pass
        | Instr::Ret(_) => true,
    }
}

/// Whether what these instructions name is within the level of their procedure.
fn all_name_within(levels: &[u32], level: u32, instrs: &[Instr]) -> bool
    ensures { IsTrue result → (i : ℕ) (x : forms.Instr)
        → slice_get (instrs_of instrs.now) i ≡ Some x → NamesWithin levels.now level x }
{
    for instr in instrs {
        if !names_within(levels, level, instr) {
            return false;
        }
    }
    true
}

/// Whether what each procedure names is within its level.
fn all_within(levels: &[u32], code: &RawCode) -> bool
    ensures { IsTrue result → (p : ℕ) (is : List forms.Instr)
        → slice_get (code_of code.now).procedures.procs p ≡ Some is
        → (i : ℕ) (x : forms.Instr) → slice_get is i ≡ Some x
        → NamesWithin levels.now (spec.level_of levels.now p) x }
{
    for (proc, instrs) in code.procs.items().iter().enumerate() {
        if !all_name_within(levels, level_of(levels, proc), instrs.items()) {
            return false;
        }
    }
    true
}

/// Whether the start and a reaction have level 0.
fn begins_at_zero(levels: &[u32], code: &RawCode) -> bool
    ensures start { IsTrue result → spec.level_of levels.now code.now.start ≡ 0 }
    ensures react { IsTrue result → spec.level_of levels.now code.now.react ≡ 0 }
{
    level_of(levels, code.start as usize) == 0 && level_of(levels, code.react as usize) == 0
}

/// Whether these are levels of the procedures of the code.
pub(crate) fn are_levels(levels: &[u32], code: &RawCode) -> bool
    ensures { IsTrue result → AreLevels levels.now (code_of code.now).procedures }
{
    begins_at_zero(levels, code) && all_within(levels, code)
}
