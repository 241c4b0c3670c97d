//! Which procedures code notes.
ghost use Rattle.std.specs.Prelude.{◌≡◌, ◌<◌, ◌≤◌, ◌||◌, ℕ, IfOk, false, filter, length};
ghost use Rattle.std.specs.Prelude.{slice_index_or};
ghost use Rattle.std.specs.List.{list_any, range_with_len};
ghost use Rattle.flow_base.specs.Lists.{items_of};
ghost use Rattle.code_language.specs.Code.{instr_of, instrs_of};
ghost use Rattle.code_language.specs.declared.limits.TheConstants.{PROC_LIMIT};
ghost use Rattle.c_functions.specs.Notes.{has_note, is_note, noted_in};
ghost use Rattle.c_shape.specs.Parts.{procs_seen};

use code_language::Instr;
use flow_base::{List, Memory};
use std::alloc::Global;

/// The procedure that an instruction notes, if it notes one.
fn note_of(instr: &Instr) -> Option<u32>
    ensures { (b : ℕ) → has_note b (instr_of instr.now) ≡ is_note b result }
{
    match instr {
        Instr::Call(_, note) => *note,
        Instr::Visit(_, note) => *note,
        Instr::Assign(_, _) | Instr::Emit(_) | Instr::Mark(_) | Instr::Clear(_) => None,
        Instr::Keep(_) | Instr::Unless(_, _) | Instr::Skip(_) | Instr::Send(_) => None,
        Instr::SendTo(_, _, _) | Instr::Play | Instr::Home(_) | Instr::Begin => None,
        Instr::Pass | Instr::Ret(_) => None,
    }
}

/// Marks the procedure of a note, where it is one.
fn mark(flags: &mut [bool], note: Option<u32>)
    ensures { (b : ℕ) → b < length flags.old → slice_index_or flags.new b false
        ≡ (slice_index_or flags.old b false || is_note b note) }
{
    if let Some(proc) = note {
        if (proc as usize) < flags.len() {
            flags[proc as usize] = true;
        }
    }
}

/// Marks the procedures that instructions note.
fn mark_notes(flags: &mut [bool], instrs: &[Instr])
    ensures { (b : ℕ) → b < length flags.old → slice_index_or flags.new b false
        ≡ (slice_index_or flags.old b false
        || list_any (λ x. has_note b x) (instrs_of instrs.now)) }
{
    for instr in instrs {
        mark(flags, note_of(instr));
    }
}

/// The numbers of the flags that are set, in ascending order.
fn numbers_of(alloc: Global, flags: &[bool]) -> Result<List<u32>, Memory>
    requires { length flags.now ≤ PROC_LIMIT }
    ensures { IfOk result (λ numbers. items_of numbers
        ≡ filter (λ b. slice_index_or flags.now b false) (range_with_len 0 (length flags.now))) }
{
    let mut numbers = List::of(Vec::new(alloc));
    for number in 0..flags.len() {
        if flags[number] {
            numbers.push(number as u32)?;
        }
    }
    Ok(numbers)
}

/// The procedures that are noted, in ascending order.
pub(crate) fn noted_in(alloc: Global, procs: &[List<Instr>]) -> Result<List<u32>, Memory>
    requires { length procs.now ≤ PROC_LIMIT }
    ensures { IfOk result (λ numbers. items_of numbers ≡ noted_in (procs_seen procs.now)) }
{
    let mut flags = vec![in alloc; false; procs.len()]?;
    for proc in procs {
        mark_notes(&mut flags, proc.items());
    }
    numbers_of(alloc, &flags)
}
