//! What is to be cut in code, and where its sends are led.
ghost use Rattle.std.specs.Prelude.{IfOk, IfSome};
ghost use Rattle.code_language.specs.Code.{code_of};
ghost use Rattle.code_depths.specs.Depths.{AreLevels};

use crate::checking::{are_levels, level_of};
use crate::levels::levels_of;
use code_language::{Instr, RawCode};
use flow_base::{List, Memory};
use std::alloc::Global;

/// Levels of procedures, and where sends lead for which no depth is left.
#[derive(Drop)]
pub(crate) struct Cut {
    /// For each procedure its level.
    pub levels: Vec<u32>,
    /// The procedure to which the sends lead.
    pub leaf: u32,
}

/// Whether an instruction calls a procedure, sends or plays.
fn is_call(instr: &Instr) -> bool {
    match instr {
        Instr::Call(_, _) | Instr::Visit(_, _) | Instr::Send(_) | Instr::SendTo(_, _, _) => true,
        Instr::Play => true,
        Instr::Assign(_, _) | Instr::Emit(_) | Instr::Mark(_) | Instr::Clear(_) => false,
        Instr::Keep(_) | Instr::Unless(_, _) | Instr::Skip(_) | Instr::Home(_) => false,
        Instr::Begin | Instr::Pass | Instr::Ret(_) => false,
    }
}

/// Whether one of the instructions is a call.
fn calls(instrs: &[Instr]) -> bool {
    for instr in instrs {
        if is_call(instr) {
            return true;
        }
    }
    false
}

/// The first procedure that calls nothing, if there is one.
fn leaf_of(procs: &[List<Instr>]) -> Option<u32> {
    for (proc, instrs) in procs.iter().enumerate() {
        if !calls(instrs.items()) {
            return u32::try_from(proc).ok();
        }
    }
    None
}

/// Whether one of the instructions sends an event to a procedure.
fn sends(instrs: &[Instr]) -> bool {
    for instr in instrs {
        if let Instr::SendTo(_, _, _) = instr {
            return true;
        }
    }
    false
}

/// Whether a procedure that sends has at least this level.
fn sends_late(levels: &[u32], procs: &[List<Instr>], depth: u32) -> bool {
    for (proc, instrs) in procs.iter().enumerate() {
        if level_of(levels, proc) >= depth && sends(instrs.items()) {
            return true;
        }
    }
    false
}

/// What is to be cut, if there is something.
pub(crate) fn found_cut(alloc: Global, code: &RawCode, depth: u32) -> Result<Option<Cut>, Memory>
    ensures { IfOk result (λ found. IfSome found (λ cut.
        AreLevels cut.levels.items (code_of code.now).procedures)) }
{
    let levels = levels_of(alloc, code)?;
    if !sends_late(&levels, code.procs.items(), depth) {
        return Ok(None);
    }
    if !are_levels(&levels, code) {
        return Ok(None);
    }
    match leaf_of(code.procs.items()) {
        Some(leaf) => Ok(Some(Cut { levels, leaf })),
        None => Ok(None),
    }
}
