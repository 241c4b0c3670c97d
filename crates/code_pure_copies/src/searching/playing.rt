//! Which procedures may run notes that are pending where they begin.
use code_language::Instr;
use flow_base::{List, Memory};
use std::alloc::Global;

/// How often all procedures are gone through at most. Calls go to lower procedures, so that a few
/// times are enough.
///
/// Source: this project's choice.
pub const ROUND_LIMIT: u32 = 256;

/// Which procedures come to a `Play` without a `Begin` before it, or call or visit one that does.
#[derive(Drop)]
pub(crate) struct Playing {
    /// Whether the procedure is one of them, by its number.
    flags: Vec<bool>,
}

impl Playing {
    /// Those of these procedures. None where they weren't found in so many rounds.
    pub(crate) fn of(alloc: Global, procs: &[List<Instr>]) -> Result<Option<Playing>, Memory> {
        let flags = vec![in alloc; false; procs.len()]?;
        let mut playing = Playing { flags };
        for _round in 0..ROUND_LIMIT {
            if !playing.find_more(procs) {
                return Ok(Some(playing));
            }
        }
        Ok(None)
    }

    /// Whether the procedure is one of them.
    pub(crate) fn has(&self, proc: u32) -> bool {
        self.flags.get(proc as usize).copied() == Some(true)
    }

    /// Whether these instructions come to a `Play`, by the procedures that are found.
    fn is_played_in(&self, instrs: &[Instr]) -> bool {
        for instr in instrs {
            match instr {
                Instr::Begin => return false,
                Instr::Play => return true,
                Instr::Call(proc, _) | Instr::Visit(proc, _) => {
                    if self.has(*proc) {
                        return true;
                    }
                }
                Instr::Assign(_, _)
                | Instr::Emit(_)
                | Instr::Mark(_)
                | Instr::Clear(_)
                | Instr::Keep(_)
                | Instr::Unless(_, _)
                | Instr::Skip(_)
                | Instr::Send(_)
                | Instr::SendTo(_, _, _)
                | Instr::Home(_)
                | Instr::Pass
                | Instr::Ret(_) => {}
            }
        }
        false
    }

    /// Goes through all procedures once. Whether one more is found.
    fn find_more(&mut self, procs: &[List<Instr>]) -> bool {
        let mut is_more = false;
        for (proc, instrs) in procs.iter().enumerate() {
            let is_found = self.flags.get(proc).copied() == Some(true);
            if !is_found && self.is_played_in(instrs.items()) {
                if let Some(flag) = self.flags.get_mut(proc) {
                    *flag = true;
                    is_more = true;
                }
            }
        }
        is_more
    }
}
