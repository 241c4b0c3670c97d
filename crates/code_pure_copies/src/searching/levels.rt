//! The copies by depth, each with those that its instructions name.
use crate::plan::{NONE_NAMED, Named};
use crate::searching::growing::{Growing, Wanted, instrs_at};
use crate::searching::nesting::Nesting;
use code_language::{Instr, PROC_LIMIT};
use flow_base::{List, Memory};
use std::alloc::Global;

/// A search for copies by depth. A copy is for the number of sends that are nested at least where
/// it begins, up to the greatest depth, if its procedure may nest sends without end; else for 0.
#[derive(Drop)]
pub(crate) struct DepthSearch {
    /// Which procedures may nest sends without end.
    nesting: Nesting,
    /// The greatest depth.
    depth: u32,
    /// The copies.
    copies: Growing,
}

impl DepthSearch {
    /// A search that has found nothing yet, for copies of at most so many places.
    pub(crate) fn new(alloc: Global, nesting: Nesting, depth: u32, room: usize) -> DepthSearch {
        DepthSearch {
            nesting,
            depth,
            copies: Growing::new(alloc, room),
        }
    }

    /// The number of the copy of the procedure at that depth, which is wanted from now on.
    pub(crate) fn copy_at(&mut self, proc: u32, depth: u32) -> Result<u32, Memory> {
        let purpose = if self.nesting.has(proc) { depth } else { 0 };
        self.copies.number(Wanted { proc, purpose })
    }

    /// The copies that stand for what the instruction names at that depth.
    fn named(&mut self, depth: u32, instr: &Instr) -> Result<Named, Memory> {
        match instr {
            Instr::Call(proc, _) | Instr::Visit(proc, _) => Ok(Named {
                proc: self.copy_at(*proc, depth)?,
                note: None,
            }),
            Instr::SendTo(_, _, proc) => {
                let deeper = depth.saturating_add(1).min(self.depth);
                Ok(Named {
                    proc: self.copy_at(*proc, deeper)?,
                    note: None,
                })
            }
            Instr::Assign(_, _)
            | Instr::Emit(_)
            | Instr::Mark(_)
            | Instr::Clear(_)
            | Instr::Keep(_)
            | Instr::Unless(_, _)
            | Instr::Skip(_)
            | Instr::Send(_)
            | Instr::Play
            | Instr::Home(_)
            | Instr::Begin
            | Instr::Pass
            | Instr::Ret(_) => Ok(NONE_NAMED),
        }
    }

    /// What the instructions of a copy name at that depth.
    fn all_named(
        &mut self,
        alloc: Global,
        depth: u32,
        instrs: &[Instr],
    ) -> Result<Vec<Named>, Memory> {
        let mut names = Vec::new(alloc);
        for instr in instrs {
            let named = self.named(depth, instr)?;
            names.push(named)?;
        }
        Ok(names)
    }

    /// Makes the copies that are wanted, and those that these want. It ends early where there is no
    /// more room for places.
    pub(crate) fn make_all(&mut self, alloc: Global, procs: &[List<Instr>]) -> Result<(), Memory> {
        for _number in 0..PROC_LIMIT {
            let Some(wanted) = self.copies.next(procs) else {
                break;
            };
            let instrs = instrs_at(procs, wanted.proc);
            let names = self.all_named(alloc, wanted.purpose, instrs)?;
            self.copies.make(wanted, names)?;
        }
        Ok(())
    }

    /// The copies.
    pub(crate) fn into_copies(self) -> Growing {
        self.copies
    }
}
