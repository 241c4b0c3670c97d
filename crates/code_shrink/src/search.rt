//! The search for the procedures that are reached.
ghost use Rattle.std.specs.Prelude.{◌≡◌, ◌<◌, ℕ, Some, IfOk, OnOk, length};
ghost use Rattle.code_language.specs.Code.{instr_of, instrs_of};
ghost use Rattle.code_shrink.specs.Neat.{Names};
ghost use Rattle.code_shrink.specs.Search as spec;

use code_language::Instr;
use flow_base::Memory;
use std::alloc::Global;

/// A search for the procedures that are reached.
#[derive(Drop)]
pub(crate) struct Search {
    /// For each procedure whether it is found.
    pub found: Vec<bool>,
    /// The found ones that are still to be looked at.
    pub todo: Vec<u32>,
}

impl Search {
    /// Finds a procedure.
    pub(crate) fn find(&mut self, proc: u32) -> Result<(), Memory>
        requires { proc < length self.old.found.items }
        ensures { OnOk result (spec.Finds (λ q. q ≡ proc) self.old self.new) }
    {
        if self.found[proc as usize] {
            return Ok(());
        }
        self.found[proc as usize] = true;
        self.todo.push(proc)?;
        Ok(())
    }

    /// Finds a note, where there is one.
    fn find_note(&mut self, note: Option<u32>) -> Result<(), Memory>
        requires { (q : ℕ) → note ≡ Some q → q < length self.old.found.items }
        ensures { OnOk result (spec.Finds (λ q. note ≡ Some q) self.old self.new) }
    {
        match note {
            Some(proc) => self.find(proc),
            None => Ok(()),
        }
    }

    /// Finds what an instruction names.
    fn find_named(&mut self, instr: &Instr) -> Result<(), Memory>
        requires { (q : ℕ) → Names (instr_of instr.now) q → q < length self.old.found.items }
        ensures { OnOk result (spec.Finds (Names (instr_of instr.now)) self.old self.new) }
    {
        match instr {
            Instr::Call(proc, note) | Instr::Visit(proc, note) => {
                self.find(*proc)?;
                self.find_note(*note)
            }
            Instr::SendTo(_, _, proc) => self.find(*proc),
            Instr::Assign(_, _)
            | Instr::Emit(_)
            | Instr::Mark(_)
            | Instr::Clear(_)
            | Instr::Keep(_)
            | Instr::Unless(_, _)
            | Instr::Skip(_)
            | Instr::Send(_)
            | Instr::Play
            | Instr::Home(_)
            | Instr::Begin
            | Instr::Pass
            | Instr::Ret(_) => Ok(()),
        }
    }

    /// Finds what the instructions at marked places name.
    pub(crate) fn find_all(&mut self, instrs: &[Instr], flags: &[bool]) -> Result<(), Memory>
        requires size { length flags.now ≡ length instrs.now }
        requires below { spec.AllNameBelow (length self.old.found.items) (instrs_of instrs.now) }
        ensures { OnOk result (spec.Finds
            (spec.NamesBefore (length instrs.now) (instrs_of instrs.now) flags.now)
            self.old self.new) }
    {
        for (place, instr) in instrs.iter().enumerate() {
            if flags[place] {
                self.find_named(instr)?;
            }
        }
        Ok(())
    }
}
