//! Drafts: procedures that are appended, and instructions that are appended to one.
ghost use Rattle.std.specs.Prelude.{◌≡◌, [], ◌∷◌, ◌++◌, OnOk, OnErr, None};
ghost use Rattle.code_language.specs.Code.{cond_of, instr_of};
ghost use Rattle.code_language.specs.Instrs as instrs;
ghost use Rattle.chart_code.specs.StateProcedures as templates;
ghost use Rattle.list_compile.specs.Drafts.{code_seen, procs_of};

use crate::results::{DONE, EMPTY_JUNCTION};
use code_language::{Cond, Instr};
use flow_base::{List, Memory};

/// Procedures, the first of which has number 0.
#[derive(Drop)]
pub struct Draft {
    /// Their instructions.
    pub procs: List<List<Instr>>,
}

/// Appends a procedure. On an error the draft is unchanged.
pub fn append(draft: &mut Draft, code: List<Instr>) -> Result<(), Memory>
    ensures ok { OnOk result (procs_of draft.new ≡ procs_of draft.old ++ code_seen code ∷ []) }
    ensures err { OnErr result (procs_of draft.new ≡ procs_of draft.old) }
{
    draft.procs.push(code)
}

/// Appends an instruction. On an error the code is unchanged.
pub fn put(code: &mut List<Instr>, instr: Instr) -> Result<(), Memory>
    ensures ok { OnOk result (code_seen code.new ≡ code_seen code.old ++ instr_of instr ∷ []) }
    ensures err { OnErr result (code_seen code.new ≡ code_seen code.old) }
{
    code.push(instr)
}

/// Appends a call without a note.
pub fn put_call(code: &mut List<Instr>, number: u32) -> Result<(), Memory>
    ensures { OnOk result (code_seen code.new ≡ code_seen code.old ++ templates.call number ∷ []) }
{
    put(code, Instr::Call(number, None))
}

/// Appends a return with this result.
pub fn put_return(code: &mut List<Instr>, answer: u32) -> Result<(), Memory>
    ensures { OnOk result (code_seen code.new ≡ code_seen code.old ++ instrs.Ret answer ∷ []) }
{
    put(code, Instr::Ret(answer))
}

/// Appends a test: what follows is for where the condition holds, else the procedure returns.
pub fn put_require(code: &mut List<Instr>, cond: Cond) -> Result<(), Memory>
    ensures { OnOk result (code_seen code.new
        ≡ code_seen code.old ++ templates.require (cond_of cond) []) }
{
    put(code, Instr::Unless(1, cond))?;
    put(code, Instr::Skip(1))?;
    put_return(code, DONE)
}

/// Appends a test: what follows is for where the condition doesn't hold, else the procedure
/// returns.
pub fn put_refuse(code: &mut List<Instr>, cond: Cond) -> Result<(), Memory>
    ensures { OnOk result (code_seen code.new
        ≡ code_seen code.old ++ templates.refuse (cond_of cond) []) }
{
    put(code, Instr::Unless(1, cond))?;
    put_return(code, DONE)
}

/// Appends what stands after a search: what follows is for where it found no firing, else its
/// result is handed on.
pub fn put_unless_found(code: &mut List<Instr>) -> Result<(), Memory>
    ensures { OnOk result (code_seen code.new ≡ code_seen code.old ++ templates.unless_found []) }
{
    put(code, Instr::Unless(1, Cond::Result(EMPTY_JUNCTION)))?;
    put(code, Instr::Skip(1))?;
    put(code, Instr::Pass)
}
