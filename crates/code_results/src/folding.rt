//! Code whose tests of the last result are decided where they can be.
ghost use Rattle.std.specs.Prelude.{◌≡◌, IfOk, length};
ghost use Rattle.code_language.specs.Code.{code_of};
ghost use Rattle.code_copies.specs.SameRuns.{HasSameRuns};
ghost use Rattle.code_results.specs.Folded.{IsFolded};

use crate::checking::is_right;
use crate::making::made;
use crate::searching::find;
use code_language::Code;
use flow_base::Memory;
use std::alloc::Global;

/// Code with the same runs. Tests of the last result and `Pass`es are decided where the results
/// that the last return may have left decide them, and a call of a procedure that returns at once
/// is left out where its result isn't read.
///
/// What is decided is a `Skip` or a `Ret` then, which `shrink` of `code_shrink` clears away; a
/// procedure that does nothing once its calls are left out is found so when its code is shrunk and
/// folded again. Its time grows with the code times how often it has to be gone over until there is
/// no news. `Memory` only where memory was refused.
///
/// Source: this project's choice.
pub fn fold_results(alloc: Global, code: Code) -> Result<Code, Memory>
    ensures folded { IfOk result (λ made. IsFolded (code_of code) (code_of made)) }
    ensures same { IfOk result (λ made. HasSameRuns (code_of code) (code_of made)) }
    ensures size { IfOk result (λ made. length (code_of made).procedures.procs
        ≡ length (code_of code).procedures.procs) }
{
    let plan = find(alloc, code.raw())?;
    if !is_right(&plan, code.raw()) {
        return Ok(code);
    }
    let made = made(alloc, &plan, code)?;
    Ok(made)
}
