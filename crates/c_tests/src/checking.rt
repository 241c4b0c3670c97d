//! The check that the result of each procedure that can fail is tested.
ghost use Rattle.std.specs.Prelude.{◌≡◌, IsTrue};
ghost use Rattle.code_language.specs.Code.{code_of, instrs_of};
ghost use Rattle.c_functions.specs.Failing.{AfterIsRight};
ghost use Rattle.c_shape.specs.FileShapes.{tests_seen};
ghost use Rattle.c_tests.specs.Checked as spec;

use crate::failing::can_fail;
use c_shape::Tests;
use code_language::{Instr, RawCode};

/// Whether the result of a procedure is tested after a call.
fn is_tested(tests: &Tests, proc: usize) -> bool
    ensures { result ≡ (tests_seen tests.now).after proc }
{
    tests.after.get(proc).copied().unwrap_or(true)
}

/// Whether no instruction can fail.
pub(crate) fn none_can_fail(tests: &Tests, raw: &RawCode, instrs: &[Instr]) -> bool
    ensures { IsTrue result
        → spec.NoneCanFail (tests_seen tests.now) (code_of raw.now) (instrs_of instrs.now) }
{
    for instr in instrs {
        if can_fail(tests, raw, instr) {
            return false;
        }
    }
    true
}

/// Whether the result of a procedure is tested, or else none of its instructions can fail.
fn is_procedure_right(tests: &Tests, raw: &RawCode, proc: usize, instrs: &[Instr]) -> bool
    ensures { IsTrue result → spec.IsProcedureRight (tests_seen tests.now) (code_of raw.now) proc
        (instrs_of instrs.now) }
{
    if is_tested(tests, proc) {
        return true;
    }
    none_can_fail(tests, raw, instrs)
}

/// Whether the result of each procedure with an instruction that can fail is tested.
pub(crate) fn is_right(tests: &Tests, raw: &RawCode) -> bool
    ensures { IsTrue result → AfterIsRight (tests_seen tests.now) (code_of raw.now) }
{
    for (proc, instrs) in raw.procs.items().iter().enumerate() {
        if !is_procedure_right(tests, raw, proc, instrs.items()) {
            return false;
        }
    }
    true
}
