//! The tests that the C of code needs.
ghost use Rattle.std.specs.Prelude.{◌≡◌, IfOk};
ghost use Rattle.code_language.specs.Code.{code_of};
ghost use Rattle.c_functions.specs.Failing.{AfterIsRight};
ghost use Rattle.c_shape.specs.FileShapes.{tests_seen};

use crate::checking::is_right;
use crate::spreading::{mark_failing, spread};
use c_shape::Tests;
use code_language::Code;
use flow_base::Memory;
use std::alloc::Global;

/// Which faults the C of code tests, where steps and depth are tested or not: the results of all
/// procedures that can fail are, and of those that can't as few as are found. `Memory` only where
/// memory was refused.
///
/// Its time grows with the code.
///
/// Source: this project's choice.
pub fn tests_of(alloc: Global, code: &Code, steps: bool, depth: bool) -> Result<Tests, Memory>
    ensures right { IfOk result (λ tests. AfterIsRight (tests_seen tests) (code_of code.now)) }
    ensures steps { IfOk result (λ tests. tests.steps ≡ steps) }
    ensures depth { IfOk result (λ tests. tests.depth ≡ depth) }
{
    let raw = code.raw();
    let after = vec![in alloc; false; raw.procs.items().len()]?;
    let mut tests = Tests {
        steps,
        depth,
        after,
    };
    mark_failing(raw, &mut tests);
    spread(raw, &mut tests.after);
    if !is_right(&tests, raw) {
        tests.after.clear();
    }
    Ok(tests)
}
