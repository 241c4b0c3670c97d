//! The functions that are written for code.
ghost use Rattle.std.specs.Prelude.{◌≡◌, IfOk, length};
ghost use Rattle.code_language.specs.Code.{code_of};
ghost use Rattle.c_bare.specs.Bare.{AreFunctions};
ghost use Rattle.c_shape.specs.FileShapes.{shape_seen};
ghost use Rattle.c_writer.specs.Functions.{IsShapeOf};
ghost use Rattle.c_passes.specs.Passed.{written_file};

use c_functions::function_offsets::OTHER_FUNCTIONS;
use c_shape::FileShape;
use c_subset::Function;
use c_writer::function;
use code_language::Code;
use flow_base::Memory;
use std::alloc::Global;

/// How many functions there are.
fn count(shape: &FileShape<'_>, code: &Code) -> u32
    requires shape { IsShapeOf (shape_seen shape.now) (code_of code.now) }
    ensures { result ≡ length (written_file (shape_seen shape.now) (code_of code.now)).functions }
{
    // Only the proof reads the code.
    let _ = code;
    shape.procs + OTHER_FUNCTIONS
}

/// All functions by number.
pub fn written_functions(
    alloc: Global,
    shape: &FileShape<'_>,
    code: &Code,
) -> Result<Vec<Function>, Memory>
    requires shape { IsShapeOf (shape_seen shape.now) (code_of code.now) }
    ensures { IfOk result (λ made. AreFunctions made.items
        (written_file (shape_seen shape.now) (code_of code.now)).functions) }
{
    let mut made = Vec::new(alloc);
    for number in 0..count(shape, code) {
        made.push(function(alloc, shape, code, number)?)?;
    }
    Ok(made)
}
