//! Functions of procedures are loops where they may be.
ghost use Rattle.std.specs.Prelude.{IfOk, List};
ghost use Rattle.code_language.specs.Code.{code_of};
ghost use Rattle.c_shape.specs.FileShapes.{shape_seen};
ghost use Rattle.c_subset.specs.Lines.{IsFunction};
ghost use Rattle.c_subset.specs.Trees as c;
ghost use Rattle.c_bare.specs.Bare.{AreFunctions};
ghost use Rattle.c_loops.specs.Loops.{loops_from};
ghost use Rattle.c_writer.specs.Functions.{IsShapeOf};
ghost use Rattle.c_passes.specs.Passed.{ArePassed, looped_below, written_file};

use crate::written::written_functions;
use c_loops::with_loop;
use c_shape::FileShape;
use c_subset::Function;
use code_language::Code;
use flow_base::Memory;
use std::alloc::Global;

/// The function with this number: one of the first so many is a loop where it may be.
fn looped_function(
    alloc: Global,
    procs: u32,
    number: usize,
    function: Function,
) -> Result<Function, Memory>
    ensures { IfOk result (λ made. (g : c.Function) → IsFunction function g
        → IsFunction made (looped_below procs number g)) }
{
    if number >= procs as usize {
        return Ok(function);
    }
    with_loop(alloc, number as u32, function)
}

/// The functions of a file in which the first so many are loops where they may be.
fn looped(alloc: Global, procs: u32, functions: Vec<Function>) -> Result<Vec<Function>, Memory>
    ensures { IfOk result (λ made. (gs : List c.Function) → AreFunctions functions.items gs
        → AreFunctions made.items (loops_from 0 procs gs)) }
{
    let mut made = Vec::new(alloc);
    for function in functions {
        let number = made.len();
        made.push(looped_function(alloc, procs, number, function)?)?;
    }
    Ok(made)
}

/// The functions that are written for code, by number: each of a procedure is a loop where it may be.
pub fn looped_functions(
    alloc: Global,
    shape: &FileShape<'_>,
    code: &Code,
) -> Result<Vec<Function>, Memory>
    requires shape { IsShapeOf (shape_seen shape.now) (code_of code.now) }
    ensures { IfOk result (λ made. ArePassed (shape_seen shape.now)
        (written_file (shape_seen shape.now) (code_of code.now)) made.items) }
{
    let written = written_functions(alloc, shape, code)?;
    looped(alloc, shape.procs, written)
}
