//! The functions of the C of code.
ghost use Rattle.std.specs.Prelude.{IfOk, List};
ghost use Rattle.code_language.specs.Code.{code_of};
ghost use Rattle.c_shape.specs.FileShapes.{shape_seen};
ghost use Rattle.c_subset.specs.Trees as c;
ghost use Rattle.c_functions.specs.Plans.{Shape};
ghost use Rattle.c_writer.specs.Functions.{IsShapeOf};
ghost use Rattle.c_bare.specs.Bare.{AreFunctions, bared_from};
ghost use Rattle.c_passes.specs.Passed.{ArePassed, written_file};

use crate::deciding::decided;
use crate::looping::looped_functions;
use crate::tidying::tidied;
use c_bare::{bare_function, bare_functions};
use c_inlined::inlined_functions;
use c_shape::FileShape;
use c_subset::Function;
use code_language::Code;
use flow_base::Memory;
use std::alloc::Global;

/// The functions that are written for code, by number: each of a procedure is a loop where it may be.
/// Tests go that what is known decides, where a plan for that is found that is right.
fn begun_functions(
    alloc: Global,
    shape: &FileShape<'_>,
    code: &Code,
) -> Result<Vec<Function>, Memory>
    requires shape { IsShapeOf (shape_seen shape.now) (code_of code.now) }
    ensures { IfOk result (λ made. ArePassed (shape_seen shape.now)
        (written_file (shape_seen shape.now) (code_of code.now)) made.items) }
{
    let looped = looped_functions(alloc, shape, code)?;
    match decided(alloc, shape, looped)? {
        Some(made) => Ok(made),
        None => looped_functions(alloc, shape, code),
    }
}

/// The functions of a file in which those with a flag have no parameters.
fn bared(alloc: Global, flags: &[bool], functions: Vec<Function>) -> Result<Vec<Function>, Memory>
    ensures { IfOk result (λ made. (gs : List c.Function) → AreFunctions functions.items gs
        → AreFunctions made.items (bared_from flags.now 0 gs)) }
{
    let mut made = Vec::new(alloc);
    for function in functions {
        let number = made.len();
        made.push(bare_function(alloc, flags, number, function)?)?;
    }
    Ok(made)
}

/// Those in which none has a parameter that it doesn't need, but for the reaction, which is called
/// from outside.
fn with_bare(
    alloc: Global,
    shape: &FileShape<'_>,
    functions: Vec<Function>,
) -> Result<Vec<Function>, Memory>
    ensures { IfOk result (λ made. (file : c.File) →
        ArePassed (shape_seen shape.now) file functions.items →
        ArePassed (shape_seen shape.now) file made.items) }
{
    let flags = bare_functions(alloc, shape.react_function() as usize, &functions)?;
    bared(alloc, &flags, functions)
}

/// Those in which bodies of the first so many stand in place of calls of them, where these are small
/// or called once, without what nobody needs then.
fn joined(alloc: Global, procs: u32, functions: Vec<Function>) -> Result<Vec<Function>, Memory>
    ensures { IfOk result (λ made. (K : Shape) (file : c.File) →
        ArePassed K file functions.items → ArePassed K file made.items) }
{
    let made = inlined_functions(alloc, procs, functions)?;
    tidied(alloc, made)
}

/// The functions of the C of code in which bodies stand in place of calls.
fn joined_functions(
    alloc: Global,
    shape: &FileShape<'_>,
    code: &Code,
) -> Result<Vec<Function>, Memory>
    requires shape { IsShapeOf (shape_seen shape.now) (code_of code.now) }
    ensures { IfOk result (λ made. ArePassed (shape_seen shape.now)
        (written_file (shape_seen shape.now) (code_of code.now)) made.items) }
{
    let begun = begun_functions(alloc, shape, code)?;
    let bare = with_bare(alloc, shape, begun)?;
    let tidy = tidied(alloc, bare)?;
    let once = joined(alloc, shape.procs, tidy)?;
    joined(alloc, shape.procs, once)
}

/// Those in which tests go once more that what is known decides: in a larger function more is known.
fn decided_functions(
    alloc: Global,
    shape: &FileShape<'_>,
    code: &Code,
) -> Result<Vec<Function>, Memory>
    requires shape { IsShapeOf (shape_seen shape.now) (code_of code.now) }
    ensures { IfOk result (λ made. ArePassed (shape_seen shape.now)
        (written_file (shape_seen shape.now) (code_of code.now)) made.items) }
{
    let larger = joined_functions(alloc, shape, code)?;
    match decided(alloc, shape, larger)? {
        Some(made) => Ok(made),
        None => joined_functions(alloc, shape, code),
    }
}

/// Those in which what got smaller then stands in place of calls, too.
fn rejoined_functions(
    alloc: Global,
    shape: &FileShape<'_>,
    code: &Code,
) -> Result<Vec<Function>, Memory>
    requires shape { IsShapeOf (shape_seen shape.now) (code_of code.now) }
    ensures { IfOk result (λ made. ArePassed (shape_seen shape.now)
        (written_file (shape_seen shape.now) (code_of code.now)) made.items) }
{
    let fewer = decided_functions(alloc, shape, code)?;
    let tidy = tidied(alloc, fewer)?;
    joined(alloc, shape.procs, tidy)
}

/// Those in which tests go that are decided where these bodies stand now.
fn settled_functions(
    alloc: Global,
    shape: &FileShape<'_>,
    code: &Code,
) -> Result<Vec<Function>, Memory>
    requires shape { IsShapeOf (shape_seen shape.now) (code_of code.now) }
    ensures { IfOk result (λ made. ArePassed (shape_seen shape.now)
        (written_file (shape_seen shape.now) (code_of code.now)) made.items) }
{
    let larger = rejoined_functions(alloc, shape, code)?;
    match decided(alloc, shape, larger)? {
        Some(made) => Ok(made),
        None => rejoined_functions(alloc, shape, code),
    }
}

/// The functions of the C of code, by number: first come those of the procedures, then those after
/// them. Each function of a procedure is a loop where it may be. Tests go that are decided by what is
/// known where they stand, where a plan for that is found. Those that need no parameter have none, but
/// the reaction, which is called from outside; sets of locals that nothing reads are gone, and so is
/// what nobody needs of an `if`. Bodies of procedures stand in place of calls of them, where these are
/// small or called once. In these larger functions all of that is done once more.
///
/// All functions are in memory at once, and one of them as a tree. `Memory` only where memory was
/// refused.
pub fn functions(alloc: Global, shape: &FileShape<'_>, code: &Code) -> Result<Vec<Function>, Memory>
    requires shape { IsShapeOf (shape_seen shape.now) (code_of code.now) }
    ensures { IfOk result (λ made. ArePassed (shape_seen shape.now)
        (written_file (shape_seen shape.now) (code_of code.now)) made.items) }
{
    let settled = settled_functions(alloc, shape, code)?;
    let bare = with_bare(alloc, shape, settled)?;
    tidied(alloc, bare)
}
