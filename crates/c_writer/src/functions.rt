//! The functions of the file of code, by number.
ghost use Rattle.std.specs.Prelude.{◌≡◌, ◌≤◌, ◌<◌, ◌+◌, length, IfOk};
ghost use Rattle.code_language.specs.Code.{code_of, instrs_of, instructions};
ghost use Rattle.code_language.specs.WellFormed.{IsCode};
ghost use Rattle.c_subset.specs.Lines.{IsFunction};
ghost use Rattle.c_functions.specs.declared.function_offsets.TheConstants.{OTHER_FUNCTIONS};
ghost use Rattle.c_functions.specs.Writer.{plans_of};
ghost use Rattle.c_functions.specs.Files.{procedure_c};
ghost use Rattle.c_functions.specs.Starts.{file_of};
ghost use Rattle.c_shape.specs.FileShapes.{shape_seen};
ghost use Rattle.c_writer.specs.Functions.{HasFunction, IsAt, IsShapeOf, later_functions};

use crate::helpers::{Home, floor_function, home_function, noted_caller};
use crate::procedures::procedure;
use crate::starts::{init_function, react_function, start_function};
use c_shape::FileShape;
use c_subset::{Function, Width};
use code_language::{Code, Instr};
use flow_base::Memory;
use std::alloc::Global;

/// The instructions of a procedure.
fn instrs_at(code: &Code, number: u32) -> &[Instr]
    requires { number < length (code_of code.now).procedures.procs }
    ensures instrs { instrs_of result.now ≡ instructions (code_of code.now).procedures number }
    ensures well_formed { IsCode (code_of code.now) }
{
    code.raw().procs.items()[number as usize].items()
}

/// The procedure of the start.
fn start_of(code: &Code) -> u32
    ensures start { result ≡ (code_of code.now).procedures.start }
    ensures well_formed { IsCode (code_of code.now) }
{
    code.raw().start
}

/// The procedure of a reaction.
fn react_of(code: &Code) -> u32
    ensures react { result ≡ (code_of code.now).procedures.react }
    ensures well_formed { IsCode (code_of code.now) }
{
    code.raw().react
}

/// The function of a procedure of code.
fn procedure_at(
    alloc: Global,
    shape: &FileShape<'_>,
    code: &Code,
    number: u32,
) -> Result<Function, Memory>
    requires shape { IsShapeOf (shape_seen shape.now) (code_of code.now) }
    requires number { number < (shape_seen shape.now).procs }
    ensures { IfOk result (λ function. IsFunction function
        (procedure_c (shape_seen shape.now) (plans_of (code_of code.now) number))) }
{
    procedure(alloc, shape, react_of(code), instrs_at(code, number))
}

/// A function after those of the procedures: one of the home, the one that calls noted procedures,
/// one that divides, that of the first values, the start or the reaction.
fn later_function(
    alloc: Global,
    shape: &FileShape<'_>,
    code: &Code,
    place: u32,
) -> Result<Function, Memory>
    requires shape { IsShapeOf (shape_seen shape.now) (code_of code.now) }
    requires place { place < OTHER_FUNCTIONS }
    ensures { IfOk result (IsAt (later_functions (shape_seen shape.now)
        (code_of code.now).procedures.start (code_of code.now).procedures.react) place) }
{
    match place {
        0 => home_function(alloc, shape, Home::On),
        1 => home_function(alloc, shape, Home::Bare),
        2 => noted_caller(alloc, shape),
        3 => floor_function(alloc, Width::W8),
        4 => floor_function(alloc, Width::W16),
        5 => floor_function(alloc, Width::W32),
        6 => floor_function(alloc, Width::W64),
        7 => floor_function(alloc, Width::W128),
        8 => init_function(alloc, shape),
        9 => start_function(alloc, shape, start_of(code)),
        _ => react_function(alloc, shape, react_of(code)),
    }
}

/// The function of the file of code that has a number: first come those of the procedures, then two
/// that tell of the home, one that calls a noted procedure, five that divide, that which stores the
/// first values, the start and the reaction. `Memory` only where memory was refused.
pub fn function(
    alloc: Global,
    shape: &FileShape<'_>,
    code: &Code,
    number: u32,
) -> Result<Function, Memory>
    requires shape { IsShapeOf (shape_seen shape.now) (code_of code.now) }
    requires number { number < (shape_seen shape.now).procs + OTHER_FUNCTIONS }
    ensures { IfOk result (HasFunction (file_of (code_of code.now) (shape_seen shape.now).tests
        (shape_seen shape.now).bounds (shape_seen shape.now).outputs (plans_of (code_of code.now)))
        number) }
{
    if number < shape.procs {
        return procedure_at(alloc, shape, code, number);
    }
    later_function(alloc, shape, code, number - shape.procs)
}
