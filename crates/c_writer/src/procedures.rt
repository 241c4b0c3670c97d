//! The functions of procedures.
ghost use Rattle.std.specs.Prelude.{◌≡◌, ◌∷◌, [], length, IfOk};
ghost use Rattle.flow_base.specs.Lists.{items_of};
ghost use Rattle.code_language.specs.Code.{instrs_of};
ghost use Rattle.c_subset.specs.Lines.{IsFunction, lines_in, lines_of};
ghost use Rattle.c_functions.specs.Writer.{plan_of};
ghost use Rattle.c_functions.specs.Files.{procedure_c};
ghost use Rattle.c_functions.specs.Plans.{word};
ghost use Rattle.c_shape.specs.FileShapes.{shape_seen};
ghost use Rattle.c_writer.specs.Parts.{CanBeWritten, StaysWithin};
ghost use Rattle.c_writer.specs.Pieces.{with_cursor};

use crate::parts::write_part;
use crate::pieces::put_set;
use c_functions::WORD;
use c_shape::{FileShape, number};
use c_subset::{CType, Function, Line};
use code_language::Instr;
use flow_base::{List, Memory};
use std::alloc::Global;

/// Five parameters.
fn five_words(alloc: Global) -> Result<List<CType>, Memory>
    ensures { IfOk result (λ list.
        items_of list ≡ word ∷ word ∷ word ∷ word ∷ word ∷ []) }
{
    let list = vec![in alloc; WORD, WORD, WORD, WORD, WORD]?;
    Ok(List::of(list))
}

/// The lines of a procedure that plays, with the cursor at 0 first.
fn lines_with_cursor(
    alloc: Global,
    shape: &FileShape<'_>,
    react: u32,
    instrs: &[Instr],
) -> Result<List<Line>, Memory>
    requires can { CanBeWritten (shape_seen shape.now) (instrs_of instrs.now) }
    requires stays { StaysWithin (instrs_of instrs.now) 0 (length instrs.now) }
    ensures { IfOk result (λ lines. lines_in (items_of lines) ≡ lines_of (with_cursor
        (shape_seen shape.now) (plan_of (shape_seen shape.now).tree (shape_seen shape.now).numbers
        react (instrs_of instrs.now)))) }
{
    let mut lines = List::of(Vec::new(alloc));
    put_set(&mut lines, 5, number(0))?;
    write_part(
        alloc,
        shape,
        react,
        instrs,
        &mut lines,
        0,
        instrs.len() as u32,
    )?;
    Ok(lines)
}

/// The lines of a procedure.
fn lines_of_procedure(
    alloc: Global,
    shape: &FileShape<'_>,
    react: u32,
    instrs: &[Instr],
) -> Result<List<Line>, Memory>
    requires can { CanBeWritten (shape_seen shape.now) (instrs_of instrs.now) }
    requires stays { StaysWithin (instrs_of instrs.now) 0 (length instrs.now) }
    ensures { IfOk result (λ lines. lines_in (items_of lines) ≡ lines_of (procedure_c
        (shape_seen shape.now) (plan_of (shape_seen shape.now).tree (shape_seen shape.now).numbers
        react (instrs_of instrs.now))).body) }
{
    let mut lines = List::of(Vec::new(alloc));
    let plays = write_part(
        alloc,
        shape,
        react,
        instrs,
        &mut lines,
        0,
        instrs.len() as u32,
    )?;
    if plays {
        return lines_with_cursor(alloc, shape, react, instrs);
    }
    Ok(lines)
}

/// The function of a procedure, where `react` is the procedure of a reaction.
pub fn procedure(
    alloc: Global,
    shape: &FileShape<'_>,
    react: u32,
    instrs: &[Instr],
) -> Result<Function, Memory>
    requires can { CanBeWritten (shape_seen shape.now) (instrs_of instrs.now) }
    requires stays { StaysWithin (instrs_of instrs.now) 0 (length instrs.now) }
    ensures { IfOk result (λ function. IsFunction function (procedure_c (shape_seen shape.now)
        (plan_of (shape_seen shape.now).tree (shape_seen shape.now).numbers react
        (instrs_of instrs.now)))) }
{
    let parameters = five_words(alloc)?;
    let lines = lines_of_procedure(alloc, shape, react, instrs)?;
    Ok(Function {
        result: WORD,
        parameters,
        lines,
    })
}
