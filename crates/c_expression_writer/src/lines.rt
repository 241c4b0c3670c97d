//! Lines that are appended.
ghost use Rattle.std.specs.Prelude.{◌≡◌, ◌++◌, ◌∷◌, [], OnOk};
ghost use Rattle.std.specs.Prelude.{Some};
ghost use Rattle.flow_base.specs.Lists.{items_of};
ghost use Rattle.c_subset.specs.Lines.{Appends, expr_of, line_of, lines_in, lines_of};
ghost use Rattle.c_functions.specs.Code.{FaultIf, written};
ghost use Rattle.c_functions.specs.Plans.{faulted, helper};
ghost use Rattle.c_functions.specs.Plans as plans;
ghost use Rattle.c_shape.specs.FileShapes.{shape_seen};

use c_shape::{FileShape, number};
use c_subset::{CExpr, Line};
use flow_base::{Fault, List, Memory};

/// What a function returns after a fault: no result of code.
///
/// Source: this project's choice.
pub const BAD: u32 = u32::MAX;

/// What is told of a number that is no event: no fault of a run.
///
/// Source: this project's choice.
pub const NO_EVENT: u32 = 5;

/// Appends a line.
pub fn put(out: &mut List<Line>, line: Line) -> Result<(), Memory>
    ensures { OnOk result (lines_in (items_of out.new)
        ≡ lines_in (items_of out.old) ++ line_of line ∷ []) }
{
    out.push(line)
}

/// The number of a fault.
fn fault_number(fault: Fault) -> u32
    ensures { result ≡ plans.fault_number (Some fault) }
{
    match fault {
        Fault::Depth => 1,
        Fault::Steps => 2,
        Fault::Overflow(_) => 3,
        Fault::Zero => 4,
    }
}

/// The number of the datum of a fault.
fn fault_datum(fault: Fault) -> u32
    ensures { result ≡ plans.fault_datum (Some fault) }
{
    match fault {
        Fault::Overflow(datum) => datum,
        Fault::Depth | Fault::Steps | Fault::Zero => 0,
    }
}

/// Appends that a fault and its datum are told, by their numbers, and that the run is over.
#[tactic(auto, using(std::proofs::Common::append_assoc), unfolding(c_subset::specs::Lines::lines_of))]
pub fn tell_fault(
    shape: &FileShape<'_>,
    out: &mut List<Line>,
    fault: u32,
    datum: u32,
) -> Result<(), Memory>
    ensures { OnOk result (Appends (items_of out.old) (items_of out.new)
        (plans.tell_fault (shape_seen shape.now) fault datum)) }
{
    put(out, Line::Store(shape.fault_field(), number(fault)))?;
    put(out, Line::Store(shape.fault_datum_field(), number(datum)))?;
    put(out, Line::Store(shape.ready_field(), number(0)))
}

/// Appends what is done for a fault: it is told, and the function returns `BAD`.
#[tactic(auto, using(std::proofs::Common::append_assoc), unfolding(c_subset::specs::Lines::lines_of))]
pub fn write_fault(shape: &FileShape<'_>, out: &mut List<Line>, fault: Fault) -> Result<(), Memory>
    ensures { OnOk result (lines_in (items_of out.new)
        ≡ lines_in (items_of out.old) ++ lines_of (faulted (shape_seen shape.now) fault)) }
{
    tell_fault(shape, out, fault_number(fault), fault_datum(fault))?;
    put(out, Line::Return(number(BAD)))
}

/// Appends a test, and what is done for a fault where it holds.
#[tactic(auto, using(std::proofs::Common::append_assoc), unfolding(c_subset::specs::Lines::lines_of, c_functions::specs::Code::written))]
pub(crate) fn put_fault_if(
    shape: &FileShape<'_>,
    out: &mut List<Line>,
    fault: Fault,
    test: CExpr,
) -> Result<(), Memory>
    ensures { OnOk result (Appends (items_of out.old) (items_of out.new)
        (written (helper (shape_seen shape.now)) (faulted (shape_seen shape.now))
        (FaultIf fault (expr_of test)))) }
{
    put(out, Line::If(test))?;
    write_fault(shape, out, fault)?;
    put(out, Line::Close)
}
