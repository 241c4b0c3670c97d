//! One function of a file without what nothing needs.
ghost use Rattle.std.specs.Prelude.{◌≡◌, ◌||◌, not, [], IfOk, map, if◌then◌else◌};
ghost use Rattle.std.specs.List.{list_all};
ghost use Rattle.flow_base.specs.Lists.{items_of};
ghost use Rattle.c_subset.specs.Trees as c;
ghost use Rattle.c_subset.specs.Lines.{IsFunction, line_of, lines_in, lines_of};
ghost use Rattle.c_bare.specs.Bare as spec;
ghost use Rattle.c_bare.specs.Bare.{bared};
ghost use Rattle.c_bare.specs.Needs.{is_bare, needs_none};
ghost use Rattle.c_bare.specs.Scanning as scanning;

use crate::needs::{is_bare, needs_none};
use c_subset::{CExpr, CType, Case, Function, Line};
use flow_base::{List, Memory};
use std::alloc::Global;

/// Whether one of these cases calls a bare function.
fn calls_bare(flags: &[bool], cases: &[Case]) -> bool
    ensures { result ≡ spec.calls_bare flags.now cases.now }
{
    for case in cases {
        if is_bare(flags, case.function as usize) {
            return true;
        }
    }
    false
}

/// Whether a line is no `switch` that calls a bare function.
fn line_selects(flags: &[bool], line: &Line) -> bool
    ensures { result ≡ scanning.line_selects flags.now (line_of line.now) }
{
    match line {
        Line::Select(_, _, _, cases, _) => !calls_bare(flags, cases.items()),
        Line::Set(..)
        | Line::Store(..)
        | Line::StoreAt(..)
        | Line::Call(..)
        | Line::If(_)
        | Line::Else
        | Line::While(_)
        | Line::Close
        | Line::Return(_) => true,
    }
}

/// Whether none of the lines is a `switch` that calls a bare function.
fn lines_select(flags: &[bool], lines: &[Line]) -> bool
    ensures { result ≡ list_all (scanning.line_selects flags.now) (lines_in lines.now) }
{
    for line in lines {
        if !line_selects(flags, line) {
            return false;
        }
    }
    true
}

/// Whether statements need none of the parameters of these types, if their function is bare.
fn may_go(flags: &[bool], number: usize, types: &[CType], lines: &[Line]) -> bool
    ensures { (b : c.Block) → lines_in lines.now ≡ lines_of b →
        result ≡ (not (is_bare flags.now number) || needs_none flags.now 0 types.now b) }
{
    !is_bare(flags, number) || needs_none(flags, types, lines)
}

/// Whether the function with this number needs none of its parameters, if it is bare, and no
/// `switch` in it calls a bare one.
pub fn is_needless(flags: &[bool], number: usize, function: &Function) -> bool
    ensures { (g : c.Function) → IsFunction function.now g →
        result ≡ spec.is_needless flags.now number g }
{
    let lines = function.lines.items();
    if !may_go(flags, number, function.parameters.items(), lines) {
        return false;
    }
    lines_select(flags, lines)
}

/// What is handed to a function.
fn handed(alloc: Global, flags: &[bool], function: u32, args: List<CExpr>) -> List<CExpr>
    ensures { items_of result ≡ spec.handed flags.now function (items_of args) }
{
    if !is_bare(flags, function as usize) {
        return args;
    }
    drop(args);
    List::of(Vec::new(alloc))
}

/// A line in which nothing is handed to a bare function.
fn fewer_line(alloc: Global, flags: &[bool], line: Line) -> Line
    ensures { line_of result ≡ scanning.fewer_line flags.now (line_of line) }
{
    match line {
        Line::Call(of, local, function, args) => {
            Line::Call(of, local, function, handed(alloc, flags, function, args))
        }
        Line::Set(..)
        | Line::Store(..)
        | Line::StoreAt(..)
        | Line::Select(..)
        | Line::If(_)
        | Line::Else
        | Line::While(_)
        | Line::Close
        | Line::Return(_) => line,
    }
}

/// Lines in which nothing is handed to a bare function.
fn fewer_lines(alloc: Global, flags: &[bool], lines: List<Line>) -> Result<List<Line>, Memory>
    ensures { IfOk result (λ made. lines_in (items_of made)
        ≡ map (scanning.fewer_line flags.now) (lines_in (items_of lines))) }
{
    let mut made = List::of(Vec::new(alloc));
    for line in lines.into_items() {
        made.push(fewer_line(alloc, flags, line))?;
    }
    Ok(made)
}

/// The parameters that a function has.
fn kept(alloc: Global, is_bare: bool, types: List<CType>) -> List<CType>
    ensures { items_of result ≡ if is_bare then [] else items_of types }
{
    if is_bare {
        List::of(Vec::new(alloc))
    } else {
        types
    }
}

/// The function with this number, in a file where those with a flag are bare: it has no parameters
/// if it is one of them, and calls of them hand nothing over.
///
/// `Memory` only where memory was refused.
pub fn bare_function(
    alloc: Global,
    flags: &[bool],
    number: usize,
    function: Function,
) -> Result<Function, Memory>
    ensures { IfOk result (λ made. (g : c.Function) → IsFunction function g →
        IsFunction made (bared flags.now number g)) }
{
    let parameters = kept(alloc, is_bare(flags, number), function.parameters);
    let lines = fewer_lines(alloc, flags, function.lines)?;
    Ok(Function {
        result: function.result,
        parameters,
        lines,
    })
}
