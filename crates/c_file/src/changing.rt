//! Which functions of a file may change the struct.
ghost use Rattle.std.specs.Prelude.{◌≡◌, ◌∷◌, [], ◌++◌, IfOk};
ghost use Rattle.std.specs.List.{list_any};
ghost use Rattle.c_subset.specs.Lines.{line_of, lines_in};
ghost use Rattle.c_readers.specs.Readers as spec;
ghost use Rattle.c_file.specs.Changing.{turned_round};

use crate::calls::FunctionCall;
use c_subset::Line;
use flow_base::Memory;
use std::alloc::Global;

/// Whether a line stores in the struct.
fn line_stores(line: &Line) -> bool
    ensures { result ≡ spec.line_stores (line_of line.now) }
{
    match line {
        Line::Store(..) | Line::StoreAt(..) => true,
        Line::Set(..)
        | Line::Call(..)
        | Line::Select(..)
        | Line::If(_)
        | Line::Else
        | Line::While(_)
        | Line::Close
        | Line::Return(_) => false,
    }
}

/// Whether one of the lines stores in the struct.
pub(crate) fn any_stores(lines: &[Line]) -> bool
    ensures { result ≡ list_any spec.line_stores (lines_in lines.now) }
{
    for line in lines {
        if line_stores(line) {
            return true;
        }
    }
    false
}

/// The calls from the function that is called to the one that calls, the last one first, since most
/// calls are of functions with higher numbers. `Memory` only where memory was refused.
pub(crate) fn turned_calls(
    alloc: Global,
    calls: &[FunctionCall],
) -> Result<Vec<FunctionCall>, Memory>
    ensures { IfOk result (λ turned. turned.items ≡ turned_round calls.now) }
{
    let mut turned = Vec::new(alloc);
    let mut left = calls.len();
    while left > 0 {
        left -= 1;
        let FunctionCall { caller, callee } = calls[left];
        turned.push(FunctionCall {
            caller: callee,
            callee: caller,
        })?;
    }
    Ok(turned)
}
