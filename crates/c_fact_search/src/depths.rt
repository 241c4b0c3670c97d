//! How deep the check goes in a function: it calls itself for the statements after each statement.
use c_subset::{Function, Line};
use flow_base::Memory;
use std::alloc::Global;

/// So deep the check goes at most: the stack of the program bounds it.
const MOST_DEPTH: usize = 200;

/// How deep it stands after a line, where it stood so deep before it, and at the blocks that are
/// open.
fn depth_after(open: &mut Vec<usize>, depth: usize, line: &Line) -> Result<usize, Memory> {
    match line {
        Line::If(..) | Line::While(..) => {
            let inner = depth.saturating_add(1);
            open.push(inner)?;
            Ok(inner)
        }
        Line::Else => {
            let outer = open.pop().unwrap_or(depth);
            open.push(outer)?;
            Ok(outer)
        }
        Line::Close => Ok(open.pop().unwrap_or(depth)),
        Line::Set(..)
        | Line::Store(..)
        | Line::StoreAt(..)
        | Line::Call(..)
        | Line::Select(..)
        | Line::Return(..) => Ok(depth.saturating_add(1)),
    }
}

/// Whether the check doesn't go too deep in these lines.
fn is_shallow(alloc: Global, lines: &[Line]) -> Result<bool, Memory> {
    let mut open = Vec::new(alloc);
    let mut depth = 0;
    for line in lines {
        depth = depth_after(&mut open, depth, line)?;
        if depth > MOST_DEPTH {
            return Ok(false);
        }
    }
    Ok(true)
}

/// Whether the check goes too deep in no function.
pub fn are_shallow(alloc: Global, functions: &[Function]) -> Result<bool, Memory> {
    for function in functions {
        if !is_shallow(alloc, function.lines.items())? {
            return Ok(false);
        }
    }
    Ok(true)
}
