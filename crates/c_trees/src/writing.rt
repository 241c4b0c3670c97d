//! Trees as lines.
ghost use Rattle.std.specs.Prelude.{◌≡◌, ◌++◌, ◌∷◌, [], IfOk, OnOk};
ghost use Rattle.flow_base.specs.Lists.{items_of};
ghost use Rattle.c_subset.specs.Lines.{else_lines, line_of, lines_in, lines_of};
ghost use Rattle.c_trees.specs.Blocks as spec;
ghost use Rattle.c_trees.specs.Blocks.{block_of};
ghost use Rattle.c_trees.specs.Writing.{else_line};

use crate::trees::Tree;
use c_subset::Line;
use flow_base::{List, Memory};
use std::alloc::Global;

/// Whether there are no statements.
pub fn is_end(tree: &Tree) -> bool
    ensures { result ≡ spec.is_end (block_of tree.now) }
{
    match tree {
        Tree::End => true,
        Tree::Set(..)
        | Tree::Store(..)
        | Tree::StoreAt(..)
        | Tree::Call(..)
        | Tree::Select(..)
        | Tree::If(..)
        | Tree::While(..)
        | Tree::Return(..) => false,
    }
}

/// Appends a line.
pub fn put(lines: &mut List<Line>, line: Line) -> Result<(), Memory>
    ensures { OnOk result (lines_in (items_of lines.new)
        ≡ lines_in (items_of lines.old) ++ line_of line ∷ []) }
{
    lines.push(line)
}

/// Appends `} else {`, unless the second part is empty.
#[tactic(auto, using(crate::proofs::Lists::writes), unfolding(crate::specs::Writing::else_line))]
pub fn put_else(is_empty: bool, lines: &mut List<Line>) -> Result<(), Memory>
    ensures { OnOk result (lines_in (items_of lines.new)
        ≡ lines_in (items_of lines.old) ++ else_line is_empty) }
{
    if is_empty {
        return Ok(());
    }
    put(lines, Line::Else)
}

/// Appends a line, and the lines of the statements that follow it.
#[cycle(write)]
pub fn write_after(rest: Box<Tree>, line: Line, lines: &mut List<Line>) -> Result<(), Memory>
    ensures { OnOk result (lines_in (items_of lines.new)
        ≡ lines_in (items_of lines.old) ++ line_of line ∷ lines_of (block_of rest.value)) }
{
    put(lines, line)?;
    write(Box::into_inner(rest), lines)
}

/// Appends the lines of the second part of an `if`, after `} else {` unless it is empty.
#[cycle(write)]
pub fn write_second(second: Box<Tree>, lines: &mut List<Line>) -> Result<(), Memory>
    ensures { OnOk result (lines_in (items_of lines.new)
        ≡ lines_in (items_of lines.old) ++ else_lines (lines_of (block_of second.value))) }
{
    put_else(is_end(&second), lines)?;
    write(Box::into_inner(second), lines)
}

/// Appends the lines of the statements.
#[cycle(write)]
pub fn write(tree: Tree, lines: &mut List<Line>) -> Result<(), Memory>
    ensures { OnOk result (lines_in (items_of lines.new)
        ≡ lines_in (items_of lines.old) ++ lines_of (block_of tree)) }
{
    match tree {
        Tree::End => Ok(()),
        Tree::Set(of, local, expr, rest) => write_after(rest, Line::Set(of, local, expr), lines),
        Tree::Store(field, expr, rest) => write_after(rest, Line::Store(field, expr), lines),
        Tree::StoreAt(row, index, expr, rest) => {
            write_after(rest, Line::StoreAt(row, index, expr), lines)
        }
        Tree::Call(of, local, function, args, rest) => {
            write_after(rest, Line::Call(of, local, function, args), lines)
        }
        Tree::Select(of, local, expr, cases, args, rest) => {
            write_after(rest, Line::Select(of, local, expr, cases, args), lines)
        }
        Tree::If(expr, first, second, rest) => {
            write_after(first, Line::If(expr), lines)?;
            write_second(second, lines)?;
            write_after(rest, Line::Close, lines)
        }
        Tree::While(expr, first, rest) => {
            write_after(first, Line::While(expr), lines)?;
            write_after(rest, Line::Close, lines)
        }
        Tree::Return(expr) => put(lines, Line::Return(expr)),
    }
}

/// The lines of the statements.
pub fn lines_of_tree(alloc: Global, tree: Box<Tree>) -> Result<List<Line>, Memory>
    ensures { IfOk result (λ made. lines_in (items_of made) ≡ lines_of (block_of tree.value)) }
{
    let mut made = List::of(Vec::new(alloc));
    write(Box::into_inner(tree), &mut made)?;
    Ok(made)
}
