//! The lines of one turn of a loop.
ghost use Rattle.std.specs.Prelude.{◌≡◌, ◌++◌, ◌∷◌, OnOk};
ghost use Rattle.flow_base.specs.Lists.{items_of};
ghost use Rattle.c_subset.specs.Lines.{else_lines, line_of, lines_in, lines_of};
ghost use Rattle.c_trees.specs.Blocks.{block_of, is_end};
ghost use Rattle.c_loops.specs.Loops.{again};

use crate::deciding::leads_back;
use crate::expressions::hands_on;
use c_subset::Line;
use c_trees::{Tree, put, put_else, write_after, write_second};
use flow_base::{List, Memory};

/// Whether nothing is left of the statements in a turn.
#[tactic(auto, using(crate::proofs::Lists::again_if), unfolding(crate::specs::Loops::again))]
fn is_end_again(number: u32, tree: &Tree) -> bool
    ensures { result ≡ is_end (again number (block_of tree.now)) }
{
    match tree {
        Tree::End => true,
        Tree::Call(of, local, function, args, _) => {
            hands_on(number, *of, *local, *function, args.items())
        }
        Tree::Set(..)
        | Tree::Store(..)
        | Tree::StoreAt(..)
        | Tree::Select(..)
        | Tree::If(..)
        | Tree::While(..)
        | Tree::Return(..) => false,
    }
}

/// Appends a line, and those of one turn of the statements that follow it.
#[cycle(write_again)]
pub fn write_again_after(
    number: u32,
    rest: Box<Tree>,
    line: Line,
    lines: &mut List<Line>,
) -> Result<(), Memory>
    ensures { OnOk result (lines_in (items_of lines.new) ≡ lines_in (items_of lines.old)
        ++ line_of line ∷ lines_of (again number (block_of rest.value))) }
{
    put(lines, line)?;
    write_again(number, Box::into_inner(rest), lines)
}

/// Appends the lines of one turn of the statements after an `if` that leads back, after `} else {`
/// unless nothing is left of them.
#[cycle(write_again)]
fn write_again_else(number: u32, rest: Box<Tree>, lines: &mut List<Line>) -> Result<(), Memory>
    ensures { OnOk result (lines_in (items_of lines.new) ≡ lines_in (items_of lines.old)
        ++ else_lines (lines_of (again number (block_of rest.value)))) }
{
    put_else(is_end_again(number, &rest), lines)?;
    write_again(number, Box::into_inner(rest), lines)
}

/// Appends the lines of one turn: the statements without the calls that hand on.
#[cycle(write_again)]
fn write_again(number: u32, tree: Tree, lines: &mut List<Line>) -> Result<(), Memory>
    ensures { OnOk result (lines_in (items_of lines.new)
        ≡ lines_in (items_of lines.old) ++ lines_of (again number (block_of tree))) }
{
    match tree {
        Tree::End => Ok(()),
        Tree::Set(of, local, expr, rest) => {
            write_again_after(number, rest, Line::Set(of, local, expr), lines)
        }
        Tree::Store(field, expr, rest) => {
            write_again_after(number, rest, Line::Store(field, expr), lines)
        }
        Tree::StoreAt(row, index, expr, rest) => {
            write_again_after(number, rest, Line::StoreAt(row, index, expr), lines)
        }
        Tree::Call(of, local, function, args, rest) => {
            if hands_on(number, of, local, function, args.items()) {
                return Ok(());
            }
            write_again_after(number, rest, Line::Call(of, local, function, args), lines)
        }
        Tree::Select(of, local, expr, cases, args, rest) => {
            write_again_after(
                number,
                rest,
                Line::Select(of, local, expr, cases, args),
                lines,
            )
        }
        Tree::If(expr, first, second, rest) => {
            if leads_back(number, &first, &second) {
                write_again_after(number, first, Line::If(expr), lines)?;
                write_again_else(number, rest, lines)?;
                return put(lines, Line::Close);
            }
            write_after(first, Line::If(expr), lines)?;
            write_second(second, lines)?;
            write_again_after(number, rest, Line::Close, lines)
        }
        Tree::While(expr, first, rest) => {
            write_after(first, Line::While(expr), lines)?;
            write_again_after(number, rest, Line::Close, lines)
        }
        Tree::Return(expr) => put(lines, Line::Return(expr)),
    }
}
