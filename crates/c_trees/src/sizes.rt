//! How long a function is that passes go through.
ghost use Rattle.std.specs.Prelude.{◌≡◌};
ghost use Rattle.c_subset.specs.Lines.{lines_in, lines_of};
ghost use Rattle.c_subset.specs.Trees as c;
ghost use Rattle.c_trees.specs.Sizes as spec;

use c_subset::Line;

/// The most lines of a function that a pass goes through as a tree. Such passes call themselves
/// along the statements, so that the stack of the program bounds how many there may be.
const MOST_LINES: usize = 1_000;

/// Whether a function of these lines is one that passes go through as a tree: it has at most 1,000.
pub fn is_short(lines: &[Line]) -> bool
    ensures { (b : c.Block) → lines_in lines.now ≡ lines_of b → result ≡ spec.is_short b }
{
    lines.len() <= MOST_LINES
}
