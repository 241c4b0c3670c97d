//! Whether statements read only locals with numbers below one.
ghost use Rattle.std.specs.Prelude.{◌≡◌};
ghost use Rattle.flow_base.specs.Lists.{items_of};
ghost use Rattle.c_subset.specs.Lines.{expr_of, exprs_of};
ghost use Rattle.c_trees.specs.Blocks.{block_of};
ghost use Rattle.c_inlined.specs.Inlined as spec;

use c_subset::CExpr;
use c_trees::Tree;

/// Whether an expression reads only locals with numbers below that one.
#[tactic(auto, unfolding(crate::specs::Inlined::reads_below))]
fn reads_below(base: u32, expr: &CExpr) -> bool
    ensures { result ≡ spec.reads_below base (expr_of expr.now) }
{
    match expr {
        CExpr::Const(..) | CExpr::Field(_) => true,
        CExpr::Local(_, number) => *number < base,
        CExpr::Element(_, inner)
        | CExpr::Cast(_, inner)
        | CExpr::Minus(inner)
        | CExpr::Bang(inner) => reads_below(base, inner),
        CExpr::Calc(_, left, right) => reads_below(base, left) && reads_below(base, right),
        CExpr::Divide(_, left, right) => reads_below(base, left) && reads_below(base, right),
        CExpr::Bits(_, left, right) => reads_below(base, left) && reads_below(base, right),
        CExpr::Compare(_, left, right) => reads_below(base, left) && reads_below(base, right),
        CExpr::Both(left, right) => reads_below(base, left) && reads_below(base, right),
        CExpr::Either(left, right) => reads_below(base, left) && reads_below(base, right),
        CExpr::Choose(_, test, left, right) => {
            reads_below(base, test) && (reads_below(base, left) && reads_below(base, right))
        }
    }
}

/// Whether each of the expressions does.
fn all_read_below(base: u32, exprs: &[CExpr]) -> bool
    ensures { result ≡ spec.all_read_below base (exprs_of exprs.now) }
{
    for expr in exprs {
        if !reads_below(base, expr) {
            return false;
        }
    }
    true
}

/// Whether statements do.
#[tactic(auto, unfolding(crate::specs::Inlined::block_reads_below))]
pub fn tree_reads_below(base: u32, tree: &Tree) -> bool
    ensures { result ≡ spec.block_reads_below base (block_of tree.now) }
{
    match tree {
        Tree::End => true,
        Tree::Set(_, _, expr, rest) => reads_below(base, expr) && tree_reads_below(base, rest),
        Tree::Store(_, expr, rest) => reads_below(base, expr) && tree_reads_below(base, rest),
        Tree::StoreAt(_, index, expr, rest) => {
            reads_below(base, index) && (reads_below(base, expr) && tree_reads_below(base, rest))
        }
        Tree::Call(_, _, _, args, rest) => {
            all_read_below(base, args.items()) && tree_reads_below(base, rest)
        }
        Tree::Select(_, _, expr, _, args, rest) => {
            reads_below(base, expr)
                && (all_read_below(base, args.items()) && tree_reads_below(base, rest))
        }
        Tree::If(expr, first, second, rest) => {
            reads_below(base, expr)
                && (tree_reads_below(base, first)
                    && (tree_reads_below(base, second) && tree_reads_below(base, rest)))
        }
        Tree::While(expr, first, rest) => {
            reads_below(base, expr)
                && (tree_reads_below(base, first) && tree_reads_below(base, rest))
        }
        Tree::Return(expr) => reads_below(base, expr),
    }
}
