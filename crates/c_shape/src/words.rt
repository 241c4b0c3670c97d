//! Constants of the type of words.
ghost use Rattle.std.specs.Prelude.{◌≡◌};
ghost use Rattle.c_subset.specs.Lines.{expr_of};
ghost use Rattle.c_functions.specs.Plans as plans;

use c_functions::WORD;
use c_subset::CExpr;

/// A number of 32 bits.
pub fn number(value: u32) -> CExpr
    ensures { expr_of result ≡ plans.number value }
{
    CExpr::Const(WORD, i128::from(value))
}
