//! An operand whose code is written.
use actions::ExprSort;
use c_subset::CExpr;

/// An operand whose code is written: an expression that reads what the code set.
#[derive(Drop)]
pub struct Operand {
    /// The expression.
    pub expr: CExpr,
    /// What the operand gives.
    pub sort: ExprSort,
    /// The first local that isn't used.
    pub next: u32,
}
