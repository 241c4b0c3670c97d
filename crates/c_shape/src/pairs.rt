//! Two expressions that are made one after the other.
//!
//! An expression of which nothing is made goes to `drop` by name.
ghost use Rattle.std.specs.Prelude.{◌≡◌, IfOk, Ok};

use c_subset::CExpr;
use flow_base::Memory;

/// Both expressions, where both were made.
pub fn both_made(
    left: Result<CExpr, Memory>,
    right: Result<CExpr, Memory>,
) -> Result<(CExpr, CExpr), Memory>
    ensures { IfOk result (λ both. (left ≡ Ok both.0) × (right ≡ Ok both.1)) }
{
    match left {
        Ok(left) => match right {
            Ok(right) => Ok((left, right)),
            Err(Memory) => {
                drop(left);
                Err(Memory)
            }
        },
        Err(Memory) => {
            drop(right);
            Err(Memory)
        }
    }
}
