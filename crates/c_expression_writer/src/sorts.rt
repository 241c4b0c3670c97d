//! The sorts of operands.
ghost use Rattle.std.specs.Prelude.{◌≡◌, IfOk};
ghost use Rattle.actions.specs.Sorts.{IsNarrow};
ghost use Rattle.c_functions.specs.Translation as spec;

use actions::{ExprFault, ExprSort};

/// The sort, a flag where there is none.
pub(crate) fn sort_in(sorted: Result<ExprSort, ExprFault>) -> ExprSort
    requires { IfOk sorted IsNarrow }
    ensures sort { result ≡ spec.sort_in sorted }
    ensures narrow { IsNarrow result }
{
    match sorted {
        Ok(sort) => sort,
        Err(_) => ExprSort::Flag,
    }
}
