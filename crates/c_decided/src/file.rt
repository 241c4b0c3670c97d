//! The functions of a file with decided tests.
ghost use Rattle.std.specs.Prelude.{◌≡◌, List, IfOk};
ghost use Rattle.c_subset.specs.Trees as c;
ghost use Rattle.c_decided.specs.Made as spec;
ghost use Rattle.c_decided.specs.Made.{AreFunctions};
ghost use Rattle.c_decided.specs.Views.{plan_of};

use crate::functions::decided_function;
use crate::plan::Plan;
use crate::walking::Unfit;
use c_subset::Function;
use std::alloc::Global;

/// The functions of a file with decided tests, each with its number.
///
/// `NotRight` where the plan isn't right for one of them, `NoMemory` where memory was refused.
pub fn decided_functions(
    alloc: Global,
    plan: &Plan,
    functions: Vec<Function>,
) -> Result<Vec<Function>, Unfit>
    ensures { IfOk result (λ made. (gs : List c.Function) → AreFunctions functions.items gs →
        spec.AreMadeFunctions (plan_of plan.now) gs made.items) }
{
    let mut made = Vec::new(alloc);
    for function in functions {
        let Ok(number) = u32::try_from(made.len()) else {
            return Err(Unfit::NotRight);
        };
        made.push(decided_function(alloc, plan, number, function)?)?;
    }
    Ok(made)
}
