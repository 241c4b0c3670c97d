//! The plan of what is found.
ghost use Rattle.std.specs.Prelude.{◌≡◌, IfOk};
ghost use Rattle.c_fact_search.specs.Searched as spec;

use crate::found::Found;
use crate::outside::is_kept;
use c_decided::Plan;
use c_decided_runs::Outside;
use flow_base::{List, Memory};
use std::alloc::Global;

/// The plan of so many functions: what is found of each.
pub fn plan_of(alloc: Global, found: Found, count: usize, outside: Outside) -> Result<Plan, Memory>
    ensures { IfOk result (spec.IsPlanOf count outside) }
{
    let mut left = found;
    left.turn_round();
    let mut made = Vec::new(alloc);
    for number in 0..count {
        made.push(left.pop(is_kept(outside, number)))?;
    }
    Ok(Plan {
        functions: List::of(made),
    })
}
