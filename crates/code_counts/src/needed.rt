//! The bounds that the events of code need.
ghost use Rattle.std.specs.Prelude.{◌≤◌, IfOk};
ghost use Rattle.code_language.specs.Code.{code_of};
ghost use Rattle.code_counts.specs.Needed.{Serves, IsLimit, IsRoom};

use crate::counting::most;
use crate::numbers::{Counted, Limits};
use code_language::Code;
use flow_base::{Bounds, Memory};
use std::alloc::Global;

/// A bound of what is counted.
#[derive(Clone, Copy)]
struct Limit {
    /// The bound.
    bound: u32,
    /// Whether an event may take more.
    is_tested: bool,
}

/// The bound of what is counted that serves the code in place of another one: the most that an
/// event takes, where that is known and no greater, but at least 1.
fn limit_of(alloc: Global, counted: Counted, code: &Code, bound: u32) -> Result<Limit, Memory>
    requires { 1 ≤ bound }
    ensures { IfOk result (λ found.
        Serves counted (code_of code.now) bound found.bound found.is_tested) }
{
    let found = most(alloc, counted, code)?;
    match found {
        Some(count) if count <= bound => Ok(Limit {
            bound: count.max(1),
            is_tested: false,
        }),
        _ => Ok(Limit {
            bound,
            is_tested: true,
        }),
    }
}

/// How many entries an array needs for what an event emits under these bounds: the most that is
/// known, but at least 1 and no more than the steps, of which each output takes one.
fn room_of(alloc: Global, code: &Code, bounds: Bounds) -> Result<u32, Memory>
    requires { 1 ≤ bounds.steps }
    ensures { IfOk result (λ room. IsRoom (code_of code.now) bounds room) }
{
    let found = most(alloc, Counted::Outputs, code)?;
    match found {
        Some(count) if count <= bounds.steps => Ok(count.max(1)),
        _ => Ok(bounds.steps),
    }
}

/// The bounds that the events of the code need, where the code is to run under the given ones.
///
/// The most steps that an event takes, as `most` finds it, are the bound of the steps where they
/// are no more than those given, but at least 1; then no run has to test them. Else it is the
/// given bound, which a run has to test. The same is done for the depth.
///
/// The most outputs of an event, as `most` finds them, are the room for them where they are no more
/// than the bound of the steps, but at least 1. Else it is that bound, since each output takes a
/// step.
///
/// # Errors
///
/// `Memory` where memory runs out.
pub fn limits_of(alloc: Global, code: &Code, bounds: Bounds) -> Result<Limits, Memory>
    ensures { IfOk result (λ found. IsLimit (code_of code.now) bounds found) }
{
    let steps = limit_of(alloc, Counted::Steps, code, bounds.steps)?;
    let depth = limit_of(alloc, Counted::Depth, code, bounds.depth)?;
    let needed = Bounds {
        depth: depth.bound,
        steps: steps.bound,
    };
    let outputs = room_of(alloc, code, needed)?;
    Ok(Limits {
        bounds: needed,
        tests_steps: steps.is_tested,
        tests_depth: depth.is_tested,
        outputs,
    })
}
