//! The bounds of the C of a chart.
ghost use Rattle.std.specs.Prelude.{IfOk, None};
ghost use Rattle.checked_chart.specs.Kept.{chart_of};
ghost use Rattle.c_program.specs.Seen.{asked_seen};
ghost use Rattle.c_program.specs.Bounds.{IsBoundsFor};

use bound_prove::bounds_of;
use checked_chart::Chart;
use flow_base::{Bounds, Memory};
use std::alloc::Global;

/// The bounds that are asked for; where none are, those that no event of the chart overruns, if a
/// certificate gives such bounds, and else the default ones. Fails only where memory does.
///
/// This project's choice.
pub fn bounds_for(alloc: Global, chart: &Chart, asked: Option<Bounds>) -> Result<Bounds, Memory>
    ensures { IfOk result (IsBoundsFor (asked_seen asked) (chart_of chart.now)) }
{
    match asked {
        Some(bounds) => Ok(bounds),
        None => given_bounds(alloc, chart),
    }
}

/// The bounds that a chart gives.
fn given_bounds(alloc: Global, chart: &Chart) -> Result<Bounds, Memory>
    ensures { IfOk result (IsBoundsFor None (chart_of chart.now)) }
{
    match bounds_of(alloc, chart)? {
        Some(need) => Ok(Bounds {
            depth: need.depth,
            steps: need.steps,
        }),
        None => Ok(Bounds::usual()),
    }
}
