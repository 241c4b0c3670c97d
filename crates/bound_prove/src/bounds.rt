//! The bounds of a chart: a certificate is found, and then checked.
ghost use Rattle.std.specs.Prelude.{IfOk};
ghost use Rattle.checked_chart.specs.Kept.{chart_of};
ghost use Rattle.bound_prove.specs.Searches.{IsNeedOf};

use crate::check::check_cert;
use crate::find::find_cert;
use crate::need::Need;
use checked_chart::Chart;
use flow_base::Memory;
use std::alloc::Global;

/// The least bounds that a good certificate gives for the chart, or none where no good certificate
/// gives bounds. Under them no run of the chart has a depth or a steps fault.
///
/// Fails only where memory does.
///
/// This project's choice.
pub fn bounds_of(alloc: Global, chart: &Chart) -> Result<Option<Need>, Memory>
    ensures { IfOk result (λ bounds. IsNeedOf (chart_of chart.now) bounds) }
{
    let cert = find_cert(alloc, chart)?;
    let bounds = check_cert(alloc, chart, &cert)?;
    Ok(bounds)
}
