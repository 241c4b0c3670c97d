//! The need of a cell on a certificate, for the finder.
ghost use Rattle.std.specs.Prelude.{ℕ, IfOk, OnOk, All};
ghost use Rattle.checked_chart.specs.Kept.{chart_of};
ghost use Rattle.bound_prove.specs.declared.need.Need.{Need as NeedSpec};
ghost use Rattle.bound_prove.specs.Cells.{Demands};
ghost use Rattle.bound_prove.specs.Certs.{cells_of};
ghost use Rattle.bound_prove.specs.Colourings.{colours_of, IsBlack};
ghost use Rattle.bound_prove.specs.Firings.{AreRight};
ghost use Rattle.bound_prove.specs.Homes.{AreMarksFor};
ghost use Rattle.bound_prove.specs.Lookups.{IsLedTo, IsBlackOrIn};
ghost use Rattle.bound_prove.specs.Needs.{Covers};
ghost use Rattle.bound_prove.specs.Tables.{IsInTable};
ghost use Rattle.bound_prove.specs.Uses.{Uses};

use crate::cell::Cell;
use crate::cert::Cert;
use crate::colours::Colours;
use crate::firings::Firings;
use crate::homes::Marks;
use crate::lookup::Lookup;
use crate::need::Need;
use checked_chart::Chart;
use flow_base::Memory;
use std::alloc::Global;

/// What a cell needs, and the cells that it looked up and that aren't done.
#[derive(Drop)]
pub(crate) struct Looked {
    pub(crate) need: Need,
    pub(crate) met: Vec<Cell>,
}

/// Looks at a cell: its least need on the certificate, and which cells it waits for.
pub(crate) fn look_at<'a>(
    alloc: Global,
    chart: &'a Chart,
    cell: Cell,
    cert: &'a Cert,
    colours: &'a Colours,
    marks: &mut Marks,
    firings: &mut Firings,
) -> Result<Looked, Memory>
    requires cell { IsInTable (chart_of chart.now) cell.event cell.part cell.index }
    requires marks { AreMarksFor (chart_of chart.now) marks.old }
    requires firings { AreRight (chart_of chart.now) (cells_of cert.now)
        (IsBlack (colours_of colours.now)) firings.old }
    ensures covers { IfOk result (λ l. (n : NeedSpec) → Demands (chart_of chart.now)
        (cells_of cert.now)
        cell.event cell.part cell.index n → Covers l.need n) }
    ensures least { IfOk result (λ l. (v : NeedSpec) → ((n : NeedSpec) → Demands
        (chart_of chart.now)
        (cells_of cert.now) cell.event cell.part cell.index n → Covers v n) → Covers v l.need) }
    ensures met { IfOk result (λ l. All (IsLedTo (chart_of chart.now) cell) l.met.items) }
    ensures uses { IfOk result (λ l. Uses (chart_of chart.now)
        (IsBlackOrIn (colours_of colours.now) l.met.items) cell.event cell.part cell.index) }
    ensures marks { OnOk result (AreMarksFor (chart_of chart.now) marks.new) }
    ensures firings { OnOk result (AreRight (chart_of chart.now) (cells_of cert.now)
        (IsBlack (colours_of colours.now)) firings.new) }
{
    let look = Lookup {
        chart,
        cert,
        colours: Some(colours),
        cell,
    };
    let mut met = Vec::new(alloc);
    let need = look.cell_need(alloc, &mut met, marks, firings)?;
    Ok(Looked { need, met })
}
