//! What the evaluation of a cell looks up.
ghost use Rattle.std.specs.Prelude.{◌↔◌, IfOk, IsTrue};
ghost use Rattle.bound_prove.specs.Lookups as spec;

use crate::cell::{Cell, Colour};
use crate::cert::Cert;
use crate::colours::Colours;
use crate::need::{Need, Part};
use actions::Event;
use checked_chart::Chart;
use flow_base::Memory;

/// Where the evaluation of a cell looks up others.
#[derive(Clone, Copy)]
pub(crate) struct Lookup<'a> {
    /// The chart.
    pub(crate) chart: &'a Chart,
    /// The certificate, which is for this chart.
    pub(crate) cert: &'a Cert,
    /// The colours of the cells. A black cell is done, and without colours every cell is.
    pub(crate) colours: Option<&'a Colours>,
    /// The cell that is evaluated.
    pub(crate) cell: Cell,
}

impl Lookup<'_> {
    /// Whether a cell is done.
    fn is_done(&self, cell: Cell) -> bool
        ensures { IsTrue result ↔ spec.IsDone self.now cell.event cell.part cell.index }
    {
        match self.colours {
            None => true,
            Some(colours) => matches!(colours.get(cell), Colour::Black),
        }
    }

    /// The need of a cell, which is met where it isn't done.
    pub(crate) fn look(
        &self,
        met: &mut Vec<Cell>,
        event: Event,
        part: Part,
        index: u32,
    ) -> Result<Need, Memory>
        requires { spec.MayLook self.now event part index }
        ensures { IfOk result (λ n. spec.Evaluated self.now met.old.items met.new.items n
            (spec.cells_in self.now event part index)
            (λ m. spec.IsKnown self.now m event part index)) }
    {
        let need = self.cert.look(event, part, index);
        let cell = Cell { event, part, index };
        if self.is_done(cell) {
            return Ok(need);
        }
        met.push(cell)?;
        Ok(need)
    }
}
