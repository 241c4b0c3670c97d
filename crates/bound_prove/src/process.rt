//! What leaving, entering and processing a state needs, and firings.
ghost use Rattle.std.specs.Prelude.{◌<◌, ℕ, IfOk, OnOk};
ghost use Rattle.active_config.specs.Tree.{state_count};
ghost use Rattle.checked_chart.specs.Chart.{list_of};
ghost use Rattle.checked_chart.specs.Homes.{home_of};
ghost use Rattle.bound_prove.specs.Cells as cells;
ghost use Rattle.bound_prove.specs.Firings.{AreRight};
ghost use Rattle.bound_prove.specs.Homes.{AreMarksFor};
ghost use Rattle.bound_prove.specs.Lookups.{MayLook, IsKnown, IsDone, Evaluated, CellEvaluated, cells_in, chart_in};
ghost use Rattle.bound_prove.specs.Processes.{FiringsFrom};
ghost use Rattle.bound_prove.specs.Reaches.{Reaches};
ghost use Rattle.bound_prove.specs.Tables.{IsInTable};
ghost use Rattle.bound_prove.specs.Uses.{FiringUses, Uses};
ghost use Rattle.bound_prove.specs.declared.need.Part.TheVariants as parts;

use crate::cell::Cell;
use crate::firings::Firings;
use crate::homes::Marks;
use crate::lookup::Lookup;
use crate::need::{Need, Part};
use checked_chart::{BlockKind, ListKind};
use flow_base::Memory;
use std::alloc::Global;

impl Lookup<'_> {
    /// A state is left.
    fn exit_need(&self, met: &mut Vec<Cell>, s: u32) -> Result<Need, Memory>
        requires state { s < state_count (chart_in self.now).tree }
        requires may { Uses (chart_in self.now)
            (MayLook self.now) self.now.cell.event parts.Exit s }
        ensures { IfOk result (λ n. Evaluated self.now met.old.items met.new.items n
            (cells.exit_need (chart_in self.now) (cells_in self.now) self.now.cell.event s)
            (λ m. Uses (chart_in self.now) (IsKnown self.now m) self.now.cell.event parts.Exit s)) }
    {
        let block = self.block_need(met, self.chart.block(s, BlockKind::Exit))?;
        let children = self.children_need(met, Part::Exit, s)?;
        Ok(block.then(children))
    }

    /// A state is entered.
    fn enter_need(&self, met: &mut Vec<Cell>, s: u32) -> Result<Need, Memory>
        requires state { s < state_count (chart_in self.now).tree }
        requires may { Uses (chart_in self.now)
            (MayLook self.now) self.now.cell.event parts.Enter s }
        ensures { IfOk result (λ n. Evaluated self.now met.old.items met.new.items n
            (cells.enter_need (chart_in self.now) (cells_in self.now) self.now.cell.event s)
            (λ m. Uses (chart_in self.now)
            (IsKnown self.now m) self.now.cell.event parts.Enter s)) }
    {
        let block = self.block_need(met, self.chart.block(s, BlockKind::Entry))?;
        let list = self.list_need(met, self.chart.list(s, ListKind::Default))?;
        let children = self.children_need(met, Part::Enter, s)?;
        let rest = list.then(children);
        Ok(block.then(rest))
    }

    /// A firing with a home: its default list, the exit of one child, and the entry of one.
    fn new_firing_need(&self, met: &mut Vec<Cell>, home: u32) -> Result<Need, Memory>
        requires state { home < state_count (chart_in self.now).tree }
        requires may { FiringUses (chart_in self.now) (MayLook self.now) self.now.cell.event home }
        ensures { IfOk result (λ n. Evaluated self.now met.old.items met.new.items n
            (cells.firing_need (chart_in self.now) (cells_in self.now) self.now.cell.event home)
            (λ m. FiringUses (chart_in self.now) (IsKnown self.now m) self.now.cell.event home)) }
    {
        let list = self.list_need(met, self.chart.list(home, ListKind::Default))?;
        let exits = self.one_child(met, Part::Exit, home)?;
        let entries = self.one_child(met, Part::Enter, home)?;
        let rest = exits.then(entries);
        Ok(list.then(rest))
    }

    /// A firing, which is kept where all that it looks up is done.
    fn firing_need(
        &self,
        alloc: Global,
        met: &mut Vec<Cell>,
        firings: &mut Firings,
        home: u32,
    ) -> Result<Need, Memory>
        requires state { home < state_count (chart_in self.now).tree }
        requires may { FiringUses (chart_in self.now) (MayLook self.now) self.now.cell.event home }
        requires firings { AreRight (chart_in self.now) (cells_in self.now)
            (IsDone self.now) firings.old }
        ensures need { IfOk result (λ n. Evaluated self.now met.old.items met.new.items n
            (cells.firing_need (chart_in self.now) (cells_in self.now) self.now.cell.event home)
            (λ m. FiringUses (chart_in self.now) (IsKnown self.now m) self.now.cell.event home)) }
        ensures firings { OnOk result
            (AreRight (chart_in self.now) (cells_in self.now) (IsDone self.now) firings.new) }
    {
        if let Some(need) = firings.get(self.cell.event, home) {
            return Ok(need);
        }
        let mut own = Vec::new(alloc);
        let need = self.new_firing_need(&mut own, home)?;
        if own.is_empty() {
            firings.keep(self.cell.event, home, need);
            return Ok(need);
        }
        met.extend_from_slice(&own)?;
        Ok(need)
    }

    /// One of the firings from a list of a state.
    fn firings_need(
        &self,
        alloc: Global,
        met: &mut Vec<Cell>,
        marks: &mut Marks,
        firings: &mut Firings,
        s: u32,
        kind: ListKind,
    ) -> Result<Need, Memory>
        requires state { s < state_count (chart_in self.now).tree }
        requires may { (d : ℕ) → Reaches (chart_in self.now) self.now.cell.event
            (list_of (chart_in self.now) s kind) d
            → FiringUses (chart_in self.now) (MayLook self.now) self.now.cell.event
            (home_of (chart_in self.now).tree s kind d) }
        requires marks { AreMarksFor (chart_in self.now) marks.old }
        requires firings { AreRight (chart_in self.now) (cells_in self.now)
            (IsDone self.now) firings.old }
        ensures need { IfOk result
            (λ n. FiringsFrom self.now s kind met.old.items met.new.items n) }
        ensures marks { OnOk result (AreMarksFor (chart_in self.now) marks.new) }
        ensures firings { OnOk result
            (AreRight (chart_in self.now) (cells_in self.now) (IsDone self.now) firings.new) }
    {
        marks.find_homes(alloc, self, s, kind)?;
        let mut need = Need { depth: 0, steps: 0 };
        for home in &marks.homes {
            let own = self.firing_need(alloc, met, firings, *home)?;
            need = need.or(own);
        }
        Ok(need)
    }

    /// A state is processed.
    fn process_need(
        &self,
        alloc: Global,
        met: &mut Vec<Cell>,
        marks: &mut Marks,
        firings: &mut Firings,
        s: u32,
    ) -> Result<Need, Memory>
        requires state { s < state_count (chart_in self.now).tree }
        requires may { Uses (chart_in self.now)
            (MayLook self.now) self.now.cell.event parts.Process s }
        requires marks { AreMarksFor (chart_in self.now) marks.old }
        requires firings { AreRight (chart_in self.now) (cells_in self.now)
            (IsDone self.now) firings.old }
        ensures need { IfOk result
            (λ n. CellEvaluated self.now parts.Process s met.old.items met.new.items n) }
        ensures marks { OnOk result (AreMarksFor (chart_in self.now) marks.new) }
        ensures firings { OnOk result
            (AreRight (chart_in self.now) (cells_in self.now) (IsDone self.now) firings.new) }
    {
        let outer = self.list_need(met, self.chart.list(s, ListKind::Outer))?;
        let during = self.block_need(met, self.chart.block(s, BlockKind::During))?;
        let inner = self.list_need(met, self.chart.list(s, ListKind::Inner))?;
        let children = self.children_need(met, Part::Process, s)?;
        let leaving = self.firings_need(alloc, met, marks, firings, s, ListKind::Outer)?;
        let staying = self.firings_need(alloc, met, marks, firings, s, ListKind::Inner)?;
        let fired = leaving.or(staying);
        let last = children.or(fired);
        let from_inner = inner.then(last);
        let from_during = during.then(from_inner);
        Ok(outer.then(from_during))
    }

    /// The least need that covers what the cell is to cover.
    pub(crate) fn cell_need(
        &self,
        alloc: Global,
        met: &mut Vec<Cell>,
        marks: &mut Marks,
        firings: &mut Firings,
    ) -> Result<Need, Memory>
        requires cell { IsInTable
            (chart_in self.now) self.now.cell.event self.now.cell.part self.now.cell.index }
        requires marks { AreMarksFor (chart_in self.now) marks.old }
        requires firings { AreRight (chart_in self.now) (cells_in self.now)
            (IsDone self.now) firings.old }
        ensures need { IfOk result
            (λ n. CellEvaluated self.now self.now.cell.part self.now.cell.index
            met.old.items met.new.items n) }
        ensures marks { OnOk result (AreMarksFor (chart_in self.now) marks.new) }
        ensures firings { OnOk result
            (AreRight (chart_in self.now) (cells_in self.now) (IsDone self.now) firings.new) }
    {
        // Only the proof reads the tree: the chart is valid.
        let _ = self.chart.shape();
        let i = self.cell.index;
        match self.cell.part {
            Part::Junction => self.list_need(met, self.chart.junction(i)),
            Part::Exit => self.exit_need(met, i),
            Part::Enter => self.enter_need(met, i),
            Part::Process => self.process_need(alloc, met, marks, firings, i),
        }
    }
}
