//! The needs of the children of a state.
ghost use Rattle.std.specs.Prelude.{◌<◌, IfOk};
ghost use Rattle.std.specs.List.{AllByRecursion};
ghost use Rattle.active_config.specs.Tree.{state_count, comp_of, children_of};
ghost use Rattle.bound_prove.specs.Cells as cells;
ghost use Rattle.bound_prove.specs.Lookups.{MayLook, IsKnown, Evaluated, cells_in, chart_in};
ghost use Rattle.bound_prove.specs.Needs.{all_of, one_of};
ghost use Rattle.bound_prove.specs.Uses.{ChildrenUse};

use crate::cell::Cell;
use crate::lookup::Lookup;
use crate::need::{Need, Part, nothing_needed};
use active_config::Comp;
use flow_base::Memory;

impl Lookup<'_> {
    /// A part of all children in turn.
    fn all_children(&self, met: &mut Vec<Cell>, part: Part, s: u32) -> Result<Need, Memory>
        requires state { s < state_count (chart_in self.now).tree }
        requires may { AllByRecursion (MayLook self.now self.now.cell.event part)
            (children_of (chart_in self.now).tree s) }
        ensures { IfOk result (λ n. Evaluated self.now met.old.items met.new.items n
            (all_of (cells_in self.now self.now.cell.event part)
            (children_of (chart_in self.now).tree s))
            (λ m. AllByRecursion (IsKnown self.now m self.now.cell.event part)
            (children_of (chart_in self.now).tree s))) }
    {
        let mut need = Need { depth: 0, steps: 0 };
        let mut next = self.chart.first_child(s);
        while let Some(x) = next {
            let own = self.look(met, self.cell.event, part, x)?;
            need = need.then(own);
            next = self.chart.next_sibling(x);
        }
        Ok(need)
    }

    /// A part of one of the children.
    pub(crate) fn one_child(&self, met: &mut Vec<Cell>, part: Part, s: u32) -> Result<Need, Memory>
        requires state { s < state_count (chart_in self.now).tree }
        requires may { AllByRecursion (MayLook self.now self.now.cell.event part)
            (children_of (chart_in self.now).tree s) }
        ensures { IfOk result (λ n. Evaluated self.now met.old.items met.new.items n
            (one_of (cells_in self.now self.now.cell.event part)
            (children_of (chart_in self.now).tree s))
            (λ m. AllByRecursion (IsKnown self.now m self.now.cell.event part)
            (children_of (chart_in self.now).tree s))) }
    {
        let mut need = Need { depth: 0, steps: 0 };
        let mut next = self.chart.first_child(s);
        while let Some(x) = next {
            let own = self.look(met, self.cell.event, part, x)?;
            need = need.or(own);
            next = self.chart.next_sibling(x);
        }
        Ok(need)
    }

    /// A part of the children: of an OR that of one, of an AND that of all in turn.
    pub(crate) fn children_need(
        &self,
        met: &mut Vec<Cell>,
        part: Part,
        s: u32,
    ) -> Result<Need, Memory>
        requires state { s < state_count (chart_in self.now).tree }
        requires may { ChildrenUse (chart_in self.now) (MayLook self.now) self.now.cell.event part s
            (comp_of (chart_in self.now).tree s) }
        ensures { IfOk result (λ n. Evaluated self.now met.old.items met.new.items n
            (cells.children_need (chart_in self.now) (cells_in self.now) self.now.cell.event part s
            (comp_of (chart_in self.now).tree s))
            (λ m. ChildrenUse (chart_in self.now) (IsKnown self.now m) self.now.cell.event part s
            (comp_of (chart_in self.now).tree s))) }
    {
        match self.chart.comp(s) {
            Comp::Leaf => Ok(nothing_needed()),
            Comp::Or => self.one_child(met, part, s),
            Comp::And => self.all_children(met, part, s),
        }
    }
}
