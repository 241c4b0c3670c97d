//! The needs of actions and of lists of transitions.
ghost use Rattle.std.specs.Prelude.{◌≡◌, IfOk};
ghost use Rattle.actions.specs.declared.event.Event.TheVariants.{Named};
ghost use Rattle.actions.specs.Trees.{stmt_of};
ghost use Rattle.sos_rules.specs.Searches as searches;
ghost use Rattle.checked_chart.specs.Views.{block_seen, list_seen, trans_seen};
ghost use Rattle.bound_prove.specs.Cells as cells;
ghost use Rattle.bound_prove.specs.Lookups.{MayLook, IsKnown, Evaluated, cells_in};
ghost use Rattle.bound_prove.specs.Needs.{sent};
ghost use Rattle.bound_prove.specs.declared.need.Part.TheVariants.{Process};
ghost use Rattle.bound_prove.specs.Uses.{StmtUses, BlockUses, DestUses, TransUses, ListUses};

use crate::cell::Cell;
use crate::lookup::Lookup;
use crate::need::{Need, Part, nothing_needed, one_step};
use actions::{Event, Stmt};
use checked_chart::{Dest, Trans};
use flow_base::Memory;

/// Whether a trigger is the event.
pub(crate) fn event_fits(trigger: Option<u32>, event: Event) -> bool
    ensures { result ≡ searches.event_fits trigger event }
{
    match trigger {
        None => true,
        Some(e) => match event {
            Event::Start => false,
            Event::Tick => false,
            Event::Named(x) => x == e,
        },
    }
}

impl Lookup<'_> {
    /// A statement.
    fn stmt_need(&self, met: &mut Vec<Cell>, stmt: &Stmt) -> Result<Need, Memory>
        requires { StmtUses (MayLook self.now) (stmt_of stmt.now) }
        ensures { IfOk result (λ n. Evaluated self.now met.old.items met.new.items n
            (cells.stmt_need (cells_in self.now) (stmt_of stmt.now))
            (λ m. StmtUses (IsKnown self.now m) (stmt_of stmt.now))) }
    {
        match stmt {
            Stmt::Assign(_, _) => Ok(nothing_needed()),
            Stmt::Emit(_) => Ok(one_step()),
            Stmt::Send(e) => self.send_need(met, *e, 0),
            Stmt::SendTo(e, s) => self.send_need(met, *e, *s),
        }
    }

    /// A send of an event to a state.
    fn send_need(&self, met: &mut Vec<Cell>, e: u32, s: u32) -> Result<Need, Memory>
        requires { MayLook self.now (Named e) Process s }
        ensures { IfOk result (λ n. Evaluated self.now met.old.items met.new.items n
            (sent (cells_in self.now (Named e) Process s)) (λ m. IsKnown self.now m
            (Named e) Process s)) }
    {
        let work = self.look(met, Event::Named(e), Part::Process, s)?;
        Ok(work.sent())
    }

    /// An action: its statements in turn.
    pub(crate) fn block_need(&self, met: &mut Vec<Cell>, stmts: &[Stmt]) -> Result<Need, Memory>
        requires { BlockUses (MayLook self.now) (block_seen stmts.now) }
        ensures { IfOk result (λ n. Evaluated self.now met.old.items met.new.items n
            (cells.block_need (cells_in self.now) (block_seen stmts.now))
            (λ m. BlockUses (IsKnown self.now m) (block_seen stmts.now))) }
    {
        let mut need = Need { depth: 0, steps: 0 };
        for stmt in stmts {
            let own = self.stmt_need(met, stmt)?;
            need = need.then(own);
        }
        Ok(need)
    }

    /// A transition action: one step more where it isn't empty.
    fn action_need(&self, met: &mut Vec<Cell>, stmts: &[Stmt]) -> Result<Need, Memory>
        requires { BlockUses (MayLook self.now) (block_seen stmts.now) }
        ensures { IfOk result (λ n. Evaluated self.now met.old.items met.new.items n
            (cells.action_need (cells_in self.now) (block_seen stmts.now))
            (λ m. BlockUses (IsKnown self.now m) (block_seen stmts.now))) }
    {
        if stmts.is_empty() {
            return Ok(nothing_needed());
        }
        let block = self.block_need(met, stmts)?;
        Ok(one_step().then(block))
    }

    /// Where a transition leads: a visit of a junction costs one step.
    fn dest_need(&self, met: &mut Vec<Cell>, dest: Dest) -> Result<Need, Memory>
        requires { DestUses (MayLook self.now) self.now.cell.event dest }
        ensures { IfOk result (λ n. Evaluated self.now met.old.items met.new.items n
            (cells.dest_need (cells_in self.now) self.now.cell.event dest)
            (λ m. DestUses (IsKnown self.now m) self.now.cell.event dest)) }
    {
        match dest {
            Dest::State(_) => Ok(nothing_needed()),
            Dest::Junction(j) => {
                let list = self.look(met, self.cell.event, Part::Junction, j)?;
                Ok(one_step().then(list))
            }
        }
    }

    /// A transition whose event is the current one: its actions, and where it leads.
    fn trans_need(&self, met: &mut Vec<Cell>, t: &Trans) -> Result<Need, Memory>
        requires condition { BlockUses (MayLook self.now) (trans_seen t.now).condition }
        requires action { BlockUses (MayLook self.now) (trans_seen t.now).action }
        requires dest { DestUses (MayLook self.now) self.now.cell.event (trans_seen t.now).dest }
        ensures { IfOk result (λ n. Evaluated self.now met.old.items met.new.items n
            (cells.trans_need (cells_in self.now) self.now.cell.event (trans_seen t.now))
            (λ m. BlockUses (IsKnown self.now m) (trans_seen t.now).condition
            × BlockUses (IsKnown self.now m) (trans_seen t.now).action
            × DestUses (IsKnown self.now m) self.now.cell.event (trans_seen t.now).dest)) }
    {
        let condition = self.block_need(met, t.cond.items())?;
        let action = self.action_need(met, t.act.items())?;
        let dest = self.dest_need(met, t.dest)?;
        let rest = action.then(dest);
        Ok(condition.then(rest))
    }

    /// A transition of a list. It takes nothing where its event isn't the current one.
    fn fit_need(&self, met: &mut Vec<Cell>, t: &Trans) -> Result<Need, Memory>
        requires { TransUses (MayLook self.now) self.now.cell.event (trans_seen t.now) }
        ensures { IfOk result (λ n. Evaluated self.now met.old.items met.new.items n
            (cells.fit_need (cells_in self.now) self.now.cell.event (trans_seen t.now))
            (λ m. TransUses (IsKnown self.now m) self.now.cell.event (trans_seen t.now))) }
    {
        if event_fits(t.event, self.cell.event) {
            return self.trans_need(met, t);
        }
        Ok(nothing_needed())
    }

    /// A list: its transitions in turn.
    pub(crate) fn list_need(&self, met: &mut Vec<Cell>, list: &[Trans]) -> Result<Need, Memory>
        requires { ListUses (MayLook self.now) self.now.cell.event (list_seen list.now) }
        ensures { IfOk result (λ n. Evaluated self.now met.old.items met.new.items n
            (cells.list_need (cells_in self.now) self.now.cell.event (list_seen list.now))
            (λ m. ListUses (IsKnown self.now m) self.now.cell.event (list_seen list.now))) }
    {
        let mut need = Need { depth: 0, steps: 0 };
        for t in list {
            let own = self.fit_need(met, t)?;
            need = need.then(own);
        }
        Ok(need)
    }
}
