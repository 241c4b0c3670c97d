//! The homes of the firings from a list: a walk through the junctions that it leads to.
ghost use Rattle.std.specs.Prelude.{◌≡◌, ◌<◌, ◌↔◌, length, true, Contains, IfOk, OnOk, IsTrue};
ghost use Rattle.std.specs.List.{AllByRecursion};
ghost use Rattle.active_config.specs.Tree.{state_count};
ghost use Rattle.sos_rules.specs.Searches as searches;
ghost use Rattle.checked_chart.specs.Chart.{junction_count, list_of};
ghost use Rattle.checked_chart.specs.Homes.{home_of};
ghost use Rattle.checked_chart.specs.Kept.{chart_of};
ghost use Rattle.checked_chart.specs.Valid.{IsTrans, AreTrans};
ghost use Rattle.checked_chart.specs.Views.{list_seen, trans_seen};
ghost use Rattle.bound_prove.specs.Homes as spec;
ghost use Rattle.bound_prove.specs.Lookups.{chart_in};
ghost use Rattle.bound_prove.specs.Reaches.{Reaches};

use crate::lists::event_fits;
use crate::lookup::Lookup;
use checked_chart::{Chart, Dest, ListKind, Trans};
use flow_base::Memory;
use std::alloc::Global;

/// What a walk through junctions has met. It is made once and serves all walks, so that a walk
/// costs no more than what it meets.
#[derive(Drop)]
pub(crate) struct Marks {
    /// For each junction the number of the last walk that met it, 0 before the first.
    pub(crate) walks: Vec<u32>,
    /// The number of this walk.
    pub(crate) stamp: u32,
    /// The junctions that are met and whose lists are still to be followed.
    pub(crate) todo: Vec<u32>,
    /// The homes of the firings to the states that are met, each once.
    pub(crate) homes: Vec<u32>,
}

/// The marks of that many junctions before the first walk.
fn no_walks(alloc: Global, junctions: usize) -> Result<Vec<u32>, Memory>
    ensures { IfOk result (λ v. spec.AreNoWalks junctions v.items) }
{
    Ok(vec![in alloc; 0u32; junctions]?)
}

impl Marks {
    /// Marks for the walks through a chart.
    pub(crate) fn make(alloc: Global, chart: &Chart) -> Result<Marks, Memory>
        ensures { IfOk result (λ m. spec.AreMarksFor (chart_of chart.now) m) }
    {
        let walks = no_walks(alloc, chart.junctions() as usize)?;
        Ok(Marks {
            walks,
            stamp: 0,
            todo: Vec::new(alloc),
            homes: Vec::new(alloc),
        })
    }

    /// Begins a walk.
    fn begin(&mut self, alloc: Global, chart: &Chart) -> Result<(), Memory>
        requires { spec.AreMarksFor (chart_of chart.now) self.old }
        ensures { OnOk result (spec.IsFresh (chart_of chart.now) self.new) }
    {
        if self.stamp == u32::MAX {
            return self.begin_anew(alloc, chart);
        }
        self.stamp += 1;
        self.todo.clear();
        self.homes.clear();
        Ok(())
    }

    /// Begins the first walk once more.
    fn begin_anew(&mut self, alloc: Global, chart: &Chart) -> Result<(), Memory>
        ensures { OnOk result (spec.IsFresh (chart_of chart.now) self.new) }
    {
        let walks = no_walks(alloc, chart.junctions() as usize)?;
        self.walks = walks;
        self.stamp = 1;
        self.todo.clear();
        self.homes.clear();
        Ok(())
    }

    /// Marks a junction. Its list is to be followed where it wasn't marked.
    fn meet_junction(&mut self, look: &Lookup, s: u32, kind: ListKind, j: u32) -> Result<(), Memory>
        requires within { j < length self.old.walks.items }
        requires right { spec.IsToFollow (chart_in look.now) look.now.cell.event s kind j }
        ensures goes_on { OnOk result
            (spec.GoesOn (chart_in look.now) look.now.cell.event s kind self.old self.new) }
        ensures marked { OnOk result (spec.IsMarked self.new j) }
    {
        // Only the contract reads the list that is walked.
        let _ = look;
        let _ = (s, kind);
        if self.walks[j as usize] == self.stamp {
            return Ok(());
        }
        self.todo.push(j)?;
        self.walks[j as usize] = self.stamp;
        Ok(())
    }

    /// Marks the home of a firing to a state.
    fn meet_state(&mut self, look: &Lookup, s: u32, kind: ListKind, d: u32) -> Result<(), Memory>
        requires state { s < state_count (chart_in look.now).tree }
        requires dest { d < state_count (chart_in look.now).tree }
        requires reached { Reaches (chart_in look.now) look.now.cell.event
            (list_of (chart_in look.now) s kind) d }
        ensures goes_on { OnOk result
            (spec.GoesOn (chart_in look.now) look.now.cell.event s kind self.old self.new) }
        ensures known { OnOk result (Contains self.new.homes.items
            (home_of (chart_in look.now).tree s kind d)) }
    {
        let home = look.chart.home(s, kind, d);
        if has(&self.homes, home) {
            return Ok(());
        }
        self.homes.push(home)?;
        Ok(())
    }

    /// Follows a transition, where its event is the current one.
    fn follow_one(&mut self, look: &Lookup, s: u32, kind: ListKind, t: &Trans) -> Result<(), Memory>
        requires state { s < state_count (chart_in look.now).tree }
        requires sized { length self.old.walks.items ≡ junction_count (chart_in look.now) }
        requires trans { IsTrans (chart_in look.now) (trans_seen t.now) }
        requires may { searches.event_fits (trans_seen t.now).event look.now.cell.event ≡ true
            → spec.MayMeet (chart_in look.now) look.now.cell.event s kind (trans_seen t.now).dest }
        ensures goes_on { OnOk result
            (spec.GoesOn (chart_in look.now) look.now.cell.event s kind self.old self.new) }
        ensures followed { OnOk result
            (spec.IsFollowed (chart_in look.now) look.now.cell.event s kind self.new
            (trans_seen t.now)) }
    {
        if !event_fits(t.event, look.cell.event) {
            return Ok(());
        }
        match t.dest {
            Dest::State(d) => self.meet_state(look, s, kind, d),
            Dest::Junction(j) => self.meet_junction(look, s, kind, j),
        }
    }

    /// Follows the transitions of a list.
    fn follow(
        &mut self,
        look: &Lookup,
        s: u32,
        kind: ListKind,
        list: &[Trans],
    ) -> Result<(), Memory>
        requires state { s < state_count (chart_in look.now).tree }
        requires sized { length self.old.walks.items ≡ junction_count (chart_in look.now) }
        requires trans { AreTrans (chart_in look.now) (list_seen list.now) }
        requires part { spec.IsPart (chart_in look.now) look.now.cell.event s kind
            (list_seen list.now) }
        ensures goes_on { OnOk result
            (spec.GoesOn (chart_in look.now) look.now.cell.event s kind self.old self.new) }
        ensures followed { OnOk result
            (AllByRecursion
            (spec.IsFollowed (chart_in look.now) look.now.cell.event s kind self.new)
            (list_seen list.now)) }
    {
        for t in list {
            self.follow_one(look, s, kind, t)?;
        }
        Ok(())
    }

    /// Finds the homes of the firings from a list of a state.
    pub(crate) fn find_homes(
        &mut self,
        alloc: Global,
        look: &Lookup,
        s: u32,
        kind: ListKind,
    ) -> Result<(), Memory>
        requires state { s < state_count (chart_in look.now).tree }
        requires marks { spec.AreMarksFor (chart_in look.now) self.old }
        ensures homes { OnOk result (spec.AreHomes (chart_in look.now) look.now.cell.event s kind
            self.new.homes.items) }
        ensures marks { OnOk result (spec.AreMarksFor (chart_in look.now) self.new) }
    {
        self.begin(alloc, look.chart)?;
        self.follow(look, s, kind, look.chart.list(s, kind))?;
        while let Some(j) = self.todo.pop() {
            self.follow(look, s, kind, look.chart.junction(j))?;
        }
        Ok(())
    }
}

/// Whether a number is one of a list.
fn has(list: &[u32], number: u32) -> bool
    ensures { IsTrue result ↔ Contains list.now number }
{
    list.contains(&number)
}
