//! Certificates: the needs of the parts of a chart, for each event.
ghost use Rattle.std.specs.Prelude.{◌≡◌, ◌⊎◌, ◌<◌, ◌≤◌, ℕ, length, IfOk};
ghost use Rattle.actions.specs.declared.event.Event.{Event as EventSpec};
ghost use Rattle.checked_chart.specs.Chart.{Chart as ChartSpec};
ghost use Rattle.checked_chart.specs.Kept.{chart_of};
ghost use Rattle.bound_prove.specs.Certs as spec;
ghost use Rattle.bound_prove.specs.Searches.{the_ends, IsSame};
ghost use Rattle.bound_prove.specs.Tables.{IsInTable, event_count};
ghost use Rattle.bound_prove.specs.declared.need.Part.{Part as PartSpec};
ghost use Rattle.bound_prove.specs.declared.need.TheConstants.{DEPTH_END, STEP_END};

use crate::cell::Cell;
use crate::need::{DEPTH_END, Need, Part, STEP_END};
use actions::Event;
use checked_chart::Chart;
use flow_base::Memory;
use std::alloc::Global;

/// The needs of the parts of a chart under one event.
#[derive(Drop)]
pub(crate) struct Row {
    pub(crate) junctions: Vec<Need>,
    pub(crate) exits: Vec<Need>,
    pub(crate) entries: Vec<Need>,
    pub(crate) processes: Vec<Need>,
}

/// A certificate: for each event the needs of the junctions and states.
#[derive(Drop)]
pub struct Cert {
    pub(crate) rows: Vec<Row>,
}

/// The need of what isn't in a table.
pub(crate) fn the_ends() -> Need
    ensures { result ≡ the_ends }
{
    Need {
        depth: DEPTH_END,
        steps: STEP_END,
    }
}

/// The number of the first named event, before which the start and a tick come.
const FIRST_NAMED: usize = 2;

/// The number of an event in a certificate.
pub(crate) fn event_index(event: Event) -> usize
    ensures { result ≡ spec.event_index event }
{
    match event {
        Event::Start => 0,
        Event::Tick => 1,
        Event::Named(e) => e as usize + FIRST_NAMED,
    }
}

/// How many events there are: the start, a tick, and those that the chart declares.
pub(crate) fn event_count(chart: &Chart) -> usize
    ensures { result ≡ event_count (chart_of chart.now) }
{
    chart.names().events.items().len() + FIRST_NAMED
}

/// That many times a need.
fn needs(alloc: Global, count: u32, first: Need) -> Result<Vec<Need>, Memory>
    ensures { IfOk result (λ v. spec.AreAll count first v.items) }
{
    Ok(vec![in alloc; first; count as usize]?)
}

impl Row {
    /// The row of an event, with a need in every cell.
    fn make(alloc: Global, junctions: u32, states: u32, first: Need) -> Result<Row, Memory>
        ensures { IfOk result (λ row. spec.IsFirstRow junctions states first row) }
    {
        let lists = needs(alloc, junctions, first)?;
        let exits = needs(alloc, states, first)?;
        let entries = needs(alloc, states, first)?;
        let processes = needs(alloc, states, first)?;
        Ok(Row {
            junctions: lists,
            exits,
            entries,
            processes,
        })
    }

    /// The needs of a part.
    pub(crate) fn part(&self, part: Part) -> &[Need]
        ensures { result.now ≡ spec.row_part self.now part }
    {
        match part {
            Part::Junction => &self.junctions,
            Part::Exit => &self.exits,
            Part::Enter => &self.entries,
            Part::Process => &self.processes,
        }
    }

    /// Changes the need of one cell.
    fn set(&mut self, part: Part, i: usize, need: Need)
        requires { i < length (spec.row_part self.old part) }
        ensures { spec.SetsInRow self.old self.new part i need }
    {
        match part {
            Part::Junction => self.junctions[i] = need,
            Part::Exit => self.exits[i] = need,
            Part::Enter => self.entries[i] = need,
            Part::Process => self.processes[i] = need,
        }
    }
}

impl Cert {
    /// A certificate for a chart, with a need in every cell.
    ///
    /// Fails only where memory does.
    pub fn make(alloc: Global, chart: &Chart, first: Need) -> Result<Cert, Memory>
        requires depth { first.depth ≤ DEPTH_END }
        requires steps { first.steps ≤ STEP_END }
        ensures made { IfOk result (λ cert. spec.IsMadeFor (chart_of chart.now) cert) }
        ensures first { IfOk result (λ cert. spec.IsFilled cert first) }
        ensures cells { IfOk result (λ cert. (e : EventSpec) (part : PartSpec) (i : ℕ)
            → (spec.cells_of cert e part i ≡ first) ⊎ (spec.cells_of cert e part i ≡ the_ends)) }
    {
        let junctions = chart.junctions();
        let states = chart.shape().len();
        let mut rows = Vec::new(alloc);
        for _ in 0..event_count(chart) {
            let row = Row::make(alloc, junctions, states, first)?;
            rows.push(row)?;
        }
        Ok(Cert { rows })
    }

    /// The need of a cell. Event 0 is the start, event 1 a tick, and event 2 + n that of number n;
    /// `i` is the number of a junction or a state.
    pub fn cell(&self, e: u32, part: Part, i: u32) -> Need
        requires { spec.HasCell self.now e part i }
        ensures { result ≡ spec.need_at self.now e part i }
    {
        self.at(e as usize, part, i)
    }

    /// Changes the need of a cell, given as for `cell`. All other cells stay.
    pub fn set(&mut self, e: u32, part: Part, i: u32, need: Need)
        requires within { spec.HasCell self.old e part i }
        requires depth { need.depth ≤ DEPTH_END }
        requires steps { need.steps ≤ STEP_END }
        ensures set { spec.SetsOnly self.old self.new e part i need }
        ensures sized { (c : ChartSpec) → spec.IsMadeFor c self.old → spec.IsMadeFor c self.new }
    {
        self.change(e as usize, part, i, need);
    }

    /// Changes the need of a cell of the chart.
    pub(crate) fn put(&mut self, chart: &Chart, cell: Cell, need: Need)
        requires cell { IsInTable (chart_of chart.now) cell.event cell.part cell.index }
        requires made { spec.IsMadeFor (chart_of chart.now) self.old }
        ensures made { spec.IsMadeFor (chart_of chart.now) self.new }
        ensures cell { spec.cells_of self.new cell.event cell.part cell.index ≡ need }
        ensures others { (e : EventSpec) (part : PartSpec) (i : ℕ)
            → IsSame cell.event cell.part cell.index e part i
            ⊎ (spec.cells_of self.new e part i ≡ spec.cells_of self.old e part i) }
    {
        // Only the contract reads the chart.
        let _ = chart;
        self.change(event_index(cell.event), cell.part, cell.index, need);
    }

    /// Changes the need of a cell by the number of its event.
    fn change(&mut self, e: usize, part: Part, i: u32, need: Need)
        requires { spec.HasCell self.old e part i }
        ensures set { spec.SetsOnly self.old self.new e part i need }
        ensures sized { (c : ChartSpec) → spec.IsMadeFor c self.old → spec.IsMadeFor c self.new }
    {
        let row = &mut self.rows[e];
        row.set(part, i as usize, need);
    }

    /// The need of a cell, and the ends where there is no such cell.
    pub(crate) fn look(&self, event: Event, part: Part, i: u32) -> Need
        ensures { result ≡ spec.cells_of self.now event part i }
    {
        self.at(event_index(event), part, i)
    }

    /// The need of a cell by the number of its event, and the ends where there is no such cell.
    fn at(&self, e: usize, part: Part, i: u32) -> Need
        ensures { result ≡ spec.need_at self.now e part i }
    {
        match self.rows.get(e) {
            None => the_ends(),
            Some(row) => match row.part(part).get(i as usize) {
                None => the_ends(),
                Some(need) => *need,
            },
        }
    }
}
