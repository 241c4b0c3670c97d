//! The colours of the cells.
ghost use Rattle.std.specs.Prelude.{◌≡◌, ◌⊎◌, ◌<◌, ℕ, length, IfOk};
ghost use Rattle.actions.specs.declared.event.Event.{Event as EventSpec};
ghost use Rattle.checked_chart.specs.Kept.{chart_of};
ghost use Rattle.bound_prove.specs.Colourings as spec;
ghost use Rattle.bound_prove.specs.Searches.{IsSame};
ghost use Rattle.bound_prove.specs.Tables.{IsInTable};
ghost use Rattle.bound_prove.specs.declared.cell.Colour.TheVariants.{White};
ghost use Rattle.bound_prove.specs.declared.need.Part.{Part as PartSpec};

use crate::cell::{Cell, Colour};
use crate::cert::{event_count, event_index};
use crate::need::Part;
use checked_chart::Chart;
use flow_base::Memory;
use std::alloc::Global;

/// The colours of the cells of one event.
#[derive(Drop)]
pub(crate) struct ColourRow {
    pub(crate) junctions: Vec<Colour>,
    pub(crate) exits: Vec<Colour>,
    pub(crate) entries: Vec<Colour>,
    pub(crate) processes: Vec<Colour>,
}

/// A colour for each cell.
#[derive(Drop)]
pub(crate) struct Colours {
    pub(crate) rows: Vec<ColourRow>,
}

/// That many white cells.
fn whites(alloc: Global, count: u32) -> Result<Vec<Colour>, Memory>
    ensures { IfOk result (λ v. spec.AreWhite count v.items) }
{
    Ok(vec![in alloc; Colour::White; count as usize]?)
}

impl ColourRow {
    /// The row of an event, all of it white.
    fn make(alloc: Global, junctions: u32, states: u32) -> Result<ColourRow, Memory>
        ensures { IfOk result (λ row. spec.IsWhiteRow junctions states row) }
    {
        let lists = whites(alloc, junctions)?;
        let exits = whites(alloc, states)?;
        let entries = whites(alloc, states)?;
        let processes = whites(alloc, states)?;
        Ok(ColourRow {
            junctions: lists,
            exits,
            entries,
            processes,
        })
    }

    /// The colours of a part.
    fn part(&self, part: Part) -> &[Colour]
        ensures { result.now ≡ spec.row_part self.now part }
    {
        match part {
            Part::Junction => &self.junctions,
            Part::Exit => &self.exits,
            Part::Enter => &self.entries,
            Part::Process => &self.processes,
        }
    }

    /// Changes the colour of one cell.
    fn set(&mut self, part: Part, i: usize, colour: Colour)
        requires { i < length (spec.row_part self.old part) }
        ensures { spec.SetsInRow self.old self.new part i colour }
    {
        match part {
            Part::Junction => self.junctions[i] = colour,
            Part::Exit => self.exits[i] = colour,
            Part::Enter => self.entries[i] = colour,
            Part::Process => self.processes[i] = colour,
        }
    }
}

impl Colours {
    /// Colours for a chart, all of them white.
    ///
    /// Fails only where memory does.
    pub(crate) fn make(alloc: Global, chart: &Chart) -> Result<Colours, Memory>
        ensures white { IfOk result (λ k. (e : EventSpec) (part : PartSpec) (i : ℕ)
            → spec.colours_of k e part i ≡ White) }
        ensures sized { IfOk result (λ k. spec.AreFor (chart_of chart.now) k) }
    {
        let junctions = chart.junctions();
        let states = chart.shape().len();
        let mut rows = Vec::new(alloc);
        for _ in 0..event_count(chart) {
            let row = ColourRow::make(alloc, junctions, states)?;
            rows.push(row)?;
        }
        Ok(Colours { rows })
    }

    /// The colour of a cell.
    pub(crate) fn get(&self, cell: Cell) -> Colour
        ensures { result ≡ spec.colours_of self.now cell.event cell.part cell.index }
    {
        match self.rows.get(event_index(cell.event)) {
            None => Colour::White,
            Some(row) => match row.part(cell.part).get(cell.index as usize) {
                None => Colour::White,
                Some(colour) => *colour,
            },
        }
    }

    /// Gives a cell of the chart a colour. All others stay.
    pub(crate) fn set(&mut self, chart: &Chart, cell: Cell, colour: Colour)
        requires cell { IsInTable (chart_of chart.now) cell.event cell.part cell.index }
        requires sized { spec.AreFor (chart_of chart.now) self.old }
        ensures sized { spec.AreFor (chart_of chart.now) self.new }
        ensures cell { spec.colours_of self.new cell.event cell.part cell.index ≡ colour }
        ensures others { (e : EventSpec) (part : PartSpec) (i : ℕ)
            → IsSame cell.event cell.part cell.index e part i
            ⊎ (spec.colours_of self.new e part i ≡ spec.colours_of self.old e part i) }
    {
        // Only the contract reads the chart.
        let _ = chart;
        self.change(event_index(cell.event), cell.part, cell.index, colour);
    }

    /// Changes the colour of a cell by the number of its event.
    fn change(&mut self, e: usize, part: Part, i: u32, colour: Colour)
        requires { spec.HasCell self.old e part i }
        ensures { spec.SetsOnly self.old self.new e part i colour }
    {
        let row = &mut self.rows[e];
        row.set(part, i as usize, colour);
    }
}
