//! Needs of firings that are kept, so that each is evaluated once.
ghost use Rattle.std.specs.Prelude.{◌≡◌, IfOk};
ghost use Rattle.bound_prove.specs.Firings as spec;

use crate::cert::{event_count, event_index};
use crate::need::Need;
use actions::Event;
use checked_chart::Chart;
use flow_base::Memory;
use std::alloc::Global;

/// For each home the need of a firing under one event, where it is kept.
#[derive(Drop)]
pub(crate) struct FiringRow {
    pub(crate) needs: Vec<Option<Need>>,
}

/// For each event and home the need of a firing, where it is kept.
#[derive(Drop)]
pub(crate) struct Firings {
    pub(crate) rows: Vec<FiringRow>,
}

impl FiringRow {
    /// A row in which none is kept.
    fn make(alloc: Global, states: u32) -> Result<FiringRow, Memory>
        ensures { IfOk result (λ row. spec.IsEmptyRow row) }
    {
        let needs = vec![in alloc; None; states as usize]?;
        Ok(FiringRow { needs })
    }

    /// Keeps a need.
    fn keep(&mut self, home: usize, need: Need)
        ensures { spec.KeepsInRow self.old self.new home need }
    {
        if home >= self.needs.len() {
            return;
        }
        self.needs[home] = Some(need);
    }
}

impl Firings {
    /// Room for the firings of a chart. None is kept.
    pub(crate) fn make(alloc: Global, chart: &Chart) -> Result<Firings, Memory>
        ensures { IfOk result (λ f. spec.AreNone f) }
    {
        let states = chart.shape().len();
        let mut rows = Vec::new(alloc);
        for _ in 0..event_count(chart) {
            let row = FiringRow::make(alloc, states)?;
            rows.push(row)?;
        }
        Ok(Firings { rows })
    }

    /// The need of a firing, where it is kept.
    pub(crate) fn get(&self, event: Event, home: u32) -> Option<Need>
        ensures { result ≡ spec.kept_firing self.now event home }
    {
        match self.rows.get(event_index(event)) {
            None => None,
            Some(row) => match row.needs.get(home as usize) {
                None => None,
                Some(need) => *need,
            },
        }
    }

    /// Keeps the need of a firing.
    pub(crate) fn keep(&mut self, event: Event, home: u32, need: Need)
        ensures { spec.KeepsOnly self.old self.new event home need }
    {
        let e = event_index(event);
        if e >= self.rows.len() {
            return;
        }
        let row = &mut self.rows[e];
        row.keep(home as usize, need);
    }
}
