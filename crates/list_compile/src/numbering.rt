//! The numbers of the procedures of a chart.
ghost use Rattle.std.specs.Prelude.{◌≡◌, ◌<◌, ◌≤◌, ◌+◌, ◌*◌, IfOk};
ghost use Rattle.flow_base.specs.Lists.{items_of};
ghost use Rattle.flow_base.specs.declared.chart_limits.TheConstants.{STATE_LIMIT, JUNCTION_LIMIT};
ghost use Rattle.active_config.specs.Tree.{state_count};
ghost use Rattle.checked_chart.specs.Chart.{junction_count};
ghost use Rattle.checked_chart.specs.declared.parts.ListKind.TheVariants.{Outer, Default};
ghost use Rattle.checked_chart.specs.Kept.{chart_of};
ghost use Rattle.checked_chart.specs.Valid.{IsValid};
ghost use Rattle.chart_code.specs.Ends as ends;
ghost use Rattle.chart_code.specs.Places as places;
ghost use Rattle.list_compile.specs.declared.number_limits.TheConstants as limits;
ghost use Rattle.list_compile.specs.NumberTables.{IsNumbering};

use crate::counts::{below_counts, list_parts_size, reached_counts};
use crate::number_offsets::{
    ACTION_COUNT, ARRIVE_OFFSET, DEFAULT_LIST_OFFSET, DEFAULTS_OFFSET, ENTER_OFFSET, ENTRY_START,
    EXIT_OFFSET, INNER_OFFSET, TAKE_OFFSET,
};
use crate::offsets::{groups_before, junction_parts_before, lists_before, parts_before};
use crate::tables::entry;
use checked_chart::{Chart, ListKind};
use flow_base::{List, Memory};
use std::alloc::Global;

/// A chart with its numbers, for each state or junction in a table.
#[derive(Drop)]
pub struct Numbering<'a> {
    /// The chart.
    pub chart: &'a Chart,
    /// How many states are strictly below each state.
    pub below: List<u32>,
    /// How many junctions the outer list of each state reaches.
    pub outer: List<u32>,
    /// How many junctions the default list of each state reaches.
    pub default: List<u32>,
    /// How many procedures the parts of the transitions of the states before each state have.
    pub parts: List<u32>,
    /// How many procedures the parts of the transitions of the junctions before each one have.
    pub junction_parts: List<u32>,
    /// How many procedures there are for firings in the states before each state.
    pub groups: List<u32>,
    /// How many procedures there are for the outer and inner lists of the states before each state.
    pub lists: List<u32>,
    pub ghost numbers: { IsNumbering (chart_of chart.now) (items_of below) (items_of outer)
        (items_of default) (items_of parts) (items_of junction_parts) (items_of groups)
        (items_of lists) },
}

impl<'a> Numbering<'a> {
    ghost use Rattle.list_compile.specs.Numberings.{chart_in};

    /// The numbering of a chart.
    pub fn make(alloc: Global, chart: &'a Chart) -> Result<Numbering<'a>, Memory>
        ensures chart { IfOk result (λ numbering. chart_in numbering ≡ chart_of chart.now) }
    {
        let below = below_counts(alloc, chart.shape())?;
        let outer = reached_counts(alloc, chart, ListKind::Outer)?;
        let default = reached_counts(alloc, chart, ListKind::Default)?;
        let parts = parts_before(alloc, chart)?;
        let junction_parts = junction_parts_before(alloc, chart)?;
        let groups = groups_before(alloc, chart, &below, &default)?;
        let lists = lists_before(alloc, chart, &outer)?;
        Ok(Numbering {
            chart,
            below,
            outer,
            default,
            parts,
            junction_parts,
            groups,
            lists,
        })
    }

    /// How many states there are.
    pub fn states(&self) -> u32
        ensures states { result ≡ state_count (chart_in self.now).tree }
        ensures few { result ≤ STATE_LIMIT }
        ensures valid { IsValid (chart_in self.now) }
    {
        self.chart.shape().len()
    }

    /// How many states are strictly below a state.
    pub fn below(&self, state: u32) -> u32
        requires { state < state_count (chart_in self.now).tree }
        ensures below { result ≡ ends.below_count (chart_in self.now).tree state }
        ensures low { result ≤ STATE_LIMIT }
    {
        entry(&self.below, state)
    }

    /// How many junctions the outer list of a state reaches.
    fn outer(&self, state: u32) -> u32
        requires { state < state_count (chart_in self.now).tree }
        ensures reached { result ≡ places.reached_count (chart_in self.now) state Outer }
        ensures low { result ≤ JUNCTION_LIMIT }
    {
        entry(&self.outer, state)
    }

    /// How many junctions the default list of a state reaches.
    fn default(&self, state: u32) -> u32
        requires { state < state_count (chart_in self.now).tree }
        ensures reached { result ≡ places.reached_count (chart_in self.now) state Default }
        ensures low { result ≤ JUNCTION_LIMIT }
    {
        entry(&self.default, state)
    }

    /// The number of the first part of a transition of a state.
    #[tactic(auto, unfolding(chart_code::specs::Places::state_parts_start))]
    fn state_parts_start(&self) -> u32
        ensures start { result ≡ places.state_parts_start (chart_in self.now) }
        ensures low { result ≤ limits.STATE_PARTS_START_LIMIT }
    {
        ENTRY_START + self.states() * ACTION_COUNT
    }

    /// The number of the first part of a transition of a junction.
    fn junction_parts_start(&self) -> u32
        ensures start { result ≡ places.junction_parts_start (chart_in self.now) }
        ensures low { result ≤ limits.JUNCTION_PARTS_START_LIMIT }
    {
        self.state_parts_start() + entry(&self.parts, self.states())
    }

    /// The number of the first procedure for firings.
    fn groups_start(&self) -> u32
        ensures start { result ≡ places.groups_start (chart_in self.now) }
        ensures low { result ≤ limits.GROUPS_START_LIMIT }
    {
        self.junction_parts_start() + entry(&self.junction_parts, self.chart.junctions())
    }

    /// The number of the first procedure of outer and inner lists.
    fn lists_start(&self) -> u32
        ensures start { result ≡ places.lists_start (chart_in self.now) }
        ensures low { result ≤ limits.LISTS_START_LIMIT }
    {
        self.groups_start() + entry(&self.groups, self.states())
    }

    /// The number of the first procedure that processes a state.
    fn processes_start(&self) -> u32
        ensures start { result ≡ places.processes_start (chart_in self.now) }
        ensures low { result ≤ limits.PROCESSES_START_LIMIT }
    {
        self.lists_start() + entry(&self.lists, self.states())
    }

    /// The number of the first procedure for firings in a state.
    pub fn group(&self, state: u32) -> u32
        requires { state < state_count (chart_in self.now).tree }
        ensures group { result ≡ places.group_at (chart_in self.now) state }
        ensures low { result ≤ limits.LISTS_START_LIMIT }
    {
        let states = self.states();
        let before = entry(&self.groups, state + 1);
        self.groups_start() + entry(&self.groups, states).saturating_sub(before)
    }

    /// The number of the outer list of a state.
    fn lists(&self, state: u32) -> u32
        requires { state < state_count (chart_in self.now).tree }
        ensures lists { result ≡ places.lists_at (chart_in self.now) state }
        ensures low { result ≤ limits.PROCESSES_START_LIMIT }
    {
        let states = self.states();
        let before = entry(&self.lists, state + 1);
        self.lists_start() + entry(&self.lists, states).saturating_sub(before)
    }

    /// The number of the first part of a transition of a list of a state.
    pub fn parts(&self, state: u32, kind: ListKind) -> u32
        requires { state < state_count (chart_in self.now).tree }
        ensures parts { result ≡ places.parts_at (chart_in self.now) state kind }
        ensures low { result ≤ limits.GROUPS_START_LIMIT }
    {
        let first = self.state_parts_start() + entry(&self.parts, state);
        match kind {
            ListKind::Outer => first,
            ListKind::Inner => first + list_parts_size(self.chart, state, ListKind::Outer),
            ListKind::Default => {
                first
                    + list_parts_size(self.chart, state, ListKind::Outer)
                    + list_parts_size(self.chart, state, ListKind::Inner)
            }
        }
    }

    /// The number of the first part of a transition of a junction.
    pub(crate) fn parts_of_junction(&self, junction: u32) -> u32
        requires { junction < junction_count (chart_in self.now) }
        ensures parts { result ≡ places.junction_parts_at (chart_in self.now) junction }
        ensures low { result ≤ limits.GROUPS_START_LIMIT }
    {
        self.junction_parts_start() + entry(&self.junction_parts, junction)
    }

    /// The number of the procedure of a list.
    pub fn list(&self, state: u32, kind: ListKind) -> u32
        requires { state < state_count (chart_in self.now).tree }
        ensures list { result ≡ places.list_at (chart_in self.now) state kind }
        ensures low { result ≤ limits.LIST_LIMIT }
    {
        match kind {
            ListKind::Outer => self.lists(state),
            ListKind::Inner => self.lists(state) + INNER_OFFSET + self.outer(state),
            ListKind::Default => self.group(state) + DEFAULT_LIST_OFFSET + self.below(state),
        }
    }

    /// The number of the procedure that enters a state by default.
    #[tactic(auto, unfolding(chart_code::specs::Places::numbers))]
    pub fn defaults(&self, state: u32) -> u32
        requires { state < state_count (chart_in self.now).tree }
        ensures { result ≡ (places.numbers (chart_in self.now)).defaults state }
    {
        self.group(state) + DEFAULTS_OFFSET + self.below(state) + self.default(state)
    }

    /// The number of the procedure that arrives in a state on the way to another one.
    #[tactic(auto, unfolding(chart_code::specs::Places::numbers))]
    pub fn arrive(&self, state: u32, dest: u32) -> u32
        requires state { state < state_count (chart_in self.now).tree }
        requires dest { dest < state_count (chart_in self.now).tree }
        ensures { result ≡ (places.numbers (chart_in self.now)).arrive state dest }
    {
        // Only the proof reads the number of states: it is small.
        let _ = self.states();
        match dest.saturating_sub(state) {
            0 => self.group(state) + ARRIVE_OFFSET + self.below(state) + self.default(state),
            more => self.group(state) + EXIT_OFFSET + more,
        }
    }

    /// The number of the procedure of a firing in a state to another one.
    #[tactic(auto, unfolding(chart_code::specs::Places::numbers))]
    pub fn take(&self, state: u32, dest: u32) -> u32
        requires state { state < state_count (chart_in self.now).tree }
        requires dest { dest < state_count (chart_in self.now).tree }
        ensures { result ≡ (places.numbers (chart_in self.now)).take state dest }
    {
        // Only the proof reads the number of states: it is small.
        let _ = self.states();
        self.group(state)
            + TAKE_OFFSET
            + self.below(state)
            + self.default(state)
            + dest.saturating_sub(state)
    }

    /// The number of the procedure that enters a state on the way to another one.
    #[tactic(auto, unfolding(chart_code::specs::Places::numbers))]
    pub fn enter(&self, state: u32, dest: u32) -> u32
        requires state { state < state_count (chart_in self.now).tree }
        requires dest { dest < state_count (chart_in self.now).tree }
        ensures { result ≡ (places.numbers (chart_in self.now)).enter state dest }
    {
        // Only the proof reads the number of states: it is small.
        let _ = self.states();
        self.group(state)
            + ENTER_OFFSET
            + 2 * self.below(state)
            + self.default(state)
            + dest.saturating_sub(state)
    }

    /// The number of the procedure that processes a state.
    #[tactic(auto, unfolding(chart_code::specs::Places::numbers))]
    pub fn process(&self, state: u32) -> u32
        ensures { result ≡ (places.numbers (chart_in self.now)).process state }
    {
        self.processes_start() + self.states().saturating_sub(state).saturating_sub(1)
    }
}
