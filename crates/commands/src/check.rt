//! The command `check`.
ghost use Rattle.std.specs.Prelude.{◌≡◌, ◌<◌, ◌∷◌, [], IfOk, List, string_bytes, length, sum_by};
ghost use Rattle.active_config.specs.Tree.{state_count};
ghost use Rattle.checked_chart.specs.Chart.{Trans, node};
ghost use Rattle.checked_chart.specs.Counts.{node_transitions, transition_count};
ghost use Rattle.checked_chart.specs.Kept.{chart_of};
ghost use Rattle.commands.specs.Call.{sources_of, call_of, OthersStay};
ghost use Rattle.commands.specs.Reading.{FileGives};
ghost use Rattle.chart_tree.specs.declared.limits.TheConstants.{CHART_TEXT_LIMIT};
ghost use Rattle.commands.specs.Check.{counts_line, HasCounts, CheckEnds};
ghost use Rattle.commands.specs.Accepted.{RefusesAccepted};

use crate::accepted_file::read_checked;
use crate::file::FileEnd;
use crate::refusal::Refusal;
use crate::text::{TextEnd, write_made};
use checked_chart::{Chart, ListKind};
use flow_base::{Inputs, Memory, Sink};
use std::alloc::Global;

/// Writes the line of the counts of the accepted chart that the file holds.
pub fn check_chart<I: Inputs, O: Sink>(
    alloc: Global,
    chart_file: &str,
    inputs: &mut I,
    out: &mut O,
) -> TextEnd<Refusal>
    ensures ends { CheckEnds (call_of I.Inputs O.Sink inputs.old inputs.new out.old out.new)
        chart_file.now result }
    ensures others { OthersStay (chart_file.now ∷ [])
        (sources_of I.Inputs inputs.old) (sources_of I.Inputs inputs.new) }
{
    let line = read_counts(alloc, inputs, chart_file);
    write_made(line, out)
}

/// The line of the counts of the accepted chart that the file of that name holds.
fn read_counts<I: Inputs>(
    alloc: Global,
    inputs: &mut I,
    chart_file: &str,
) -> Result<String, FileEnd<Refusal>>
    ensures { FileGives CHART_TEXT_LIMIT (λ text line. HasCounts text (string_bytes line))
        RefusesAccepted (sources_of I.Inputs inputs.old) (sources_of I.Inputs inputs.new)
        chart_file.now result }
{
    let checked = read_checked(alloc, inputs, chart_file)?;
    match counts_line(alloc, &checked.chart, checked.pairs) {
        Ok(line) => Ok(line),
        Err(Memory) => Err(FileEnd::Memory),
    }
}

/// The line that `check` writes of a chart with so many pairs.
fn counts_line(alloc: Global, chart: &Chart, pairs: u32) -> Result<String, Memory>
    ensures { IfOk result (λ line. string_bytes line ≡ counts_line (chart_of chart.now) pairs) }
{
    let states = chart.shape().len();
    let junctions = chart.junctions();
    let transitions = transition_count(chart);
    let line = format!(in alloc;
        "ok {states} states {junctions} junctions {transitions} transitions {pairs} pairs\n"
    )?;
    Ok(line)
}

/// How many transitions a chart has.
fn transition_count(chart: &Chart) -> u32
    ensures { result ≡ transition_count (chart_of chart.now) }
{
    // Only the proof reads the shape: the chart is valid.
    let _ = chart.shape();
    count_of_states(chart) + count_of_junctions(chart)
}

/// How many transitions stand in the lists of all states.
fn count_of_states(chart: &Chart) -> u32
    ensures { result ≡ sum_by node_transitions (chart_of chart.now).nodes }
{
    let states = chart.shape().len();
    let mut count = 0;
    let mut state = 0;
    'states: while state < states {
        count += count_of_state(chart, state);
        state += 1;
    }
    count
}

/// How many transitions stand in the lists of a state.
fn count_of_state(chart: &Chart, state: u32) -> u32
    requires { state < state_count (chart_of chart.now).tree }
    ensures { result ≡ node_transitions (node (chart_of chart.now) state) }
{
    // Only the proof reads the shape: the chart is valid.
    let _ = chart.shape();
    let outer = chart.list(state, ListKind::Outer).len();
    let inner = chart.list(state, ListKind::Inner).len();
    let default = chart.list(state, ListKind::Default).len();
    (outer + inner + default) as u32
}

/// How many transitions stand in the lists of all junctions.
fn count_of_junctions(chart: &Chart) -> u32
    ensures { result ≡ sum_by (λ (list : List Trans). length list) (chart_of chart.now).junctions }
{
    // Only the proof reads the shape: the chart is valid.
    let _ = chart.shape();
    let junctions = chart.junctions();
    let mut count = 0;
    let mut junction = 0;
    'junctions: while junction < junctions {
        count += chart.junction(junction).len() as u32;
        junction += 1;
    }
    count
}
