//! The code of a chart.
ghost use Rattle.std.specs.Prelude.{◌≡◌, IfOk};
ghost use Rattle.checked_chart.specs.Kept.{chart_of};
ghost use Rattle.code_language.specs.Code.{code_of};
ghost use Rattle.chart_code.specs.Bodies.{code_of_chart};
ghost use Rattle.chart_compile.specs.Compiled.{IsSmall, RunsAs};

use crate::laws::the_code_of_a_chart_is_well_formed;
use crate::tables::states;
use actions::copy_names;
use checked_chart::Chart;
use code_language::{Code, RawCode};
use flow_base::Memory;
use list_compile::Numbering;
use state_compile::procedures;
use std::alloc::Global;

/// The code of a chart as it is written. `Memory` only where memory was refused.
fn compile_raw(alloc: Global, chart: &Chart) -> Result<RawCode, Memory>
    ensures code { IfOk result (λ raw. code_of raw ≡ code_of_chart (chart_of chart.now)) }
{
    let numbering = Numbering::make(alloc, chart)?;
    let procs = procedures(alloc, &numbering)?;
    let states = states(alloc, chart)?;
    let names = copy_names(alloc, chart.names())?;
    let root = chart.root();
    Ok(RawCode {
        states,
        vars: names.vars,
        events: names.events,
        start: numbering.enter(root, root),
        react: numbering.process(root),
        procs,
    })
}

/// The code of a chart, well formed, which runs as the chart does. `Memory` only where memory was
/// refused.
///
/// It has at most 80 S + P + 2 B + T + 8 procedures, no height over `5 * STATE_DEPTH_LIMIT + 7`,
/// which is 87, and no work over 400 (S + 1) (I + 1), for S states, P pairs of a list and a
/// transition, B actions that aren't empty, T transitions and I items.
pub fn compile(alloc: Global, chart: &Chart) -> Result<Code, Memory>
    ensures code { IfOk result (λ code. code_of code ≡ code_of_chart (chart_of chart.now)) }
    ensures runs { IfOk result (λ code. RunsAs (chart_of chart.now) (code_of code)) }
    ensures small { IfOk result (λ code. IsSmall (chart_of chart.now) (code_of code)) }
{
    // Only the proof reads the shape: the chart is valid.
    let _ = chart.shape();
    the_code_of_a_chart_is_well_formed();
    let raw = compile_raw(alloc, chart)?;
    let code = Code::of_well_formed(alloc, raw)?;
    Ok(code)
}
