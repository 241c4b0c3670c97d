//! The code for which both files of a chart are written, and what they test.
ghost use Rattle.std.specs.Prelude.{IfOk};
ghost use Rattle.checked_chart.specs.Kept.{chart_of};
ghost use Rattle.code_language.specs.Code.{code_of};
ghost use Rattle.c_file.specs.Files.{IsCodeFor, IsWrittenUnder};

use c_shape::Tests;
use c_tests::tests_of;
use chart_compile::compile;
use checked_chart::Chart;
use code_counts::limits_of;
use code_depths::cut_sends;
use code_language::Code;
use code_passes::{Tag, faster};
use code_shrink::{Shrunk, shrink_with_origins};
use flow_base::{Bounds, Memory};
use std::alloc::Global;

/// The code for which both files of a chart are written, and what is told of it.
#[derive(Drop)]
pub(crate) struct Written {
    /// The code.
    pub code: Code,
    /// For what its procedures are, by those of the smaller code of the chart.
    pub tags: Vec<Tag>,
    /// The numbers that the procedures of the smaller code had.
    pub origins: Vec<u32>,
    /// The bounds under which the C runs.
    pub limits: Bounds,
    /// Which faults it tests.
    pub tests: Tests,
    /// How many events it has room to emit.
    pub outputs: u32,
}

/// The smaller code of a chart, with the numbers that its procedures had.
fn shrunk_code(alloc: Global, chart: &Chart) -> Result<Shrunk, Memory>
    ensures { IfOk result
        (λ shrunk. IsCodeFor (chart_of chart.now) (code_of shrunk.code) shrunk.origins.items) }
{
    let code = compile(alloc, chart)?;
    shrink_with_origins(alloc, &code)
}

/// The code for which both files of a chart are written under these bounds: the smaller code, made
/// faster, where a send that never finds depth left leads to a procedure that calls nothing. Where
/// it is known that no event of the code takes as much as a bound allows, its limit is the most
/// that one takes. A limit is tested unless this is known, and the result of a call where the
/// procedure can fail. There is room for what an event emits under the limits. The smaller code
/// is dropped.
pub(crate) fn written_code(alloc: Global, chart: &Chart, bounds: Bounds) -> Result<Written, Memory>
    ensures { IfOk result (IsWrittenUnder (chart_of chart.now) bounds) }
{
    // Only the proof reads the shape: the chart is valid.
    let _ = chart.shape();
    let shrunk = shrunk_code(alloc, chart)?;
    let faster = faster(alloc, &shrunk.code, bounds.depth)?;
    let code = cut_sends(alloc, faster.code, bounds.depth)?;
    let found = limits_of(alloc, &code, bounds)?;
    let tests = tests_of(alloc, &code, found.tests_steps, found.tests_depth)?;
    Ok(Written {
        code,
        tags: faster.tags,
        origins: shrunk.origins,
        limits: found.bounds,
        tests,
        outputs: found.outputs,
    })
}
