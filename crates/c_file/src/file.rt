//! The two files of a chart.
ghost use Rattle.std.specs.Prelude.{◌≡◌, IfOk, string_bytes};
ghost use Rattle.std.specs.List.{All};
ghost use Rattle.checked_chart.specs.Kept.{chart_of};
ghost use Rattle.code_language.specs.Code.{code_of};
ghost use Rattle.c_shape.specs.FileShapes.{shape_seen};
ghost use Rattle.c_header.specs.Header.{header_text};
ghost use Rattle.c_text.specs.Labels.{labels_of};
ghost use Rattle.c_runs.specs.Claims.{FitsChart};
ghost use Rattle.c_file.specs.Comments.{IsTagOf, said_of};
ghost use Rattle.c_file.specs.Files.{IsC, IsMadeFor, IsPrinted, chart_name};
ghost use Rattle.c_file.specs.Made.{AreUses, IsMade, IsOrderOf, functions_of};
ghost use Rattle.c_file.specs.Source.{source_text};
ghost use Rattle.c_lines.specs.Wrapped.{IsInLines};

use crate::facts::facts_of;
use crate::known::{Uses, uses_of};
use crate::made::Made;
use crate::order::{Order, order_of};
use crate::printing::printed_source;
use crate::said::Said;
use crate::written::{Written, written_code};
use c_header::{Identity, SourceFacts, calls_number, print_header};
use c_lines::in_lines;
use c_passes::{functions, passed_files_stand_for_it};
use c_runs::files_of_code_that_serves_run_as_charts;
use c_shape::FileShape;
use c_text::Labels;
use checked_chart::Chart;
use flow_base::Memory;
use std::alloc::Global;

/// The name of a chart.
fn name_of(chart: &Chart) -> &str
    ensures { result.now ≡ chart_name (chart_of chart.now) }
{
    let root = chart.root();
    chart.names().states.items()[root as usize].text()
}

/// What both files of a chart are made from.
fn made_of<'a>(alloc: Global, chart: &'a Chart, written: &'a Written) -> Result<Made<'a>, Memory>
    requires code { FitsChart (chart_of chart.now) (code_of written.now.code) }
    requires tags { All (IsTagOf (chart_of chart.now)) written.now.tags.items }
    ensures { IfOk result (IsMadeFor (chart_of chart.now) written.now) }
{
    let names = chart.names();
    let tree = chart.shape();
    let code = &written.code;
    let shape = FileShape::make(
        alloc,
        names,
        tree,
        code,
        &written.tests,
        written.limits,
        written.outputs,
    )?;
    let functions = functions(alloc, &shape, code)?;
    let name = name_of(chart);
    Ok(Made {
        name,
        labels: Labels::make(name, names, tree, shape.procs),
        said: Said::make(alloc, chart, &written.origins, &written.tags)?,
        shape,
        code,
        functions,
    })
}

/// The header, where these facts hold of the source, before it is in lines.
fn printed_header(
    alloc: Global,
    made: &Made<'_>,
    facts: SourceFacts,
    identity: Identity,
) -> Result<String, Memory>
    ensures { IfOk result (λ text. string_bytes text
        ≡ header_text made.now.name.now (shape_seen made.now.shape) facts identity) }
{
    let mut text = String::new(alloc);
    print_header(alloc, &mut text, made.name, &made.shape, facts, identity)?;
    Ok(text)
}

/// The header and the source of a chart's C.
#[derive(Drop)]
pub struct CFiles {
    /// The header, for a file `CHART.h`.
    pub header: String,
    /// The source, which includes the header by this name.
    pub source: String,
}

/// The header in lines, where these facts hold of the source.
fn lined_header(
    alloc: Global,
    made: &Made<'_>,
    facts: SourceFacts,
    identity: Identity,
) -> Result<String, Memory>
    ensures { IfOk result (λ text. IsInLines
        (header_text made.now.name.now (shape_seen made.now.shape) facts identity)
        (string_bytes text)) }
{
    let text = printed_header(alloc, made, facts, identity)?;
    Ok(in_lines(alloc, &text)?)
}

/// The source in lines, for a header that has this number of calls.
fn lined_source(
    alloc: Global,
    made: &Made<'_>,
    uses: &Uses,
    order: &Order,
    calls: u64,
    identity: Identity,
) -> Result<String, Memory>
    requires is { IsMade made.now }
    requires uses { AreUses (labels_of made.now.labels) (functions_of made.now) uses.now }
    requires order { IsOrderOf (labels_of made.now.labels) (functions_of made.now)
        uses.now.reached.items order.now }
    ensures { IfOk result (λ text. IsInLines (source_text (labels_of made.now.labels)
        (said_of made.now.said) identity made.now.shape.bounds made.now.shape.outputs
        made.now.shape.notes calls (functions_of made.now) uses.now.reached.items
        uses.now.changing.items order.now.functions.items) (string_bytes text)) }
{
    let text = printed_source(alloc, made, uses, order, calls, identity)?;
    Ok(in_lines(alloc, &text)?)
}

/// Both files, made of the same.
fn printed_files(alloc: Global, made: &Made<'_>, identity: Identity) -> Result<CFiles, Memory>
    requires is { IsMade made.now }
    ensures { IfOk result (IsPrinted made.now identity) }
{
    let uses = uses_of(alloc, made)?;
    let facts = facts_of(alloc, made, &uses)?;
    let header = lined_header(alloc, made, facts, identity)?;
    let calls = calls_number(facts.calls);
    let order = order_of(alloc, made, &uses)?;
    let source = lined_source(alloc, made, &uses, &order, calls, identity)?;
    Ok(CFiles { header, source })
}

/// Header and source of a chart's C, both for the same code: what the header declares, and the
/// functions that it needs. The code is faster than the smaller code of the chart and has its runs,
/// and the C tests a bound of `identity` unless it is known that no event of that code overruns it.
/// The code, all functions, the numbers of those that call each other and both texts are in memory
/// at once; while its lines are broken, a text is there three times. No line of either file has more
/// than 509 characters, and C reads the same as though no line was broken. Where no function calls
/// itself, each should stand behind those that it calls; else it is declared before them.
///
/// `Memory` only where memory was refused.
///
/// Source: this project's choice.
pub fn files(alloc: Global, chart: &Chart, identity: Identity) -> Result<CFiles, Memory>
    ensures { IfOk result (λ files. IsC (chart_of chart.now) identity
        (string_bytes files.header) (string_bytes files.source)) }
{
    files_of_code_that_serves_run_as_charts();
    passed_files_stand_for_it();
    // Only the proof reads the shape: the chart is valid.
    let _ = chart.shape();
    let written = written_code(alloc, chart, identity.bounds)?;
    let made = made_of(alloc, chart, &written)?;
    printed_files(alloc, &made, identity)
}
