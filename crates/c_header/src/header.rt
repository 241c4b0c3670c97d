//! The header, printed.
ghost use Rattle.std.specs.Prelude.{◌≡◌, ◌++◌, string_bytes, true, OnOk};
ghost use Rattle.c_shape.specs.FileShapes.{shape_seen};
ghost use Rattle.c_text.specs.Labels.{labels_of};
ghost use Rattle.c_header.specs.Header as spec;

use crate::facts::SourceFacts;
use crate::fields::{print_counters, print_data, print_rows};
use crate::identity::{Identity, print_identity, print_sums};
use crate::numbers::{print_bounds, print_calls, print_events, print_faults};
use crate::states::{About, print_states};
use crate::words::print_named;
use c_functions::WORD;
use c_names::print_guard_name;
use c_shape::FileShape;
use c_subset::CType;
use c_text::{Labels, print_prototype};
use std::alloc::{AllocError, Global};

/// Appends the header of the C of a chart of that name, of whose source the facts hold, of this
/// making.
///
/// The text is this project's choice (`specs/Header.antt`). On an error a part of it was appended.
#[tactic(auto, unfolding(crate::specs::Header::header_text))]
pub fn print_header(
    alloc: Global,
    out: &mut String,
    chart: &str,
    shape: &FileShape<'_>,
    facts: SourceFacts,
    identity: Identity,
) -> Result<(), AllocError>
    ensures { OnOk result (string_bytes out.new
        ≡ string_bytes out.old ++ spec.header_text chart.now (shape_seen shape.now) facts identity) }
{
    let labels = Labels::make(chart, shape.names, shape.tree, shape.procs);
    print_front(alloc, out, chart, shape, facts, identity)?;
    print_back(alloc, out, chart, &labels, shape)
}

/// Appends what stands before the struct.
#[tactic(auto, unfolding(crate::specs::Header::front_text))]
fn print_front(
    alloc: Global,
    out: &mut String,
    chart: &str,
    shape: &FileShape<'_>,
    facts: SourceFacts,
    identity: Identity,
) -> Result<(), AllocError>
    ensures { OnOk result (string_bytes out.new
        ≡ string_bytes out.old ++ spec.front_text chart.now (shape_seen shape.now) facts identity) }
{
    print_identity(alloc, out, chart, identity)?;
    print_usage(out, chart)?;
    print_needs(out, chart)?;
    print_wide(out, facts.wide)?;
    print_events(out, chart, shape.names.events.items())?;
    print_faults(out, chart)?;
    print_bounds(out, chart, shape.bounds, shape.outputs, shape.notes)?;
    print_calls(out, chart, facts.calls)?;
    print_sums(alloc, out, chart, identity)
}

/// Appends what an engineer has to know.
#[tactic(auto, unfolding(crate::specs::Header::usage_text))]
fn print_usage(out: &mut String, chart: &str) -> Result<(), AllocError>
    ensures { OnOk result
        (string_bytes out.new ≡ string_bytes out.old ++ spec.usage_text chart.now) }
{
    out.push_str(
        "\n   All memory is one struct, which the caller owns. Before the start and before each event\n",
    )?;
    out.push_str(
        "   store the inputs (in_..). After it read the outputs (out_..), the events that were\n",
    )?;
    out.push_str(
        "   emitted (out[0] to out[outs - 1]) and which states are active. Each call returns whether\n",
    )?;
    out.push_str(
        "   it ended without a fault. After a fault, which fault and fault_datum tell, the run is\n",
    )?;
    print_named(
        out,
        "   over: the next call is ",
        chart,
        "init. An input has to lie in the range of its type,\n",
    )?;
    out.push_str(
        "   which stands beside it. Local data (loc_..) may be read. All other fields belong to the\n",
    )?;
    out.push_str("   chart alone. */\n")
}

/// Appends the lines by which the header is read once.
#[tactic(auto, unfolding(crate::specs::Header::guard_text))]
fn print_guard(out: &mut String, chart: &str) -> Result<(), AllocError>
    ensures { OnOk result
        (string_bytes out.new ≡ string_bytes out.old ++ spec.guard_text chart.now) }
{
    print_guard_line(out, "#ifndef ", chart, "\n")?;
    print_guard_line(out, "#define ", chart, "\n\n")
}

/// Appends words, the name that is defined where the header was read, and other words.
fn print_guard_line(
    out: &mut String,
    front: &str,
    chart: &str,
    back: &str,
) -> Result<(), AllocError>
    ensures { OnOk result (string_bytes out.new
        ≡ string_bytes out.old ++ spec.guard_line front.now chart.now back.now) }
{
    out.push_str(front)?;
    print_guard_name(out, chart)?;
    out.push_str(back)
}

/// Appends what the header needs, after the lines by which it is read once.
#[tactic(auto, unfolding(crate::specs::Header::needs_text))]
fn print_needs(out: &mut String, chart: &str) -> Result<(), AllocError>
    ensures { OnOk result
        (string_bytes out.new ≡ string_bytes out.old ++ spec.needs_text chart.now) }
{
    print_guard(out, chart)?;
    out.push_str("#include <limits.h>\n#include <stdbool.h>\n#include <stdint.h>\n\n")?;
    out.push_str(
        "#if UINT_MAX != 4294967295u || INT_MAX != 2147483647 || INT_MIN != -2147483647 - 1\n",
    )?;
    out.push_str("#error \"int must have 32 bits, and two's complement\"\n#endif\n\n")?;
    out.push_str("#ifdef __cplusplus\nextern \"C\" {\n#endif\n\n")
}

/// Appends that the source needs integers of 128 bits, where it does.
#[tactic(auto, unfolding(crate::specs::Header::wide_needs))]
fn print_wide(out: &mut String, wide: bool) -> Result<(), AllocError>
    ensures { OnOk result
        (string_bytes out.new ≡ string_bytes out.old ++ spec.wide_needs wide) }
{
    if wide {
        out.push_str(needs_wide())
    } else {
        Ok(())
    }
}

/// What the header says where the source needs integers of 128 bits.
#[tactic(auto, unfolding(crate::specs::Header::wide_needs))]
fn needs_wide() -> &'static str
    ensures { result.now ≡ spec.wide_needs true }
{
    "#if !defined(__SIZEOF_INT128__)\n#error \"the source computes in 128 bits: it needs __int128\"\n#endif\n\n"
}

/// Appends what stands from the struct on.
#[tactic(auto, unfolding(crate::specs::Header::back_text))]
fn print_back(
    alloc: Global,
    out: &mut String,
    chart: &str,
    labels: &Labels<'_>,
    shape: &FileShape<'_>,
) -> Result<(), AllocError>
    ensures { OnOk result (string_bytes out.new ≡ string_bytes out.old
        ++ spec.back_text chart.now (labels_of labels.now) (shape_seen shape.now)) }
{
    print_struct(alloc, out, chart, labels, shape)?;
    print_init(out, labels, shape)?;
    print_start(out, chart, labels, shape)?;
    print_react(out, chart, labels, shape)?;
    print_states(alloc, out, chart, labels, shape, About::Test)?;
    out.push_str("#ifdef __cplusplus\n}\n#endif\n\n#endif\n")
}

/// Appends the struct.
#[tactic(auto, unfolding(crate::specs::Header::struct_text))]
fn print_struct(
    alloc: Global,
    out: &mut String,
    chart: &str,
    labels: &Labels<'_>,
    shape: &FileShape<'_>,
) -> Result<(), AllocError>
    ensures { OnOk result (string_bytes out.new ≡ string_bytes out.old
        ++ spec.struct_text chart.now (labels_of labels.now) (shape_seen shape.now)) }
{
    out.push_str("typedef struct {\n")?;
    print_values_fields(out, labels, shape)?;
    print_states_fields(alloc, out, chart, labels, shape)?;
    print_rows(out, shape)?;
    print_named(out, "} ", chart, "chart;\n\n")
}

/// Appends the fields of data, and those after them.
#[tactic(auto, unfolding(crate::specs::Header::values_fields))]
fn print_values_fields(
    out: &mut String,
    labels: &Labels<'_>,
    shape: &FileShape<'_>,
) -> Result<(), AllocError>
    ensures { OnOk result (string_bytes out.new ≡ string_bytes out.old
        ++ spec.values_fields (labels_of labels.now) (shape_seen shape.now)) }
{
    print_data(out, labels, shape.names.vars.items())?;
    print_counters(out, labels, shape.tests.steps, shape.used_field())
}

/// Appends the fields of states.
#[tactic(auto, unfolding(crate::specs::Header::states_fields))]
fn print_states_fields(
    alloc: Global,
    out: &mut String,
    chart: &str,
    labels: &Labels<'_>,
    shape: &FileShape<'_>,
) -> Result<(), AllocError>
    ensures { OnOk result (string_bytes out.new ≡ string_bytes out.old
        ++ spec.states_fields chart.now (labels_of labels.now) (shape_seen shape.now)) }
{
    print_states(alloc, out, chart, labels, shape, About::Active)?;
    print_states(alloc, out, chart, labels, shape, About::Remembered)?;
    print_states(alloc, out, chart, labels, shape, About::Bits)
}

/// Appends the call that stores the first values.
#[tactic(auto, unfolding(crate::specs::Header::init_text))]
fn print_init(
    out: &mut String,
    labels: &Labels<'_>,
    shape: &FileShape<'_>,
) -> Result<(), AllocError>
    ensures { OnOk result (string_bytes out.new ≡ string_bytes out.old
        ++ spec.init_text (labels_of labels.now) (shape_seen shape.now)) }
{
    out.push_str(
        "/* Stores the first values of all data; nothing is active. Inputs that are stored after it hold\n",
    )?;
    out.push_str("   at the start. */\n")?;
    print_prototype(out, labels, shape.init_function(), false, CType::Truth, &[])
}

/// Appends the call that begins a run.
#[tactic(auto, unfolding(crate::specs::Header::start_text))]
fn print_start(
    out: &mut String,
    chart: &str,
    labels: &Labels<'_>,
    shape: &FileShape<'_>,
) -> Result<(), AllocError>
    ensures { OnOk result (string_bytes out.new ≡ string_bytes out.old
        ++ spec.start_text chart.now (labels_of labels.now) (shape_seen shape.now)) }
{
    print_named(
        out,
        "\n/* Begins the run: enters the chart. Returns false, too, and changes nothing, unless ",
        chart,
        "init\n   was called since the last run began. */\n",
    )?;
    print_prototype(
        out,
        labels,
        shape.start_function(),
        false,
        CType::Truth,
        &[],
    )
}

/// Appends the call for an event.
#[tactic(auto, unfolding(crate::specs::Header::react_text))]
fn print_react(
    out: &mut String,
    chart: &str,
    labels: &Labels<'_>,
    shape: &FileShape<'_>,
) -> Result<(), AllocError>
    ensures { OnOk result (string_bytes out.new ≡ string_bytes out.old
        ++ spec.react_text chart.now (labels_of labels.now) (shape_seen shape.now)) }
{
    print_named(
        out,
        "\n/* Takes an event: ",
        chart,
        "TICK or one of the input events; any other number is a fault.\n",
    )?;
    out.push_str(
        "   Returns false, too, and changes nothing, before the start and after a fault. */\n",
    )?;
    print_prototype(
        out,
        labels,
        shape.react_function(),
        false,
        CType::Truth,
        &[WORD],
    )?;
    out.push_str("\n")
}
