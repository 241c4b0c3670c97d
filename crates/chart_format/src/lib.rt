//! Reads a chart text and writes it canonically.
//!
//! `format_text` is the one call. Read `specs/Text.antt`: what is written spells the same chart
//! again, and, where it isn't too long, is formatted to itself.
#![tactic(auto)]

ghost use Rattle.std.specs.Prelude.{◌≡◌, IfOk, IfErr, string_bytes};
ghost use Rattle.chart_tree.specs.Trees.{Chart};
ghost use Rattle.chart_reader.specs.Text.{Spells, IsRefusal};
ghost use Rattle.chart_format.specs.Text.{IsFormatted};

mod laws;

use chart_print::print_chart;
use chart_reader::read_chart;
use chart_tree::FormFault;
pub use laws::{a_canonical_text_spells_its_chart_again, spelled_charts_meet_their_conditions};
use std::alloc::Global;

/// The canonical text of the chart that the text spells.
///
/// A text that is no chart text is refused as `read_chart` says. A canonical text can be longer
/// than `CHART_TEXT_LIMIT`, and is no chart text then.
pub fn format_text(alloc: Global, text: &[u8]) -> Result<String, FormFault>
    ensures formatted { IfOk result (λ s. IsFormatted text.now (string_bytes s)) }
    // Each chart text is formatted, unless memory runs out.
    ensures all { (c : Chart) → Spells text.now c → IfErr result (λ e. e ≡ FormFault.Memory) }
    ensures refused { IfErr result (IsRefusal text.now) }
{
    let chart = read_chart(alloc, text)?;
    match print_chart(alloc, &chart) {
        Ok(canonical) => Ok(canonical),
        Err(_) => Err(FormFault::Memory),
    }
}
