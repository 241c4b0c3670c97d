//! The laws of chart texts: what a spelled chart has, and that its canonical text spells it again.
ghost use Rattle.std.specs.Prelude.{ℕ, List};
ghost use Rattle.chart_tree.specs.Trees.{Chart};
ghost use Rattle.chart_reader.specs.Text.{Spells};
ghost use Rattle.chart_print.specs.Canonical.{canonical};
ghost use Rattle.canonical_text.specs.Terms.{IsChart};
ghost use Rattle.chart_format.specs.Text.{IsKept};

/// The canonical text of a chart that some text spells, however long it is, spells that chart again
/// apart from places. Where it is no longer than a chart text may be, it is a chart text, and what
/// it spells has it as its canonical text.
pub fn a_canonical_text_spells_its_chart_again()
    ensures { (text : List ℕ) (c : Chart) → Spells text c → IsKept (canonical c) c }
{}

/// A chart that a text spells meets the conditions of chart texts.
pub fn spelled_charts_meet_their_conditions()
    ensures { (text : List ℕ) (c : Chart) → Spells text c → IsChart c }
{}
