//! Laws of chart texts and their charts.
ghost use Rattle.std.specs.Prelude.{◌≡◌, ◌⊎◌, ℕ, List};
ghost use Rattle.token_grammar.specs.declared.token.Span.{Span};
ghost use Rattle.chart_tree.specs.declared.fault.FormKind.{FormKind};
ghost use Rattle.chart_tree.specs.declared.fault.FormFault.TheVariants as faults;
ghost use Rattle.chart_tree.specs.Trees.{Chart};
ghost use Rattle.chart_reader.specs.Text.{Spells, IsRefusal};

/// A text spells at most one chart, places and all.
pub fn a_text_spells_one_chart()
    ensures { (text : List ℕ) (c d : Chart) → Spells text c → Spells text d → c ≡ d }
{}

/// A text that is refused spells no chart.
pub fn a_refused_text_spells_no_chart()
    ensures { (text : List ℕ) (kind : FormKind) (at : Span) (c : Chart)
        → IsRefusal text (faults.At kind at) → Spells text c → ⊥ }
{}

/// A text is refused with at most one kind of fault, and at one place.
pub fn a_text_has_one_refusal()
    ensures { (text : List ℕ) (kind other : FormKind) (at there : Span)
        → IsRefusal text (faults.At kind at) → IsRefusal text (faults.At other there)
        → (kind ≡ other) × (at ≡ there) }
{}

/// A text that spells no chart is refused.
pub fn a_text_is_a_chart_or_is_refused()
    ensures { (text : List ℕ) → ((c : Chart) × Spells text c)
        ⊎ ((kind : FormKind) × (at : Span) × IsRefusal text (faults.At kind at)) }
{}
