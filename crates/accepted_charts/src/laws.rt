//! A text is the text of one chart, which is valid, or it has one first fault, and never both.
ghost use Rattle.std.specs.Prelude.{◌≡◌, ◌⊎◌, ℕ, List};
ghost use Rattle.token_grammar.specs.declared.token.Span.{Span};
ghost use Rattle.chart_tree.specs.declared.fault.FormKind.{FormKind};
ghost use Rattle.checked_chart.specs.Chart.{Chart};
ghost use Rattle.checked_chart.specs.Valid.{IsValid};
ghost use Rattle.accepted_charts.specs.Accepted.{IsAccepted, IsFirstFault};

/// A text is accepted as at most one chart, it has at most one first fault, and a text that is
/// accepted has none.
pub fn a_text_has_one_answer()
    ensures chart { (text : List ℕ) (c d : Chart) → IsAccepted text c → IsAccepted text d → c ≡ d }
    ensures fault { (text : List ℕ) (kind other : FormKind) (at there : Span)
        → IsFirstFault text kind at → IsFirstFault text other there
        → (kind ≡ other) × (at ≡ there) }
    ensures apart { (text : List ℕ) (c : Chart) (kind : FormKind) (at : Span)
        → IsAccepted text c → IsFirstFault text kind at → ⊥ }
{}

/// A text that isn't accepted is refused, with a first fault.
pub fn a_text_is_accepted_or_refused()
    ensures { (text : List ℕ) → ((c : Chart) × IsAccepted text c)
        ⊎ ((kind : FormKind) × (at : Span) × IsFirstFault text kind at) }
{}

/// The chart that an accepted text stands for is valid.
pub fn accepted_charts_are_valid()
    ensures { (text : List ℕ) (c : Chart) → IsAccepted text c → IsValid c }
{}
