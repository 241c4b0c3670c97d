//! What holds of the parts of all charts.
ghost use Rattle.std.specs.Prelude.{◌≡◌, length, map, true, Some};
ghost use Rattle.std.specs.List.{list_all};
ghost use Rattle.active_config.specs.Tree.{Tree};
ghost use Rattle.actions.specs.Names.{Names};
ghost use Rattle.chart_lexer.specs.Words.{is_name};
ghost use Rattle.checked_chart.specs.Chart.{Chart};
ghost use Rattle.chart_code.specs.Keys.{layout};
ghost use Rattle.chart_parts.specs.PartKeys.{key_of};
ghost use Rattle.chart_parts.specs.declared.part.Part.{Part};
ghost use Rattle.chart_parts.specs.PartText.{part_text};
ghost use Rattle.chart_parts.specs.Parts.{parts_of, IsPart};
ghost use Rattle.chart_parts.specs.Plain.{IsPlain};

/// There is one part for each procedure of the layout, and it is of the key that this one has.
pub fn each_part_has_its_key()
    ensures count { (c : Chart) → length (parts_of c) ≡ length (layout c) }
    ensures keys { (c : Chart) → map (key_of c) (parts_of c) ≡ map (λ k. Some k) (layout c) }
{}

/// The words for a part are one line in which no comment of C ends, where states have names.
pub fn words_can_stand_in_a_comment()
    ensures { (t : Tree) (n : Names) (p : Part) → list_all is_name n.states ≡ true → IsPart t p
        → IsPlain (part_text t n p) }
{}
