//! What holds of the text of a chart's code.
ghost use Rattle.std.specs.Prelude.{◌≡◌, ◌≤◌, length, Ok};
ghost use Rattle.checked_chart.specs.Chart.{Chart};
ghost use Rattle.checked_chart.specs.Valid.{IsValid};
ghost use Rattle.code_language.specs.declared.code.RawCode.{RawCode};
ghost use Rattle.code_language.specs.Code.{code_of};
ghost use Rattle.code_lines.specs.declared.format.Format.TheVariants.{Two};
ghost use Rattle.code_text.specs.declared.limits.TheConstants.{TEXT_LIMIT};
ghost use Rattle.code_text.specs.Reading.{spelled};
ghost use Rattle.code_text.specs.Spelling.{code_text, IsSpellable};
ghost use Rattle.code_text.specs.Written.{written_of};
ghost use Rattle.chart_code.specs.Bodies.{code_of_chart};

/// The text of the code of a valid chart is no longer than a text that is read.
pub fn the_text_of_a_charts_code_is_short()
    ensures { (c : Chart) (raw : RawCode) → IsValid c → code_of raw ≡ code_of_chart c
        → length (code_text Two (written_of raw)) ≤ TEXT_LIMIT }
{}

/// The code of a valid chart has numbers, names and instructions of a text, and its text is read as
/// that code.
pub fn the_text_of_a_charts_code_is_read()
    ensures spellable { (c : Chart) (raw : RawCode) → IsValid c → code_of raw ≡ code_of_chart c
        → IsSpellable Two (written_of raw) }
    ensures read { (c : Chart) (raw : RawCode) → IsValid c → code_of raw ≡ code_of_chart c
        → spelled (code_text Two (written_of raw)) ≡ Ok (written_of raw) }
{}
