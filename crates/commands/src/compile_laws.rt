//! What reading gives of what `compile` writes.
ghost use Rattle.std.specs.Prelude.{◌≡◌, ℕ, List, Ok};
ghost use Rattle.checked_chart.specs.Chart.{Chart};
ghost use Rattle.code_language.specs.declared.code.RawCode.{RawCode};
ghost use Rattle.code_language.specs.Code.{code_of};
ghost use Rattle.code_text.specs.Reading.{spelled};
ghost use Rattle.code_text.specs.Written.{written_of};
ghost use Rattle.chart_code.specs.Bodies.{code_of_chart};
ghost use Rattle.commands.specs.CodeText.{IsCodeText};
ghost use Rattle.commands.specs.Compile.{IsCompiled};

/// A text to which a chart is compiled is a text of accepted code, as `exec` reads it, and all code
/// that it is a text of is the chart's.
pub fn what_compile_writes_is_read()
    ensures read { (c : Chart) (text : List ℕ) (compiled : IsCompiled c text)
        → (IsCodeText text compiled.raw) × (spelled text ≡ Ok (written_of compiled.raw)) }
    ensures only { (c : Chart) (text : List ℕ) (raw : RawCode) → IsCompiled c text
        → IsCodeText text raw → code_of raw ≡ code_of_chart c }
{}
