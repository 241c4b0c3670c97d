//! What the spelling of code promises, for all code at once.
ghost use Rattle.std.specs.Prelude.{◌≡◌, ◌≢◌, ◌⊎◌, ◌≤◌, ℕ, List, [], ◌∷◌, ◌++◌, length, Ok};
ghost use Rattle.std.specs.List.{AllByRecursion};
ghost use Rattle.code_language.specs.WellFormed.{IsCode};
ghost use Rattle.code_lines.specs.declared.format.Format.{Format};
ghost use Rattle.code_lines.specs.declared.format.Format.TheVariants.{Two};
ghost use Rattle.code_lines.specs.Spelling.{HasNumbers};
ghost use Rattle.code_text.specs.declared.fault.CodeTextFault.{CodeTextFault};
ghost use Rattle.code_text.specs.declared.fault.CodeTextFault.TheVariants as faults;
ghost use Rattle.code_text.specs.declared.limits.TheConstants.{TEXT_LIMIT};
ghost use Rattle.code_text.specs.Written.{Written, code_written};
ghost use Rattle.code_text.specs.Spelling.{version_line, body_lines, text_of, code_text, IsSpellable};
ghost use Rattle.code_text.specs.Reading.{spelled, IsCause};

/// The text of code in a format, where it isn't too long, is read as that code, well formed or not.
pub fn a_text_is_read()
    ensures { (format : Format) (w : Written) → IsSpellable format w
        → length (code_text format w) ≤ TEXT_LIMIT → spelled (code_text format w) ≡ Ok w }
{}

/// What is read is the text, in one of the formats, of the code that was read.
pub fn what_is_read_is_spelled_so()
    ensures { (text : List ℕ) (w : Written) → spelled text ≡ Ok w
        → (format : Format) × (text ≡ code_text format w) × IsSpellable format w }
{}

/// Two codes have two texts, in one format or in both.
pub fn one_text_one_code()
    ensures { (f g : Format) (v w : Written) → IsSpellable f v → IsSpellable g w
        → code_text f v ≡ code_text g w → (f ≡ g) × (v ≡ w) }
{}

/// No text of code begins another, in one format or in both.
pub fn no_text_begins_another()
    ensures { (f g : Format) (v w : Written) (more : List ℕ) → IsSpellable f v → IsSpellable g w
        → code_text f v ++ more ≡ code_text g w → more ≡ [] }
{}

/// The texts of one code in the two formats differ in the first line alone.
pub fn formats_differ_in_the_first_line()
    ensures { (format : Format) (w : Written)
        → code_text format w ≡ version_line format ++ (10 ∷ text_of (body_lines w)) }
{}

/// Well-formed code, whose instructions have numbers below 2^32, is spellable in format 2.
pub fn well_formed_code_is_spellable()
    ensures { (w : Written) → IsCode (code_written w)
        → AllByRecursion (AllByRecursion HasNumbers) w.procedures.procs → IsSpellable Two w }
{}

/// A text that isn't that of well-formed code has a first fault, which isn't want of memory.
pub fn a_text_is_of_code_or_has_a_fault()
    ensures { (text : List ℕ)
        → ((w : Written) × (spelled text ≡ Ok w) × IsCode (code_written w))
        ⊎ ((fault : CodeTextFault) × IsCause text fault × (fault ≢ faults.Memory)) }
{}
