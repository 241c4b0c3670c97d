//! What spellings promise, for all states and instructions at once.
ghost use Rattle.std.specs.Prelude.{◌≡◌, ℕ, Bool, true, List, Some};
ghost use Rattle.code_language.specs.declared.code.RawState.{RawState};
ghost use Rattle.code_language.specs.Instrs.{Instr};
ghost use Rattle.code_lines.specs.declared.format.Format.{Format};
ghost use Rattle.code_lines.specs.Spelling.{IsState, state_line, IsInstr, instr_line};
ghost use Rattle.code_lines.specs.Fields.{parent_stands, state_at, instr_in};

/// The line of a state is read as it, where such a state may stand, and no other line is.
pub fn states_have_one_line()
    ensures read { (first : Bool) (s : RawState) → IsState s → parent_stands first s.parent ≡ true
        → state_at first (state_line s) ≡ Some s }
    ensures spelled { (first : Bool) (line : List ℕ) (s : RawState) → state_at first line ≡ Some s
        → (line ≡ state_line s) × IsState s × (parent_stands first s.parent ≡ true) }
{}

/// The line of an instruction is read as it in each format that has it, and no other line is.
pub fn instructions_have_one_line()
    ensures read { (format : Format) (x : Instr) → IsInstr format x
        → instr_in format (instr_line x) ≡ Some x }
    ensures spelled { (format : Format) (line : List ℕ) (x : Instr) → instr_in format line ≡ Some x
        → (line ≡ instr_line x) × IsInstr format x }
{}
