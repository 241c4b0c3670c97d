//! What holds of the lengths of lines and texts of code.
ghost use Rattle.std.specs.Prelude.{◌≤◌, ◌+◌, length};
ghost use Rattle.actions.specs.declared.names.EventDecl.{EventDecl};
ghost use Rattle.actions.specs.declared.names.Var.{Var};
ghost use Rattle.code_language.specs.declared.code.RawState.{RawState};
ghost use Rattle.code_language.specs.Instrs.{Instr};
ghost use Rattle.code_fields.specs.Spelling.{IsVar, var_line, IsEvent, event_line};
ghost use Rattle.code_lines.specs.declared.format.Format.{Format};
ghost use Rattle.code_lines.specs.Spelling.{IsState, state_line, IsInstr, instr_line};
ghost use Rattle.code_text.specs.Spelling.{code_text, IsSpellable};
ghost use Rattle.code_text.specs.Written.{Written};
ghost use Rattle.layout_text.specs.Sizes.{line_limit, text_limit};

/// With its newline an instruction has at most 40 bytes, and at most 2,506 where it has an
/// expression, a state 82, a datum 118 and an event 73.
pub fn lines_are_short()
    ensures instr { (format : Format) (x : Instr) → IsInstr format x
        → length (instr_line x) + 1 ≤ line_limit x }
    ensures state { (s : RawState) → IsState s → length (state_line s) + 1 ≤ 82 }
    ensures datum { (v : Var) → IsVar v → length (var_line v) + 1 ≤ 118 }
    ensures event { (e : EventDecl) → IsEvent e → length (event_line e) + 1 ≤ 73 }
{}

/// A text is no longer than its lines may be, in both formats.
pub fn texts_are_short()
    ensures { (format : Format) (w : Written) → IsSpellable format w
        → length (code_text format w) ≤ text_limit w }
{}
