//! Laws of code: it is well formed or has one first fault, what well-formed code keeps, and that a
//! run has one end.
ghost use Rattle.std.specs.Prelude.{◌≡◌, ◌⊎◌, ◌<◌, ℕ, List, None, length};
ghost use Rattle.actions.specs.Runs.{Moment};
ghost use Rattle.code_language.specs.Code.{Code};
ghost use Rattle.code_language.specs.Instrs.{Instr};
ghost use Rattle.code_language.specs.Machine.{Program, CodeState};
ghost use Rattle.code_language.specs.Reactions.{Leads};
ghost use Rattle.code_language.specs.Sound.{AreProcs};
ghost use Rattle.code_language.specs.WellFormed.{Known, known_of, procs_fault};
ghost use Rattle.code_language.specs.WellFormed.{IsCode, IsFirstFault};
ghost use Rattle.code_language.specs.declared.fault.CodeFault.{CodeFault};

/// Code has at most one first fault, and well-formed code has none.
pub fn a_code_has_one_first_fault()
    ensures one { (k : Code) (f g : CodeFault) → IsFirstFault k f → IsFirstFault k g → f ≡ g }
    ensures none { (k : Code) (f : CodeFault) → IsCode k → IsFirstFault k f → ⊥ }
{}

/// Code that isn't well formed has a first fault.
pub fn a_code_is_well_formed_or_has_a_fault()
    ensures { (k : Code) → IsCode k ⊎ ((fault : CodeFault) × IsFirstFault k fault) }
{}

/// In well-formed code the procedures of the start and of a reaction are there, and each procedure
/// is sound; and procedures have no fault exactly where they are sound.
pub fn well_formed_code_is_sound()
    ensures start { (k : Code) → IsCode k → k.procedures.start < length k.procedures.procs }
    ensures react { (k : Code) → IsCode k → k.procedures.react < length k.procedures.procs }
    ensures procs { (k : Code) → IsCode k → AreProcs (known_of k) 0 k.procedures.procs }
    ensures sound { (K : Known) (p : ℕ) (procs : List (List Instr)) → procs_fault K p procs ≡ None
        → AreProcs K p procs }
    ensures back { (K : Known) (p : ℕ) (procs : List (List Instr)) → AreProcs K p procs
        → procs_fault K p procs ≡ None }
{}

/// A run of code has at most one end.
pub fn a_run_has_one_end()
    ensures { (C : Program) (m : CodeState) (a b : Moment) → Leads C m a → Leads C m b → a ≡ b }
{}
