//! Laws of how a run of code is compared with a piece of work of a run by the rules.
ghost use Rattle.std.specs.Prelude.{◌≡◌, ◌<◌, ◌≤◌, ℕ, suc, List, []};
ghost use Rattle.std.specs.Prelude.{◌∷◌, length, Option, Some, None};
ghost use Rattle.flow_base.specs.declared.fault.Fault.{Fault};
ghost use Rattle.actions.specs.declared.event.Event.{Event};
ghost use Rattle.actions.specs.World.{World};
ghost use Rattle.actions.specs.Work.{Ended, Faulted, Now};
ghost use Rattle.code_language.specs.Code.{Procedures, instructions};
ghost use Rattle.code_language.specs.Instrs.{Instr};
ghost use Rattle.code_language.specs.Machine.{Program, Frame, CodeState, noted};
ghost use Rattle.code_language.specs.Reactions.{Leads};
ghost use Rattle.code_language.specs.Reach.{Reaches, Falls, MeetsAim};
ghost use Rattle.code_language.specs.Reach.{leaves, Any, HasAt, pending};

/// Where code leads to a state without frames its run ends there without a fault, and where it
/// leads to a fault the run ends with it. So where code meets a piece of work, and no frame is left
/// at its end, the run of the code ends as the work does.
pub fn code_that_meets_work_ends_as_it()
    ensures no_frame { (C : Program) (m m' : CodeState) → Reaches C m m' → m'.frames ≡ []
        → Leads C m (record { world = m'.world; fault = None }) }
    ensures falls { (C : Program) (m : CodeState) (w : World) (x : Fault) → Falls C m w x
        → Leads C m (record { world = w; fault = Some x }) }
    ensures end { (C : Program) (m : CodeState) (saved : Option Event) (now : Now) (a : Unit {0})
        (w : World) → MeetsAim C m (leaves saved now [] Any) (Ended a w)
        → Leads C m (record { world = w; fault = None }) }
    ensures fault { (C : Program) (m : CodeState) (saved : Option Event) (now : Now) (x : Fault) (w : World)
        → MeetsAim {A = Unit {0}} C m (leaves saved now [] Any) (Faulted x w)
        → Leads C m (record { world = w; fault = Some x }) }
{}

/// The instructions of a procedure stand at its places, from the first one on.
pub fn instructions_stand_at_their_places()
    ensures { (k : Procedures) (p : ℕ) (is : List Instr) → instructions k p ≡ is → HasAt k p 0 is }
{}

/// `Play` finds the first of the pending notes, if there is one, and those after its frame are
/// pending then.
pub fn play_finds_the_pending_notes()
    ensures none { (k : ℕ) (frames : List Frame) → noted k frames ≡ None → pending k frames ≡ [] }
    ensures first { (k i p : ℕ) (frames : List Frame) → noted k frames ≡ Some (i, p)
        → (k ≤ i) × (i < length frames) × (pending k frames ≡ p ∷ pending (suc i) frames) }
{}
