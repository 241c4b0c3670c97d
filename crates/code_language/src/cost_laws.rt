//! Laws of what a run of code costs, and of what is true at each of its moments.
ghost use Rattle.std.specs.Prelude.{◌≡◌, ◌<◌, ◌≤◌, ◌∷◌, ℕ, List, length, true};
ghost use Rattle.flow_base.specs.declared.bounds.Bounds.{Bounds};
ghost use Rattle.actions.specs.declared.event.Event.{Event};
ghost use Rattle.actions.specs.Engines.{CanReactTo};
ghost use Rattle.actions.specs.Exprs.{Expr};
ghost use Rattle.actions.specs.Names.{Names};
ghost use Rattle.actions.specs.World.{World, Fits};
ghost use Rattle.code_language.specs.declared.code.RawCode.{RawCode};
ghost use Rattle.code_language.specs.Code.{Code, code_of};
ghost use Rattle.code_language.specs.Instrs.{Assign, Unless, Test};
ghost use Rattle.code_language.specs.Machine.{Frame, CodeState, step, run};
ghost use Rattle.code_language.specs.Reactions.{program_of, start_machine, react_machine};
ghost use Rattle.code_language.specs.WellFormed.{IsCode, known_of, instr_typed};
ghost use Rattle.code_language.specs.Ahead.{ahead, IsOver};
ghost use Rattle.code_language.specs.Left.{most_instructions, left_of, LeavesLess};
ghost use Rattle.code_language.specs.Moments.{
  HasStateNames,
  IsEvent,
  IsWorld,
  IsMoment,
  StaysSound,
  HasInstr,
  CanAssign,
  IsFlagIn,
};
ghost use Rattle.code_language.specs.Room.{most_frames, HasFrames, IsRoomy, StaysRoomy};

/// An event of well-formed code is over within (steps + 1) * (work + 1) instructions: each step of
/// the machine takes from what is left.
pub fn events_take_few_instructions()
    ensures start { (k : Code) (b : Bounds) → IsCode k
        → IsOver (run (program_of k b) (most_instructions k b) (start_machine k)) }
    ensures reaction { (k : Code) (b : Bounds) (w : World) (e : Event) → IsCode k
        → IsOver (run (program_of k b) (most_instructions k b) (react_machine k w e)) }
    ensures step { (k : Code) (b : Bounds) (m : CodeState) → IsCode k
        → LeavesLess k b (left_of k b m) (step (program_of k b) m) }
    ensures ends { (k : Code) (b : Bounds) (m : CodeState) (n : ℕ) → IsCode k
        → left_of k b m < n → IsOver (run (program_of k b) n m) }
{}

/// At every moment of an event of well-formed code there are at most (steps + 1) * (height + 1)
/// frames: a state with room has no more, and each step keeps the room.
pub fn events_take_few_frames()
    ensures start { (k : Code) (b : Bounds) (n : ℕ) → IsCode k
        → HasFrames (most_frames k b) (ahead (program_of k b) n (start_machine k)) }
    ensures reaction { (k : Code) (b : Bounds) (n : ℕ) (w : World) (e : Event) → IsCode k
        → HasFrames (most_frames k b) (ahead (program_of k b) n (react_machine k w e)) }
    ensures start_roomy { (k : Code) (b : Bounds) → IsCode k → IsRoomy k b (start_machine k) }
    ensures reaction_roomy { (k : Code) (b : Bounds) (w : World) (e : Event) → IsCode k
        → IsRoomy k b (react_machine k w e) }
    ensures step { (k : Code) (b : Bounds) (m : CodeState) → IsCode k
        → IsRoomy k b m → StaysRoomy k b (step (program_of k b) m) }
    ensures few { (k : Code) (b : Bounds) (m : CodeState) → IsCode k
        → IsRoomy k b m → length m.frames ≤ most_frames k b }
{}

/// What is true at each moment of a run of well-formed code from a world that fits. A start and a
/// reaction begin so, and each step keeps it or ends in a world that fits with a fault of what is
/// declared. The instruction at the top frame's place is there and sound, so a world can carry out
/// each assignment and each test.
pub fn moments_are_sound()
    ensures written { (raw : RawCode) → HasStateNames (code_of raw) }
    ensures start { (k : Code) (b : Bounds) → IsCode k → HasStateNames k
        → IsMoment k b (start_machine k) }
    ensures reaction { (k : Code) (b : Bounds) (w : World) (e : Event) → IsCode k
        → Fits k.tree k.names w → IsEvent k.names e → IsMoment k b (react_machine k w e) }
    ensures events { (n : Names) (e : Event) → CanReactTo n e → IsEvent n e }
    ensures step { (k : Code) (b : Bounds) (m : CodeState) → IsCode k
        → IsMoment k b m → StaysSound k b (step (program_of k b) m) }
    ensures moments { (k : Code) (b : Bounds) (n : ℕ) (m : CodeState) → IsCode k
        → IsMoment k b m → StaysSound k b (ahead (program_of k b) n m) }
    ensures instruction { (k : Code) (b : Bounds) (m : CodeState) (f : Frame) (fs : List Frame)
        → IsCode k → IsMoment k b m → m.frames ≡ f ∷ fs → HasInstr k f }
    ensures assign { (k : Code) (b : Bounds) (w : World) (v : ℕ) (e : Expr) → IsWorld k b w
        → instr_typed (known_of k) (Assign v e) ≡ true → CanAssign w v e }
    ensures test { (k : Code) (b : Bounds) (w : World) (j : ℕ) (e : Expr) → IsWorld k b w
        → instr_typed (known_of k) (Unless j (Test e)) ≡ true → IsFlagIn w e }
{}
