//! What holds of the plans of C functions, and of the fields of states.
ghost use Rattle.std.specs.Prelude.{◌≡◌, ◌<◌, ℕ, suc, pred, List, [], length, true, false, Some};
ghost use Rattle.std.specs.Prelude.{if◌then◌else◌};
ghost use Rattle.active_config.specs.Tree.{Tree, state_count, parent_of, comp_of, is_or};
ghost use Rattle.active_config.specs.Marks.{Configuration, is_on, is_bare, is_last, can_mark};
ghost use Rattle.active_config.specs.Marks.{with_mark, with_last, no_marks, IsConsistent};
ghost use Rattle.flow_base.specs.declared.bounds.Bounds.{Bounds};
ghost use Rattle.code_language.specs.Code.{Procedures, Code};
ghost use Rattle.code_language.specs.Machine.{CodeState, run};
ghost use Rattle.code_language.specs.WellFormed.{IsCode};
ghost use Rattle.code_language.specs.Ahead.{IsOver};
ghost use Rattle.code_language.specs.Moments.{IsMoment};
ghost use Rattle.code_language.specs.Reactions.{first_frame, program_of};
ghost use Rattle.actions.specs.World.{World};
ghost use Rattle.actions.specs.Work.{Now};
ghost use Rattle.c_functions.specs.Statements.{CMemory};
ghost use Rattle.c_functions.specs.Meaning.{call_fn};
ghost use Rattle.c_functions.specs.Written.{AreWritten};
ghost use Rattle.c_functions.specs.Writer.{plans_of};
ghost use Rattle.c_functions.specs.Runs.{Agree, CallsDo, EndsWith, EndsAsCode, Stuck, Stands};
ghost use Rattle.c_functions.specs.Runs.{own_sums, world_of};
ghost use Rattle.c_functions.specs.Planned.{Planned, code_in, program_in};
ghost use Rattle.c_functions.specs.States.{States, Numbers, Shows, shown, no_fields};
ghost use Rattle.c_functions.specs.States.{place_number, c_on, c_bare, c_last, c_mark, c_clear};
ghost use Rattle.c_functions.specs.States.{c_keep};

/// The tests of the fields are those of the marks that they show.
pub fn tests_of_fields_are_those_of_marks()
    ensures on { (t : Tree) (n : ℕ → ℕ) (st : States) (m : Configuration) (s : ℕ) → Shows t n st m
        → c_on t n s st ≡ is_on s m }
    ensures bare { (t : Tree) (n : ℕ → ℕ) (st : States) (m : Configuration) (s : ℕ) → Numbers t n
        → Shows t n st m
        → c_bare t n s st ≡ is_bare t s m }
    ensures last { (t : Tree) (n : ℕ → ℕ) (st : States) (m : Configuration) (s : ℕ) → Numbers t n
        → IsConsistent t m
        → Shows t n st m → c_last t n s st ≡ is_last t s m }
{}

/// After a change the fields show the marks that code's change gives.
pub fn changes_of_fields_are_those_of_marks()
    ensures mark { (t : Tree) (n : ℕ → ℕ) (st : States) (m : Configuration) (s : ℕ) → Numbers t n
        → length t.comps ≡ state_count t → IsConsistent t m → Shows t n st m → s < state_count t
        → Shows t n (c_mark t n s st) (if can_mark t s m then with_mark s true m else m) }
    ensures clear { (t : Tree) (n : ℕ → ℕ) (st : States) (m : Configuration) (s : ℕ) → Numbers t n
        → length t.comps ≡ state_count t → IsConsistent t m → Shows t n st m → s < state_count t
        → Shows t n (c_clear t n s st) (if is_bare t s m then with_mark s false m else m) }
    ensures keep { (t : Tree) (n : ℕ → ℕ) (st : States) (m : Configuration) (s p : ℕ) → Numbers t n
        → length t.comps ≡ state_count t → IsConsistent t m → Shows t n st m → parent_of t s
        ≡ Some p
        → is_or (comp_of t p) ≡ true → Shows t n (c_keep t n s st) (with_last t s m) }
{}

/// Consistent marks and what shows them are the same thing: there is exactly one store for them,
/// and it tells them.
pub fn one_store_shows_consistent_marks()
    ensures shows { (t : Tree) (n : ℕ → ℕ) (m : Configuration) → Numbers t n → length t.comps
        ≡ state_count t
        → IsConsistent t m → Shows t n (shown t n m) m }
    ensures one { (t : Tree) (n : ℕ → ℕ) (st st' : States) (m : Configuration) → Numbers t n
        → Shows t n st m
        → Shows t n st' m → st ≡ st' }
    ensures told { (t : Tree) (n : ℕ → ℕ) (st : States) (m m' : Configuration) → Numbers t n
        → IsConsistent t m
        → IsConsistent t m' → Shows t n st m → Shows t n st m' → m ≡ m' }
    ensures single { (t : Tree) (n : ℕ → ℕ) (st : States) (m : Configuration) (p x y : ℕ)
        → Numbers t n → Shows t n st m
        → is_or (comp_of t p) ≡ true → parent_of t x ≡ Some p → parent_of t y ≡ Some p → is_on x m
        ≡ true
        → is_on y m ≡ true → x ≡ y }
{}

/// A call of a function does what a frame of its procedure does.
pub fn functions_do_what_procedures_do()
    ensures { (t : Tree) (k : Procedures) (plans : Planned t k) (fuel : ℕ) → CallsDo (code_in plans)
        plans.numbers (pred fuel) (call_fn (program_in plans) fuel) }
{}

/// The plans of well-formed code are written for its procedures, whatever their jumps are.
pub fn plans_are_written_for_their_code()
    ensures { (k : Code) → IsCode k → AreWritten k.tree (λ x. suc x) k.procedures (plans_of k) }
{}

/// A call of a function from outside, with no notes, ends as the run of code from the first frame
/// of its procedure.
pub fn calls_from_outside_end_as_code()
    ensures { (t : Tree) (k : Procedures) (plans : Planned t k) (fuel p : ℕ) (now : Now)
        (m : CMemory) (w : World) → Stands t plans.numbers m w → m.notes ≡ []
        → EndsWith (code_in plans) plans.numbers (pred fuel) (first_frame p w now)
        (call_fn (program_in plans) fuel p now 0 0 0 m) }
{}

/// Fields that are all 0 show that no state is active and none is remembered; and 1 + a state's
/// number serves as the number of a child, and so does 1 + how many siblings come before it.
pub fn zeros_show_no_marks()
    ensures zeros { (t : Tree) (n : ℕ → ℕ) → Numbers t n → Shows t n (no_fields t) (no_marks t) }
    ensures numbers { (t : Tree) → Numbers t (λ x. suc x) }
    ensures places { (t : Tree) → Numbers t (place_number t) }
{}

/// Memory tells the world that it stands for; so code's own arithmetic on that world agrees with
/// itself.
pub fn memory_tells_its_world()
    ensures world { (t : Tree) (n : ℕ → ℕ) (m : CMemory) (w : World) → Numbers t n → Stands t n m w
        → world_of t n m ≡ w }
    ensures agrees { (t : Tree) (n : ℕ → ℕ) → Numbers t n → Agree t n (own_sums t n) }
{}

/// Well-formed code never comes to a place without an instruction: each moment of its run has one.
pub fn code_is_never_stuck()
    ensures { (k : Code) (b : Bounds) (m : CodeState) → IsCode k → IsMoment k b m → Stuck
        (program_of k b) m → ⊥ }
{}

/// A call from outside of well-formed code, with more fuel than the run of the code takes steps,
/// ends as that run does, in memory that stands for the world of its last moment, with its fault or
/// none: it is neither starved nor wrong. A start and a reaction take no more steps than
/// `most_instructions`.
pub fn calls_of_well_formed_code_end_as_it()
    ensures { (k : Code) (plans : Planned k.tree k.procedures) (fuel p : ℕ) (now : Now)
        (m : CMemory) (w : World) → IsCode k → IsMoment k plans.bounds (first_frame p w now)
        → IsOver (run (program_of k plans.bounds) fuel (first_frame p w now))
        → Stands k.tree plans.numbers m w → m.notes ≡ []
        → EndsAsCode (program_of k plans.bounds) plans.numbers (first_frame p w now)
        (call_fn (program_in plans) (suc fuel) p now 0 0 0 m) }
{}
