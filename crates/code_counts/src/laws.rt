//! What a certificate says of all runs of code.
ghost use Rattle.std.specs.Prelude.{◌≤◌, ◌↔◌, ℕ, List, Option, Some};
ghost use Rattle.flow_base.specs.declared.bounds.Bounds.{Bounds};
ghost use Rattle.flow_base.specs.declared.fault.Fault.{Fault};
ghost use Rattle.flow_base.specs.declared.fault.Fault.TheVariants as faults;
ghost use Rattle.actions.specs.declared.event.Event.{Event};
ghost use Rattle.actions.specs.Runs.{Moment, EventWithInputs};
ghost use Rattle.actions.specs.World.{World};
ghost use Rattle.code_language.specs.Code.{Code};
ghost use Rattle.code_language.specs.Machine.{Stops};
ghost use Rattle.code_language.specs.Reactions.{Starts, Reacts, CodeRun};
ghost use Rattle.code_counts.specs.Certificate.{Numbers, IsCertificate, IsMost};
ghost use Rattle.code_counts.specs.Claims.{HasMost, IsWithin};
ghost use Rattle.code_counts.specs.Needed.{AreSameFor};
ghost use Rattle.code_counts.specs.declared.numbers.Counted.{Counted};
ghost use Rattle.code_counts.specs.declared.numbers.Counted.TheVariants as kinds;

/// Numbers that are enough place by place bound what a start and a reaction take, from whatever
/// world and under whatever bounds.
pub fn a_certificate_bounds_all_events()
    ensures { (c : Counted) (k : Code) (N : Numbers) (most : ℕ) → IsCertificate c k.procedures N
        → IsMost k.procedures N most → HasMost c k most }
{}

/// What bounds all events holds where one ends, and under bounds of a run that aren't lower no
/// event has the fault `Steps` or `Depth`.
pub fn counts_hold_where_events_end()
    ensures start { (c : Counted) (k : Code) (most : ℕ) (b : Bounds) (w : World) (x : Option Fault)
        → HasMost c k most → Starts k b w x → IsWithin c b most (Stops w x) }
    ensures reaction { (c : Counted) (k : Code) (most : ℕ) (b : Bounds) (w w' : World) (e : Event)
        (x : Option Fault) → HasMost c k most → Reacts k b w e w' x
        → IsWithin c b most (Stops w' x) }
    ensures steps { (b : Bounds) (most : ℕ) (w : World) → most ≤ b.steps
        → ¬ IsWithin kinds.Steps b most (Stops w (Some faults.Steps)) }
    ensures depth { (b : Bounds) (most : ℕ) (w : World) → most ≤ b.depth
        → ¬ IsWithin kinds.Depth b most (Stops w (Some faults.Depth)) }
{}

/// Under two bounds code has the same runs, where each part of them is the same in both, or no
/// event passes it in either.
pub fn bounds_that_no_event_passes_have_the_same_runs()
    ensures { (k : Code) (b b' : Bounds) → AreSameFor kinds.Steps k b.steps b'.steps
        → AreSameFor kinds.Depth k b.depth b'.depth
        → (events : List EventWithInputs) (moments : List Moment)
        → CodeRun k b events moments ↔ CodeRun k b' events moments }
{}
