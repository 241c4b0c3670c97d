//! Needs, and the parts of a chart that have one.
ghost use Rattle.std.specs.Prelude.{◌≡◌, ◌↔◌, IsTrue};
ghost use Rattle.bound_prove.specs.Needs as spec;
ghost use Rattle.bound_prove.specs.Roots as roots;

use flow_base::{DEPTH_LIMIT, STEP_LIMIT};

/// One more than the greatest depth that a run may be given: the end of the depths.
pub const DEPTH_END: u32 = DEPTH_LIMIT + 1;

/// One more than the greatest number of steps that an event may be given: the end of the steps.
pub const STEP_END: u32 = STEP_LIMIT + 1;

/// How much depth and how many steps a piece of work may take.
#[derive(Clone, Copy)]
pub struct Need {
    /// How deep its sends may nest.
    pub depth: u32,
    /// How many steps it may take.
    pub steps: u32,
}

/// The pieces of work that have a cell in a certificate.
#[derive(Clone, Copy)]
pub enum Part {
    /// The list of a junction is searched.
    Junction,
    /// A state is left.
    Exit,
    /// A state is entered.
    Enter,
    /// A state is processed.
    Process,
}

/// No depth and no step.
pub(crate) fn nothing_needed() -> Need
    ensures { result ≡ spec.nothing_needed }
{
    Need { depth: 0, steps: 0 }
}

/// One step.
pub(crate) fn one_step() -> Need
    ensures { result ≡ spec.one_step }
{
    Need { depth: 0, steps: 1 }
}

impl Need {
    /// This piece of work, and then another.
    #[tactic(auto, unfolding(crate::specs::Needs::in_turn))]
    pub(crate) fn then(self, next: Need) -> Need
        ensures { result ≡ spec.in_turn self next }
    {
        Need {
            depth: self.depth.max(next.depth).min(DEPTH_END),
            steps: self.steps.saturating_add(next.steps).min(STEP_END),
        }
    }

    /// This piece of work, or another.
    #[tactic(auto, unfolding(crate::specs::Needs::either))]
    pub(crate) fn or(self, other: Need) -> Need
        ensures { result ≡ spec.either self other }
    {
        Need {
            depth: self.depth.max(other.depth),
            steps: self.steps.max(other.steps),
        }
    }

    /// A send of an event whose work has this need.
    #[tactic(auto, unfolding(crate::specs::Needs::sent))]
    pub(crate) fn sent(self) -> Need
        ensures { result ≡ spec.sent self }
    {
        Need {
            depth: self.depth.saturating_add(1).min(DEPTH_END),
            steps: self.steps.saturating_add(1).min(STEP_END),
        }
    }

    /// This need, with at least one of both.
    pub(crate) fn at_least_one(self) -> Need
        ensures { result ≡ roots.at_least_one self }
    {
        Need {
            depth: 1u32.max(self.depth),
            steps: 1u32.max(self.steps),
        }
    }

    /// Whether this need has at least as much of both as another.
    pub(crate) fn covers(self, other: Need) -> bool
        ensures { IsTrue result ↔ spec.Covers self other }
    {
        self.depth >= other.depth && self.steps >= other.steps
    }
}
