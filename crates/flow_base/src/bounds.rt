//! The bounds of a run.
ghost use Rattle.std.specs.Prelude.{◌≡◌, ◌≤◌, ◌↔◌, IsSome, IfSome};
ghost use Rattle.flow_base.specs.Bounds.{AreBounds};
ghost use Rattle.flow_base.specs.declared.bounds.TheConstants.{DEPTH_LIMIT, STEP_LIMIT};

/// The greatest depth that a run may be given.
pub const DEPTH_LIMIT: u32 = 32;

/// The greatest number of steps that one event may be given.
pub const STEP_LIMIT: u32 = 50_000;

/// The bounds of a run: how deep sends may nest, and how many steps the work of one event may take.
#[derive(Clone, Copy, Debug, PartialEq, Eq)]
pub struct Bounds {
    /// How deep sends may nest: 1 to `DEPTH_LIMIT`.
    pub depth: u32,
    /// The steps of one event: 1 to `STEP_LIMIT`.
    pub steps: u32,
    pub ghost some_depth: { 1 ≤ depth },
    pub ghost depth_limit: { depth ≤ DEPTH_LIMIT },
    pub ghost some_steps: { 1 ≤ steps },
    pub ghost steps_limit: { steps ≤ STEP_LIMIT },
}

impl Bounds {
    /// The bounds with these numbers, or none where one is out of its range.
    pub fn make(depth: u32, steps: u32) -> Option<Bounds>
        ensures in_range { IsSome result ↔ AreBounds depth steps }
        ensures depth { IfSome result (λ bounds. bounds.depth ≡ depth) }
        ensures steps { IfSome result (λ bounds. bounds.steps ≡ steps) }
    {
        if depth < 1 || depth > DEPTH_LIMIT || steps < 1 || steps > STEP_LIMIT {
            return None;
        }
        Some(Bounds { depth, steps })
    }

    /// The default bounds: depth 8 and 10,000 steps.
    pub fn usual() -> Bounds
        ensures depth { result.depth ≡ 8 }
        ensures steps { result.steps ≡ 10000 }
    {
        Bounds {
            depth: 8,
            steps: 10_000,
        }
    }
}
