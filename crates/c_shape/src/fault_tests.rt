//! Which faults the C of a file tests.

/// Which faults the C of a file tests.
#[derive(Drop)]
pub struct Tests {
    /// Whether the steps of an event are counted, and compared with their bound.
    pub steps: bool,
    /// Whether the depth of a send is compared with its bound.
    pub depth: bool,
    /// Of each procedure whether its result is compared with BAD after a call. It is for those that
    /// have no entry.
    pub after: Vec<bool>,
}

impl Tests {
    ghost use Rattle.std.specs.Prelude.{◌≡◌};
    ghost use Rattle.c_shape.specs.FileShapes.{tests_seen};

    /// Whether the result of a procedure is compared with BAD after a call.
    pub fn is_after(&self, procedure: u32) -> bool
        ensures { result ≡ (tests_seen self.now).after procedure }
    {
        self.after.get(procedure as usize).copied().unwrap_or(true)
    }
}
