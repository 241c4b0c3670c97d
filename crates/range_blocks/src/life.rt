//! Under which condition work goes on.
ghost use Rattle.std.specs.Prelude.{◌≡◌};
ghost use Rattle.range_blocks.specs.Ends.{test_of};

use range_worlds::Test;

/// Under which condition work goes on.
#[derive(Clone, Copy)]
pub enum Life {
    /// While a state is active.
    On(u32),
    /// While it is active and none of its children is.
    Bare(u32),
}

/// The test of a configuration by which work goes on.
pub fn life_test(life: Life) -> Test
    ensures { result ≡ test_of life }
{
    match life {
        Life::On(state) => Test::On(state),
        Life::Bare(state) => Test::Bare(state),
    }
}
