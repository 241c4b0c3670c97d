//! What is known of the result of a call, and what an expression tests of it.
ghost use Rattle.std.specs.Prelude.{◌≡◌};
ghost use Rattle.c_loops.specs.Results as spec;

/// What is known of a result.
#[derive(Clone, Copy)]
pub enum Known {
    /// It is this number.
    Exactly(u32),
    /// It isn't 0.
    NotZero,
    /// Nothing.
    Anything,
}

/// What an expression tests of the last result.
#[derive(Clone, Copy)]
pub enum Test {
    /// That it is this number.
    Equal(u32),
    /// That it isn't this number.
    Unequal(u32),
    /// Something else.
    Other,
}

/// The test that holds where that doesn't.
pub fn opposite(test: Test) -> Test
    ensures { result ≡ spec.opposite test }
{
    match test {
        Test::Equal(number) => Test::Unequal(number),
        Test::Unequal(number) => Test::Equal(number),
        Test::Other => Test::Other,
    }
}

/// What is known where the result is this number.
fn where_equal(known: Known, number: u32) -> Option<Known>
    ensures { result ≡ spec.where_holds known (spec.Equal number) }
{
    match known {
        Known::Exactly(only) => { if only == number { Some(known) } else { None } }
        Known::NotZero => {
            if number == 0 {
                None
            } else {
                Some(Known::Exactly(number))
            }
        }
        Known::Anything => Some(Known::Exactly(number)),
    }
}

/// What is known where the result isn't this number.
fn where_unequal(known: Known, number: u32) -> Option<Known>
    ensures { result ≡ spec.where_holds known (spec.Unequal number) }
{
    match known {
        Known::Exactly(only) => { if only == number { None } else { Some(known) } }
        Known::NotZero => Some(known),
        Known::Anything => {
            if number == 0 {
                Some(Known::NotZero)
            } else {
                Some(Known::Anything)
            }
        }
    }
}

/// What is known where the test holds; `None` where it can't.
pub fn where_holds(known: Known, test: Test) -> Option<Known>
    ensures { result ≡ spec.where_holds known test }
{
    match test {
        Test::Equal(number) => where_equal(known, number),
        Test::Unequal(number) => where_unequal(known, number),
        Test::Other => Some(known),
    }
}
