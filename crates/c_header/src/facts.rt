//! What the header says of the functions of the source.
ghost use Rattle.std.specs.Prelude.{◌≡◌};
ghost use Rattle.c_header.specs.Header as spec;

/// What is known of the functions of a source before it is written.
#[derive(Clone, Copy)]
pub struct SourceFacts {
    /// How many of them are open at once at most, with the one that is called from outside. `None`
    /// where that isn't known.
    pub calls: Option<u32>,
    /// Whether one of them names a type of 128 bits.
    pub wide: bool,
}

/// How many functions of the source are open at once at most, as the header has that number: 0
/// where it isn't known.
pub fn calls_number(calls: Option<u32>) -> u64
    ensures { result ≡ spec.calls_number calls }
{
    match calls {
        Some(most) => u64::from(most),
        None => 0,
    }
}
