//! What is known of the last result at each place, as the search finds it.

/// The results that the last return may have left.
///
/// Source: this project's choice.
#[derive(Clone, Copy, PartialEq, Eq)]
pub enum Results {
    /// Any result.
    Any,
    /// None: the place isn't reached.
    Nothing,
    /// One of these, of which some may be equal.
    OneOf(u32, u32, u32, u32),
}

/// What is known at a place of a procedure.
///
/// Source: this project's choice.
#[derive(Clone, Copy)]
pub struct Place {
    /// The results that the last return may have left there.
    pub results: Results,
    /// Whether the last result may be another one there in the code that is made.
    pub may_differ: bool,
    /// Whether the call there is left out.
    pub left_out: bool,
}

/// What is known at each place of each procedure, and the results that each procedure may return.
/// Of a place that isn't there nothing is known.
///
/// Source: this project's choice.
#[derive(Drop)]
pub struct KnownResults {
    /// For each procedure its places.
    pub places: Vec<Vec<Place>>,
    /// For each procedure the results that it may return.
    pub returns: Vec<Results>,
}
