//! What is known of the notes at each place, as the search finds it.

/// The greatest number of notes that a `Play` may run, where the answer isn't none.
///
/// Source: this project's choice.
pub const NOTE_LIMIT: usize = 32;

/// The greatest number of new procedures.
///
/// Source: this project's choice.
pub const PLAYER_LIMIT: usize = 4_096;

/// What is known at a place of a procedure.
#[derive(Clone, Copy)]
pub(crate) struct Place {
    /// Whether a run may come there.
    pub(crate) reached: bool,
    /// The number of the list of the notes that are there, none where they aren't known.
    pub(crate) notes: Option<u32>,
    /// Whether the call may have played before.
    pub(crate) played: bool,
    /// The new procedure that is called there in place of `Play`, none where there are no notes.
    pub(crate) player: Option<u32>,
}

/// What is known at each place of each procedure. To a place that isn't there no run comes.
#[derive(Drop)]
pub(crate) struct KnownNotes {
    /// The lists of notes.
    pub(crate) lists: Vec<Vec<u32>>,
    /// For each new procedure the notes that it runs.
    pub(crate) players: Vec<Vec<u32>>,
    /// For each new procedure the procedure that has the `Play`s for which it stands.
    pub(crate) played: Vec<u32>,
    /// For each procedure its places.
    pub(crate) places: Vec<Vec<Place>>,
}
