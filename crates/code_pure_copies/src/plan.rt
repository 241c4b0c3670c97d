//! Which copies there shall be, as the search finds them.

/// The copies that an instruction of a copy names.
#[derive(Clone, Copy)]
pub(crate) struct Named {
    /// The copy that it calls, visits or sends to, if it does.
    pub proc: u32,
    /// The copy that is its note, if it has one.
    pub note: Option<u32>,
}

/// What an instruction names that names no copy.
pub(crate) const NONE_NAMED: Named = Named {
    proc: 0,
    note: None,
};

/// Which copies there shall be. They have numbers from 0, in the order of their origins.
#[derive(Drop)]
pub(crate) struct PureCopyPlan {
    /// For each copy the procedure that it is a copy of.
    pub origins: Vec<u32>,
    /// For each copy what its instructions name.
    pub names: Vec<Vec<Named>>,
    /// The copy with which a start begins.
    pub start: u32,
    /// The copy with which a reaction begins.
    pub react: u32,
}
