//! Which copies there shall be, as the search finds them.
use crate::known::Facts;

/// What a copy is: of which procedure, and what it takes for known where it begins.
///
/// Source: this project's choice.
#[derive(Clone, Copy)]
pub struct CopyKey {
    /// The procedure.
    pub proc: u32,
    /// What is known where the copy begins.
    pub facts: Facts,
}

/// A place of a copy that is reached.
///
/// Source: this project's choice.
#[derive(Clone, Copy)]
pub struct Place {
    /// What is known there.
    pub facts: Facts,
    /// The copy that stands for the procedure that the instruction there names, if it names one, or
    /// for the reaction, where the instruction sends and the root is known to be active.
    pub copy: u32,
    /// The copy that stands for the note that the instruction there names, if it names one.
    pub note: Option<u32>,
}

/// A copy of a procedure: what it is, and its places in their order, none where one is never
/// reached.
///
/// Source: this project's choice.
#[derive(Drop)]
pub struct ProcedureCopy {
    /// What the copy is.
    pub key: CopyKey,
    /// The places.
    pub places: Vec<Option<Place>>,
}

/// Which copies there shall be.
///
/// Source: this project's choice.
#[derive(Drop)]
pub struct Plan {
    /// The sets of events that what is known of events names.
    pub sets: Vec<Vec<u32>>,
    /// The copies, each under its number.
    pub copies: Vec<ProcedureCopy>,
    /// The copy with which a start begins.
    pub start: u32,
    /// The copy with which a reaction begins.
    pub react: u32,
    /// Whether no instruction makes the root inactive, so that it stays active once it is.
    pub keeps_root: bool,
    /// Whether the root is active wherever a reaction begins.
    pub is_rooted: bool,
}
