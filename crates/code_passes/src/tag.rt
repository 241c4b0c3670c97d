//! For what a procedure is of the code that passes make.
use actions::Event;

/// For which current events a procedure is.
///
/// Source: this project's choice.
#[derive(Clone, Copy)]
pub enum EventTag {
    /// For all events.
    Any,
    /// For this event.
    Is(Event),
    /// For those that aren't among some events, for which other procedures may be.
    Other,
}

/// For what a procedure is of the code that passes make.
///
/// Source: this project's choice.
#[derive(Clone, Copy)]
pub struct Tag {
    /// The procedure of the code as it was given.
    pub proc: u32,
    /// The home for which it is, where it is for one alone.
    pub home: Option<u32>,
    /// The current events for which it is.
    pub event: EventTag,
    /// Whether it stands for others as well, which are equal to it.
    pub shared: bool,
    /// Whether it is the play of that procedure alone: it calls the actions that were noted on the
    /// way to it.
    pub plays: bool,
}
