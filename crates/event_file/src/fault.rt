//! Why a line is refused.
ghost use Rattle.std.specs.Prelude.{◌≡◌};
ghost use Rattle.event_file.specs.Faults as spec;

use thiserror::Error;

/// Why a line of an event file or of a schedule is refused: `LineTooLong` before all others, then
/// `BadStep`, and then the first fault by tokens from the left, at one token in this order.
#[derive(Clone, Copy, Debug, PartialEq, Eq, Error)]
pub enum LineFault {
    /// The line has over `LINE_LIMIT` bytes before its newline.
    #[error("the line is too long")]
    LineTooLong,
    /// The first token is neither `tick` nor an event.
    #[error("no such event")]
    UnknownEvent,
    /// The first token is a local or an output event.
    #[error("no input event")]
    NotInputEvent,
    /// A further token has no `=`, or what stands before its first `=` is no input.
    #[error("no such input")]
    UnknownInput,
    /// An earlier token of the line names the same input.
    #[error("the input has a value already")]
    InputTwice,
    /// What comes after the first `=` isn't a value of the input's type.
    #[error("no value of the input's type")]
    BadValue,
    /// The line of a schedule is no step. An event file never has this fault.
    #[error("no step")]
    BadStep,
}

impl LineFault {
    /// The number that stands before the name in a refusal: 1 to 6 in the order of the variants, and
    /// 8 for `BadStep`.
    pub fn number(self) -> u8
        ensures { result ≡ spec.line_fault_number self }
    {
        match self {
            LineFault::LineTooLong => 1,
            LineFault::UnknownEvent => 2,
            LineFault::NotInputEvent => 3,
            LineFault::UnknownInput => 4,
            LineFault::InputTwice => 5,
            LineFault::BadValue => 6,
            LineFault::BadStep => 8,
        }
    }

    /// The name, as a refusal prints it.
    pub fn name(self) -> &'static str
        ensures { result.now ≡ spec.line_fault_name self }
    {
        match self {
            LineFault::LineTooLong => "LineTooLong",
            LineFault::UnknownEvent => "UnknownEvent",
            LineFault::NotInputEvent => "NotInputEvent",
            LineFault::UnknownInput => "UnknownInput",
            LineFault::InputTwice => "InputTwice",
            LineFault::BadValue => "BadValue",
            LineFault::BadStep => "BadStep",
        }
    }
}
