//! Why a chart text is refused.
ghost use Rattle.std.specs.Prelude.{◌≡◌};
ghost use Rattle.commands.specs.Refusals.{end_of_fault};

use crate::file::FileEnd;
use chart_tree::{FormFault, FormKind};
use token_grammar::Span;

/// Why a chart text is refused: the kind of its first fault, and its place.
#[derive(Clone, Copy)]
pub struct Refusal {
    /// The kind of the fault.
    pub kind: FormKind,
    /// The place of the fault.
    pub at: Span,
}

/// The refusal of a chart text that is too long.
pub const TOO_LONG: Refusal = Refusal {
    kind: FormKind::TextTooLong,
    at: Span { line: 1, column: 1 },
};

/// Why nothing comes of a file whose text has that fault.
pub fn end_of_fault(fault: FormFault) -> FileEnd<Refusal>
    ensures { result ≡ end_of_fault fault }
{
    match fault {
        FormFault::At(kind, at) => FileEnd::Refused(Refusal { kind, at }),
        FormFault::Memory => FileEnd::Memory,
    }
}
