//! Why a text is no chart.
ghost use Rattle.std.specs.Prelude.{◌≡◌};
ghost use Rattle.chart_tree.specs.Form.{form_number, form_name, kind_of};
ghost use Rattle.chart_tree.specs.declared.fault.FormFault.TheVariants.{Memory};

use std::alloc::AllocError;
use thiserror::Error;
use token_grammar::{Span, Thing, TokenFault};

/// What is wrong with a text, at a place.
#[derive(Clone, Copy, Debug, PartialEq, Eq)]
pub enum FormKind {
    /// A byte that no chart text may have, not even in a comment.
    BadByte,
    /// No token begins here, a name has over 63 bytes, or a number is directly followed by a letter
    /// or an underscore, or has a `q` that isn't followed by one or two digits of value 0 to 32.
    BadToken,
    /// A token, or the end of the text, doesn't continue a chart text after the tokens before it.
    Expected,
    /// A number has over 36 digits, or a mantissa of 2^99 or more.
    LiteralTooLong,
    /// No fraction of up to 32 bits makes a number exact.
    LiteralNotBinary,
    /// The text has over 1,048,576 bytes.
    TextTooLong,
    /// A state is deeper than 16. The children of the chart are at depth 1.
    NestTooDeep,
    /// One more of these things than the limit allows.
    TooMany(Thing),
    /// An earlier event or datum, an earlier sibling state, or an earlier junction of the same
    /// state has this name.
    NameTwice,
    /// There is no such datum, event, junction or state.
    UnknownName,
    /// A datum where an event is wanted, or the reverse.
    WrongKind,
    /// Operands that don't match the operator, a guard that isn't a flag, or a value of the other
    /// sort.
    TypeClash,
    /// An expression of over 100 bits, or of over 64 bits after the point.
    TooWide,
    /// An assignment to an input.
    AssignsInput,
    /// A trigger that is an output event, a `send` of an event that isn't local, or an `emit` of
    /// one that isn't output.
    EventKind,
    /// A first number that isn't a value of the type.
    InitRange,
    /// A composition word without child states, or a chart without states.
    EmptyComposition,
    /// An OR with child states and without default transitions.
    DefaultMissing,
    /// Default transitions in an AND or a leaf.
    DefaultUnwanted,
    /// A default list, or a junction reached from one, doesn't end in a transition without event
    /// and guard.
    DefaultOpen,
    /// From a default list a state is reached that isn't below its state.
    DefaultLeaves,
    /// From an inner list a state is reached that is neither its state nor below it.
    InnerLeaves,
    /// From an outer or inner list a state is reached whose home isn't an OR.
    CrossesRegions,
    /// Over 32,768 pairs of a list and a transition that stands in it or in a junction reached from
    /// it.
    TooManyPairs,
    /// The word `history` in an AND or a leaf.
    HistoryUnwanted,
}

impl FormKind {
    /// The kind of a fault of reading.
    pub fn of(fault: TokenFault) -> FormKind
        ensures { result ≡ kind_of fault }
    {
        match fault {
            TokenFault::Expected => FormKind::Expected,
            TokenFault::LiteralTooLong => FormKind::LiteralTooLong,
            TokenFault::LiteralNotBinary => FormKind::LiteralNotBinary,
            TokenFault::NestTooDeep => FormKind::NestTooDeep,
            TokenFault::TooMany(thing) => FormKind::TooMany(thing),
        }
    }

    /// The number that stands before the name in a refusal, 1 to 26. There is no 25.
    pub fn number(&self) -> u8
        ensures { result ≡ form_number self.now }
    {
        match self {
            FormKind::BadByte => 1,
            FormKind::BadToken => 2,
            FormKind::Expected => 3,
            FormKind::LiteralTooLong => 4,
            FormKind::LiteralNotBinary => 5,
            FormKind::TextTooLong => 6,
            FormKind::NestTooDeep => 7,
            FormKind::TooMany(_) => 8,
            FormKind::NameTwice => 9,
            FormKind::UnknownName => 10,
            FormKind::WrongKind => 11,
            FormKind::TypeClash => 12,
            FormKind::TooWide => 13,
            FormKind::AssignsInput => 14,
            FormKind::EventKind => 15,
            FormKind::InitRange => 16,
            FormKind::EmptyComposition => 17,
            FormKind::DefaultMissing => 18,
            FormKind::DefaultUnwanted => 19,
            FormKind::DefaultOpen => 20,
            FormKind::DefaultLeaves => 21,
            FormKind::InnerLeaves => 22,
            FormKind::CrossesRegions => 23,
            FormKind::TooManyPairs => 24,
            FormKind::HistoryUnwanted => 26,
        }
    }

    /// The name, as a refusal prints it.
    pub fn name(&self) -> &'static str
        ensures { result.now ≡ form_name self.now }
    {
        match self {
            FormKind::BadByte => "BadByte",
            FormKind::BadToken => "BadToken",
            FormKind::Expected => "Expected",
            FormKind::LiteralTooLong => "LiteralTooLong",
            FormKind::LiteralNotBinary => "LiteralNotBinary",
            FormKind::TextTooLong => "TextTooLong",
            FormKind::NestTooDeep => "NestTooDeep",
            FormKind::TooMany(Thing::States) => "TooMany states",
            FormKind::TooMany(Thing::Junctions) => "TooMany junctions",
            FormKind::TooMany(Thing::Transitions) => "TooMany transitions",
            FormKind::TooMany(Thing::Variables) => "TooMany variables",
            FormKind::TooMany(Thing::Events) => "TooMany events",
            FormKind::TooMany(Thing::Statements) => "TooMany statements",
            FormKind::TooMany(Thing::Operators) => "TooMany operators",
            FormKind::TooMany(Thing::Items) => "TooMany items",
            FormKind::NameTwice => "NameTwice",
            FormKind::UnknownName => "UnknownName",
            FormKind::WrongKind => "WrongKind",
            FormKind::TypeClash => "TypeClash",
            FormKind::TooWide => "TooWide",
            FormKind::AssignsInput => "AssignsInput",
            FormKind::EventKind => "EventKind",
            FormKind::InitRange => "InitRange",
            FormKind::EmptyComposition => "EmptyComposition",
            FormKind::DefaultMissing => "DefaultMissing",
            FormKind::DefaultUnwanted => "DefaultUnwanted",
            FormKind::DefaultOpen => "DefaultOpen",
            FormKind::DefaultLeaves => "DefaultLeaves",
            FormKind::InnerLeaves => "InnerLeaves",
            FormKind::CrossesRegions => "CrossesRegions",
            FormKind::TooManyPairs => "TooManyPairs",
            FormKind::HistoryUnwanted => "HistoryUnwanted",
        }
    }
}

/// Why a text was not read.
#[derive(Clone, Copy, Debug, PartialEq, Eq, Error)]
pub enum FormFault {
    /// The text is at fault, at that place.
    #[error("chart {}:{}: {} {}", .1.line, .1.column, .0.number(), .0.name())]
    At(FormKind, Span),
    /// Memory ran out.
    #[error("out of memory")]
    Memory,
}

impl From<AllocError> for FormFault {
    ghost from_gives = { λ _ e. e ≡ Memory };

    fn from(_e: AllocError) -> FormFault {
        FormFault::Memory
    }
}
