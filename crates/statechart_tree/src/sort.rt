//! What values a datum has, and its first one.
use chart_tree::{InitText, NameText, PathText, SortText, Span, VarWord};

/// The sort of a datum: which values it may have.
#[derive(Drop)]
pub enum SourceSort {
    /// One that a chart text has, too.
    Plain(SortText),
    /// The numbers of an enumeration.
    Named(NameText),
}

/// The first value of a datum, or the value of a constant.
#[derive(Drop)]
pub enum FirstValue {
    /// None is written: 0, false, or the first enumerator.
    Missing,
    /// A number or a flag.
    Given(InitText),
    /// That of a constant or an enumerator.
    Named {
        /// Whether a minus sign stands before it.
        negative: bool,
        /// Its name.
        name: PathText,
        /// The place of its first token.
        at: Span,
    },
}

/// The declaration of a datum.
#[derive(Drop)]
pub struct SourceVar {
    /// Who sets it.
    pub kind: VarWord,
    /// Its name.
    pub name: NameText,
    /// What values it has.
    pub sort: SourceSort,
    /// Its first value.
    pub init: FirstValue,
}
