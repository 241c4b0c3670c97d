//! What a statechart declares beside its data.
use crate::expr::SourceExpr;
use crate::sort::{FirstValue, SourceSort};
use crate::stmt::SourceStmt;
use chart_tree::{EventWord, LitText, NameText, Span};
use flow_base::List;

/// A unit of time.
#[derive(Clone, Copy, PartialEq, Eq)]
pub enum Unit {
    /// A millionth of a second.
    Usec,
    /// A thousandth of a second.
    Msec,
    /// A second.
    Sec,
    /// 60 seconds.
    Min,
    /// 3,600 seconds.
    Hour,
}

/// The time from one event of a clock to the next.
#[derive(Clone, Copy)]
pub struct Period {
    /// So many units.
    pub lit: LitText,
    /// The unit.
    pub unit: Unit,
    /// The place of the number.
    pub at: Span,
}

/// The declaration of an event. That of a clock is an input event with a period.
#[derive(Drop)]
pub struct SourceEvent {
    /// Who raises it.
    pub kind: EventWord,
    /// Its name.
    pub name: NameText,
    /// The period, of a clock.
    pub period: Option<Period>,
}

/// An enumerator.
#[derive(Drop)]
pub struct Member {
    /// Its name.
    pub name: NameText,
    /// Its number, where one is written: whether a minus sign stands before it, the number after the
    /// sign, and the place of its first token.
    pub number: Option<(bool, LitText, Span)>,
}

/// An enumeration.
#[derive(Drop)]
pub struct Enumeration {
    /// Its name.
    pub name: NameText,
    /// Its enumerators in order. It has at least one.
    pub members: List<Member>,
}

/// A constant.
#[derive(Drop)]
pub struct Constant {
    /// Its name.
    pub name: NameText,
    /// Its type, where one is written.
    pub sort: Option<SourceSort>,
    /// Its value.
    pub value: FirstValue,
}

/// What a function stands for.
#[derive(Drop)]
pub enum FunctionBody {
    /// Statements.
    Block(List<SourceStmt>),
    /// A value.
    Value(SourceExpr),
}

/// A function.
#[derive(Drop)]
pub struct Function {
    /// Its name.
    pub name: NameText,
    /// Its parameters in order.
    pub params: List<NameText>,
    /// What it stands for.
    pub body: FunctionBody,
}
