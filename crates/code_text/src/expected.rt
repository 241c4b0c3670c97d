//! The line that is next.
ghost use Rattle.std.specs.Prelude.{◌≡◌};
ghost use Rattle.code_text.specs.Reading as spec;

/// The line that is next. Counts are of what comes after it.
#[derive(Clone, Copy)]
pub enum Expected {
    /// The line that names the format.
    Version,
    /// The count of states.
    StateCount,
    /// The first state, and how many others follow.
    Root(u32),
    /// Another state, and how many others follow.
    State(u32),
    /// The count of data.
    VarCount,
    /// A datum, and how many others follow.
    Var(u32),
    /// The count of events.
    EventCount,
    /// An event, and how many others follow.
    Event(u32),
    /// The count of procedures.
    ProcCount,
    /// The head of a procedure, and how many others follow.
    Head(u32),
    /// An instruction, how many others of its procedure follow, and how many procedures.
    Instr(u32, u32),
    /// The line `end`.
    End,
    /// No line.
    Nothing,
}

/// With `count` states to come, the first of all among them.
pub fn root_next(count: u32) -> Expected
    ensures { result ≡ spec.root_next count }
{
    match count.checked_sub(1) {
        None => Expected::VarCount,
        Some(more) => Expected::Root(more),
    }
}

/// With `count` states to come after the first.
pub fn state_next(count: u32) -> Expected
    ensures { result ≡ spec.state_next count }
{
    match count.checked_sub(1) {
        None => Expected::VarCount,
        Some(more) => Expected::State(more),
    }
}

/// With `count` data to come.
pub fn var_next(count: u32) -> Expected
    ensures { result ≡ spec.var_next count }
{
    match count.checked_sub(1) {
        None => Expected::EventCount,
        Some(more) => Expected::Var(more),
    }
}

/// With `count` events to come.
pub fn event_next(count: u32) -> Expected
    ensures { result ≡ spec.event_next count }
{
    match count.checked_sub(1) {
        None => Expected::ProcCount,
        Some(more) => Expected::Event(more),
    }
}

/// With `count` procedures to come.
pub fn head_next(count: u32) -> Expected
    ensures { result ≡ spec.head_next count }
{
    match count.checked_sub(1) {
        None => Expected::End,
        Some(more) => Expected::Head(more),
    }
}
