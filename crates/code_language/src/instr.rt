//! Instructions. Procedures, states, data and events are numbers of the code's lists, counted from
//! 0.
use actions::Expr;

/// What `Unless` tests. The home is a state that each call in progress has.
///
/// Source: this project's choice.
#[derive(Drop)]
pub enum Cond {
    /// The state is active.
    On(u32),
    /// The state is active and has no active child.
    Bare(u32),
    /// The home is active.
    OnHome,
    /// The home is active and has no active child.
    BareHome,
    /// The event is the current one.
    Current(u32),
    /// The last procedure that returned gave this result.
    Result(u32),
    /// The expression, a flag, is true. A zero divisor is a fault of the run.
    Test(Expr),
    /// The parent of the state, an OR, remembers the state.
    Last(u32),
}

/// One instruction.
///
/// Source: this project's choice.
#[derive(Drop)]
pub enum Instr {
    /// The datum takes the value of the expression.
    Assign(u32, Expr),
    /// Pays one step and emits the event.
    Emit(u32),
    /// Makes the state active, where it isn't, its parent is, and a parent that is an OR is bare.
    Mark(u32),
    /// Makes the state inactive, where it is bare.
    Clear(u32),
    /// The parent of the state, an OR, remembers the state.
    Keep(u32),
    /// Passes over that number of instructions, unless the condition holds.
    Unless(u32, Cond),
    /// Passes over that number of instructions.
    Skip(u32),
    /// Calls a procedure, the first number. The call has the base and the home of its caller, and
    /// the second number, if there is one, as its note: a procedure for `Play`.
    Call(u32, Option<u32>),
    /// Pays one step, and then as `Call`.
    Visit(u32, Option<u32>),
    /// Sends the event to the whole chart: one depth deeper, pays one step, makes the event current
    /// and calls the procedure of a reaction, with the root as its home and itself as its base.
    /// Where no depth is left that is a fault of the run.
    Send(u32),
    /// Sends an event, the first number, to a state, the second: as `Send`, but where the state
    /// isn't active after the step is paid nothing is called, and else the procedure, the third
    /// number.
    SendTo(u32, u32, u32),
    /// Runs the notes of the calls above the base in the order of the calls, each where the home is
    /// bare, and pays one step for each.
    Play,
    /// The state becomes the home of this call.
    Home(u32),
    /// This call becomes its own base.
    Begin,
    /// Returns with the last result, where that isn't 0.
    Pass,
    /// Returns with this result.
    Ret(u32),
}
