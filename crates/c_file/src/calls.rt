//! The calls of a file, and the functions that are reached by them.
ghost use Rattle.std.specs.Prelude.{◌≡◌, ◌∷◌, [], ◌++◌, OnOk, slice_index_or};
ghost use Rattle.c_subset.specs.Lines.{line_of, lines_in};
ghost use Rattle.c_file.specs.Calls.{call_to, case_calls, calls_in, line_calls};
ghost use Rattle.c_file.specs.Closing as spec;

use c_subset::{Case, Line};
use flow_base::Memory;

/// A call, by the numbers of the two functions.
#[derive(Clone, Copy)]
pub(crate) struct FunctionCall {
    /// The function that calls.
    pub caller: u32,
    /// The function that is called.
    pub callee: u32,
}

/// Adds a call.
fn add_call(calls: &mut Vec<FunctionCall>, caller: u32, callee: u32) -> Result<(), Memory>
    ensures { OnOk result
        (calls.new.items ≡ calls.old.items ++ call_to caller callee ∷ []) }
{
    calls.push(FunctionCall { caller, callee })?;
    Ok(())
}

/// Adds the calls of cases.
fn add_cases(calls: &mut Vec<FunctionCall>, caller: u32, cases: &[Case]) -> Result<(), Memory>
    ensures { OnOk result
        (calls.new.items ≡ calls.old.items ++ case_calls caller cases.now) }
{
    for case in cases {
        add_call(calls, caller, case.function)?;
    }
    Ok(())
}

/// Adds the calls of a line.
fn add_line(calls: &mut Vec<FunctionCall>, caller: u32, line: &Line) -> Result<(), Memory>
    ensures { OnOk result
        (calls.new.items ≡ calls.old.items ++ line_calls caller (line_of line.now)) }
{
    match line {
        Line::Call(_, _, function, _) => add_call(calls, caller, *function),
        Line::Select(_, _, _, cases, _) => add_cases(calls, caller, cases.items()),
        Line::Set(_, _, _)
        | Line::Store(_, _)
        | Line::StoreAt(_, _, _)
        | Line::If(_)
        | Line::Else
        | Line::While(_)
        | Line::Close
        | Line::Return(_) => Ok(()),
    }
}

/// Adds the calls of lines. `Memory` only where memory was refused.
pub(crate) fn add_lines(
    calls: &mut Vec<FunctionCall>,
    caller: u32,
    lines: &[Line],
) -> Result<(), Memory>
    ensures { OnOk result
        (calls.new.items ≡ calls.old.items ++ calls_in caller (lines_in lines.now)) }
{
    for line in lines {
        add_line(calls, caller, line)?;
    }
    Ok(())
}

/// The flag of a function, or another one where there is no function with that number.
pub(crate) fn flag_of(flags: &[bool], function: u32, otherwise: bool) -> bool
    ensures { result ≡ slice_index_or flags.now function otherwise }
{
    match flags.get(function as usize) {
        Some(flag) => *flag,
        None => otherwise,
    }
}

/// Sets the flag of the function that is called, where that of the caller is set. Whether that is
/// new.
fn follow(flags: &mut [bool], call: FunctionCall) -> bool
    ensures flags { flags.new ≡ spec.followed flags.old call }
    ensures new { result ≡ spec.is_new flags.old call }
{
    let is_new = flag_of(flags, call.caller, false) && !flag_of(flags, call.callee, true);
    if is_new {
        flags[call.callee as usize] = true;
    }
    is_new
}

/// Follows each of the calls, in their order. Whether one led to something new.
fn pass(flags: &mut [bool], calls: &[FunctionCall]) -> bool
    ensures flags { flags.new ≡ spec.passed flags.old calls.now }
    ensures new { result ≡ spec.finds_new flags.old calls.now }
{
    let mut found = false;
    for call in calls {
        let is_new = follow(flags, *call);
        found = found || is_new;
    }
    found
}

/// Sets the flags of all functions that are reached from those whose flags are set: in passes over
/// the calls, until one finds nothing new. There are no more passes than functions, and one more.
pub(crate) fn close(flags: &mut [bool], calls: &[FunctionCall])
    ensures { spec.Closes calls.now flags.old flags.new }
{
    let mut goes_on = true;
    while goes_on {
        goes_on = pass(flags, calls);
    }
}
