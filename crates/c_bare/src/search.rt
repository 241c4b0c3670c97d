//! Which functions of a file are bare: the search begins with all of them, and takes out those that
//! need a parameter. It is checked that what is left needs none; that no more could be left isn't
//! proved.
ghost use Rattle.std.specs.Prelude.{◌≡◌, List, IfOk, IsTrue, false};
ghost use Rattle.c_subset.specs.Trees as c;
ghost use Rattle.c_bare.specs.Needs as needs;
ghost use Rattle.c_bare.specs.Bare.{AreFunctions, AreNeedless};

use crate::functions::is_needless;
use crate::needs::{is_bare, needs_none};
use c_subset::{Case, Function, Line};
use flow_base::Memory;
use std::alloc::Global;

/// Clears the flag of a function.
fn clear(flags: &mut [bool], function: usize) {
    if let Some(flag) = flags.get_mut(function) {
        *flag = false;
    }
}

/// Clears the flag of each function that one of these cases calls.
fn clear_cases(flags: &mut [bool], cases: &[Case]) {
    for case in cases {
        clear(flags, case.function as usize);
    }
}

/// Clears the flag of each function that a `switch` in these lines calls.
fn clear_selected(flags: &mut [bool], lines: &[Line]) {
    for line in lines {
        if let Line::Select(_, _, _, cases, _) = line {
            clear_cases(flags, cases.items());
        }
    }
}

/// Clears the flag of a function that needs a parameter.
fn narrow_one(flags: &mut [bool], number: usize, function: &Function) {
    if is_bare(flags, number)
        && !needs_none(flags, function.parameters.items(), function.lines.items())
    {
        clear(flags, number);
    }
}

/// Clears the flag of each function that needs a parameter, from the last to the first and back: a
/// function that is cleared may let others need theirs, those that call it.
fn narrow(flags: &mut [bool], functions: &[Function]) {
    for number in (0..functions.len()).rev() {
        narrow_one(flags, number, &functions[number]);
    }
    for (number, function) in functions.iter().enumerate() {
        narrow_one(flags, number, function);
    }
}

/// Whether no bare function needs a parameter, and no `switch` calls one.
fn are_needless(flags: &[bool], functions: &[Function]) -> bool
    ensures { IsTrue result → (gs : List c.Function) → AreFunctions functions.now gs →
        AreNeedless flags.now gs }
{
    for (number, function) in functions.iter().enumerate() {
        if !is_needless(flags, number, function) {
            return false;
        }
    }
    true
}

/// All flags are set but that of a function whose parameters are kept, and those of functions that
/// a `switch` calls.
fn first_flags(alloc: Global, kept: usize, functions: &[Function]) -> Result<Vec<bool>, Memory> {
    let mut flags = vec![in alloc; true; functions.len()]?;
    clear(&mut flags, kept);
    for function in functions {
        clear_selected(&mut flags, function.lines.items());
    }
    Ok(flags)
}

/// Which functions of a file may be bare, without the one that is kept. It begins with all, and
/// goes over them until no parameter is needed of a bare one; where that takes more rounds than
/// there are functions, which isn't to be seen, none is.
///
/// `Memory` only where memory was refused.
pub fn bare_functions(
    alloc: Global,
    kept: usize,
    functions: &[Function],
) -> Result<Vec<bool>, Memory>
    ensures needless { IfOk result (λ flags. (gs : List c.Function) →
        AreFunctions functions.now gs → AreNeedless flags.items gs) }
    ensures kept { IfOk result (λ flags. needs.is_bare flags.items kept ≡ false) }
{
    let mut flags = first_flags(alloc, kept, functions)?;
    for _ in 0..=functions.len() {
        if are_needless(&flags, functions) && !is_bare(&flags, kept) {
            return Ok(flags);
        }
        narrow(&mut flags, functions);
    }
    Ok(Vec::new(alloc))
}
