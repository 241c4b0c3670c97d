//! Which functions are placed where they are called: small ones, and those that are called once. It
//! is a search: whatever it chooses, the file that is made runs as the other one.
use crate::sizes::{Size, placed_size_of, size_of};
use c_subset::{Case, Function, Line};
use flow_base::Memory;
use std::alloc::Global;

/// The most lines of a function that is placed at each call of it.
const FEW_LINES: u32 = 8;

/// A search through the functions of a file.
#[derive(Drop)]
pub struct Search {
    /// Of each function how many calls of it there are in functions that are reached; one of a
    /// `switch` counts twice, so that what it calls isn't called once.
    calls: Vec<u32>,
    /// Of each function whether it may be placed where it is called.
    may: Vec<bool>,
    /// Of each function whether it was gone through.
    gone: Vec<bool>,
}

/// A way through the calls.
#[derive(Drop)]
struct Way {
    /// Of each function whether it was met.
    met: Vec<bool>,
    /// Of each function whether it stands in the order.
    stands: Vec<bool>,
    /// The functions that are to be gone on with, the next one last.
    open: Vec<u32>,
    /// The functions all of whose calls were followed, in the order in which that was so.
    order: Vec<u32>,
}

/// The flag of a function; there is none of another number.
fn flag_of(flags: &[bool], function: u32) -> Option<bool> {
    flags.get(function as usize).copied()
}

/// Sets the flag of a function.
fn set(flags: &mut [bool], function: u32) {
    if let Some(flag) = flags.get_mut(function as usize) {
        *flag = true;
    }
}

/// One more call of a function.
fn count(calls: &mut [u32], function: u32) {
    if let Some(number) = calls.get_mut(function as usize) {
        *number = number.saturating_add(1);
    }
}

/// The calls in these lines.
fn count_calls(calls: &mut [u32], lines: &[Line]) {
    for line in lines {
        if let Line::Call(_, _, function, _) = line {
            count(calls, *function);
        }
        if let Line::Select(_, _, _, cases, _) = line {
            count_cases(calls, cases.items());
        }
    }
}

/// Two calls of each function that these cases call.
fn count_cases(calls: &mut [u32], cases: &[Case]) {
    for case in cases {
        count(calls, case.function);
        count(calls, case.function);
    }
}

/// Opens a function that wasn't met.
fn open(way: &mut Way, function: u32) -> Result<(), Memory> {
    if flag_of(&way.met, function) == Some(false) {
        way.open.push(function)?;
    }
    Ok(())
}

/// Opens the functions that these cases call.
fn open_cases(way: &mut Way, cases: &[Case]) -> Result<(), Memory> {
    for case in cases {
        open(way, case.function)?;
    }
    Ok(())
}

/// Opens the functions that these lines call.
fn open_calls(way: &mut Way, lines: &[Line]) -> Result<(), Memory> {
    for line in lines {
        if let Line::Call(_, _, function, _) = line {
            open(way, *function)?;
        }
        if let Line::Select(_, _, _, cases, _) = line {
            open_cases(way, cases.items())?;
        }
    }
    Ok(())
}

/// Goes on with a function: where it is met for the first time, those that it calls come first.
fn go_on_with(way: &mut Way, functions: &[Function], number: u32) -> Result<(), Memory> {
    let Some(function) = functions.get(number as usize) else {
        return Ok(());
    };
    if flag_of(&way.met, number) == Some(false) {
        set(&mut way.met, number);
        way.open.push(number)?;
        return open_calls(way, function.lines.items());
    }
    if flag_of(&way.stands, number) == Some(false) {
        set(&mut way.stands, number);
        way.order.push(number)?;
    }
    Ok(())
}

/// Follows the calls from a function on.
fn follow_from(way: &mut Way, functions: &[Function], number: u32) -> Result<(), Memory> {
    way.open.push(number)?;
    for _ in 0..u32::MAX {
        let Some(next) = way.open.pop() else {
            return Ok(());
        };
        go_on_with(way, functions, next)?;
    }
    Ok(())
}

/// The functions that are reached from those behind the first so many, which are called from
/// outside: each stands behind those that it calls, unless these reach it.
pub fn order_of(alloc: Global, first: u32, functions: &[Function]) -> Result<Vec<u32>, Memory> {
    let mut way = Way {
        met: vec![in alloc; false; functions.len()]?,
        stands: vec![in alloc; false; functions.len()]?,
        open: Vec::new(alloc),
        order: Vec::new(alloc),
    };
    for place in first as usize..functions.len() {
        if let Ok(number) = u32::try_from(place) {
            follow_from(&mut way, functions, number)?;
        }
    }
    Ok(way.order)
}

/// Begins the search, for functions that are reached.
pub fn begin(alloc: Global, reached: &[u32], functions: &[Function]) -> Result<Search, Memory> {
    let mut calls = vec![in alloc; 0; functions.len()]?;
    for number in reached {
        if let Some(function) = functions.get(*number as usize) {
            count_calls(&mut calls, function.lines.items());
        }
    }
    Ok(Search {
        calls,
        may: vec![in alloc; false; functions.len()]?,
        gone: vec![in alloc; false; functions.len()]?,
    })
}

/// Whether a line calls only functions that were gone through.
fn is_settled(search: &Search, line: &Line) -> bool {
    match line {
        Line::Call(_, _, function, _) => flag_of(&search.gone, *function) == Some(true),
        Line::Select(_, _, _, cases, _) => {
            for case in cases.items() {
                if flag_of(&search.gone, case.function) != Some(true) {
                    return false;
                }
            }
            true
        }
        Line::Set(..)
        | Line::Store(..)
        | Line::StoreAt(..)
        | Line::If(_)
        | Line::Else
        | Line::While(_)
        | Line::Close
        | Line::Return(_) => true,
    }
}

/// Whether these lines call only functions that were gone through.
fn are_settled(search: &Search, lines: &[Line]) -> bool {
    for line in lines {
        if !is_settled(search, line) {
            return false;
        }
    }
    true
}

/// A function was gone through: it may be placed where it is called, unless it stands behind the
/// first so many, calls one that wasn't gone through, or is neither small nor called once.
pub fn pass(search: &mut Search, first: u32, functions: &[Function], number: u32) {
    if let Some(function) = functions.get(number as usize) {
        let lines = function.lines.items();
        let is_once = search.calls.get(number as usize) == Some(&1);
        if number < first
            && (is_once || size_of(function).lines <= FEW_LINES)
            && are_settled(search, lines)
        {
            set(&mut search.may, number);
        }
    }
    set(&mut search.gone, number);
}

/// How many of these lines call the function.
fn calls_in(lines: &[Line], function: u32) -> u32 {
    let mut calls: u32 = 0;
    for line in lines {
        if let Line::Call(_, _, called, _) = line {
            if *called == function {
                calls = calls.saturating_add(1);
            }
        }
    }
    calls
}

/// How large a function becomes by the bodies of one that it calls, where that may be placed in it.
fn size_with(
    search: &Search,
    functions: &[Function],
    size: Size,
    lines: &[Line],
    called: u32,
) -> Option<Size> {
    if flag_of(&search.may, called) != Some(true) {
        return None;
    }
    let function = functions.get(called as usize)?;
    let made = size.with(placed_size_of(function), calls_in(lines, called));
    if made.is_small() || (size_of(function).is_plain() && made.is_short()) {
        Some(made)
    } else {
        None
    }
}

/// Which functions are placed in one: in the order of the calls, as long as it stays small.
pub fn chosen(
    alloc: Global,
    search: &Search,
    functions: &[Function],
    number: u32,
) -> Result<Vec<bool>, Memory> {
    let mut flags = vec![in alloc; false; functions.len()]?;
    let Some(function) = functions.get(number as usize) else {
        return Ok(flags);
    };
    let lines = function.lines.items();
    let mut size = size_of(function);
    for line in lines {
        if let Line::Call(_, _, called, _) = line {
            if flag_of(&flags, *called) == Some(false) {
                if let Some(made) = size_with(search, functions, size, lines, *called) {
                    size = made;
                    set(&mut flags, *called);
                }
            }
        }
    }
    Ok(flags)
}
