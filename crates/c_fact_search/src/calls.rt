//! The calls of a file.
use c_subset::{Case, Function, Line};
use flow_base::Memory;
use std::alloc::Global;

/// A call, by the numbers of both functions.
#[derive(Clone, Copy)]
pub struct FunctionCall {
    /// The function that calls.
    pub caller: usize,
    /// The function that is called.
    pub callee: usize,
}

/// Adds the calls of cases.
fn add_cases(calls: &mut Vec<FunctionCall>, caller: usize, cases: &[Case]) -> Result<(), Memory> {
    for case in cases {
        let callee = case.function as usize;
        calls.push(FunctionCall { caller, callee })?;
    }
    Ok(())
}

/// Adds the calls of lines.
fn add_lines(calls: &mut Vec<FunctionCall>, caller: usize, lines: &[Line]) -> Result<(), Memory> {
    for line in lines {
        match line {
            Line::Call(_, _, function, _) => {
                let callee = *function as usize;
                calls.push(FunctionCall { caller, callee })?;
            }
            Line::Select(_, _, _, cases, _) => add_cases(calls, caller, cases.items())?,
            Line::Set(..)
            | Line::Store(..)
            | Line::StoreAt(..)
            | Line::If(..)
            | Line::Else
            | Line::While(..)
            | Line::Close
            | Line::Return(..) => {}
        }
    }
    Ok(())
}

/// The calls of all functions.
pub fn calls_of(alloc: Global, functions: &[Function]) -> Result<Vec<FunctionCall>, Memory> {
    let mut calls = Vec::new(alloc);
    for (caller, function) in functions.iter().enumerate() {
        add_lines(&mut calls, caller, function.lines.items())?;
    }
    Ok(calls)
}
