//! A file in which bodies stand in place of calls.
ghost use Rattle.std.specs.Prelude.{◌≡◌, ◌<◌, IfOk, length, slice_set};
ghost use Rattle.c_subset.specs.Trees as c;
ghost use Rattle.c_bare.specs.Bare.{AreFunctions};
ghost use Rattle.c_inlined.specs.Files.{AreInlined};

use crate::functions::inlined_function;
use crate::search::{begin, chosen, order_of, pass};
use c_subset::Function;
use flow_base::Memory;
use std::alloc::Global;

/// Puts a function in a place.
fn put(functions: &mut [Function], place: usize, function: Function)
    requires within { place < length functions.old }
    ensures { functions.new ≡ slice_set functions.old place function }
{
    functions[place] = function;
}

/// The functions of a file, where in that with this number calls of functions with a flag are
/// replaced.
fn with_inlined(
    alloc: Global,
    flags: &[bool],
    number: u32,
    functions: Vec<Function>,
) -> Result<Vec<Function>, Memory>
    ensures { IfOk result (λ made. (file : c.File) → AreFunctions functions.items file.functions
        → AreInlined file made.items) }
{
    let place = number as usize;
    if place >= functions.len() || !flags.contains(&true) {
        return Ok(functions);
    }
    let mut made = functions;
    let inlined = inlined_function(alloc, &made, flags, number)?;
    match inlined {
        Some(function) => {
            put(&mut made, place, function);
            Ok(made)
        }
        None => Ok(made),
    }
}

/// The functions of a file, where bodies stand in place of calls of small functions, and of those
/// that are called once. Each function keeps its number, its parameters and the type of its result.
///
/// The functions behind the first so many are called from outside: they are never placed, nor is
/// one that calls itself. A function in which a body is placed has at most 120 lines and a McCabe
/// number of at most 20, but for bodies of two plain statements. `Memory` only where memory was
/// refused.
pub fn inlined_functions(
    alloc: Global,
    first: u32,
    functions: Vec<Function>,
) -> Result<Vec<Function>, Memory>
    ensures { IfOk result (λ made. (file : c.File) → AreFunctions functions.items file.functions
        → AreInlined file made.items) }
{
    let order = order_of(alloc, first, &functions)?;
    let mut search = begin(alloc, &order, &functions)?;
    let mut made = functions;
    for number in &order {
        let flags = chosen(alloc, &search, &made, *number)?;
        made = with_inlined(alloc, &flags, *number, made)?;
        pass(&mut search, first, &made, *number);
    }
    Ok(made)
}
