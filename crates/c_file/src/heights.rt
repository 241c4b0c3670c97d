//! How many functions of a file are open at once: each gets a height, more than those that it
//! calls. Heights are searched for; then it is seen whether each call leads to a lower one.
ghost use Rattle.std.specs.Prelude.{◌≡◌, ◌<◌, ◌≤◌, ◌+◌, ◌^◌, EachIndex, IfOk, IfSome, slice_index};
ghost use Rattle.std.specs.Prelude.{slice_index_or};
ghost use Rattle.std.specs.List.{list_all};
ghost use Rattle.c_text.specs.Labels.{labels_of};
ghost use Rattle.c_header.specs.Header.{calls_number};
ghost use Rattle.c_file.specs.Heights as spec;
ghost use Rattle.c_file.specs.Made.{AreUses, IsMade, functions_of};

use crate::calls::{FunctionCall, flag_of};
use crate::known::Uses;
use crate::made::Made;
use flow_base::Memory;
use std::alloc::Global;

/// How often all calls are gone over at most, down and up. This project's choice: a way from
/// function to function seldom turns this often to lower numbers.
const ROUNDS: u32 = 100;

/// The greatest constant that fits an `int` of 32 bits.
const CONSTANT_MAX: u32 = 2_147_483_647;

/// The height of a function.
fn height_of(heights: &[u32], function: u32) -> u32
    ensures { result ≡ slice_index_or heights.now function 0 }
{
    match heights.get(function as usize) {
        Some(height) => *height,
        None => 0,
    }
}

/// Raises a function that is reached above one that it calls. Whether there is news.
fn raise(reached: &[bool], heights: &mut [u32], call: FunctionCall) -> bool {
    let least = height_of(heights, call.callee).saturating_add(1);
    if !flag_of(reached, call.caller, false) {
        return false;
    }
    let Some(height) = heights.get_mut(call.caller as usize) else {
        return false;
    };
    let news = *height < least;
    if news {
        *height = least;
    }
    news
}

/// Goes over all calls once, from the last one to the first. Whether there is news.
fn raise_down(reached: &[bool], heights: &mut [u32], calls: &[FunctionCall]) -> bool {
    let mut news = false;
    for place in (0..calls.len()).rev() {
        if raise(reached, heights, calls[place]) {
            news = true;
        }
    }
    news
}

/// Goes over all calls once, from the first one to the last. Whether there is news.
fn raise_up(reached: &[bool], heights: &mut [u32], calls: &[FunctionCall]) -> bool {
    let mut news = false;
    for place in 0..calls.len() {
        if raise(reached, heights, calls[place]) {
            news = true;
        }
    }
    news
}

/// Heights of the functions that are reached: all calls are gone over until there is no news, or
/// often enough. Down first, since most calls are of functions with higher numbers.
fn heights_of(alloc: Global, uses: &Uses) -> Result<Vec<u32>, Memory> {
    let mut heights = vec![in alloc; 0u32; uses.reached.len()]?;
    for _ in 0..ROUNDS {
        if !raise_down(&uses.reached, &mut heights, &uses.calls)
            || !raise_up(&uses.reached, &mut heights, &uses.calls)
        {
            return Ok(heights);
        }
    }
    Ok(heights)
}

/// Whether a call, if it is of a function that is reached, leads to a lower one.
fn leads_down(reached: &[bool], heights: &[u32], call: FunctionCall) -> bool
    ensures { result ≡ spec.leads_down reached.now heights.now call }
{
    !flag_of(reached, call.caller, false)
        || height_of(heights, call.callee) < height_of(heights, call.caller)
}

/// Whether each of the calls does.
fn all_lead_down(reached: &[bool], heights: &[u32], calls: &[FunctionCall]) -> bool
    ensures { result ≡ list_all (spec.leads_down reached.now heights.now) calls.now }
{
    calls.iter().all(|call| leads_down(reached, heights, *call))
}

/// The greatest of heights.
fn greatest(heights: &[u32]) -> u32
    ensures { EachIndex heights.now (λ f. slice_index heights.now f ≤ result) }
{
    let mut most = 0;
    for height in heights {
        if *height > most {
            most = *height;
        }
    }
    most
}

/// One more than a height, if C takes that as a constant of an `enum` (6.7.2.2 p2).
fn one_more(height: u32) -> Option<u32>
    ensures { IfSome result (λ n. (n ≡ height + 1) × (n < 2 ^ 31)) }
{
    if height < CONSTANT_MAX {
        Some(height + 1)
    } else {
        None
    }
}

/// How many functions of a file are open at once at most, where it is found that none of those that
/// are reached calls itself, by way of others either. `Memory` only where memory was refused.
pub(crate) fn most_open(alloc: Global, made: &Made<'_>, uses: &Uses) -> Result<Option<u32>, Memory>
    requires is { IsMade made.now }
    requires uses { AreUses (labels_of made.now.labels) (functions_of made.now) uses.now }
    ensures most { IfOk result (λ most. IfSome most
        (spec.HasMostOpen (labels_of made.now.labels) (functions_of made.now))) }
    ensures few { IfOk result (λ most. calls_number most < 2 ^ 31) }
{
    let heights = heights_of(alloc, uses)?;
    if all_lead_down(&uses.reached, &heights, &uses.calls) {
        Ok(one_more(greatest(&heights)))
    } else {
        Ok(None)
    }
}
