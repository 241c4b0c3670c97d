//! Where the last result is read before it is set, so that it may not differ there; and which calls
//! are left out. No answer depends on it.
use crate::checking::returns_at_once;
use crate::joining::past;
use crate::plan::{Place, Results};
use crate::results::{only, told};
use code_language::{Cond, Instr, RawCode};

/// How often the code is gone over at most, up and down.
const ROUNDS: usize = 500;

/// Whether the last result may differ at a place; where no place is it may.
fn differs_at(places: &[Place], place: usize) -> bool {
    match places.get(place) {
        Some(known) => known.may_differ,
        None => true,
    }
}

/// Whether a procedure may begin with a last result that differs.
fn may_begin(begins: &[bool], proc: u32) -> bool {
    match begins.get(proc as usize) {
        Some(may) => *may,
        None => true,
    }
}

/// Whether the last result may differ before a test of it.
fn differs_at_result_test(
    places: &[Place],
    next: usize,
    far: usize,
    results: Results,
    value: u32,
) -> bool {
    match told(results, value) {
        Some(true) => differs_at(places, next),
        Some(false) => differs_at(places, far),
        None => false,
    }
}

/// Whether the last result may differ before a `Pass`.
fn differs_at_pass(places: &[Place], next: usize, results: Results) -> bool {
    match only(results) {
        Some(0) => differs_at(places, next),
        Some(_) => true,
        None => false,
    }
}

/// Whether the last result may differ before an instruction, by the places after it.
fn differs_before(
    react: u32,
    begins: &[bool],
    places: &[Place],
    place: usize,
    instr: &Instr,
    results: Results,
) -> bool {
    let next = past(place, 0);
    match instr {
        Instr::Unless(over, Cond::Result(value)) => {
            differs_at_result_test(places, next, past(place, *over), results, *value)
        }
        Instr::Unless(over, _) => {
            differs_at(places, next) && differs_at(places, past(place, *over))
        }
        Instr::Skip(over) => differs_at(places, past(place, *over)),
        Instr::Call(callee, _) | Instr::Visit(callee, _) => may_begin(begins, *callee),
        Instr::Send(_) => may_begin(begins, react),
        Instr::SendTo(_, _, callee) => may_begin(begins, *callee) && differs_at(places, next),
        Instr::Play => false,
        Instr::Pass => differs_at_pass(places, next, results),
        Instr::Ret(_) => true,
        Instr::Assign(_, _)
        | Instr::Emit(_)
        | Instr::Mark(_)
        | Instr::Clear(_)
        | Instr::Keep(_)
        | Instr::Home(_)
        | Instr::Begin => differs_at(places, next),
    }
}

/// Goes over a procedure once, from its last place back.
fn read_in(react: u32, begins: &[bool], places: &mut [Place], instrs: &[Instr]) {
    for place in (0..instrs.len()).rev() {
        let results = match places.get(place) {
            Some(known) => known.results,
            None => Results::Nothing,
        };
        let differs = results == Results::Nothing
            || differs_before(react, begins, places, place, &instrs[place], results);
        if let Some(known) = places.get_mut(place) {
            known.may_differ = differs;
        }
    }
}

/// Notes whether a procedure may begin with a last result that differs. Whether there is news.
fn note_begin(begins: &mut [bool], proc: usize, may: bool) -> bool {
    let Some(known) = begins.get_mut(proc) else {
        return false;
    };
    let news = *known != may;
    *known = may;
    news
}

/// Goes over a procedure once, if it is there. Whether there is news.
fn read_at(raw: &RawCode, places: &mut [Vec<Place>], begins: &mut [bool], proc: usize) -> bool {
    let Some(instrs) = raw.procs.items().get(proc) else {
        return false;
    };
    let Some(own) = places.get_mut(proc) else {
        return false;
    };
    read_in(raw.react, begins, own, instrs.items());
    note_begin(begins, proc, differs_at(own, 0))
}

/// Goes over all procedures once, from the first one to the last. Whether there is news.
fn read_up(raw: &RawCode, places: &mut [Vec<Place>], begins: &mut [bool]) -> bool {
    let mut news = false;
    for proc in 0..places.len() {
        if read_at(raw, places, begins, proc) {
            news = true;
        }
    }
    news
}

/// Goes over all procedures once, from the last one to the first. Whether there is news.
fn read_down(raw: &RawCode, places: &mut [Vec<Place>], begins: &mut [bool]) -> bool {
    let mut news = false;
    for proc in (0..places.len()).rev() {
        if read_at(raw, places, begins, proc) {
            news = true;
        }
    }
    news
}

/// Goes over all procedures until there is no news, or often enough: up, since calls go to lower
/// procedures, and down, since most visits go to higher ones.
pub(crate) fn read(raw: &RawCode, places: &mut [Vec<Place>], begins: &mut [bool]) {
    for _ in 0..ROUNDS {
        if !read_up(raw, places, begins) || !read_down(raw, places, begins) {
            return;
        }
    }
}

/// Whether an instruction is a call that may be left out where the result that it leaves may
/// differ.
fn can_be_left_out(raw: &RawCode, instr: &Instr) -> bool {
    match instr {
        Instr::Call(callee, _) => returns_at_once(raw, *callee as usize).is_some(),
        _ => false,
    }
}

/// Leaves out the calls of a procedure that may be left out.
fn leave_out_in(raw: &RawCode, places: &mut [Place], instrs: &[Instr]) {
    for (place, instr) in instrs.iter().enumerate() {
        let out = can_be_left_out(raw, instr) && differs_at(places, past(place, 0));
        if let Some(known) = places.get_mut(place) {
            known.left_out = out;
        }
    }
}

/// Leaves out all calls that may be left out.
pub(crate) fn leave_out(raw: &RawCode, places: &mut [Vec<Place>]) {
    for (proc, instrs) in raw.procs.items().iter().enumerate() {
        if let Some(own) = places.get_mut(proc) {
            leave_out_in(raw, own, instrs.items());
        }
    }
}
