//! Which results may be at each place: what a procedure returns spreads to the places after its
//! calls, and from place to place, until nothing more is found. No answer depends on it.
use crate::joining::{joined, past, with, without};
use crate::plan::{Place, Results};
use crate::results::{may_be, only, told};
use code_language::{Cond, Instr, RawCode};

/// How often the code is gone over at most, up and down.
const ROUNDS: usize = 500;

/// The results that a procedure may return, as far as they are found.
fn found_of(returns: &[Results], proc: u32) -> Results {
    match returns.get(proc as usize) {
        Some(results) => *results,
        None => Results::Any,
    }
}

/// Adds results to those of a place, if it is there. Whether there is news.
fn add(places: &mut [Place], place: usize, results: Results) -> bool {
    let Some(known) = places.get_mut(place) else {
        return false;
    };
    let all = joined(known.results, results);
    let news = all != known.results;
    known.results = all;
    news
}

/// Adds a result to those that a procedure returns, if it is there. Whether there is news.
fn add_return(returns: &mut [Results], proc: usize, results: Results) -> bool {
    let Some(known) = returns.get_mut(proc) else {
        return false;
    };
    let all = joined(*known, results);
    let news = all != *known;
    *known = all;
    news
}

/// Adds results to those of two places. Whether there is news.
fn add_both(places: &mut [Place], next: usize, far: usize, results: Results) -> bool {
    let near_news = add(places, next, results);
    let far_news = add(places, far, results);
    near_news || far_news
}

/// Adds what a test of the last result leaves. Whether there is news.
fn spread_result_test(
    places: &mut [Place],
    next: usize,
    far: usize,
    results: Results,
    value: u32,
) -> bool {
    match told(results, value) {
        Some(true) => add(places, next, results),
        Some(false) => add(places, far, results),
        None => {
            let near_news = add(places, next, with(Results::Nothing, value));
            let far_news = add(places, far, without(results, value));
            near_news || far_news
        }
    }
}

/// Adds what a `Pass` leaves and returns. Whether there is news.
fn spread_pass(
    returns: &mut [Results],
    proc: usize,
    places: &mut [Place],
    next: usize,
    results: Results,
) -> bool {
    let returned = add_return(returns, proc, without(results, 0));
    let left = may_be(results, 0) && add(places, next, with(Results::Nothing, 0));
    returned || left
}

/// Adds what comes of an instruction at a place where these results may be. Whether there is news.
fn spread_from(
    react: u32,
    returns: &mut [Results],
    proc: usize,
    places: &mut [Place],
    place: usize,
    instr: &Instr,
    results: Results,
) -> bool {
    let next = past(place, 0);
    match instr {
        Instr::Unless(over, Cond::Result(value)) => {
            spread_result_test(places, next, past(place, *over), results, *value)
        }
        Instr::Unless(over, _) => add_both(places, next, past(place, *over), results),
        Instr::Skip(over) => add(places, past(place, *over), results),
        Instr::Call(callee, _) | Instr::Visit(callee, _) => {
            add(places, next, found_of(returns, *callee))
        }
        Instr::Send(_) => add(places, next, found_of(returns, react)),
        Instr::SendTo(_, _, callee) => {
            add(places, next, joined(found_of(returns, *callee), results))
        }
        Instr::Play => add_both(places, place, next, Results::Any),
        Instr::Pass => spread_pass(returns, proc, places, next, results),
        Instr::Ret(value) => add_return(returns, proc, with(Results::Nothing, *value)),
        Instr::Assign(_, _)
        | Instr::Emit(_)
        | Instr::Mark(_)
        | Instr::Clear(_)
        | Instr::Keep(_)
        | Instr::Home(_)
        | Instr::Begin => add(places, next, results),
    }
}

/// Goes over a procedure once. Whether there is news.
fn spread_in(
    react: u32,
    returns: &mut [Results],
    proc: usize,
    places: &mut [Place],
    instrs: &[Instr],
) -> bool {
    let mut news = false;
    for (place, instr) in instrs.iter().enumerate() {
        let results = match places.get(place) {
            Some(known) => known.results,
            None => Results::Nothing,
        };
        if results != Results::Nothing
            && spread_from(react, returns, proc, places, place, instr, results)
        {
            news = true;
        }
    }
    news
}

/// Goes over a procedure once, if it is there. Whether there is news.
fn spread_at(
    raw: &RawCode,
    places: &mut [Vec<Place>],
    returns: &mut [Results],
    proc: usize,
) -> bool {
    let Some(instrs) = raw.procs.items().get(proc) else {
        return false;
    };
    let Some(own) = places.get_mut(proc) else {
        return false;
    };
    spread_in(raw.react, returns, proc, own, instrs.items())
}

/// Goes over all procedures once, from the first one to the last. Whether there is news.
fn spread_up(raw: &RawCode, places: &mut [Vec<Place>], returns: &mut [Results]) -> bool {
    let mut news = false;
    for proc in 0..places.len() {
        if spread_at(raw, places, returns, proc) {
            news = true;
        }
    }
    news
}

/// Goes over all procedures once, from the last one to the first. Whether there is news.
fn spread_down(raw: &RawCode, places: &mut [Vec<Place>], returns: &mut [Results]) -> bool {
    let mut news = false;
    for proc in (0..places.len()).rev() {
        if spread_at(raw, places, returns, proc) {
            news = true;
        }
    }
    news
}

/// Goes over all procedures until there is no news, or often enough: up, since calls go to lower
/// procedures, and down, since most visits go to higher ones.
pub(crate) fn spread(raw: &RawCode, places: &mut [Vec<Place>], returns: &mut [Results]) {
    for _ in 0..ROUNDS {
        if !spread_up(raw, places, returns) || !spread_down(raw, places, returns) {
            return;
        }
    }
}
