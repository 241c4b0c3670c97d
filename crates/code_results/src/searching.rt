//! The search for a plan of results. No answer depends on it.
use crate::plan::{KnownResults, Place, Results};
use crate::reading::{leave_out, read};
use crate::spreading::spread;
use code_language::{Instr, RawCode};
use flow_base::Memory;
use std::alloc::Global;

/// A place that isn't reached yet.
const UNREACHED: Place = Place {
    results: Results::Nothing,
    may_differ: true,
    left_out: false,
};

/// The places of a procedure, of which only the first one is reached yet.
fn started_places(alloc: Global, instrs: &[Instr]) -> Result<Vec<Place>, Memory> {
    let mut places = vec![in alloc; UNREACHED; instrs.len()]?;
    if let Some(first) = places.first_mut() {
        first.results = Results::Any;
    }
    Ok(places)
}

/// The places of all procedures.
fn all_places(alloc: Global, raw: &RawCode) -> Result<Vec<Vec<Place>>, Memory> {
    let mut all = Vec::new(alloc);
    for instrs in raw.procs.items() {
        let places = started_places(alloc, instrs.items())?;
        all.push(places)?;
    }
    Ok(all)
}

/// What is known of the last result at each place.
///
/// It goes over the code until there is no news, at most 1,000 times. `Memory` only where memory
/// was refused.
pub(crate) fn find(alloc: Global, raw: &RawCode) -> Result<KnownResults, Memory> {
    let count = raw.procs.items().len();
    let mut places = all_places(alloc, raw)?;
    let mut returns = vec![in alloc; Results::Nothing; count]?;
    let mut begins = vec![in alloc; true; count]?;
    spread(raw, &mut places, &mut returns);
    read(raw, &mut places, &mut begins);
    leave_out(raw, &mut places);
    Ok(KnownResults { places, returns })
}
