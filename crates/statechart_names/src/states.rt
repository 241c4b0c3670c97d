//! The numbers of states, and child states by their names.
ghost use Rattle.std.specs.Prelude.{◌≡◌, ◌+◌, map, IfOk, Option};
ghost use Rattle.std.specs.Option.{option_map};
ghost use Rattle.statechart_tree.specs.Views.{state_of};
ghost use Rattle.statechart_meaning.specs.Scope as spec;
ghost use Rattle.statechart_names.specs.Seen.{row_of, child_seen, child_in, lowest_state};
ghost use Rattle.statechart_names.specs.Seen.{lowest_path, lowest_number};

use flow_base::Memory;
use statechart_scope::Frames;
use statechart_tree::SourceState;

/// The number behind so many states from a number on. 2^32 states or more count as out of memory.
pub fn number_behind(first: u32, count: u32) -> Result<u32, Memory>
    ensures { IfOk result (λ n. n ≡ first + count) }
{
    match first.checked_add(count) {
        Some(n) => Ok(n),
        None => Err(Memory),
    }
}

/// How many states a state is with those below it.
#[cycle(count)]
#[tactic(auto, using(crate::proofs::StateLemmas::count_steps))]
pub fn state_count(state: &SourceState) -> Result<u32, Memory>
    ensures { IfOk result (λ n. n ≡ spec.state_count (state_of state.now)) }
{
    let below = states_count(state.states.items())?;
    number_behind(1, below)
}

/// How many states some are with those below them.
#[cycle(count)]
fn states_count(states: &[SourceState]) -> Result<u32, Memory>
    ensures { IfOk result (λ n. n ≡ spec.states_count (row_of (map state_of states.now))) }
{
    let mut count = 0u32;
    for state in states {
        count = number_behind(count, state_count(state)?)?;
    }
    Ok(count)
}

/// A child state with its number.
#[derive(Clone, Copy)]
pub struct Child<'a> {
    /// The state.
    pub state: &'a SourceState,
    /// Its number.
    pub number: u32,
}

/// The lowest state.
pub fn lowest<'a>(frames: &Frames<'a>) -> &'a SourceState
    ensures { state_of result.now ≡ lowest_state frames.now }
{
    match frames {
        Frames::Root(state) => *state,
        Frames::In(state, _, _) => *state,
    }
}

/// The number of the first child of the lowest state.
pub fn first_number(frames: &Frames<'_>) -> Result<u32, Memory>
    ensures { IfOk result (λ n. n ≡ lowest_number frames.now + 1) }
{
    match frames {
        Frames::Root(_) => Ok(1),
        Frames::In(_, number, _) => number_behind(*number, 1),
    }
}

/// The first child state of that name of the lowest state.
#[tactic(auto, using(crate::proofs::StateLemmas::child_steps))]
pub fn child_of<'a>(frames: &Frames<'a>, name: &str) -> Result<Option<Child<'a>>, Memory>
    ensures { IfOk result (λ o. option_map (child_seen (lowest_path frames.now)) o
        ≡ child_in frames.now name.now) }
{
    let mut number = first_number(frames)?;
    let states = lowest(frames).states.items();
    for state in states {
        if state.parts.name.text.text() == name {
            return Ok(Some(Child { state, number }));
        }
        number = number_behind(number, state_count(state)?)?;
    }
    Ok(None)
}
