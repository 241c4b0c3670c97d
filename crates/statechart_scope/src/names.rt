//! Names that are made.
ghost use Rattle.std.specs.Prelude.{◌≡◌, ◌++◌, OnOk, IfOk, codes, decimal, string_bytes};
ghost use Rattle.statechart_meaning.specs.Names as spec;
ghost use Rattle.statechart_meaning.specs.Scope.{home_of};
ghost use Rattle.statechart_scope.specs.Frames.{frames_of};
ghost use Rattle.statechart_scope.specs.Made.{prefix, short_name, made_name};

use crate::frames::Frames;
use chart_lexer::NAME_LIMIT;
use itoa::Buffer;
use std::alloc::{AllocError, Global};

/// Appends the path of the lowest state, with two underscores behind each name.
#[tactic(auto, using(crate::proofs::NameLemmas::path_steps))]
fn push_path(text: &mut String, frames: &Frames<'_>) -> Result<(), AllocError>
    ensures { OnOk result (string_bytes text.new
        ≡ string_bytes text.old ++ prefix (home_of (frames_of frames.now)).path) }
{
    match frames {
        Frames::Root(_) => Ok(()),
        Frames::In(state, _, above) => {
            push_path(text, above)?;
            text.push_str(state.parts.name.text.text())?;
            text.push_str("__")
        }
    }
}

/// The number of the lowest state.
fn number_of(frames: &Frames<'_>) -> u32
    ensures { result ≡ (home_of (frames_of frames.now)).number }
{
    match frames {
        Frames::Root(_) => 0,
        Frames::In(_, number, _) => *number,
    }
}

/// The words, a number, two underscores and the last word.
fn numbered(alloc: Global, words: &str, number: u32, last: &str) -> Result<String, AllocError>
    ensures { IfOk result (λ text. string_bytes text ≡ short_name words.now number last.now) }
{
    let mut digits = Buffer::new();
    let mut text = String::new(alloc);
    text.push_str(words)?;
    text.push_str(digits.format(number))?;
    text.push_str("__")?;
    text.push_str(last)?;
    Ok(text)
}

/// The first words, the path of the lowest state and the last word; where that is too long, the
/// number of the state stands behind the short words in the place of its path.
fn made(
    alloc: Global,
    frames: &Frames<'_>,
    words: &str,
    short: &str,
    last: &str,
) -> Result<String, AllocError>
    ensures { IfOk result (λ text. string_bytes text
        ≡ made_name (home_of (frames_of frames.now)) words.now short.now last.now) }
{
    let mut text = String::new(alloc);
    text.push_str(words)?;
    push_path(&mut text, frames)?;
    text.push_str(last)?;
    if text.len() <= NAME_LIMIT {
        return Ok(text);
    }
    numbered(alloc, short, number_of(frames), last)
}

/// The name of a datum of the lowest state. One of the statechart keeps its name.
#[tactic(auto, using(crate::proofs::NameLemmas::datum_made))]
pub fn datum_name(alloc: Global, frames: &Frames<'_>, name: &str) -> Result<String, AllocError>
    ensures { IfOk result (λ text. string_bytes text
        ≡ spec.datum_name (home_of (frames_of frames.now)) name.now) }
{
    match frames {
        Frames::Root(_) => String::from_str(alloc, name),
        Frames::In(_, _, _) => made(alloc, frames, "", "state__", name),
    }
}

/// The name of the counter of an event for the lowest state.
#[tactic(auto, using(crate::proofs::NameLemmas::counter_made))]
pub fn counter_name(alloc: Global, frames: &Frames<'_>, event: &str) -> Result<String, AllocError>
    ensures { IfOk result (λ text. string_bytes text
        ≡ spec.counter_name (home_of (frames_of frames.now)) event.now) }
{
    made(alloc, frames, "after__", "after__", event)
}

/// The name of its counter of `every(n, E)`.
#[tactic(auto, using(crate::proofs::NameLemmas::every_made))]
pub fn every_name(
    alloc: Global,
    frames: &Frames<'_>,
    event: &str,
    count: u128,
) -> Result<String, AllocError>
    ensures { IfOk result (λ text. string_bytes text
        ≡ spec.every_name (home_of (frames_of frames.now)) event.now count) }
{
    let mut digits = Buffer::new();
    let mut last = String::new(alloc);
    last.push_str(event)?;
    last.push_str("__")?;
    last.push_str(digits.format(count))?;
    made(alloc, frames, "every__", "every__", last.as_str())
}
