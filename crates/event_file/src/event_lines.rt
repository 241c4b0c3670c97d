//! Event lines.
ghost use Rattle.std.specs.Prelude.{◌≡◌, ◌<◌, ◌^◌, length, nat_eq, slice_index, IfOk, IfSome};
ghost use Rattle.std.specs.List.{position};
ghost use Rattle.std.specs.Str.{bytes_eq};
ghost use Rattle.actions.specs.Engines.{CanReactTo};
ghost use Rattle.actions.specs.Names.{names_of};
ghost use Rattle.actions.specs.declared.names.EventDecl.{EventDecl as DeclShown};
ghost use Rattle.event_file.specs.EventLines as spec;
ghost use Rattle.event_file.specs.InputValues.{no_inputs};
ghost use Rattle.event_file.specs.LineParts as parts;
ghost use Rattle.event_file.specs.LineValues.{IsMadeFor};
ghost use Rattle.actions.specs.Runs.{AreInputValues};

use crate::fault::LineFault;
use crate::input_vals::InputVals;
use crate::limits::FEW_NAMES;
use crate::tokens::next_token;
use crate::values::give;
use actions::{Event, EventDecl, EventKind, Names};

/// Reads a line of an event file: its event, with the values that it names in `vals`, whatever was
/// there before.
///
/// None where the line is skipped: it has no token, or its first token begins with `#`. There and
/// at a fault `vals` is empty afterwards. It takes no memory.
pub fn event_line(
    names: &Names,
    line: &[u8],
    vals: &mut InputVals,
) -> Result<Option<Event>, LineFault>
    requires made { IsMadeFor (names_of names.now) vals.old }
    requires few { length (names_of names.now).events < 2 ^ 32 }
    ensures answer { result ≡ spec.answer_of (spec.event_of_line (names_of names.now) line.now) }
    ensures vals { vals.new.values
        ≡ spec.inputs_of (names_of names.now) (spec.event_of_line (names_of names.now) line.now) }
    ensures made { IsMadeFor (names_of names.now) vals.new }
    ensures given { spec.SaysWhatCanBeGiven (names_of names.now) (spec.event_of_line (names_of names.now) line.now) }
{
    vals.clear();
    let answer = read_line(names, line, vals);
    if !matches!(answer, Ok(Some(_))) {
        vals.clear();
    }
    answer
}

/// Reads a line. Where it is skipped and at a fault, `vals` has what was read up to there.
fn read_line(names: &Names, line: &[u8], vals: &mut InputVals) -> Result<Option<Event>, LineFault>
    requires none { vals.old.values ≡ no_inputs (names_of names.now) }
    requires made { IsMadeFor (names_of names.now) vals.old }
    requires few { length (names_of names.now).events < 2 ^ 32 }
    ensures says { parts.Says (names_of names.now) (spec.event_of_line (names_of names.now) line.now) vals.new.values result }
    ensures made { IsMadeFor (names_of names.now) vals.new }
{
    if begins_with_hash(line) {
        return Ok(None);
    }
    let Some(first) = next_token(line) else {
        return Ok(None);
    };
    if first.token[0] == b'#' {
        return Ok(None);
    }
    let event = match event_of(names, vals, first.token) {
        Ok(event) => event,
        Err(fault) => return Err(fault),
    };
    match give_all(names, first.rest, vals) {
        Ok(()) => Ok(Some(event)),
        Err(fault) => Err(fault),
    }
}

/// Whether the first byte of a line is `#`. Most comments are told by it, without their token.
fn begins_with_hash(line: &[u8]) -> bool
    ensures { result ≡ nat_eq (slice_index line.now 0) 35 }
{
    !line.is_empty() && line[0] == b'#'
}

/// Keeps what the tokens of a text give to inputs.
fn give_all(names: &Names, text: &[u8], vals: &mut InputVals) -> Result<(), LineFault>
    requires made { IsMadeFor (names_of names.now) vals.old }
    requires values { AreInputValues (names_of names.now) 0 vals.old.values }
    ensures gave { parts.GaveAll (names_of names.now) vals.old.values (spec.tokens_of text.now) vals.new.values result }
    ensures made { IsMadeFor (names_of names.now) vals.new }
    ensures values { AreInputValues (names_of names.now) 0 vals.new.values }
{
    let mut rest = text;
    'tokens: while let Some(cut) = next_token(rest) {
        if let Err(fault) = give(names, cut.token, vals) {
            return Err(fault);
        }
        rest = cut.rest;
    }
    Ok(())
}

/// The event that a token spells.
fn event_of(names: &Names, vals: &InputVals, token: &[u8]) -> Result<Event, LineFault>
    requires made { IsMadeFor (names_of names.now) vals.now }
    requires few { length (names_of names.now).events < 2 ^ 32 }
    ensures event { result ≡ spec.event_of (names_of names.now) token.now }
    ensures fits { IfOk result (CanReactTo (names_of names.now)) }
{
    if token == b"tick".as_slice() {
        return Ok(Event::Tick);
    }
    let Some(place) = place_of_event(names, vals, token) else {
        return Err(LineFault::UnknownEvent);
    };
    let events = names.events.items();
    match events[place].kind {
        EventKind::Input => Ok(Event::Named(place as u32)),
        EventKind::Local | EventKind::Output => Err(LineFault::NotInputEvent),
    }
}

/// The place of the first event of that name.
fn place_of_event(names: &Names, vals: &InputVals, name: &[u8]) -> Option<usize>
    requires made { IsMadeFor (names_of names.now) vals.now }
    ensures place { result ≡ position (λ (e : DeclShown). bytes_eq e.name name.now) (names_of names.now).events }
    ensures within { IfSome result (λ n. n < length (names_of names.now).events) }
{
    let events = names.events.items();
    if events.len() > FEW_NAMES {
        return vals.event_number(name);
    }
    first_event(events, name)
}

/// The place of the first event of that name, by one after the other.
fn first_event(events: &[EventDecl], name: &[u8]) -> Option<usize>
    ensures { result ≡ position (λ (e : DeclShown). bytes_eq e.name name.now) events.now }
{
    events.iter().position(|event| is_event(event, name))
}

/// Whether an event has that name.
fn is_event(event: &EventDecl, name: &[u8]) -> bool
    ensures { result ≡ bytes_eq event.now.name name.now }
{
    event.name.text().as_bytes() == name
}
