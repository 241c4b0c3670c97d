//! The parts of a trace line.
ghost use Rattle.std.specs.Prelude.{
  ◌≡◌,
  ◌<◌,
  ◌≤◌,
  ◌^◌,
  ◌++◌,
  codes,
  length,
  map,
};
ghost use Rattle.std.specs.Fmt.{signed_decimal};
ghost use Rattle.std.specs.List.{AllByRecursion};
ghost use Rattle.fixed_point.specs.Text.{sign_of};
ghost use Rattle.actions.specs.Engines.{IsFaultOf};
ghost use Rattle.actions.specs.Names.{names_of};
ghost use Rattle.actions.specs.World.{of_data, of_names};
ghost use Rattle.trace_text.specs.LineEnds.{IsEndOf, end_word};
ghost use Rattle.trace_text.specs.Pieces.{Puts};
ghost use Rattle.trace_text.specs.Trace as spec;
ghost use Rattle.trace_text.specs.TraceParts.{item, CanBeWritten};

use crate::pieces::Pieces;
use actions::{Event, Names, Vals, Value};
use fixed_point::{Num, write_decimal};
use flow_base::{Fault, Sink};
use itoa::Buffer;

/// The word of an event.
pub(crate) fn event_word<'a>(names: &'a Names, event: Event) -> &'a str
    requires { spec.IsEventOf (names_of names.now) event }
    ensures { result.now ≡ spec.event_word (names_of names.now) event }
{
    match event {
        Event::Start => "start",
        Event::Tick => "tick",
        Event::Named(number) => event_name(names, number),
    }
}

/// The name of an event.
fn event_name(names: &Names, number: u32) -> &str
    requires { number < length (names_of names.now).events }
    ensures { result.now ≡ spec.event_name (names_of names.now) number }
{
    names.events.items()[number as usize].name.text()
}

/// The name of a datum.
fn datum_name(names: &Names, number: u32) -> &str
    requires { number < length (names_of names.now).vars }
    ensures { result.now ≡ spec.datum_name (names_of names.now) number }
{
    names.vars.items()[number as usize].name.text()
}

/// Puts the next text of those between which a separator stands.
#[inline(always)]
pub(crate) fn put_item<O: Sink>(
    separator: u8,
    is_first: bool,
    text: &[u8],
    pieces: &mut Pieces,
    out: &mut O,
)
    ensures { Puts (O.wrote out.old) (O.wrote out.new) (O.faults out.old) (O.faults out.new)
        pieces.old pieces.new (item separator is_first text.now) }
{
    if is_first {
        pieces.put(text, out);
    } else {
        pieces.put_led(separator, text, out);
    }
}

/// Puts each datum with its value.
pub(crate) fn put_data<O: Sink>(names: &Names, vals: &Vals, pieces: &mut Pieces, out: &mut O)
    requires declared { of_data vals.now ≡ of_names (names_of names.now) }
    requires few { length (names_of names.now).vars < 2 ^ 32 }
    ensures { Puts (O.wrote out.old) (O.wrote out.new) (O.faults out.old) (O.faults out.new)
        pieces.old pieces.new (spec.listed (spec.value_texts (names_of names.now).vars vals.now)) }
{
    let vars = names.vars.items();
    if vars.is_empty() {
        pieces.put_byte(b'-', out);
        return;
    }
    for (index, var) in vars.iter().enumerate() {
        put_datum(
            index == 0,
            var.name.text(),
            vals.get(index as u32),
            pieces,
            out,
        );
    }
}

/// Puts a datum with its value, after a comma unless it is the first.
fn put_datum<O: Sink>(is_first: bool, name: &str, value: Value, pieces: &mut Pieces, out: &mut O)
    requires { CanBeWritten value }
    ensures { Puts (O.wrote out.old) (O.wrote out.new) (O.faults out.old) (O.faults out.new)
        pieces.old pieces.new (item 44 is_first (name.now ++ codes "=" ++ spec.value_text value)) }
{
    put_item(b',', is_first, name.as_bytes(), pieces, out);
    pieces.put_byte(b'=', out);
    put_value(value, pieces, out);
}

/// Puts a value.
fn put_value<O: Sink>(value: Value, pieces: &mut Pieces, out: &mut O)
    requires { CanBeWritten value }
    ensures { Puts (O.wrote out.old) (O.wrote out.new) (O.faults out.old) (O.faults out.new)
        pieces.old pieces.new (spec.value_text value) }
{
    match value {
        Value::Flag(true) => pieces.put(b"true", out),
        Value::Flag(false) => pieces.put(b"false", out),
        Value::Number(number) => put_number(number, pieces, out),
    }
}

/// Puts a number.
fn put_number<O: Sink>(number: Num, pieces: &mut Pieces, out: &mut O)
    requires { CanBeWritten (Value.Number number) }
    ensures { Puts (O.wrote out.old) (O.wrote out.new) (O.faults out.old) (O.faults out.new)
        pieces.old pieces.new (spec.value_text (Value.Number number)) }
{
    if number.frac == 0 {
        put_integer(number.mantissa, pieces, out);
        return;
    }
    let mut buf = [0; 128];
    let len = write_decimal(number.mantissa, number.frac, &mut buf);
    pieces.put(&buf[..len], out);
}

/// Puts an integer.
fn put_integer<O: Sink>(number: i128, pieces: &mut Pieces, out: &mut O)
    ensures { Puts (O.wrote out.old) (O.wrote out.new) (O.faults out.old) (O.faults out.new)
        pieces.old pieces.new (signed_decimal number) }
{
    let magnitude = number.unsigned_abs();
    if magnitude > u64::MAX as u128 {
        put_wide(number, pieces, out);
        return;
    }
    put_sign(number, pieces, out);
    pieces.put_digits(magnitude as u64, out);
}

/// Puts a minus sign where a number is negative.
fn put_sign<O: Sink>(number: i128, pieces: &mut Pieces, out: &mut O)
    ensures { Puts (O.wrote out.old) (O.wrote out.new) (O.faults out.old) (O.faults out.new)
        pieces.old pieces.new (sign_of number) }
{
    if number < 0 {
        pieces.put_byte(b'-', out);
    }
}

/// Puts an integer of any size.
#[cold]
#[inline(never)]
fn put_wide<O: Sink>(number: i128, pieces: &mut Pieces, out: &mut O)
    ensures { Puts (O.wrote out.old) (O.wrote out.new) (O.faults out.old) (O.faults out.new)
        pieces.old pieces.new (signed_decimal number) }
{
    let mut digits = Buffer::new();
    pieces.put(digits.format(number).as_bytes(), out);
}

/// Puts the names of the events that were emitted.
pub(crate) fn put_outputs<O: Sink>(names: &Names, outputs: &[u32], pieces: &mut Pieces, out: &mut O)
    requires { AllByRecursion (λ e. e < length (names_of names.now).events) outputs.now }
    ensures { Puts (O.wrote out.old) (O.wrote out.new) (O.faults out.old) (O.faults out.new)
        pieces.old pieces.new (spec.listed (map (spec.event_name (names_of names.now)) outputs.now)) }
{
    if outputs.is_empty() {
        pieces.put_byte(b'-', out);
        return;
    }
    for (index, number) in outputs.iter().enumerate() {
        let name = event_name(names, *number);
        put_item(b',', index == 0, name.as_bytes(), pieces, out);
    }
}

/// How a line ends.
#[derive(Clone, Copy)]
pub(crate) enum LineEnd {
    /// With the fault of the start or of the event, or with none.
    Ran(Option<Fault>),
    /// With the route of that number, which what was emitted found full.
    Full(u32),
}

/// Puts how a line ends.
#[inline(always)]
pub(crate) fn put_end<O: Sink>(names: &Names, end: LineEnd, pieces: &mut Pieces, out: &mut O)
    requires { IsEndOf (names_of names.now) end }
    ensures { Puts (O.wrote out.old) (O.wrote out.new) (O.faults out.old) (O.faults out.new)
        pieces.old pieces.new (end_word (names_of names.now) end ++ codes "\n") }
{
    match end {
        LineEnd::Ran(fault) => put_result(names, fault, pieces, out),
        LineEnd::Full(route) => put_full_route(route, pieces, out),
    }
}

/// Puts how an event ended, which ends the line.
#[inline(always)]
fn put_result<O: Sink>(names: &Names, fault: Option<Fault>, pieces: &mut Pieces, out: &mut O)
    requires { IsFaultOf (names_of names.now) fault }
    ensures { Puts (O.wrote out.old) (O.wrote out.new) (O.faults out.old) (O.faults out.new)
        pieces.old pieces.new (spec.result_word (names_of names.now) fault ++ codes "\n") }
{
    match fault {
        None => pieces.put(b"ok\n", out),
        Some(Fault::Depth) => pieces.put(b"depth\n", out),
        Some(Fault::Steps) => pieces.put(b"steps\n", out),
        Some(Fault::Zero) => pieces.put(b"zero\n", out),
        Some(Fault::Overflow(datum)) => {
            pieces.put(b"overflow ", out);
            pieces.put(datum_name(names, datum).as_bytes(), out);
            pieces.put_byte(b'\n', out);
        }
    }
}

/// Puts that a route was full, which ends the line.
fn put_full_route<O: Sink>(route: u32, pieces: &mut Pieces, out: &mut O)
    ensures { Puts (O.wrote out.old) (O.wrote out.new) (O.faults out.old) (O.faults out.new)
        pieces.old pieces.new (spec.full_word route ++ codes "\n") }
{
    pieces.put(b"full ", out);
    pieces.put_digits(u64::from(route), out);
    pieces.put_byte(b'\n', out);
}
