//! A net from its text.
ghost use Rattle.std.specs.Prelude.{◌≡◌, ◌≢◌, ◌≤◌, length, IfOk, IfErr, Ok, Err};
ghost use Rattle.net_text.specs.NetTexts.{net_text_of, IsNetText};
ghost use Rattle.net_text.specs.Reading as spec;
ghost use Rattle.net_text.specs.Views.{partial_of, Answers};

use crate::expected::{Expected, has_ended};
use crate::fault::NetFault;
use crate::limits::NET_TEXT_LIMIT;
use crate::net::NetText;
use crate::partial::Partial;
use crate::repeats::first_repeat;
use code_fields::next_line;
use std::alloc::Global;

/// The line of the first chart.
const FIRST_CHART: u32 = 3;

/// The net that a text says, or the first fault of the text.
///
/// This project's choice.
pub fn read_net(alloc: Global, text: &[u8]) -> Result<NetText, NetFault>
    // What is read is what the text says.
    ensures read { IfOk result (λ net. spec.net_of_text text.now ≡ Ok (net_text_of net)) }
    ensures within { IfOk result (λ net. IsNetText (net_text_of net)) }
    // Each fault but `Memory` is the first of the text.
    ensures refused { IfErr result (λ fault. fault ≢ NetFault.Memory
        → spec.net_of_text text.now ≡ Err fault) }
{
    read_named(alloc, text)
}

/// What reading the text gives.
fn read_named(alloc: Global, text: &[u8]) -> Result<NetText, NetFault>
    ensures { Answers result (spec.net_of_text text.now) }
{
    if text.len() > NET_TEXT_LIMIT {
        return Err(NetFault::TextTooLong);
    }
    let net = match read_lines(alloc, text) {
        Ok(net) => net,
        Err(fault) => return Err(fault),
    };
    match first_repeat(net.charts.items()) {
        None => Ok(net),
        Some(chart) => Err(NetFault::NameTwice(chart + FIRST_CHART)),
    }
}

/// What reading the lines of a text gives.
fn read_lines(alloc: Global, text: &[u8]) -> Result<NetText, NetFault>
    requires { length text.now ≤ NET_TEXT_LIMIT }
    ensures { Answers result (spec.outcome_of text.now) }
{
    let mut partial = Partial::new(alloc);
    let mut rest = text;
    let mut number = 1;
    while let Some(parts) = next_line(rest) {
        let expected = partial.expected();
        match partial.read(alloc, number, parts.front) {
            Ok(true) => {}
            Ok(false) => return Err(refusal(expected, number)),
            Err(_) => return Err(NetFault::Memory),
        }
        rest = parts.rest;
        number += 1;
    }
    read_to_end(partial, number, rest)
}

/// Why the line of that number can't stand.
fn refusal(expected: Expected, number: u32) -> NetFault
    ensures { result ≡ spec.refusal expected number }
{
    if has_ended(expected) {
        NetFault::Trailing(number)
    } else {
        NetFault::BadLine(number)
    }
}

/// The net, where the line `end` was read and nothing stands after it. The line that isn't whole
/// has that number.
fn read_to_end(partial: Partial, number: u32, rest: &[u8]) -> Result<NetText, NetFault>
    ensures { Answers result (spec.at_end (partial_of partial) number rest.now) }
{
    if !has_ended(partial.expected()) {
        return Err(NetFault::Truncated);
    }
    if !rest.is_empty() {
        return Err(NetFault::Trailing(number));
    }
    Ok(partial.into_net())
}
