//! Where an event that is sent may lead, by the cells of the certificate.
ghost use Rattle.std.specs.Prelude.{IfOk, IfSome};
ghost use Rattle.std.specs.Bool.{OnTrue};
ghost use Rattle.range_worlds.specs.Leads.{At, Among, Keeps, Leads, Unites};
ghost use Rattle.range_blocks.specs.Cells.{IsFor, IsFound, Sends, hearing};

use range_rules::{Around, Cell};
use range_worlds::{Lack, Parted, Setting, Test, add, again, has_all, split, union};

/// Whether a cell is for the processing of a state for a sent event from all worlds of a set.
fn is_for(setting: &Setting<'_>, cell: &Cell, state: u32, event: u32, x: &Around) -> bool
    ensures { OnTrue result (IsFor setting.now state event x.now cell.now) }
{
    if cell.state != state {
        return false;
    }
    if cell.event != event {
        return false;
    }
    has_all(setting, &cell.from, x)
}

/// The number of the first cell that is for that processing.
fn find_cell(setting: &Setting<'_>, state: u32, event: u32, x: &Around) -> Option<usize>
    ensures { IfSome result (λ i. IsFound setting.now state event x.now i) }
{
    for i in 0..setting.cert.cells.len() {
        if is_for(setting, &setting.cert.cells[i], state, event, x) {
            return Some(i);
        }
    }
    None
}

/// What a certificate lacks that has no cell for that processing: one that has no ends yet.
fn lacking(setting: &Setting<'_>, state: u32, event: u32, from: Around) -> Lack {
    let cell = Cell {
        state,
        event,
        from,
        ends: Vec::new(setting.alloc),
    };
    match Box::new(setting.alloc, cell) {
        Ok(cell) => Lack::Sent(cell),
        Err(_) => Lack::Memory,
    }
}

/// Puts the sets of a slice into a list.
fn gathered(setting: &Setting<'_>, xs: Vec<Around>, ends: &[Around]) -> Result<Vec<Around>, Lack>
    ensures { IfOk result (λ both. Unites setting.now xs.items ends.now both.items) }
{
    let mut both = xs;
    for end in ends {
        let same = again(setting, end)?;
        both = add(setting, both, same)?;
    }
    Ok(both)
}

/// Puts the ends of the cell for that processing into a list. Where there is none, the answer is
/// `Sent`.
fn told(
    setting: &Setting<'_>,
    outs: Vec<Around>,
    x: Around,
    state: u32,
    event: u32,
) -> Result<Vec<Around>, Lack>
    ensures kept { IfOk result (λ ys. Keeps setting.now outs.items ys.items) }
    ensures ends { IfOk result (λ ys. Leads setting.now (At setting.now x)
        (hearing setting.now state event) (λ _ w. Among setting.now ys.items w)) }
{
    match find_cell(setting, state, event, &x) {
        None => Err(lacking(setting, state, event, x)),
        Some(i) => {
            let ys = gathered(setting, outs, &setting.cert.cells[i].ends)?;
            Ok(ys)
        }
    }
}

/// Where the processing of a state for a sent event may lead.
fn heard(
    setting: &Setting<'_>,
    xs: Vec<Around>,
    state: u32,
    event: u32,
) -> Result<Vec<Around>, Lack>
    ensures { IfOk result (λ ys. Leads setting.now (Among setting.now xs.items)
        (hearing setting.now state event) (λ _ w. Among setting.now ys.items w)) }
{
    let mut left = xs;
    let mut outs = Vec::new(setting.alloc);
    while let Some(x) = left.pop() {
        outs = told(setting, outs, x, state, event)?;
    }
    Ok(outs)
}

/// Where an event that is sent to the whole chart, or to a state, may lead: the receiver is
/// processed, where it is active. Answers: `Sent` where the certificate has no cell for that,
/// `Unknown` where two sets that are joined have spans for two numbers of data.
pub(crate) fn send(
    setting: &Setting<'_>,
    xs: Vec<Around>,
    event: u32,
    to: Option<u32>,
) -> Result<Vec<Around>, Lack>
    ensures { IfOk result (λ ys. Sends setting.now xs.items event to ys.items) }
{
    match to {
        None => {
            let ends = heard(setting, xs, 0, event)?;
            Ok(ends)
        }
        Some(state) => {
            let parts = split(setting, xs, Test::On(state))?;
            let Parted { yes, no } = parts;
            let ends = heard(setting, yes, state, event)?;
            let all = union(setting, ends, no)?;
            Ok(all)
        }
    }
}
