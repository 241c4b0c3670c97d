//! Whether the cells of a certificate are closed.
ghost use Rattle.std.specs.Prelude.{IfOk, length};
ghost use Rattle.std.specs.Bool.{OnTrue};
ghost use Rattle.range_worlds.specs.Leads.{Keeps, cert_in};
ghost use Rattle.range_check.specs.Checks.{Accepts, AllEnds, Processes, IsCellClosed, AreCellsClosed};

use crate::processing::{Processed, Way, process};
use actions::Event;
use range_rules::{Around, Cell};
use range_worlds::{Lack, Setting, add, again, has_all, union};

/// Whether a set is inside one of a list. The contract says what `true` means.
fn is_accepted(setting: &Setting<'_>, y: &Around, ends: &[Around]) -> bool
    ensures { OnTrue result (Accepts setting.now ends.now y.now) }
{
    for i in 0..ends.len() {
        if has_all(setting, &ends[i], y) {
            return true;
        }
    }
    false
}

/// Whether each set of a list is inside one of another. The contract says what `true` means.
pub(crate) fn are_accepted(setting: &Setting<'_>, ys: &[Around], ends: &[Around]) -> bool
    ensures { OnTrue result (Keeps setting.now ys.now ends.now) }
{
    for i in 0..ys.len() {
        if !is_accepted(setting, &ys[i], ends) {
            return false;
        }
    }
    true
}

/// Where a processing may end, whatever it answers.
fn all_ends(setting: &Setting<'_>, processed: Processed) -> Result<Vec<Around>, Lack>
    ensures { IfOk result (λ ys. AllEnds setting.now processed ys.items) }
{
    let Processed { stay, outs } = processed;
    let mut left = outs;
    let mut all = stay;
    while let Some(way) = left.pop() {
        let Way { home: _, worlds } = way;
        all = union(setting, all, worlds)?;
    }
    Ok(all)
}

/// Where the processing of a state may end, from the worlds of a set. Answers: those of `process`.
pub fn process_ends(
    setting: &Setting<'_>,
    x: &Around,
    state: u32,
    now: Event,
    deep: u32,
) -> Result<Vec<Around>, Lack>
    ensures { IfOk result (λ ys. Processes setting.now x.now state now ys.items) }
{
    let same = again(setting, x)?;
    let xs = add(setting, Vec::new(setting.alloc), same)?;
    let processed = process(setting, xs, state, now, deep)?;
    let ys = all_ends(setting, processed)?;
    Ok(ys)
}

/// Whether the processing of a state leads from the worlds of a set to those of a list. The contract
/// says what `true` means. Other answers: those of `process`.
pub(crate) fn processes(
    setting: &Setting<'_>,
    x: &Around,
    state: u32,
    now: Event,
    ends: &[Around],
    deep: u32,
) -> Result<bool, Lack>
    ensures { IfOk result (λ b. OnTrue b (Processes setting.now x.now state now ends.now)) }
{
    let ys = process_ends(setting, x, state, now, deep)?;
    Ok(are_accepted(setting, &ys, ends))
}

/// Whether a cell is closed: the processing of its state, done once, leads from its worlds to its
/// ends, where events that are sent lead where the cells say.
fn is_cell_closed(setting: &Setting<'_>, cell: &Cell, deep: u32) -> Result<bool, Lack>
    ensures { IfOk result (λ b. OnTrue b (IsCellClosed setting.now cell.now)) }
{
    let now = Event::Named(cell.event);
    let right = processes(setting, &cell.from, cell.state, now, &cell.ends, deep)?;
    Ok(right)
}

/// Whether all cells of the certificate are closed.
pub(crate) fn are_cells_closed(setting: &Setting<'_>, deep: u32) -> Result<bool, Lack>
    ensures { IfOk result (λ b. OnTrue b (AreCellsClosed setting.now
        (length (cert_in setting.now).cells.items))) }
{
    for i in 0..setting.cert.cells.len() {
        let closed = is_cell_closed(setting, &setting.cert.cells[i], deep)?;
        if !closed {
            return Ok(false);
        }
    }
    Ok(true)
}
