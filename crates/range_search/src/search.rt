//! The search: work is done over and over, and the certificate grows by where it ends.
ghost use Rattle.std.specs.Prelude.{IfOk};
ghost use Rattle.checked_chart.specs.Kept.{chart_of};
ghost use Rattle.range_check.specs.Runs.{StaysInRanges};
ghost use Rattle.range_rules.specs.Closed.{IsClosed};

use crate::growing::{Growth, are_joined, grow_at, grow_span, grow_spans, place_of};
use crate::literals::{all_stops, put};
use actions::{Event, EventKind, VarKind};
use checked_chart::Chart;
use range_check::{Method, freed, is_closed, process_ends, start_ends};
use range_rules::{Around, Cell, Certificate};
use range_spans::{Span, all_of};
use range_worlds::{Lack, Setting};
use std::alloc::Global;
use std::cell::Cell as Counter;

/// How far a search goes.
#[derive(Clone, Copy)]
pub struct Limits {
    /// How work is done. The search has these steps, and the check of what it finds as many.
    pub method: Method,
    /// How often all work is done.
    pub rounds: u32,
    /// How often what a certificate lacks is mended for one piece of work.
    pub mends: u32,
    /// After how many rounds spans grow up to numbers that stand in the chart. Those of a cell do so
    /// after as many times that it has grown, too.
    pub patience: u32,
    /// How many sets between two events there may be.
    pub sets: usize,
}

/// A certificate that grows.
#[derive(Drop)]
struct Draft {
    /// The certificate.
    cert: Certificate,
    /// For each of its cells how often the worlds from which it begins have grown.
    growths: Vec<u32>,
}

/// What stays the same in a round.
#[derive(Clone, Copy)]
struct Search<'a> {
    /// Where memory comes from.
    alloc: Global,
    /// How sets grow, and the chart.
    growth: Growth<'a>,
    /// How far the search goes.
    limits: Limits,
    /// How many transitions may still be looked at.
    steps: &'a Counter<u64>,
}

/// Where work begins.
#[derive(Clone, Copy)]
enum Root {
    /// The start.
    Start,
    /// An event, from the set of that number between two events.
    Rest(usize, Event),
    /// The processing of the cell of that number.
    Cell(usize),
}

/// Where work may end.
fn ends_of(search: &Search<'_>, cert: &Certificate, root: Root) -> Result<Vec<Around>, Lack> {
    let setting = Setting {
        alloc: search.alloc,
        chart: search.growth.chart,
        cert,
        apart: search.growth.apart,
        steps: search.steps,
    };
    let deep = search.limits.method.deep;
    match root {
        Root::Start => start_ends(&setting, deep),
        Root::Rest(place, event) => match cert.rest.get(place) {
            None => Err(Lack::Unknown),
            Some(x) => {
                let y = freed(&setting, x)?;
                process_ends(&setting, &y, 0, event, deep)
            }
        },
        Root::Cell(place) => match cert.cells.get(place) {
            None => Err(Lack::Unknown),
            Some(cell) => {
                let now = Event::Named(cell.event);
                process_ends(&setting, &cell.from, cell.state, now, deep)
            }
        },
    }
}

/// Puts a set to others. Whether they have grown.
fn put_set(search: &Search<'_>, sets: &mut Vec<Around>, y: Around) -> Result<bool, Lack> {
    match place_of(&search.growth, sets, &y) {
        Some(place) => Ok(grow_at(&search.growth, sets, place, &y)),
        None => {
            if sets.len() >= search.limits.sets {
                return Err(Lack::GivenUp);
            }
            match sets.push(y) {
                Ok(()) => Ok(true),
                Err(_) => Err(Lack::Memory),
            }
        }
    }
}

/// Puts sets to others. Whether these have grown.
fn put_sets(search: &Search<'_>, sets: &mut Vec<Around>, ys: Vec<Around>) -> Result<bool, Lack> {
    let mut left = ys;
    let mut grew = false;
    while let Some(y) = left.pop() {
        let more = put_set(search, sets, y)?;
        grew = grew || more;
    }
    Ok(grew)
}

/// Puts the ends of work to where the certificate has them. Whether it has grown.
fn put_ends(
    search: &Search<'_>,
    cert: &mut Certificate,
    root: Root,
    ys: Vec<Around>,
) -> Result<bool, Lack> {
    match root {
        Root::Start | Root::Rest(..) => put_sets(search, &mut cert.rest, ys),
        Root::Cell(place) => {
            if place >= cert.cells.len() {
                return Err(Lack::Unknown);
            }
            put_sets(search, &mut cert.cells[place].ends, ys)
        }
    }
}

/// The number of the cell of a list that grows by another: it is for the same work, from sets that
/// are joined.
fn cell_of(search: &Search<'_>, cells: &[Cell], cell: &Cell) -> Option<usize> {
    for i in 0..cells.len() {
        if cells[i].state == cell.state
            && cells[i].event == cell.event
            && are_joined(&search.growth, &cells[i].from, &cell.from)
        {
            return Some(i);
        }
    }
    None
}

/// Widens the worlds from which the cell of that number begins by those of another. One that has
/// grown often does so up to numbers that stand in the chart.
fn grow_cell(search: &Search<'_>, draft: &mut Draft, place: usize, by: &Cell) {
    if place >= draft.cert.cells.len() || place >= draft.growths.len() {
        return;
    }
    let often = draft.growths[place] >= search.limits.patience;
    let growth = Growth {
        hasty: search.growth.hasty || often,
        ..search.growth
    };
    grow_spans(
        &growth,
        &mut draft.cert.cells[place].from.spans,
        &by.from.spans,
    );
    draft.growths[place] = draft.growths[place].saturating_add(1);
}

/// Puts a cell to those of a certificate: one of the same work from sets that are joined grows by its
/// worlds.
fn put_cell(search: &Search<'_>, draft: &mut Draft, cell: Cell) -> Result<(), Lack> {
    match cell_of(search, &draft.cert.cells, &cell) {
        Some(place) => {
            grow_cell(search, draft, place, &cell);
            Ok(())
        }
        None => {
            put(&mut draft.growths, 0)?;
            put(&mut draft.cert.cells, cell)
        }
    }
}

/// Mends what a certificate lacks, where it can.
fn mend(search: &Search<'_>, draft: &mut Draft, lack: Lack) -> Result<(), Lack> {
    let cert = &mut draft.cert;
    match lack {
        Lack::Zero => {
            cert.zero = true;
            Ok(())
        }
        Lack::Overflow(datum) => {
            if datum as usize >= cert.over.len() {
                return Err(Lack::Unknown);
            }
            cert.over[datum as usize] = true;
            Ok(())
        }
        Lack::Beyond(datum, span) => {
            grow_span(&search.growth, &mut cert.always, datum as usize, span);
            Ok(())
        }
        Lack::Sent(cell) => put_cell(search, draft, Box::into_inner(cell)),
        Lack::Memory => Err(Lack::Memory),
        Lack::Unknown => Err(Lack::Unknown),
        Lack::GivenUp => Err(Lack::GivenUp),
    }
}

/// Does work, mends what the certificate lacks for it, and puts its ends to where the certificate
/// has them. Whether it has grown.
fn settle(search: &Search<'_>, draft: &mut Draft, root: Root) -> Result<bool, Lack> {
    let mut mended = false;
    for _ in 0..search.limits.mends {
        match ends_of(search, &draft.cert, root) {
            Ok(ys) => {
                let grew = put_ends(search, &mut draft.cert, root, ys)?;
                return Ok(grew || mended);
            }
            Err(lack) => {
                mend(search, draft, lack)?;
                mended = true;
            }
        }
    }
    Err(Lack::GivenUp)
}

/// Does the work of each event from a set between two events. Whether the certificate has grown.
fn settle_events(search: &Search<'_>, draft: &mut Draft, place: usize) -> Result<bool, Lack> {
    let mut grew = settle(search, draft, Root::Rest(place, Event::Tick))?;
    let events = search.growth.chart.names().events.items();
    for (number, event) in events.iter().enumerate() {
        if event.kind == EventKind::Input {
            let root = Root::Rest(place, Event::Named(number as u32));
            let more = settle(search, draft, root)?;
            grew = grew || more;
        }
    }
    Ok(grew)
}

/// Does all work once. Whether the certificate has grown.
fn round(search: &Search<'_>, draft: &mut Draft) -> Result<bool, Lack> {
    let mut grew = settle(search, draft, Root::Start)?;
    for place in 0..search.limits.sets {
        if place >= draft.cert.rest.len() {
            break;
        }
        let more = settle_events(search, draft, place)?;
        grew = grew || more;
    }
    for place in 0..search.limits.sets {
        if place >= draft.cert.cells.len() {
            break;
        }
        let more = settle(search, draft, Root::Cell(place))?;
        grew = grew || more;
    }
    Ok(grew)
}

/// The certificate from which a search begins: data have their first values alone, inputs any, and
/// there are no sets yet.
fn least(alloc: Global, chart: &Chart) -> Result<Certificate, Lack> {
    let mut always = Vec::new(alloc);
    let mut over = Vec::new(alloc);
    for var in chart.names().vars.items() {
        let span = match var.kind {
            VarKind::Input => all_of(var.sort),
            VarKind::Output | VarKind::Local => Span {
                low: var.init,
                high: var.init,
            },
        };
        put(&mut always, span)?;
        put(&mut over, false)?;
    }
    Ok(Certificate {
        always,
        zero: false,
        over,
        rest: Vec::new(alloc),
        cells: Vec::new(alloc),
    })
}

/// A certificate that was found, where it is closed. Else the answer is `Unknown`, or one of
/// `is_closed`.
fn checked(
    alloc: Global,
    chart: &Chart,
    cert: Certificate,
    method: Method,
) -> Result<Certificate, Lack>
    ensures closed { IfOk result (λ found. IsClosed (chart_of chart.now) found) }
    ensures runs { IfOk result (λ found. StaysInRanges (chart_of chart.now) found) }
{
    let closed = is_closed(alloc, chart, &cert, method)?;
    if closed { Ok(cert) } else { Err(Lack::Unknown) }
}

/// Does all work in rounds until the certificate doesn't grow. `GivenUp` where that takes more than
/// the limits say.
fn grow(search: &Search<'_>, draft: &mut Draft) -> Result<(), Lack> {
    for number in 0..search.limits.rounds {
        let growth = Growth {
            hasty: number >= search.limits.patience,
            ..search.growth
        };
        let grew = round(&Search { growth, ..*search }, draft)?;
        if !grew {
            return Ok(());
        }
    }
    Err(Lack::GivenUp)
}

/// A certificate that doesn't grow. All work is done in rounds until it doesn't; and then once more
/// from what is at each moment at least, so that nothing is said of faults and spans that only sets
/// had which have grown since.
fn grown(alloc: Global, chart: &Chart, limits: Limits) -> Result<Certificate, Lack> {
    let stops = all_stops(alloc, chart)?;
    let steps = Counter::new(limits.method.steps);
    let growth = Growth {
        chart,
        stops: &stops,
        apart: limits.method.apart,
        hasty: false,
    };
    let search = Search {
        alloc,
        growth,
        limits,
        steps: &steps,
    };
    let mut draft = Draft {
        cert: least(alloc, chart)?,
        growths: Vec::new(alloc),
    };
    grow(&search, &mut draft)?;
    let Draft { cert, growths } = draft;
    let Certificate { rest, cells, .. } = cert;
    let Certificate {
        always,
        zero,
        over,
        ..
    } = least(alloc, chart)?;
    let cert = Certificate {
        always,
        zero,
        over,
        rest,
        cells,
    };
    let mut draft = Draft { cert, growths };
    grow(&search, &mut draft)?;
    let Draft { cert, .. } = draft;
    Ok(cert)
}

/// Searches for a closed certificate of a chart: all work is done in rounds until the certificate
/// doesn't grow, and then it is checked. Answers: `GivenUp` where that takes more than the limits
/// say, and those of `is_closed` that can't be mended, `Unknown` and `Memory`.
pub fn find(alloc: Global, chart: &Chart, limits: Limits) -> Result<Certificate, Lack>
    ensures closed { IfOk result (λ cert. IsClosed (chart_of chart.now) cert) }
    ensures runs { IfOk result (λ cert. StaysInRanges (chart_of chart.now) cert) }
{
    let cert = grown(alloc, chart, limits)?;
    let found = checked(alloc, chart, cert, limits.method)?;
    Ok(found)
}
