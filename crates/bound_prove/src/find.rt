//! The finder of a certificate: it looks at the cells below the roots, depth first.
ghost use Rattle.std.specs.Prelude.{◌≡◌, ◌≢◌, ◌<◌, ◌++◌, ◌∷◌, [], ℕ, Option, None, true, false};
ghost use Rattle.std.specs.Prelude.{All, IfOk, IfNone, IfSome, OnOk};
ghost use Rattle.std.specs.List.{list_any};
ghost use Rattle.std.specs.Option.{option_to_list};
ghost use Rattle.checked_chart.specs.Kept.{chart_of};
ghost use Rattle.actions.specs.declared.event.Event.{Event as EventSpec};
ghost use Rattle.bound_prove.specs.declared.need.Need.{Need as NeedSpec};
ghost use Rattle.bound_prove.specs.declared.need.Part.{Part as PartSpec};
ghost use Rattle.bound_prove.specs.declared.cell.Cell.{Cell as CellSpec};
ghost use Rattle.bound_prove.specs.declared.cell.Colour.TheVariants.{White, Grey, Black};
ghost use Rattle.bound_prove.specs.Cells.{Demands, IsGood};
ghost use Rattle.bound_prove.specs.Certs.{cells_of, IsMadeFor};
ghost use Rattle.bound_prove.specs.Colourings.{colours_of, IsBlack};
ghost use Rattle.bound_prove.specs.Finding.{AreRoots, LeavesOutDone, IsFinding, IsFound};
ghost use Rattle.bound_prove.specs.Lookups.{cell_at, IsBlackOrIn, IsLedTo};
ghost use Rattle.bound_prove.specs.Needs.{Covers};
ghost use Rattle.bound_prove.specs.Roots.{root_need};
ghost use Rattle.bound_prove.specs.Searches.{Answers, IsNeedOf, the_ends as at_ends};
ghost use Rattle.bound_prove.specs.Tables.{IsInTable};
ghost use Rattle.bound_prove.specs.Uses.{Uses};
ghost use Rattle.bound_prove.specs.Waiting as spec;
ghost use Rattle.bound_prove.specs.WorkLeft.{work_left};

use crate::cell::{Cell, Colour};
use crate::cert::{Cert, the_ends};
use crate::colours::Colours;
use crate::evaluate::look_at;
use crate::firings::Firings;
use crate::homes::Marks;
use crate::need::{Need, Part};
use actions::{Event, EventKind};
use checked_chart::Chart;
use flow_base::Memory;
use std::alloc::Global;

/// What is found so far. A black cell has its final need, and every other one is at the ends.
#[derive(Drop)]
pub(crate) struct Finder {
    pub(crate) cert: Cert,
    pub(crate) colours: Colours,
    pub(crate) firings: Firings,
    pub(crate) marks: Marks,
    /// The cells that are still to be looked at, the next one last. A grey cell stands below those
    /// that it looks up.
    pub(crate) stack: Vec<Cell>,
}

/// A certificate whose roots give the need of the chart. Where the chart has none, they stay at the
/// ends.
///
/// Each cell below the roots is looked at at most twice. The cells that wait for others stand on a
/// stack, so no recursion grows with the chart. Fails only where memory does.
///
/// This project's choice.
pub fn find_cert(alloc: Global, chart: &Chart) -> Result<Cert, Memory>
    ensures made { IfOk result (λ cert. IsMadeFor (chart_of chart.now) cert) }
    ensures good { IfOk result (λ cert. IsGood (chart_of chart.now) (cells_of cert)) }
    ensures need { IfOk result (λ cert. (n : Option NeedSpec)
        → Answers (root_need (chart_of chart.now) (cells_of cert)) n
        → IsNeedOf (chart_of chart.now) n) }
{
    match cert_without_cycle(alloc, chart)? {
        Some(cert) => Ok(cert),
        None => cert_at_ends(alloc, chart),
    }
}

/// The certificate that the finder makes, or none where a cell below a root leads to itself.
fn cert_without_cycle(alloc: Global, chart: &Chart) -> Result<Option<Cert>, Memory>
    ensures found { IfOk result (λ o. IfSome o (IsFound (chart_of chart.now))) }
    ensures cycle { IfOk result (λ o. o ≡ None → IsNeedOf (chart_of chart.now) None) }
{
    let mut finder = Finder::make(alloc, chart)?;
    if finder.meets_cycle(alloc, chart)? {
        return Ok(None);
    }
    Ok(Some(finder.cert))
}

/// A certificate with all cells at the ends, which is good and gives no bounds.
fn cert_at_ends(alloc: Global, chart: &Chart) -> Result<Cert, Memory>
    ensures made { IfOk result (λ cert. IsMadeFor (chart_of chart.now) cert) }
    ensures ends { IfOk result (λ cert. (e : EventSpec) (part : PartSpec) (i : ℕ)
        → cells_of cert e part i ≡ at_ends) }
{
    Cert::make(alloc, chart, the_ends())
}

impl Finder {
    /// Nothing is found yet, and the roots are to be looked at.
    fn make(alloc: Global, chart: &Chart) -> Result<Finder, Memory>
        ensures { IfOk result (λ f. IsFinding (chart_of chart.now) f f.stack.items) }
    {
        let cert = cert_at_ends(alloc, chart)?;
        let colours = Colours::make(alloc, chart)?;
        let firings = Firings::make(alloc, chart)?;
        let marks = Marks::make(alloc, chart)?;
        let stack = root_cells(alloc, chart)?;
        Ok(Finder {
            cert,
            colours,
            firings,
            marks,
            stack,
        })
    }

    /// Looks at all cells below the roots, or meets one that leads to itself.
    fn meets_cycle(&mut self, alloc: Global, chart: &Chart) -> Result<bool, Memory>
        requires { IsFinding (chart_of chart.now) self.old self.old.stack.items }
        ensures done { IfOk result (λ cycle. cycle ≡ false
            → IsFinding (chart_of chart.now) self.new []) }
        ensures cycle { IfOk result (λ cycle. cycle ≡ true → IsNeedOf (chart_of chart.now) None) }
    {
        while let Some(cell) = next_open(&mut self.stack, &self.colours) {
            if self.visit(alloc, chart, cell)? {
                return Ok(true);
            }
        }
        Ok(false)
    }

    /// Looks at a cell that was taken off the stack. Where all that it looks up is done, the cell
    /// is done too; else it waits for that. Answers whether the cell leads to itself.
    fn visit(&mut self, alloc: Global, chart: &Chart, cell: Cell) -> Result<bool, Memory>
        requires finding { IsFinding (chart_of chart.now) self.old
            (self.old.stack.items ++ cell ∷ []) }
        requires not_done { colours_of self.old.colours cell.event cell.part cell.index ≢ Black }
        ensures finding { IfOk result (λ cycle. cycle ≡ false
            → IsFinding (chart_of chart.now) self.new self.new.stack.items) }
        ensures fewer { IfOk result (λ cycle. cycle ≡ false
            → work_left (chart_of chart.now) (colours_of self.new.colours)
            < work_left (chart_of chart.now) (colours_of self.old.colours)) }
        ensures cycle { IfOk result (λ cycle. cycle ≡ true → IsNeedOf (chart_of chart.now) None) }
    {
        let looked = look_at(
            alloc,
            chart,
            cell,
            &self.cert,
            &self.colours,
            &mut self.marks,
            &mut self.firings,
        )?;
        // All that a grey cell looks up is done when it is on top again.
        if looked.met.is_empty() || is_grey(&self.colours, cell) {
            self.settle(chart, cell, looked.need);
            return Ok(false);
        }
        self.wait(chart, cell, &looked.met)
    }

    /// The need of a cell that was taken off the stack is final.
    fn settle(&mut self, chart: &Chart, cell: Cell, need: Need)
        requires finding { IsFinding (chart_of chart.now) self.old
            (self.old.stack.items ++ cell ∷ []) }
        requires not_done { colours_of self.old.colours cell.event cell.part cell.index ≢ Black }
        requires uses { Uses (chart_of chart.now) (IsBlack (colours_of self.old.colours))
            cell.event cell.part cell.index }
        requires covers { (n : NeedSpec) → Demands (chart_of chart.now) (cells_of self.old.cert)
            cell.event cell.part cell.index n → Covers need n }
        requires least { (v : NeedSpec)
            → ((n : NeedSpec) → Demands (chart_of chart.now) (cells_of self.old.cert)
            cell.event cell.part cell.index n → Covers v n) → Covers v need }
        ensures finding { IsFinding (chart_of chart.now) self.new self.new.stack.items }
        ensures fewer { work_left (chart_of chart.now) (colours_of self.new.colours)
            < work_left (chart_of chart.now) (colours_of self.old.colours) }
    {
        self.cert.put(chart, cell, need);
        self.colours.set(chart, cell, Colour::Black);
    }

    /// A white cell that was taken off the stack waits for the cells that it looked up, or leads to
    /// itself.
    fn wait(&mut self, chart: &Chart, cell: Cell, met: &[Cell]) -> Result<bool, Memory>
        requires finding { IsFinding (chart_of chart.now) self.old
            (self.old.stack.items ++ cell ∷ []) }
        requires white { colours_of self.old.colours cell.event cell.part cell.index ≡ White }
        requires led { All (IsLedTo (chart_of chart.now) cell) met.now }
        requires uses { Uses (chart_of chart.now)
            (IsBlackOrIn (colours_of self.old.colours) met.now) cell.event cell.part cell.index }
        ensures finding { IfOk result (λ cycle. cycle ≡ false
            → IsFinding (chart_of chart.now) self.new self.new.stack.items) }
        ensures fewer { IfOk result (λ cycle. cycle ≡ false
            → work_left (chart_of chart.now) (colours_of self.new.colours)
            < work_left (chart_of chart.now) (colours_of self.old.colours)) }
        ensures cycle { IfOk result (λ cycle. cycle ≡ true → IsNeedOf (chart_of chart.now) None) }
    {
        self.colours.set(chart, cell, Colour::Grey);
        if any_grey(&self.colours, met) {
            return Ok(true);
        }
        push_all(&mut self.stack, cell, met)?;
        Ok(false)
    }
}

/// Whether a cell is grey.
fn is_grey(colours: &Colours, cell: Cell) -> bool
    ensures { result ≡ spec.is_grey (colours_of colours.now cell.event cell.part cell.index) }
{
    matches!(colours.get(cell), Colour::Grey)
}

/// Whether one of the cells is grey.
fn any_grey(colours: &Colours, cells: &[Cell]) -> bool
    ensures { result ≡ list_any (λ (x : CellSpec).
        spec.is_grey (colours_of colours.now x.event x.part x.index)) cells.now }
{
    cells.iter().any(|cell| is_grey(colours, *cell))
}

/// Puts a cell on a stack, and others above it.
fn push_all(stack: &mut Vec<Cell>, cell: Cell, above: &[Cell]) -> Result<(), Memory>
    ensures { OnOk result (stack.new.items ≡ (stack.old.items ++ cell ∷ []) ++ above.now) }
{
    if stack.push(cell).is_err() || stack.extend_from_slice(above).is_err() {
        return Err(Memory);
    }
    Ok(())
}

/// Takes the next cell that isn't done off a stack, and the done ones above it.
fn next_open(stack: &mut Vec<Cell>, colours: &Colours) -> Option<Cell>
    ensures rest { LeavesOutDone (colours_of colours.now) stack.old.items
        (stack.new.items ++ option_to_list result) }
    ensures none { IfNone result (stack.new.items ≡ []) }
    ensures not_done { IfSome result (λ x. colours_of colours.now x.event x.part x.index ≢ Black) }
{
    while let Some(cell) = stack.pop() {
        match colours.get(cell) {
            Colour::White | Colour::Grey => return Some(cell),
            Colour::Black => {}
        }
    }
    None
}

/// The cells of the start, of a tick, and of each input event.
fn root_cells(alloc: Global, chart: &Chart) -> Result<Vec<Cell>, Memory>
    ensures { IfOk result (λ cells. AreRoots (chart_of chart.now) cells.items) }
{
    let mut cells = Vec::new(alloc);
    push_cell(&mut cells, Event::Start, Part::Enter)?;
    push_cell(&mut cells, Event::Tick, Part::Process)?;
    for (number, event) in chart.names().events.items().iter().enumerate() {
        match event.kind {
            EventKind::Input => push_cell(&mut cells, Event::Named(number as u32), Part::Process)?,
            EventKind::Local | EventKind::Output => {}
        }
    }
    Ok(cells)
}

/// One cell of the root more.
fn push_cell(cells: &mut Vec<Cell>, event: Event, part: Part) -> Result<(), Memory>
    ensures { OnOk result (cells.new.items ≡ cells.old.items ++ cell_at event part 0 ∷ []) }
{
    let cell = Cell {
        event,
        part,
        index: 0,
    };
    cells.push(cell)?;
    Ok(())
}
