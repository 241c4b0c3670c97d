//! Charts.
ghost use Rattle.std.specs.Prelude.{◌≡◌, map, OnOk, IfOk, string_bytes};
ghost use Rattle.std.specs.List.{flat_map};
ghost use Rattle.chart_tree.specs.Views.{chart_of, var_of};
ghost use Rattle.chart_print.specs.Pieces.{written};
ghost use Rattle.chart_print.specs.Canonical as spec;

use crate::printer::Printer;
use chart_tree::{ChartText, EventText, VarText};
use flow_base::Memory;
use std::alloc::{AllocError, Global};
use token_grammar::Kind;

/// The canonical text of a chart. It doesn't depend on the places of the chart's parts. `Memory`
/// where memory runs out; then no text is returned.
#[tactic(auto, using(crate::proofs::Written::printed), unfolding(crate::specs::Canonical::canonical))]
pub fn print_chart(alloc: Global, chart: &ChartText) -> Result<String, Memory>
    ensures { IfOk result (λ text. string_bytes text ≡ spec.canonical (chart_of chart.now)) }
{
    let mut printer = Printer::new(alloc);
    printer.chart(chart)?;
    Ok(printer.into_text())
}

impl Printer {
    /// Appends a chart.
    #[tactic(auto, using(crate::proofs::StateViews::seen), unfolding(crate::specs::Canonical::chart_pieces))]
    fn chart(&mut self, chart: &ChartText) -> Result<(), AllocError>
        ensures { OnOk result
            (self.new ≡ written self.old (spec.chart_pieces (chart_of chart.now))) }
    {
        self.head_line(0, Kind::Chart, &chart.root.name, chart.root.comp)?;
        self.event_lines(chart.events.items())?;
        self.var_lines(chart.vars.items())?;
        self.parts(1, &chart.root)?;
        self.states(1, chart.root.states.items())?;
        self.end_line(0)
    }

    /// Appends a line for each event.
    #[tactic(auto, using(crate::proofs::Written::printed), unfolding(crate::specs::Canonical::event_line, crate::specs::Pieces::line))]
    fn event_lines(&mut self, events: &[EventText]) -> Result<(), AllocError>
        ensures { OnOk result (self.new ≡ written self.old (flat_map spec.event_line events.now)) }
    {
        for event in events {
            self.indent(1)?;
            self.event(event)?;
            self.newline()?;
        }
        Ok(())
    }

    /// Appends a line for each datum.
    #[tactic(auto, using(crate::proofs::Written::printed), unfolding(crate::specs::Canonical::var_line, crate::specs::Pieces::line))]
    fn var_lines(&mut self, vars: &[VarText]) -> Result<(), AllocError>
        ensures { OnOk result
            (self.new ≡ written self.old (flat_map spec.var_line (map var_of vars.now))) }
    {
        for var in vars {
            self.indent(1)?;
            self.var(var)?;
            self.newline()?;
        }
        Ok(())
    }
}
