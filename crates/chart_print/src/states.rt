//! Junctions and states.
ghost use Rattle.std.specs.Prelude.{◌≡◌, map, OnOk};
ghost use Rattle.std.specs.List.{flat_map};
ghost use Rattle.flow_base.specs.Lists.{items_of};
ghost use Rattle.chart_tree.specs.Views as views;
ghost use Rattle.chart_print.specs.Pieces.{written};
ghost use Rattle.chart_print.specs.Canonical as spec;

use crate::printer::{Printer, deeper};
use chart_tree::{CompText, JunctionText, NameText, StateText, StmtText, TransText};
use std::alloc::AllocError;
use token_grammar::{Kind, Span};

impl Printer {
    /// Appends the line of an action, unless its block is empty.
    #[tactic(auto, using(crate::proofs::Written::printed), unfolding(crate::specs::Canonical::action_line, crate::specs::Pieces::line))]
    fn action_line(
        &mut self,
        level: usize,
        keyword: Kind,
        stmts: &[StmtText],
    ) -> Result<(), AllocError>
        ensures { OnOk result (self.new
            ≡ written self.old (spec.action_line level keyword (views.block_of stmts.now))) }
    {
        if stmts.is_empty() {
            return Ok(());
        }
        self.indent(level)?;
        self.key(keyword)?;
        self.space()?;
        self.block(stmts)?;
        self.newline()
    }

    /// Appends the line of the word `history`, where that stands.
    #[tactic(auto, using(crate::proofs::Written::printed), unfolding(crate::specs::Canonical::history_line, crate::specs::Pieces::line))]
    fn history_line(&mut self, level: usize, history: Option<Span>) -> Result<(), AllocError>
        ensures { OnOk result (self.new ≡ written self.old (spec.history_line level history)) }
    {
        match history {
            None => Ok(()),
            Some(_) => {
                self.indent(level)?;
                self.key(Kind::History)?;
                self.key(Kind::Semicolon)?;
                self.newline()
            }
        }
    }

    /// Appends a line for each transition.
    #[tactic(auto, using(crate::proofs::Written::printed), unfolding(crate::specs::Canonical::trans_line, crate::specs::Pieces::line))]
    fn trans_lines(
        &mut self,
        level: usize,
        keyword: Kind,
        list: &[TransText],
    ) -> Result<(), AllocError>
        ensures { OnOk result (self.new ≡ written self.old
            (flat_map (spec.trans_line level keyword) (map views.trans_of list.now))) }
    {
        for trans in list {
            self.indent(level)?;
            self.key(keyword)?;
            self.space()?;
            self.trans(trans)?;
            self.newline()?;
        }
        Ok(())
    }

    /// Appends a line for each transition of a junction.
    #[tactic(auto, using(crate::proofs::Written::printed), unfolding(crate::specs::Canonical::junction_trans_line, crate::specs::Pieces::line))]
    fn junction_trans_lines(&mut self, level: usize, list: &[TransText]) -> Result<(), AllocError>
        ensures { OnOk result (self.new ≡ written self.old
            (flat_map (spec.junction_trans_line level) (map views.trans_of list.now))) }
    {
        for trans in list {
            self.indent(level)?;
            self.trans(trans)?;
            self.newline()?;
        }
        Ok(())
    }

    /// Appends the line of the brace that ends a state, a junction or the chart.
    #[tactic(auto, using(crate::proofs::Written::printed), unfolding(crate::specs::Canonical::end_line, crate::specs::Pieces::line))]
    pub(crate) fn end_line(&mut self, level: usize) -> Result<(), AllocError>
        ensures { OnOk result (self.new ≡ written self.old (spec.end_line level)) }
    {
        self.indent(level)?;
        self.key(Kind::CloseBrace)?;
        self.newline()
    }

    /// Appends the word of a composition after a space, where there is one.
    #[tactic(auto, using(crate::proofs::Written::printed), unfolding(crate::specs::Canonical::comp_pieces))]
    fn comp(&mut self, comp: CompText) -> Result<(), AllocError>
        ensures { OnOk result (self.new ≡ written self.old (spec.comp_pieces comp)) }
    {
        match comp {
            CompText::None => Ok(()),
            CompText::Or => {
                self.space()?;
                self.key(Kind::Or)
            }
            CompText::And => {
                self.space()?;
                self.key(Kind::And)
            }
        }
    }

    /// Appends a keyword and a name, the word of a composition and a brace.
    #[tactic(auto, using(crate::proofs::Written::printed), unfolding(crate::specs::Canonical::head_pieces))]
    fn head(&mut self, keyword: Kind, name: &NameText, comp: CompText) -> Result<(), AllocError>
        ensures { OnOk result
            (self.new ≡ written self.old (spec.head_pieces keyword name.now comp)) }
    {
        self.key(keyword)?;
        self.space()?;
        self.name(name)?;
        self.comp(comp)?;
        self.space()?;
        self.key(Kind::OpenBrace)
    }

    /// Appends the line that begins a state, a junction or the chart.
    #[tactic(auto, using(crate::proofs::Written::printed), unfolding(crate::specs::Canonical::head_line, crate::specs::Pieces::line))]
    pub(crate) fn head_line(
        &mut self,
        level: usize,
        keyword: Kind,
        name: &NameText,
        comp: CompText,
    ) -> Result<(), AllocError>
        ensures { OnOk result
            (self.new ≡ written self.old (spec.head_line level keyword name.now comp)) }
    {
        self.indent(level)?;
        self.head(keyword, name, comp)?;
        self.newline()
    }

    /// Appends a junction.
    #[tactic(auto, using(crate::proofs::Written::printed), unfolding(crate::specs::Canonical::junction_pieces))]
    fn junction(&mut self, level: usize, junction: &JunctionText) -> Result<(), AllocError>
        ensures { OnOk result (self.new ≡ written self.old
            (spec.junction_pieces level (views.junction_of junction.now))) }
    {
        self.head_line(level, Kind::Junction, &junction.name, CompText::None)?;
        self.junction_trans_lines(deeper(level)?, junction.list.items())?;
        self.end_line(level)
    }

    /// Appends junctions.
    #[tactic(auto, using(crate::proofs::Written::printed))]
    fn junctions(&mut self, level: usize, junctions: &[JunctionText]) -> Result<(), AllocError>
        ensures { OnOk result (self.new ≡ written self.old
            (flat_map (spec.junction_pieces level) (map views.junction_of junctions.now))) }
    {
        for junction in junctions {
            self.junction(level, junction)?;
        }
        Ok(())
    }

    /// Appends the actions of a state.
    #[tactic(auto, using(crate::proofs::StateViews::seen), unfolding(crate::specs::Canonical::actions_pieces))]
    fn actions(&mut self, level: usize, state: &StateText) -> Result<(), AllocError>
        ensures { OnOk result (self.new ≡ written self.old
            (spec.actions_pieces level (spec.parts_in (views.state_of state.now)))) }
    {
        self.action_line(level, Kind::Entry, state.entry.items())?;
        self.action_line(level, Kind::During, state.during.items())?;
        self.action_line(level, Kind::Exit, state.exit.items())
    }

    /// Appends the transitions of a state.
    #[tactic(auto, using(crate::proofs::StateViews::seen), unfolding(crate::specs::Canonical::transitions_pieces))]
    fn transitions(&mut self, level: usize, state: &StateText) -> Result<(), AllocError>
        ensures { OnOk result (self.new ≡ written self.old
            (spec.transitions_pieces level (spec.parts_in (views.state_of state.now)))) }
    {
        self.trans_lines(level, Kind::Default, state.default.items())?;
        self.trans_lines(level, Kind::Inner, state.inner.items())?;
        self.trans_lines(level, Kind::Outer, state.outer.items())
    }

    /// Appends the items of a state but for its child states.
    #[tactic(auto, using(crate::proofs::StateViews::seen), unfolding(crate::specs::Canonical::parts_pieces))]
    pub(crate) fn parts(&mut self, level: usize, state: &StateText) -> Result<(), AllocError>
        ensures { OnOk result (self.new ≡ written self.old
            (spec.parts_pieces level (spec.parts_in (views.state_of state.now)))) }
    {
        self.actions(level, state)?;
        self.history_line(level, state.history)?;
        self.transitions(level, state)?;
        self.junctions(level, state.junctions.items())
    }

    /// Appends a state with its child states.
    #[tactic(auto, using(crate::proofs::StateViews::seen))]
    #[cycle(state)]
    fn state(&mut self, level: usize, state: &StateText) -> Result<(), AllocError>
        ensures { OnOk result (self.new
            ≡ written self.old (spec.state_pieces level (views.state_of state.now))) }
    {
        let inside = deeper(level)?;
        self.head_line(level, Kind::State, &state.name, state.comp)?;
        self.parts(inside, state)?;
        self.states(inside, state.states.items())?;
        self.end_line(level)
    }

    /// Appends states.
    #[tactic(auto, using(crate::proofs::Written::printed))]
    #[cycle(state)]
    pub(crate) fn states(&mut self, level: usize, states: &[StateText]) -> Result<(), AllocError>
        ensures { OnOk result (self.new ≡ written self.old
            (flat_map (spec.state_pieces level) (map views.state_of states.now))) }
    {
        for state in states {
            self.state(level, state)?;
        }
        Ok(())
    }
}
