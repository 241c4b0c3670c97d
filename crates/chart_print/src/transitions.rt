//! Statements, blocks and transitions.
ghost use Rattle.std.specs.Prelude.{◌≡◌, map, OnOk};
ghost use Rattle.std.specs.Option.{option_map};
ghost use Rattle.std.specs.List.{flat_map};
ghost use Rattle.flow_base.specs.Lists.{items_of};
ghost use Rattle.chart_tree.specs.Views as views;
ghost use Rattle.chart_print.specs.Pieces.{written};
ghost use Rattle.chart_print.specs.Transitions as spec;

use crate::printer::Printer;
use chart_tree::{DestText, GuardText, NameText, PathText, StmtText, TransText};
use flow_base::List;
use std::alloc::AllocError;
use token_grammar::Kind;

impl Printer {
    /// Appends the destination of a sent event after a space, where it has one.
    #[tactic(auto, using(crate::proofs::Written::printed), unfolding(crate::specs::Transitions::target_pieces))]
    fn target(&mut self, to: &Option<PathText>) -> Result<(), AllocError>
        ensures { OnOk result
            (self.new ≡ written self.old (spec.target_pieces (option_map views.path_of to.now))) }
    {
        match to {
            None => Ok(()),
            Some(path) => {
                self.space()?;
                self.key(Kind::To)?;
                self.space()?;
                self.path(path)
            }
        }
    }

    /// Appends a statement.
    #[tactic(auto, using(crate::proofs::Written::printed), unfolding(crate::specs::Transitions::stmt_pieces))]
    fn stmt(&mut self, stmt: &StmtText) -> Result<(), AllocError>
        ensures { OnOk result
            (self.new ≡ written self.old (spec.stmt_pieces (views.stmt_of stmt.now))) }
    {
        match stmt {
            StmtText::Assign(name, value) => {
                self.name(name)?;
                self.space()?;
                self.key(Kind::Assign)?;
                self.space()?;
                self.expr(value)?;
            }
            StmtText::Send(name, to) => {
                self.key(Kind::Send)?;
                self.space()?;
                self.name(name)?;
                self.target(to)?;
            }
            StmtText::Emit(name) => {
                self.key(Kind::Emit)?;
                self.space()?;
                self.name(name)?;
            }
        }
        self.key(Kind::Semicolon)
    }

    /// Appends statements, each after a space.
    #[tactic(auto, using(crate::proofs::Written::printed), unfolding(crate::specs::Transitions::block_stmt_pieces))]
    fn stmts(&mut self, stmts: &[StmtText]) -> Result<(), AllocError>
        ensures { OnOk result (self.new
            ≡ written self.old (flat_map spec.block_stmt_pieces (map views.stmt_of stmts.now))) }
    {
        for stmt in stmts {
            self.space()?;
            self.stmt(stmt)?;
        }
        Ok(())
    }

    /// Appends a block.
    #[tactic(auto, using(crate::proofs::Written::printed), unfolding(crate::specs::Transitions::block_pieces))]
    pub(crate) fn block(&mut self, stmts: &[StmtText]) -> Result<(), AllocError>
        ensures { OnOk result (self.new
            ≡ written self.old (spec.block_pieces (views.block_of stmts.now))) }
    {
        self.key(Kind::OpenBrace)?;
        self.stmts(stmts)?;
        self.space()?;
        self.key(Kind::CloseBrace)
    }

    /// Appends the event of a transition, where it has one.
    #[tactic(auto, using(crate::proofs::Written::printed), unfolding(crate::specs::Transitions::trigger_pieces))]
    fn trigger(&mut self, event: &Option<NameText>) -> Result<(), AllocError>
        ensures { OnOk result (self.new ≡ written self.old (spec.trigger_pieces event.now)) }
    {
        match event {
            None => Ok(()),
            Some(name) => {
                self.name(name)?;
                self.space()
            }
        }
    }

    /// Appends the guard of a transition, where it has one.
    #[tactic(auto, using(crate::proofs::Written::printed), unfolding(crate::specs::Transitions::guard_pieces))]
    fn guard(&mut self, guard: &Option<GuardText>) -> Result<(), AllocError>
        ensures { OnOk result (self.new
            ≡ written self.old (spec.guard_pieces (option_map views.guard_of guard.now))) }
    {
        match guard {
            None => Ok(()),
            Some(guard) => {
                self.key(Kind::OpenBracket)?;
                self.expr(&guard.expr)?;
                self.key(Kind::CloseBracket)?;
                self.space()
            }
        }
    }

    /// Appends the condition action of a transition, where it has one.
    #[tactic(auto, using(crate::proofs::Written::printed), unfolding(crate::specs::Transitions::condition_pieces))]
    fn condition(&mut self, stmts: &[StmtText]) -> Result<(), AllocError>
        ensures { OnOk result (self.new
            ≡ written self.old (spec.condition_pieces (views.block_of stmts.now))) }
    {
        if stmts.is_empty() {
            return Ok(());
        }
        self.block(stmts)?;
        self.space()
    }

    /// Appends the transition action of a transition, where it has one.
    #[tactic(auto, using(crate::proofs::Written::printed), unfolding(crate::specs::Transitions::action_pieces))]
    fn action(&mut self, stmts: &[StmtText]) -> Result<(), AllocError>
        ensures { OnOk result (self.new
            ≡ written self.old (spec.action_pieces (views.block_of stmts.now))) }
    {
        if stmts.is_empty() {
            return Ok(());
        }
        self.key(Kind::Slash)?;
        self.space()?;
        self.block(stmts)?;
        self.space()
    }

    /// Appends where a transition leads.
    #[tactic(auto, using(crate::proofs::Written::printed), unfolding(crate::specs::Transitions::dest_pieces))]
    fn dest(&mut self, dest: &DestText) -> Result<(), AllocError>
        ensures { OnOk result
            (self.new ≡ written self.old (spec.dest_pieces (views.dest_of dest.now))) }
    {
        match dest {
            DestText::State(path) => self.path(path),
            DestText::Junction(name) => {
                self.key(Kind::At)?;
                self.name(name)
            }
        }
    }

    /// Appends the arrow of a transition, and where it leads.
    #[tactic(auto, using(crate::proofs::Written::printed), unfolding(crate::specs::Transitions::arrow_pieces))]
    fn arrow(&mut self, dest: &DestText) -> Result<(), AllocError>
        ensures { OnOk result
            (self.new ≡ written self.old (spec.arrow_pieces (views.dest_of dest.now))) }
    {
        self.key(Kind::Arrow)?;
        self.space()?;
        self.dest(dest)?;
        self.key(Kind::Semicolon)
    }

    /// Appends a transition, without the keyword of its list.
    #[tactic(auto, using(crate::proofs::Written::printed), unfolding(crate::specs::Transitions::trans_pieces))]
    pub(crate) fn trans(&mut self, trans: &TransText) -> Result<(), AllocError>
        ensures { OnOk result
            (self.new ≡ written self.old (spec.trans_pieces (views.trans_of trans.now))) }
    {
        self.trigger(&trans.event)?;
        self.guard(&trans.guard)?;
        self.condition(trans.cond.items())?;
        self.action(trans.act.items())?;
        self.arrow(&trans.dest)
    }
}
