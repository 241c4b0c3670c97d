//! Statements and blocks, a method for each production of the grammar.
ghost use Rattle.std.specs.Prelude.{◌≡◌, true, IfOk, OnOk};
ghost use Rattle.std.specs.Option.{option_map};
ghost use Rattle.token_grammar.specs.Token.{lexemes, Gives};
ghost use Rattle.token_grammar.specs.Grammar.{heads};
ghost use Rattle.flow_base.specs.Lists.{items_of};
ghost use Rattle.chart_tree.specs.Views.{path_of, stmt_of, block_of};
ghost use Rattle.chart_grammar.specs.Limits.{usual};
ghost use Rattle.chart_grammar.specs.Transitions as grammar;
ghost use Rattle.chart_reader.specs.Counts.{counts_of};

use crate::group::Group;
use crate::reader::Reader;
use chart_tree::{PathText, StmtText};
use flow_base::List;
use token_grammar::{Kind, ReadError};

impl<'t, 'a> Reader<'t, 'a> {
    #[tactic(auto, unfolding(chart_grammar::specs::Transitions::assign))]
    fn assign(&mut self) -> Result<StmtText, ReadError>
        ensures read { Gives stmt_of result (lexemes self.new.rest.now)
            ((grammar.assign usual).reads (lexemes self.old.rest.now)) }
        ensures counts { self.new.counts ≡ self.old.counts }
    {
        let name = self.name()?;
        self.token(Kind::Assign)?;
        let value = self.expr()?;
        self.closed_by(Kind::Semicolon, StmtText::Assign(name, value))
    }

    #[tactic(auto, unfolding(chart_grammar::specs::Transitions::target))]
    fn target(&mut self) -> Result<PathText, ReadError>
        ensures read { Gives path_of result (lexemes self.new.rest.now)
            (grammar.target.reads (lexemes self.old.rest.now)) }
        ensures counts { self.new.counts ≡ self.old.counts }
    {
        self.token(Kind::To)?;
        self.path()
    }

    #[tactic(auto, unfolding(chart_grammar::specs::Transitions::maybe_target))]
    fn maybe_target(&mut self) -> Result<Option<PathText>, ReadError>
        ensures read { Gives (option_map path_of) result (lexemes self.new.rest.now)
            (grammar.maybe_target.reads (lexemes self.old.rest.now)) }
        ensures counts { self.new.counts ≡ self.old.counts }
    {
        if self.is_at(Kind::To) {
            Ok(Some(self.target()?))
        } else {
            Ok(None)
        }
    }

    #[tactic(auto, unfolding(chart_grammar::specs::Transitions::send))]
    fn send(&mut self) -> Result<StmtText, ReadError>
        ensures read { Gives stmt_of result (lexemes self.new.rest.now)
            (grammar.send.reads (lexemes self.old.rest.now)) }
        ensures counts { self.new.counts ≡ self.old.counts }
    {
        self.token(Kind::Send)?;
        let name = self.name()?;
        let to = self.maybe_target()?;
        self.closed_by(Kind::Semicolon, StmtText::Send(name, to))
    }

    #[tactic(auto, unfolding(chart_grammar::specs::Transitions::emit))]
    fn emit(&mut self) -> Result<StmtText, ReadError>
        ensures read { Gives stmt_of result (lexemes self.new.rest.now)
            (grammar.emit.reads (lexemes self.old.rest.now)) }
        ensures counts { self.new.counts ≡ self.old.counts }
    {
        self.token(Kind::Emit)?;
        let name = self.name()?;
        self.closed_by(Kind::Semicolon, StmtText::Emit(name))
    }

    #[tactic(auto, unfolding(chart_grammar::specs::Transitions::stmt))]
    fn stmt(&mut self) -> Result<StmtText, ReadError>
        ensures read { Gives stmt_of result (lexemes self.new.rest.now)
            ((grammar.stmt usual).reads (lexemes self.old.rest.now)) }
        ensures counts { self.new.counts ≡ self.old.counts }
    {
        if self.is_at(Kind::Send) {
            self.send()
        } else if self.is_at(Kind::Emit) {
            self.emit()
        } else {
            self.assign()
        }
    }

    /// A statement of a block that has `before` of them before it.
    #[tactic(auto, unfolding(chart_grammar::specs::Transitions::next_stmt))]
    fn next_stmt(&mut self, before: u32) -> Result<StmtText, ReadError>
        ensures read { Gives stmt_of result (lexemes self.new.rest.now)
            ((grammar.next_stmt usual
            (record { statements = before; counts = counts_of self.old.counts })).reads
            (lexemes self.old.rest.now)) }
        ensures counts { self.new.counts ≡ self.old.counts }
    {
        match self.counts.statement_refused(before) {
            Some(fault) if self.is_at_one_of(Group::Statements) => Err(ReadError::Fault(fault)),
            _ => self.stmt(),
        }
    }

    fn stmts(&mut self) -> Result<Vec<StmtText>, ReadError>
        ensures read { Gives (λ v. block_of v.items) result (lexemes self.new.rest.now)
            ((grammar.stmts usual
            (record { statements = 0; counts = counts_of self.old.counts })).reads
            (lexemes self.old.rest.now)) }
        ensures counts { IfOk result (λ v. counts_of self.new.counts
            ≡ grammar.after_stmts (counts_of self.old.counts) (block_of v.items)) }
    {
        let mut found = Vec::new(self.alloc);
        let mut before: u32 = 0;
        'items: while self.is_at_one_of(Group::Statements) {
            let item = self.next_stmt(before)?;
            found.push(item)?;
            before += 1;
            self.counts.items += 1;
        }
        Ok(found)
    }

    /// The statements between braces.
    #[tactic(auto, unfolding(chart_grammar::specs::Transitions::block))]
    pub fn block(&mut self) -> Result<List<StmtText>, ReadError>
        ensures read { Gives (λ b. block_of (items_of b)) result (lexemes self.new.rest.now)
            ((grammar.block usual (counts_of self.old.counts)).reads
            (lexemes self.old.rest.now)) }
        ensures counts { IfOk result (λ b. counts_of self.new.counts
            ≡ grammar.after_stmts (counts_of self.old.counts) (block_of (items_of b))) }
    {
        self.token(Kind::OpenBrace)?;
        let found = self.stmts()?;
        self.token(Kind::CloseBrace)?;
        Ok(List::of(found))
    }
}
