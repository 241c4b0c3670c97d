//! Expressions, a method for each production of the grammar.
ghost use Rattle.std.specs.Prelude.{◌≡◌};
ghost use Rattle.token_grammar.specs.Token.{lexemes, Gives};
ghost use Rattle.chart_tree.specs.Views.{expr_of};
ghost use Rattle.chart_grammar.specs.Limits.{usual};
ghost use Rattle.chart_grammar.specs.Expressions as grammar;
ghost use Rattle.chart_reader.specs.Groups.{set_of};
ghost use Rattle.chart_operands.specs.Operands.{operand_of, tail_of};
ghost use Rattle.chart_reader.specs.Operands.{group_of, below};

use crate::group::Group;
use crate::operands::Level;
use crate::reader::Reader;
use chart_operands::{Operand, Tail, bin_word, un_word, with_tail};
use chart_tree::ExprText;
use flow_base::chart_limits::OPERATOR_LIMIT;
use token_grammar::{Kind, ReadError, Thing, TokenFault};

impl<'t, 'a> Reader<'t, 'a> {
    /// An operator of the level and the operand after it.
    #[cycle(expr)]
    #[tactic(auto, unfolding(chart_grammar::specs::Expressions::tail))]
    fn tail(&mut self, level: Level, depth: u32, before: u32) -> Result<Tail, ReadError>
        ensures read { Gives tail_of result (lexemes self.new.rest.now)
            ((grammar.tail usual (set_of (group_of level))
            (below level (grammar.unary usual depth)) before).reads
            (lexemes self.old.rest.now)) }
        ensures counts { self.new.counts ≡ self.old.counts }
    {
        let operator = self.operator(level.operators(), before)?;
        let right = self.operand(level, depth, before + 1)?;
        Ok(Tail {
            word: bin_word(operator.kind),
            at: operator.at,
            right,
        })
    }

    /// Operands of the level with its operators between them.
    #[cycle(expr)]
    fn chain(&mut self, level: Level, depth: u32, before: u32) -> Result<Operand, ReadError>
        ensures read { Gives operand_of result (lexemes self.new.rest.now)
            ((grammar.chain usual (set_of (group_of level))
            (below level (grammar.unary usual depth)) before).reads
            (lexemes self.old.rest.now)) }
        ensures counts { self.new.counts ≡ self.old.counts }
    {
        let mut left = self.operand(level, depth, before)?;
        'operators: while self.is_at_one_of(level.operators()) {
            let tail = self.tail(level, depth, left.operators)?;
            left = with_tail(self.alloc, left, tail)?;
        }
        Ok(left)
    }

    /// An operand of the level.
    #[cycle(expr)]
    #[tactic(auto, unfolding(chart_grammar::specs::Expressions::product, chart_grammar::specs::Expressions::sum, chart_grammar::specs::Expressions::conjunction))]
    fn operand(&mut self, level: Level, depth: u32, before: u32) -> Result<Operand, ReadError>
        ensures read { Gives operand_of result (lexemes self.new.rest.now)
            ((below level (grammar.unary usual depth) before).reads
            (lexemes self.old.rest.now)) }
        ensures counts { self.new.counts ≡ self.old.counts }
    {
        match level {
            Level::Products => self.unary(depth, before),
            Level::Sums => self.chain(Level::Products, depth, before),
            Level::Comparisons => self.chain(Level::Sums, depth, before),
            Level::Conjunctions => self.comparison(depth, before),
            Level::Disjunctions => self.chain(Level::Conjunctions, depth, before),
        }
    }

    #[cycle(expr)]
    #[tactic(auto, unfolding(chart_grammar::specs::Expressions::comparison, chart_grammar::specs::Expressions::pair))]
    fn comparison(&mut self, depth: u32, before: u32) -> Result<Operand, ReadError>
        ensures read { Gives operand_of result (lexemes self.new.rest.now)
            ((grammar.comparison usual (grammar.unary usual depth) before).reads
            (lexemes self.old.rest.now)) }
        ensures counts { self.new.counts ≡ self.old.counts }
    {
        let left = self.operand(Level::Comparisons, depth, before)?;
        if !self.is_at_one_of(Group::Comparisons) {
            return Ok(left);
        }
        let tail = self.tail(Level::Comparisons, depth, left.operators)?;
        Ok(with_tail(self.alloc, left, tail)?)
    }

    #[cycle(expr)]
    fn unary(&mut self, depth: u32, before: u32) -> Result<Operand, ReadError>
        ensures read { Gives operand_of result (lexemes self.new.rest.now)
            ((grammar.unary usual depth before).reads (lexemes self.old.rest.now)) }
        ensures counts { self.new.counts ≡ self.old.counts }
    {
        if !self.is_at_one_of(Group::Nested) {
            return self.plain(before);
        }
        if depth == 0 {
            return Err(ReadError::Fault(TokenFault::TooMany(Thing::Operators)));
        }
        self.nested(depth - 1, before)
    }

    #[cycle(expr)]
    #[tactic(auto, unfolding(chart_grammar::specs::Expressions::nested))]
    fn nested(&mut self, depth: u32, before: u32) -> Result<Operand, ReadError>
        ensures read { Gives operand_of result (lexemes self.new.rest.now)
            ((grammar.nested usual (grammar.unary usual depth) before).reads
            (lexemes self.old.rest.now)) }
        ensures counts { self.new.counts ≡ self.old.counts }
    {
        if self.is_at_one_of(Group::Signs) {
            self.signed(depth, before)
        } else {
            self.parens(depth, before)
        }
    }

    #[cycle(expr)]
    #[tactic(auto, unfolding(chart_grammar::specs::Expressions::signed))]
    fn signed(&mut self, depth: u32, before: u32) -> Result<Operand, ReadError>
        ensures read { Gives operand_of result (lexemes self.new.rest.now)
            ((grammar.signed usual (grammar.unary usual depth) before).reads
            (lexemes self.old.rest.now)) }
        ensures counts { self.new.counts ≡ self.old.counts }
    {
        let operator = self.operator(Group::Signs, before)?;
        let inner = self.unary(depth, before + 1)?;
        let word = un_word(operator.kind);
        Ok(Operand {
            expr: ExprText::Unary(word, Box::new(self.alloc, inner.expr)?, operator.at),
            operators: inner.operators,
        })
    }

    #[cycle(expr)]
    #[tactic(auto, unfolding(chart_grammar::specs::Expressions::parens, chart_grammar::specs::Expressions::disjunction))]
    fn parens(&mut self, depth: u32, before: u32) -> Result<Operand, ReadError>
        ensures read { Gives operand_of result (lexemes self.new.rest.now)
            ((grammar.parens usual (grammar.unary usual depth) before).reads
            (lexemes self.old.rest.now)) }
        ensures counts { self.new.counts ≡ self.old.counts }
    {
        self.opening(before)?;
        let inner = self.chain(Level::Disjunctions, depth, before + 1)?;
        self.closed_by(Kind::CloseParen, inner)
    }

    /// An expression.
    #[tactic(auto, unfolding(chart_grammar::specs::Expressions::expr, chart_grammar::specs::Expressions::operand, chart_grammar::specs::Expressions::disjunction))]
    pub fn expr(&mut self) -> Result<ExprText, ReadError>
        ensures read { Gives expr_of result (lexemes self.new.rest.now)
            ((grammar.expr usual).reads (lexemes self.old.rest.now)) }
        ensures counts { self.new.counts ≡ self.old.counts }
    {
        let whole = self.chain(Level::Disjunctions, OPERATOR_LIMIT, 0)?;
        Ok(whole.expr)
    }
}
