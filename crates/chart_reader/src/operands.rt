//! Operands without an operator, and the levels of operators.
ghost use Rattle.std.specs.Prelude.{◌≡◌, ◌<◌, OnOk};
ghost use Rattle.flow_base.specs.declared.chart_limits.TheConstants.{OPERATOR_LIMIT};
ghost use Rattle.token_grammar.specs.Token.{lexeme, lexemes, Gives};
ghost use Rattle.token_grammar.specs.declared.token.Kind.TheVariants as kinds;
ghost use Rattle.token_grammar.specs.Grammar.{is};
ghost use Rattle.chart_grammar.specs.Limits.{usual};
ghost use Rattle.chart_grammar.specs.Expressions as grammar;
ghost use Rattle.chart_reader.specs.Groups.{set_of};
ghost use Rattle.chart_operands.specs.Operands.{operand_of};
ghost use Rattle.chart_reader.specs.Operands.{group_of};

use crate::counts::one_more;
use crate::group::Group;
use crate::reader::Reader;
use chart_operands::Operand;
use chart_tree::ExprText;
use token_grammar::{Kind, ReadError, Thing, Token};

/// The levels of binary operators, from the tightest to the loosest. The operands of a level are
/// built with the operators of tighter levels.
#[derive(Clone, Copy)]
pub(crate) enum Level {
    /// `*` and `/`, between operands without a binary operator.
    Products,
    /// `+` and `-`.
    Sums,
    /// `==`, `!=`, `<`, `<=`, `>` and `>=`: one at most.
    Comparisons,
    /// `&&`.
    Conjunctions,
    /// `||`.
    Disjunctions,
}

impl Level {
    /// The operators of the level.
    pub fn operators(self) -> Group
        ensures { result ≡ group_of self }
    {
        match self {
            Level::Products => Group::Products,
            Level::Sums => Group::Sums,
            Level::Comparisons => Group::Comparisons,
            Level::Conjunctions => Group::Conjunctions,
            Level::Disjunctions => Group::Disjunctions,
        }
    }
}

impl<'t, 'a> Reader<'t, 'a> {
    /// An operator, where `before` operators and parentheses stand before it.
    #[tactic(auto, unfolding(chart_grammar::specs::Expressions::operator))]
    pub fn operator(&mut self, group: Group, before: u32) -> Result<Token<'a>, ReadError>
        ensures read { Gives lexeme result (lexemes self.new.rest.now)
            ((grammar.operator usual (set_of group) before).reads
            (lexemes self.old.rest.now)) }
        ensures counts { self.new.counts ≡ self.old.counts }
        ensures room { OnOk result (before < OPERATOR_LIMIT) }
    {
        let refused = one_more(Thing::Operators, before);
        self.allowed_one_of(group, refused)
    }

    /// An opening parenthesis, where `before` operators and parentheses stand before it.
    pub fn opening(&mut self, before: u32) -> Result<Token<'a>, ReadError>
        ensures read { Gives lexeme result (lexemes self.new.rest.now)
            ((grammar.operator usual (is kinds.OpenParen) before).reads
            (lexemes self.old.rest.now)) }
        ensures counts { self.new.counts ≡ self.old.counts }
        ensures room { OnOk result (before < OPERATOR_LIMIT) }
    {
        let refused = one_more(Thing::Operators, before);
        self.allowed_token(Kind::OpenParen, refused)
    }

    #[tactic(auto, unfolding(chart_grammar::specs::Expressions::literal))]
    fn literal(&mut self, before: u32) -> Result<Operand, ReadError>
        ensures read { Gives operand_of result (lexemes self.new.rest.now)
            ((grammar.literal usual before).reads (lexemes self.old.rest.now)) }
        ensures counts { self.new.counts ≡ self.old.counts }
    {
        let number = self.number()?;
        Ok(Operand {
            expr: ExprText::Lit(number.lit, number.token.at),
            operators: before,
        })
    }

    #[tactic(auto, unfolding(chart_grammar::specs::Expressions::flag))]
    fn flag(&mut self, before: u32) -> Result<Operand, ReadError>
        ensures read { Gives operand_of result (lexemes self.new.rest.now)
            ((grammar.flag before).reads (lexemes self.old.rest.now)) }
        ensures counts { self.new.counts ≡ self.old.counts }
    {
        let token = self.one_of(Group::Flags)?;
        Ok(Operand {
            expr: ExprText::Flag(token.kind == Kind::True, token.at),
            operators: before,
        })
    }

    fn datum(&mut self, before: u32) -> Result<Operand, ReadError>
        ensures read { Gives operand_of result (lexemes self.new.rest.now)
            ((grammar.datum before).reads (lexemes self.old.rest.now)) }
        ensures counts { self.new.counts ≡ self.old.counts }
    {
        let name = self.name()?;
        Ok(Operand {
            expr: ExprText::Name(name),
            operators: before,
        })
    }

    #[tactic(auto, unfolding(chart_grammar::specs::Expressions::active))]
    fn active(&mut self, before: u32) -> Result<Operand, ReadError>
        ensures read { Gives operand_of result (lexemes self.new.rest.now)
            ((grammar.active before).reads (lexemes self.old.rest.now)) }
        ensures counts { self.new.counts ≡ self.old.counts }
    {
        let at = self.token(Kind::In)?.at;
        self.token(Kind::OpenParen)?;
        let path = self.path()?;
        let active = Operand {
            expr: ExprText::Active(path, at),
            operators: before,
        };
        self.closed_by(Kind::CloseParen, active)
    }

    /// An operand without an operator, where `before` operators and parentheses stand before it.
    #[tactic(auto, unfolding(chart_grammar::specs::Expressions::plain))]
    pub fn plain(&mut self, before: u32) -> Result<Operand, ReadError>
        ensures read { Gives operand_of result (lexemes self.new.rest.now)
            ((grammar.plain usual before).reads (lexemes self.old.rest.now)) }
        ensures counts { self.new.counts ≡ self.old.counts }
    {
        if self.is_at(Kind::Number) {
            self.literal(before)
        } else if self.is_at_one_of(Group::Flags) {
            self.flag(before)
        } else if self.is_at(Kind::In) {
            self.active(before)
        } else {
            self.datum(before)
        }
    }
}
