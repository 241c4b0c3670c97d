//! Reads operators and opening parentheses.
ghost use Rattle.std.specs.Prelude.{◌≡◌, ◌<◌, OnOk};
ghost use Rattle.flow_base.specs.declared.chart_limits.TheConstants.{OPERATOR_LIMIT};
ghost use Rattle.token_grammar.specs.Token.{lexeme, lexemes, Gives};
ghost use Rattle.chart_grammar.specs.Limits.{usual};
ghost use Rattle.chart_grammar.specs.Expressions as grammar;
ghost use Rattle.statechart_tokens.specs.Groups.{set_of};

use crate::counts::one_more;
use crate::group::Group;
use crate::reader::Reader;
use token_grammar::{ReadError, Thing, Token};

impl<'t, 'a> Reader<'t, 'a> {
    /// An operator or an opening parenthesis, where `before` of them stand before it.
    #[tactic(auto, unfolding(chart_grammar::specs::Expressions::operator))]
    pub fn operator(&mut self, group: Group, before: u32) -> Result<Token<'a>, ReadError>
        ensures read { Gives lexeme result (lexemes self.new.rest.now)
            ((grammar.operator usual (set_of group) before).reads
            (lexemes self.old.rest.now)) }
        ensures counts { self.new.counts ≡ self.old.counts }
        ensures room { OnOk result (before < OPERATOR_LIMIT) }
    {
        let refused = one_more(Thing::Operators, before);
        self.allowed_one_of(group, refused)
    }
}
