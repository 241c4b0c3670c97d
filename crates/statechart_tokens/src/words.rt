//! Reads names and paths.
ghost use Rattle.std.specs.Prelude.{◌≡◌};
ghost use Rattle.token_grammar.specs.Token.{lexemes, Gives};
ghost use Rattle.token_grammar.specs.declared.token.Kind.TheVariants as kinds;
ghost use Rattle.token_grammar.specs.Grammar.{is, many};
ghost use Rattle.chart_tree.specs.Views.{path_of};
ghost use Rattle.chart_grammar.specs.Words as spec;
ghost use Rattle.statechart_grammar.specs.Words as grammar;
ghost use Rattle.statechart_tokens.specs.Parts as parts;

use crate::reader::Reader;
use chart_lexer::name_text;
use chart_tree::{NameText, PathText};
use flow_base::List;
use token_grammar::{Kind, ReadError};

impl<'t, 'a> Reader<'t, 'a> {
    /// A name.
    #[tactic(auto, unfolding(chart_grammar::specs::Words::name))]
    pub fn name(&mut self) -> Result<NameText, ReadError>
        ensures read { Gives (λ n. n) result (lexemes self.new.rest.now)
            (spec.name.reads (lexemes self.old.rest.now)) }
        ensures counts { self.new.counts ≡ self.old.counts }
    {
        let token = self.token(Kind::Name)?;
        let text = name_text(self.alloc, token.text)?;
        Ok(NameText { text, at: token.at })
    }

    /// A name after a slash.
    #[tactic(auto, unfolding(chart_grammar::specs::Words::step))]
    fn step(&mut self) -> Result<NameText, ReadError>
        ensures read { Gives (λ n. n) result (lexemes self.new.rest.now)
            (spec.step.reads (lexemes self.old.rest.now)) }
        ensures counts { self.new.counts ≡ self.old.counts }
    {
        self.token(Kind::Slash)?;
        self.name()
    }

    /// The names of a path after its first.
    fn steps(&mut self) -> Result<Vec<NameText>, ReadError>
        ensures read { Gives (λ v. v.items) result (lexemes self.new.rest.now)
            ((many (is kinds.Slash) spec.step).reads (lexemes self.old.rest.now)) }
        ensures counts { self.new.counts ≡ self.old.counts }
    {
        let mut found = Vec::new(self.alloc);
        'items: while self.is_at(Kind::Slash) {
            let item = self.step()?;
            found.push(item)?;
        }
        Ok(found)
    }

    /// A path.
    #[tactic(auto, unfolding(chart_grammar::specs::Words::path))]
    pub fn path(&mut self) -> Result<PathText, ReadError>
        ensures read { Gives path_of result (lexemes self.new.rest.now)
            (spec.path.reads (lexemes self.old.rest.now)) }
        ensures counts { self.new.counts ≡ self.old.counts }
    {
        let first = self.name()?;
        let mut names = self.steps()?;
        names.insert(0, first)?;
        Ok(PathText {
            names: List::of(names),
        })
    }

    /// A name after a point.
    #[tactic(auto, unfolding(statechart_grammar::specs::Words::part))]
    fn part(&mut self) -> Result<NameText, ReadError>
        ensures read { Gives (λ n. n) result (lexemes self.new.rest.now)
            (grammar.part.reads (lexemes self.old.rest.now)) }
        ensures counts { self.new.counts ≡ self.old.counts }
    {
        self.spelled(Kind::Comment, b".")?;
        self.name()
    }

    /// The names of a target after its first.
    fn parts(&mut self) -> Result<Vec<NameText>, ReadError>
        ensures read { Gives (λ v. v.items) result (lexemes self.new.rest.now)
            ((many (is kinds.Comment) grammar.part).reads (lexemes self.old.rest.now)) }
        ensures counts { self.new.counts ≡ self.old.counts }
    {
        let mut found = Vec::new(self.alloc);
        'items: while self.is_at(Kind::Comment) {
            let item = self.part()?;
            found.push(item)?;
        }
        Ok(found)
    }

    /// The names of a target that begins with that name.
    #[tactic(auto, unfolding(statechart_grammar::specs::Words::parts))]
    pub fn longer(&mut self, first: NameText) -> Result<PathText, ReadError>
        ensures read { Gives path_of result (lexemes self.new.rest.now)
            ((parts.longer first).reads (lexemes self.old.rest.now)) }
        ensures counts { self.new.counts ≡ self.old.counts }
    {
        let mut names = self.parts()?;
        names.insert(0, first)?;
        Ok(PathText {
            names: List::of(names),
        })
    }

    /// A target.
    #[tactic(auto, unfolding(statechart_grammar::specs::Words::target))]
    pub fn target(&mut self) -> Result<PathText, ReadError>
        ensures read { Gives path_of result (lexemes self.new.rest.now)
            (grammar.target.reads (lexemes self.old.rest.now)) }
        ensures counts { self.new.counts ≡ self.old.counts }
    {
        let first = self.name()?;
        self.longer(first)
    }
}
