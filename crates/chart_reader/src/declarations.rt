//! Reads the declarations of events and data.
ghost use Rattle.std.specs.Prelude.{◌≡◌, OnOk};
ghost use Rattle.token_grammar.specs.Token.{lexemes, Gives};
ghost use Rattle.chart_tree.specs.Views.{sort_of, var_of};
ghost use Rattle.chart_grammar.specs.Limits.{usual, after_event, after_variable};
ghost use Rattle.chart_grammar.specs.Declarations as spec;
ghost use Rattle.chart_reader.specs.Counts.{counts_of};
ghost use Rattle.chart_reader.specs.Parts as parts;

use crate::group::Group;
use crate::reader::Reader;
use chart_tree::{EventText, EventWord, InitText, LitText, NameText, SortText, VarText, VarWord};
use token_grammar::{Kind, ReadError, Span};

/// Who raises an event, by the kind of its word.
fn event_word(kind: Kind) -> EventWord
    ensures { result ≡ spec.event_word kind }
{
    match kind {
        Kind::Input => EventWord::Input,
        Kind::Local => EventWord::Local,
        _ => EventWord::Output,
    }
}

/// Who sets a datum, by the kind of its word.
fn var_word(kind: Kind) -> VarWord
    ensures { result ≡ spec.var_word kind }
{
    match kind {
        Kind::Input => VarWord::Input,
        Kind::Output => VarWord::Output,
        _ => VarWord::Local,
    }
}

/// The number 0.
fn zero_lit() -> LitText
    ensures { result ≡ spec.zero_lit }
{
    LitText {
        units: 0,
        places: 0,
        q: None,
    }
}

/// A number as a first value; every form of 0 becomes the plain one.
fn plain_init(negative: bool, lit: LitText, at: Span) -> InitText
    ensures { result ≡ spec.plain_init negative lit at }
{
    if lit.units == 0 {
        InitText::Number {
            negative: false,
            lit: zero_lit(),
            at,
        }
    } else {
        InitText::Number { negative, lit, at }
    }
}

/// The first value of a datum for which none is written.
fn missing_init(sort: SortText, at: Span) -> InitText
    ensures { result ≡ spec.missing_init (sort_of sort) at }
{
    match sort {
        SortText::Flag => InitText::Flag { value: false, at },
        SortText::Number(_, _) => InitText::Number {
            negative: false,
            lit: zero_lit(),
            at,
        },
    }
}

impl<'t, 'a> Reader<'t, 'a> {
    /// A number as a first value.
    #[tactic(auto, unfolding(chart_grammar::specs::Declarations::positive_init))]
    fn positive_init(&mut self) -> Result<InitText, ReadError>
        ensures read { Gives (λ i. i) result (lexemes self.new.rest.now)
            ((spec.positive_init usual).reads (lexemes self.old.rest.now)) }
        ensures counts { self.new.counts ≡ self.old.counts }
    {
        let number = self.number()?;
        Ok(plain_init(false, number.lit, number.token.at))
    }

    /// A number after a minus sign, as a first value.
    #[tactic(auto, unfolding(chart_grammar::specs::Declarations::negative_init))]
    fn negative_init(&mut self) -> Result<InitText, ReadError>
        ensures read { Gives (λ i. i) result (lexemes self.new.rest.now)
            ((spec.negative_init usual).reads (lexemes self.old.rest.now)) }
        ensures counts { self.new.counts ≡ self.old.counts }
    {
        let sign = self.token(Kind::Minus)?;
        let number = self.number()?;
        Ok(plain_init(true, number.lit, sign.at))
    }

    /// A flag as a first value.
    #[tactic(auto, unfolding(chart_grammar::specs::Declarations::flag_init))]
    fn flag_init(&mut self) -> Result<InitText, ReadError>
        ensures read { Gives (λ i. i) result (lexemes self.new.rest.now)
            (spec.flag_init.reads (lexemes self.old.rest.now)) }
        ensures counts { self.new.counts ≡ self.old.counts }
    {
        let token = self.one_of(Group::Flags)?;
        Ok(InitText::Flag {
            value: token.kind == Kind::True,
            at: token.at,
        })
    }

    /// A first value.
    #[tactic(auto, unfolding(chart_grammar::specs::Declarations::init))]
    fn init(&mut self) -> Result<InitText, ReadError>
        ensures read { Gives (λ i. i) result (lexemes self.new.rest.now)
            ((spec.init usual).reads (lexemes self.old.rest.now)) }
        ensures counts { self.new.counts ≡ self.old.counts }
    {
        if self.is_at(Kind::Minus) {
            self.negative_init()
        } else if self.is_at(Kind::Number) {
            self.positive_init()
        } else {
            self.flag_init()
        }
    }

    /// A first value after its sign.
    #[tactic(auto, unfolding(chart_grammar::specs::Declarations::given_init))]
    fn given_init(&mut self) -> Result<InitText, ReadError>
        ensures read { Gives (λ i. i) result (lexemes self.new.rest.now)
            ((spec.given_init usual).reads (lexemes self.old.rest.now)) }
        ensures counts { self.new.counts ≡ self.old.counts }
    {
        self.token(Kind::Assign)?;
        self.init()
    }

    /// The first value of a datum, whose name stands at that place. It may be missing.
    #[tactic(auto, unfolding(chart_grammar::specs::Declarations::maybe_init))]
    fn maybe_init(&mut self, sort: SortText, at: Span) -> Result<InitText, ReadError>
        ensures read { Gives (λ i. i) result (lexemes self.new.rest.now)
            ((spec.maybe_init usual (sort_of sort) at).reads (lexemes self.old.rest.now)) }
        ensures counts { self.new.counts ≡ self.old.counts }
    {
        if self.is_at(Kind::Assign) {
            self.given_init()
        } else {
            Ok(missing_init(sort, at))
        }
    }

    /// The declaration of an event.
    #[tactic(auto, unfolding(chart_grammar::specs::Declarations::event))]
    pub fn event(&mut self) -> Result<EventText, ReadError>
        ensures read { Gives (λ e. e) result (lexemes self.new.rest.now)
            ((spec.event usual (counts_of self.old.counts)).reads (lexemes self.old.rest.now)) }
        ensures counts { OnOk result
            (counts_of self.new.counts ≡ after_event (counts_of self.old.counts)) }
    {
        let refused = self.counts.event_refused();
        self.allowed_token(Kind::Event, refused)?;
        self.counts = self.counts.after_event();
        let token = self.one_of(Group::Kinds)?;
        let name = self.name()?;
        let event = EventText {
            kind: event_word(token.kind),
            name,
        };
        self.closed_by(Kind::Semicolon, event)
    }

    /// What follows the word and the name of a datum.
    #[tactic(auto, unfolding(crate::specs::Parts::variable_rest))]
    fn variable_rest(&mut self, word: VarWord, name: NameText) -> Result<VarText, ReadError>
        ensures read { Gives var_of result (lexemes self.new.rest.now)
            ((parts.variable_rest word name).reads (lexemes self.old.rest.now)) }
        ensures counts { self.new.counts ≡ self.old.counts }
    {
        self.token(Kind::Colon)?;
        let sort = self.sort()?;
        let init = self.maybe_init(sort, name.at)?;
        let var = VarText {
            kind: word,
            name,
            sort,
            init,
        };
        self.closed_by(Kind::Semicolon, var)
    }

    /// The declaration of a datum.
    #[tactic(auto, unfolding(chart_grammar::specs::Declarations::variable, crate::specs::Parts::variable_rest))]
    pub fn variable(&mut self) -> Result<VarText, ReadError>
        ensures read { Gives var_of result (lexemes self.new.rest.now)
            ((spec.variable usual (counts_of self.old.counts)).reads (lexemes self.old.rest.now)) }
        ensures counts { OnOk result
            (counts_of self.new.counts ≡ after_variable (counts_of self.old.counts)) }
    {
        let refused = self.counts.variable_refused();
        let token = self.allowed_one_of(Group::Kinds, refused)?;
        self.counts = self.counts.after_variable();
        let name = self.name()?;
        self.variable_rest(var_word(token.kind), name)
    }
}
