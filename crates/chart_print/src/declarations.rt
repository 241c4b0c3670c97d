//! Declarations of events and data.
ghost use Rattle.std.specs.Prelude.{◌≡◌, OnOk};
ghost use Rattle.chart_tree.specs.Views.{sort_of, var_of};
ghost use Rattle.chart_print.specs.Pieces.{written};
ghost use Rattle.chart_print.specs.Declarations as spec;

use crate::expressions::flag_kind;
use crate::printer::Printer;
use chart_tree::{EventText, EventWord, InitText, LitText, NameText, SortText, VarText, VarWord};
use std::alloc::AllocError;
use token_grammar::Kind;

impl Printer {
    /// Appends the declaration of an event.
    #[tactic(auto, using(crate::proofs::Written::printed), unfolding(crate::specs::Declarations::event_pieces))]
    pub(crate) fn event(&mut self, event: &EventText) -> Result<(), AllocError>
        ensures { OnOk result (self.new ≡ written self.old (spec.event_pieces event.now)) }
    {
        self.key(Kind::Event)?;
        self.space()?;
        self.key(event_kind(event.kind))?;
        self.space()?;
        self.name(&event.name)?;
        self.key(Kind::Semicolon)
    }

    /// Appends a first value.
    #[tactic(auto, using(crate::proofs::Written::printed), unfolding(crate::specs::Declarations::value_pieces, crate::specs::Declarations::sign_pieces))]
    fn value(&mut self, init: InitText) -> Result<(), AllocError>
        ensures { OnOk result (self.new ≡ written self.old (spec.value_pieces init)) }
    {
        match init {
            InitText::Number { negative, lit, .. } => {
                if negative {
                    self.key(Kind::Minus)?;
                }
                self.literal(lit)
            }
            InitText::Flag { value, .. } => self.key(flag_kind(value)),
        }
    }

    /// Appends the first value of a datum after its sign, unless it is the first value that a datum
    /// has where none is written.
    #[tactic(auto, using(crate::proofs::Written::printed), unfolding(crate::specs::Declarations::init_pieces))]
    fn init(&mut self, sort: SortText, init: InitText) -> Result<(), AllocError>
        ensures { OnOk result
            (self.new ≡ written self.old (spec.init_pieces (sort_of sort) init)) }
    {
        if is_missing_init(sort, init) {
            return Ok(());
        }
        self.space()?;
        self.key(Kind::Assign)?;
        self.space()?;
        self.value(init)
    }

    /// Appends a name with a type.
    #[tactic(auto, using(crate::proofs::Written::printed), unfolding(crate::specs::Declarations::typed_pieces))]
    fn typed(&mut self, name: &NameText, sort: SortText) -> Result<(), AllocError>
        ensures { OnOk result
            (self.new ≡ written self.old (spec.typed_pieces name.now (sort_of sort))) }
    {
        self.name(name)?;
        self.space()?;
        self.key(Kind::Colon)?;
        self.space()?;
        self.sort(sort)
    }

    /// Appends the declaration of a datum.
    #[tactic(auto, using(crate::proofs::Written::printed), unfolding(crate::specs::Declarations::var_pieces))]
    pub(crate) fn var(&mut self, var: &VarText) -> Result<(), AllocError>
        ensures { OnOk result (self.new ≡ written self.old (spec.var_pieces (var_of var.now))) }
    {
        self.key(var_kind(var.kind))?;
        self.space()?;
        self.typed(&var.name, var.sort)?;
        self.init(var.sort, var.init)?;
        self.key(Kind::Semicolon)
    }
}

/// The keyword of who raises an event.
fn event_kind(word: EventWord) -> Kind
    ensures { result ≡ spec.event_kind word }
{
    match word {
        EventWord::Input => Kind::Input,
        EventWord::Local => Kind::Local,
        EventWord::Output => Kind::Output,
    }
}

/// The keyword of who sets a datum.
fn var_kind(word: VarWord) -> Kind
    ensures { result ≡ spec.var_kind word }
{
    match word {
        VarWord::Input => Kind::Input,
        VarWord::Output => Kind::Output,
        VarWord::Local => Kind::Local,
    }
}

/// Whether the number is 0, with no sign, no digits after the point and no `q`.
fn is_plain_zero(negative: bool, lit: LitText) -> bool
    ensures { result ≡ spec.is_plain_zero negative lit }
{
    !negative && lit.units == 0 && lit.places == 0 && lit.q.is_none()
}

/// Whether a datum of the sort has this first value where none is written.
fn is_missing_init(sort: SortText, init: InitText) -> bool
    ensures { result ≡ spec.is_missing_init (sort_of sort) init }
{
    match (sort, init) {
        (SortText::Flag, InitText::Flag { value, .. }) => !value,
        (SortText::Number(_, _), InitText::Number { negative, lit, .. }) => {
            is_plain_zero(negative, lit)
        }
        (SortText::Flag, InitText::Number { .. })
        | (SortText::Number(_, _), InitText::Flag { .. }) => false,
    }
}
