//! Sets of kinds of token that may stand in one place.
ghost use Rattle.std.specs.Prelude.{◌≡◌};
ghost use Rattle.chart_grammar.specs.Expressions.{comparison_heads, nested_heads};
ghost use Rattle.chart_grammar.specs.Transitions.{stmt_heads, trans_heads};
ghost use Rattle.chart_reader.specs.Groups.{set_of};

use token_grammar::Kind;

/// The kinds of token that may stand in one place of the grammar.
#[derive(Clone, Copy)]
pub(crate) enum Group {
    /// `*` and `/`.
    Products,
    /// `+` and `-`.
    Sums,
    /// `==`, `!=`, `<`, `<=`, `>` and `>=`.
    Comparisons,
    /// `&&`.
    Conjunctions,
    /// `||`.
    Disjunctions,
    /// `-` and `!`, before an operand.
    Signs,
    /// A sign or an opening parenthesis.
    Nested,
    /// `true` and `false`.
    Flags,
    /// What begins a statement.
    Statements,
    /// What begins a transition of a junction.
    Transitions,
    /// `input`, `local` and `output`.
    Kinds,
    /// `saturate`, `wrap` and `error`.
    Modes,
    /// `or` and `and`.
    Compositions,
}

impl Group {
    /// Whether the kind is one of these.
    pub fn has(self, kind: Kind) -> bool
        ensures { result ≡ set_of self kind }
    {
        match self {
            Group::Products => kind == Kind::Star || kind == Kind::Slash,
            Group::Sums => kind == Kind::Plus || kind == Kind::Minus,
            Group::Comparisons => is_comparison(kind),
            Group::Conjunctions => kind == Kind::AndAnd,
            Group::Disjunctions => kind == Kind::OrOr,
            Group::Signs => kind == Kind::Minus || kind == Kind::Not,
            Group::Nested => begins_nested(kind),
            Group::Flags => kind == Kind::True || kind == Kind::False,
            Group::Statements => begins_statement(kind),
            Group::Transitions => begins_transition(kind),
            Group::Kinds => { kind == Kind::Input || kind == Kind::Local || kind == Kind::Output }
            Group::Modes => { kind == Kind::Saturate || kind == Kind::Wrap || kind == Kind::Error }
            Group::Compositions => kind == Kind::Or || kind == Kind::And,
        }
    }
}

/// Whether the kind is a comparison.
fn is_comparison(kind: Kind) -> bool
    ensures { result ≡ comparison_heads kind }
{
    kind == Kind::EqualEqual
        || kind == Kind::NotEqual
        || kind == Kind::Less
        || kind == Kind::LessEqual
        || kind == Kind::Greater
        || kind == Kind::GreaterEqual
}

/// Whether a transition of a junction begins so.
fn begins_transition(kind: Kind) -> bool
    ensures { result ≡ trans_heads kind }
{
    kind == Kind::Name
        || kind == Kind::OpenBracket
        || kind == Kind::OpenBrace
        || kind == Kind::Slash
        || kind == Kind::Arrow
}

/// Whether an operand begins so in which another operand is nested.
fn begins_nested(kind: Kind) -> bool
    ensures { result ≡ nested_heads kind }
{
    kind == Kind::Minus || kind == Kind::Not || kind == Kind::OpenParen
}

/// Whether a statement begins so.
fn begins_statement(kind: Kind) -> bool
    ensures { result ≡ stmt_heads kind }
{
    kind == Kind::Send || kind == Kind::Emit || kind == Kind::Name
}
