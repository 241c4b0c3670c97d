//! Sets of kinds of token that may stand in one place.
ghost use Rattle.std.specs.Prelude.{◌≡◌};
ghost use Rattle.chart_grammar.specs.Expressions.{comparison_heads, sign_heads, flag_heads};
ghost use Rattle.chart_grammar.specs.Transitions.{stmt_heads};
ghost use Rattle.statechart_grammar.specs.Expressions.{operand_heads};
ghost use Rattle.statechart_grammar.specs.Transitions.{case_heads, trans_heads};
ghost use Rattle.statechart_tokens.specs.Groups.{set_of};

use token_grammar::Kind;

/// The kinds of token that may stand in one place of the grammar.
#[derive(Clone, Copy)]
pub enum Group {
    /// `*` and `/`.
    Products,
    /// `+` and `-`.
    Sums,
    /// `==`, `!=`, `<`, `<=`, `>` and `>=`.
    Comparisons,
    /// `&&`.
    Conjunctions,
    /// `||`.
    Disjunctions,
    /// `-` and `!`, before an operand.
    Signs,
    /// An opening parenthesis.
    Parentheses,
    /// `true` and `false`.
    Flags,
    /// What begins an operand.
    Operands,
    /// What begins a statement.
    Statements,
    /// What begins a case.
    Cases,
    /// What begins a transition of a junction.
    Transitions,
    /// `entry`, `during` and `exit`.
    Actions,
    /// `input`, `local` and `output`.
    Kinds,
    /// `local`.
    Locals,
    /// `saturate`, `wrap` and `error`.
    Modes,
    /// `or` and `and`.
    Compositions,
}

impl Group {
    /// Whether the kind is one of these.
    pub fn has(self, kind: Kind) -> bool
        ensures { result ≡ set_of self kind }
    {
        match self {
            Group::Products => kind == Kind::Star || kind == Kind::Slash,
            Group::Sums => kind == Kind::Plus || kind == Kind::Minus,
            Group::Comparisons => is_comparison(kind),
            Group::Conjunctions => kind == Kind::AndAnd,
            Group::Disjunctions => kind == Kind::OrOr,
            Group::Signs => is_sign(kind),
            Group::Parentheses => kind == Kind::OpenParen,
            Group::Flags => is_flag(kind),
            Group::Operands => begins_operand(kind),
            Group::Statements => begins_statement(kind),
            Group::Cases => begins_case(kind),
            Group::Transitions => begins_transition(kind),
            Group::Actions => { kind == Kind::Entry || kind == Kind::During || kind == Kind::Exit }
            Group::Kinds => { kind == Kind::Input || kind == Kind::Local || kind == Kind::Output }
            Group::Locals => kind == Kind::Local,
            Group::Modes => { kind == Kind::Saturate || kind == Kind::Wrap || kind == Kind::Error }
            Group::Compositions => kind == Kind::Or || kind == Kind::And,
        }
    }
}

/// Whether the kind is a comparison.
fn is_comparison(kind: Kind) -> bool
    ensures { result ≡ comparison_heads kind }
{
    kind == Kind::EqualEqual
        || kind == Kind::NotEqual
        || kind == Kind::Less
        || kind == Kind::LessEqual
        || kind == Kind::Greater
        || kind == Kind::GreaterEqual
}

/// Whether the kind is a sign.
fn is_sign(kind: Kind) -> bool
    ensures { result ≡ sign_heads kind }
{
    kind == Kind::Minus || kind == Kind::Not
}

/// Whether the kind is a flag.
fn is_flag(kind: Kind) -> bool
    ensures { result ≡ flag_heads kind }
{
    kind == Kind::True || kind == Kind::False
}

/// Whether an operand begins so.
fn begins_operand(kind: Kind) -> bool
    ensures { result ≡ operand_heads kind }
{
    is_sign(kind)
        || kind == Kind::OpenParen
        || kind == Kind::Number
        || is_flag(kind)
        || kind == Kind::In
        || kind == Kind::Tick
        || kind == Kind::Name
}

/// Whether a case begins so.
fn begins_case(kind: Kind) -> bool
    ensures { result ≡ case_heads kind }
{
    kind == Kind::OpenBracket || kind == Kind::Tick || kind == Kind::Name
}

/// Whether a transition of a junction begins so.
fn begins_transition(kind: Kind) -> bool
    ensures { result ≡ trans_heads kind }
{
    begins_case(kind) || kind == Kind::OpenBrace || kind == Kind::Slash || kind == Kind::Arrow
}

/// Whether a statement begins so.
fn begins_statement(kind: Kind) -> bool
    ensures { result ≡ stmt_heads kind }
{
    kind == Kind::Send || kind == Kind::Emit || kind == Kind::Name
}
