//! Expressions.
ghost use Rattle.std.specs.Prelude.{◌≡◌, nat_lt, OnOk};
ghost use Rattle.chart_tree.specs.Views.{expr_of};
ghost use Rattle.chart_print.specs.Pieces.{written};
ghost use Rattle.chart_print.specs.Expressions as spec;

use crate::printer::Printer;
use chart_tree::{BinWord, ExprText, UnWord};
use std::alloc::AllocError;
use token_grammar::Kind;

/// The precedence of comparisons.
const COMPARISON: u8 = 3;

/// The precedence of an expression without a binary operator.
const TIGHTEST: u8 = 6;

impl Printer {
    /// Appends an expression.
    #[tactic(auto, using(crate::proofs::Written::printed), unfolding(crate::specs::Expressions::expr_pieces))]
    #[cycle(expr)]
    pub(crate) fn expr(&mut self, expr: &ExprText) -> Result<(), AllocError>
        ensures { OnOk result (self.new ≡ written self.old (spec.expr_pieces (expr_of expr.now))) }
    {
        match expr {
            ExprText::Lit(lit, _) => self.literal(*lit),
            ExprText::Flag(value, _) => self.key(flag_kind(*value)),
            ExprText::Name(name) => self.name(name),
            ExprText::Active(path, _) => {
                self.key(Kind::In)?;
                self.key(Kind::OpenParen)?;
                self.path(path)?;
                self.key(Kind::CloseParen)
            }
            ExprText::Unary(word, operand, _) => {
                self.key(un_kind(*word))?;
                self.operand(operand, TIGHTEST)
            }
            ExprText::Binary(word, left, right, _) => {
                self.operand(left, left_least(*word))?;
                self.space()?;
                self.key(bin_kind(*word))?;
                self.space()?;
                self.operand(right, right_least(*word))
            }
        }
    }

    /// Appends an operand, in parentheses where its precedence is less than that.
    #[tactic(auto, using(crate::proofs::Written::printed), unfolding(crate::specs::Expressions::enclosed))]
    #[cycle(expr)]
    fn operand(&mut self, operand: &ExprText, least: u8) -> Result<(), AllocError>
        ensures { OnOk result (self.new ≡ written self.old
            (spec.enclosed (nat_lt (spec.expr_precedence (expr_of operand.now)) least)
            (spec.expr_pieces (expr_of operand.now)))) }
    {
        if expr_precedence(operand) < least {
            self.key(Kind::OpenParen)?;
            self.expr(operand)?;
            self.key(Kind::CloseParen)
        } else {
            self.expr(operand)
        }
    }
}

/// The keyword of a flag.
pub(crate) fn flag_kind(value: bool) -> Kind
    ensures { result ≡ spec.flag_kind value }
{
    if value { Kind::True } else { Kind::False }
}

/// The symbol of a unary operator.
fn un_kind(word: UnWord) -> Kind
    ensures { result ≡ spec.un_kind word }
{
    match word {
        UnWord::Neg => Kind::Minus,
        UnWord::Not => Kind::Not,
    }
}

/// The symbol of a binary operator.
fn bin_kind(word: BinWord) -> Kind
    ensures { result ≡ spec.bin_kind word }
{
    match word {
        BinWord::Or => Kind::OrOr,
        BinWord::And => Kind::AndAnd,
        BinWord::Eq => Kind::EqualEqual,
        BinWord::Ne => Kind::NotEqual,
        BinWord::Lt => Kind::Less,
        BinWord::Le => Kind::LessEqual,
        BinWord::Gt => Kind::Greater,
        BinWord::Ge => Kind::GreaterEqual,
        BinWord::Add => Kind::Plus,
        BinWord::Sub => Kind::Minus,
        BinWord::Mul => Kind::Star,
        BinWord::Div => Kind::Slash,
    }
}

/// The precedence of a binary operator: the higher, the tighter it binds.
fn precedence(word: BinWord) -> u8
    ensures { result ≡ spec.precedence word }
{
    match word {
        BinWord::Or => 1,
        BinWord::And => 2,
        BinWord::Eq | BinWord::Ne | BinWord::Lt | BinWord::Le | BinWord::Gt | BinWord::Ge =>
            COMPARISON,
        BinWord::Add | BinWord::Sub => 4,
        BinWord::Mul | BinWord::Div => 5,
    }
}

/// The precedence of an expression.
fn expr_precedence(expr: &ExprText) -> u8
    ensures { result ≡ spec.expr_precedence (expr_of expr.now) }
{
    match expr {
        ExprText::Binary(word, _, _, _) => precedence(*word),
        ExprText::Lit(_, _)
        | ExprText::Flag(_, _)
        | ExprText::Name(_)
        | ExprText::Active(_, _)
        | ExprText::Unary(_, _, _) => TIGHTEST,
    }
}

/// The least precedence of a left operand without parentheses: no comparison is compared.
fn left_least(word: BinWord) -> u8
    ensures { result ≡ spec.left_least word }
{
    let own = precedence(word);
    if own == COMPARISON { own + 1 } else { own }
}

/// The least precedence of a right operand without parentheses: operators group from the left.
fn right_least(word: BinWord) -> u8
    ensures { result ≡ spec.right_least word }
{
    precedence(word) + 1
}
