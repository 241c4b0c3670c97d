//! Words, data, events and expressions, printed.
ghost use Rattle.std.specs.Prelude.{◌≡◌, ◌++◌, ◌∷◌, [], codes, decimal, string_bytes, OnOk};
ghost use Rattle.std.specs.Fmt.{signed_decimal};
ghost use Rattle.actions.specs.Trees.{expr_of};
ghost use Rattle.code_fields.specs.Spelling as spec;

use actions::{EventDecl, EventKind, Expr, Op, Sort, Var, VarKind};
use active_config::Comp;
use fixed_point::{Mode, Num, Scale};
use flow_base::Text;
use itoa::Buffer;
use std::alloc::AllocError;

/// Appends words and a number.
pub fn print_number(out: &mut String, words: &str, number: u64) -> Result<(), AllocError>
    ensures { OnOk result
        (string_bytes out.new ≡ string_bytes out.old ++ (words.now ++ decimal number)) }
{
    let mut digits = Buffer::new();
    out.push_str(words)?;
    out.push_str(digits.format(number))?;
    Ok(())
}

/// Appends words and a whole number.
pub fn print_signed(out: &mut String, words: &str, number: i128) -> Result<(), AllocError>
    ensures { OnOk result
        (string_bytes out.new ≡ string_bytes out.old ++ (words.now ++ signed_decimal number)) }
{
    let mut digits = Buffer::new();
    out.push_str(words)?;
    out.push_str(digits.format(number))?;
    Ok(())
}

/// Appends a space, a name and a newline.
pub fn print_name(out: &mut String, name: &Text) -> Result<(), AllocError>
    ensures { OnOk result
        (string_bytes out.new ≡ string_bytes out.old ++ (32 ∷ (name.now ++ 10 ∷ []))) }
{
    out.push_str(" ")?;
    out.push_str(name.text())?;
    out.push_str("\n")?;
    Ok(())
}

/// The word for how a state is composed.
pub fn comp_word(comp: Comp) -> &'static str
    ensures { result.now ≡ spec.comp_word comp }
{
    match comp {
        Comp::Leaf => "leaf",
        Comp::Or => "or",
        Comp::And => "and",
    }
}

/// The word for who sets a datum.
pub fn var_kind_word(kind: VarKind) -> &'static str
    ensures { result.now ≡ spec.var_kind_word kind }
{
    match kind {
        VarKind::Input => "input",
        VarKind::Output => "output",
        VarKind::Local => "local",
    }
}

/// The word for who raises an event.
fn event_kind_word(kind: EventKind) -> &'static str
    ensures { result.now ≡ spec.event_kind_word kind }
{
    match kind {
        EventKind::Input => "input",
        EventKind::Local => "local",
        EventKind::Output => "output",
    }
}

/// The word for what is done with a number out of range.
fn mode_word(mode: Mode) -> &'static str
    ensures { result.now ≡ spec.mode_word mode }
{
    match mode {
        Mode::Saturate => "saturate",
        Mode::Wrap => "wrap",
        Mode::Error => "error",
    }
}

/// The word for the mode of a datum of that sort.
fn mode_in(sort: Sort, mode: Mode) -> &'static str
    ensures { result.now ≡ spec.mode_in sort mode }
{
    match sort {
        Sort::Flag => "-",
        Sort::Number(_) => mode_word(mode),
    }
}

/// Appends the word for what values a datum has.
pub fn print_sort(out: &mut String, sort: Sort) -> Result<(), AllocError>
    ensures { OnOk result
        (string_bytes out.new ≡ string_bytes out.old ++ spec.sort_word sort) }
{
    match sort {
        Sort::Flag => out.push_str("bool"),
        Sort::Number(scale) => print_scale(out, scale),
    }
}

/// Appends `sfixW_EnF` or `ufixW_EnF`.
fn print_scale(out: &mut String, scale: Scale) -> Result<(), AllocError>
    ensures { OnOk result
        (string_bytes out.new ≡ string_bytes out.old ++ spec.sort_word (Sort.Number scale)) }
{
    let sign = if scale.signed { "sfix" } else { "ufix" };
    print_number(out, sign, u64::from(scale.width))?;
    print_number(out, "_En", u64::from(scale.frac))
}

/// Appends the line of a datum.
pub fn print_var(out: &mut String, var: &Var) -> Result<(), AllocError>
    ensures { OnOk result
        (string_bytes out.new ≡ string_bytes out.old ++ (spec.var_line var.now ++ 10 ∷ [])) }
{
    print_kind(out, var.kind, var.sort)?;
    print_value(out, var.sort, var.mode, var.init)?;
    print_name(out, &var.name)
}

/// Appends the line of a datum up to its sort.
fn print_kind(out: &mut String, kind: VarKind, sort: Sort) -> Result<(), AllocError>
    ensures { OnOk result (string_bytes out.new ≡ string_bytes out.old
        ++ (codes "d " ++ (spec.var_kind_word kind ++ (32 ∷ spec.sort_word sort)))) }
{
    out.push_str("d ")?;
    out.push_str(var_kind_word(kind))?;
    out.push_str(" ")?;
    print_sort(out, sort)
}

/// Appends a space, a mode, a space and a first value.
fn print_value(out: &mut String, sort: Sort, mode: Mode, init: i128) -> Result<(), AllocError>
    ensures { OnOk result (string_bytes out.new ≡ string_bytes out.old
        ++ (32 ∷ (spec.mode_in sort mode ++ (32 ∷ signed_decimal init)))) }
{
    out.push_str(" ")?;
    out.push_str(mode_in(sort, mode))?;
    print_signed(out, " ", init)
}

/// Appends the line of an event.
pub fn print_event(out: &mut String, event: &EventDecl) -> Result<(), AllocError>
    ensures { OnOk result
        (string_bytes out.new ≡ string_bytes out.old ++ (spec.event_line event.now ++ 10 ∷ [])) }
{
    out.push_str("e ")?;
    out.push_str(event_kind_word(event.kind))?;
    print_name(out, &event.name)
}

/// The word of an operator with two operands.
fn op_word(op: Op) -> &'static str
    ensures { result.now ≡ spec.op_word op }
{
    match op {
        Op::Or => "||",
        Op::And => "&&",
        Op::Eq => "==",
        Op::Ne => "!=",
        Op::Lt => "<",
        Op::Le => "<=",
        Op::Gt => ">",
        Op::Ge => ">=",
        Op::Add => "+",
        Op::Sub => "-",
        Op::Mul => "*",
        Op::Div => "/",
    }
}

/// Appends a literal.
fn print_literal(out: &mut String, number: Num) -> Result<(), AllocError>
    ensures { OnOk result
        (string_bytes out.new ≡ string_bytes out.old ++ spec.literal_word number) }
{
    print_signed(out, "#", number.mantissa)?;
    print_number(out, ":", u64::from(number.frac))
}

/// Appends an expression, each operator before its operands.
pub fn print_expr(out: &mut String, expr: &Expr) -> Result<(), AllocError>
    ensures { OnOk result
        (string_bytes out.new ≡ string_bytes out.old ++ spec.expr_words (expr_of expr.now)) }
{
    match expr {
        Expr::Lit(number) => print_literal(out, *number),
        Expr::Flag(flag) => out.push_str(if *flag { "T" } else { "F" }),
        Expr::Read(datum) => print_number(out, "d", u64::from(*datum)),
        Expr::Active(state) => print_number(out, "in", u64::from(*state)),
        Expr::Neg(inner) => {
            out.push_str("~ ")?;
            print_expr(out, inner)
        }
        Expr::Not(inner) => {
            out.push_str("! ")?;
            print_expr(out, inner)
        }
        Expr::Bin(op, left, right) => {
            out.push_str(op_word(*op))?;
            out.push_str(" ")?;
            print_expr(out, left)?;
            out.push_str(" ")?;
            print_expr(out, right)
        }
    }
}
