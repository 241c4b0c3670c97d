//! Which locals the lines of a function may read before they set them.
ghost use Rattle.std.specs.Prelude.{◌≡◌, ◌+◌, ◌<◌, ◌^◌, None, IfSome};
ghost use Rattle.c_subset.specs.Trees as c;
ghost use Rattle.c_subset.specs.Lines.{expr_of, exprs_of, line_of, lines_in, lines_of};
ghost use Rattle.c_subset.specs.Meaning.{bits};
ghost use Rattle.c_subset.specs.Running.{same_type};
ghost use Rattle.c_bare.specs.Needs as spec;
ghost use Rattle.c_bare.specs.Scanning as scanning;

use c_subset::{CExpr, CType, Line, Width};

/// Whether a function is bare.
pub fn is_bare(flags: &[bool], function: usize) -> bool
    ensures { result ≡ spec.is_bare flags.now function }
{
    match flags.get(function) {
        Some(flag) => *flag,
        None => false,
    }
}

/// How many bits a width has.
fn bits(width: Width) -> u32
    ensures { result ≡ bits width }
{
    match width {
        Width::W8 => 8,
        Width::W16 => 16,
        Width::W32 => 32,
        Width::W64 => 64,
        Width::W128 => 128,
    }
}

/// Whether it is `bool`.
fn is_truth(of: CType) -> bool
    ensures { result ≡ same_type CType.Truth of }
{
    match of {
        CType::Signed(_) | CType::Unsigned(_) => false,
        CType::Truth => true,
    }
}

/// Whether both are one type.
pub fn is_same(left: CType, right: CType) -> bool
    ensures { result ≡ same_type left right }
{
    match left {
        CType::Signed(width) => match right {
            CType::Signed(other) => bits(width) == bits(other),
            CType::Unsigned(_) | CType::Truth => false,
        },
        CType::Unsigned(width) => match right {
            CType::Unsigned(other) => bits(width) == bits(other),
            CType::Signed(_) | CType::Truth => false,
        },
        CType::Truth => is_truth(right),
    }
}

/// Whether a local is that of a type with a number.
pub fn is_it(of: CType, local: usize, own: CType, number: u32) -> bool
    ensures { result ≡ spec.is_it of local own number }
{
    local == number as usize && is_same(of, own)
}

/// Whether an expression names the local.
#[tactic(auto, unfolding(crate::specs::Needs::reads))]
fn reads(of: CType, local: usize, expr: &CExpr) -> bool
    ensures { result ≡ spec.reads of local (expr_of expr.now) }
{
    match expr {
        CExpr::Const(..) | CExpr::Field(_) => false,
        CExpr::Local(own, number) => is_it(of, local, *own, *number),
        CExpr::Element(_, inner)
        | CExpr::Cast(_, inner)
        | CExpr::Minus(inner)
        | CExpr::Bang(inner) => reads(of, local, inner),
        CExpr::Calc(_, left, right) => reads(of, local, left) || reads(of, local, right),
        CExpr::Divide(_, left, right) => reads(of, local, left) || reads(of, local, right),
        CExpr::Bits(_, left, right) => reads(of, local, left) || reads(of, local, right),
        CExpr::Compare(_, left, right) => reads(of, local, left) || reads(of, local, right),
        CExpr::Both(left, right) => reads(of, local, left) || reads(of, local, right),
        CExpr::Either(left, right) => reads(of, local, left) || reads(of, local, right),
        CExpr::Choose(_, test, left, right) => {
            reads(of, local, test) || reads(of, local, left) || reads(of, local, right)
        }
    }
}

/// Whether one of the expressions does.
fn any_reads(of: CType, local: usize, exprs: &[CExpr]) -> bool
    ensures { result ≡ spec.any_reads of local (exprs_of exprs.now) }
{
    for expr in exprs {
        if reads(of, local, expr) {
            return true;
        }
    }
    false
}

/// Whether a line names the local, where a bare function is handed nothing.
fn line_reads(flags: &[bool], of: CType, local: usize, line: &Line) -> bool
    ensures { result ≡ scanning.line_reads flags.now of local (line_of line.now) }
{
    match line {
        Line::Set(_, _, expr)
        | Line::Store(_, expr)
        | Line::If(expr)
        | Line::While(expr)
        | Line::Return(expr) => reads(of, local, expr),
        Line::StoreAt(_, index, expr) => reads(of, local, index) || reads(of, local, expr),
        Line::Call(_, _, function, args) => {
            !is_bare(flags, *function as usize) && any_reads(of, local, args.items())
        }
        Line::Select(_, _, expr, _, args) => {
            reads(of, local, expr) || any_reads(of, local, args.items())
        }
        Line::Else | Line::Close => false,
    }
}

/// Whether a line sets the local, whatever happens.
fn line_sets(of: CType, local: usize, line: &Line) -> bool
    ensures { result ≡ scanning.line_sets of local (line_of line.now) }
{
    match line {
        Line::Set(own, number, _) => is_it(of, local, *own, *number),
        Line::Call(own, number, _, _) => is_it(of, local, *own, *number),
        Line::Store(..)
        | Line::StoreAt(..)
        | Line::Select(..)
        | Line::If(_)
        | Line::Else
        | Line::While(_)
        | Line::Close
        | Line::Return(_) => false,
    }
}

/// How many blocks are open after one closes, where so many are since the local was set.
fn fewer_open(blocks: usize) -> Option<usize>
    ensures { result ≡ scanning.fewer_open blocks }
{
    if blocks == 0 { None } else { Some(blocks - 1) }
}

/// How many are in the second part of an `if`.
fn other_part(blocks: usize) -> Option<usize>
    ensures { result ≡ scanning.other_part blocks }
{
    if blocks == 0 { None } else { Some(blocks) }
}

/// How many are after a line.
fn open_after(line: &Line, blocks: usize) -> Option<usize>
    requires fits { blocks + 1 < 2 ^ 64 }
    ensures { result ≡ scanning.open_after (line_of line.now) blocks }
{
    match line {
        Line::If(_) | Line::While(_) => Some(blocks + 1),
        Line::Else => other_part(blocks),
        Line::Close => fewer_open(blocks),
        Line::Set(..)
        | Line::Store(..)
        | Line::StoreAt(..)
        | Line::Call(..)
        | Line::Select(..)
        | Line::Return(_) => Some(blocks),
    }
}

/// How many are after a line, where the local may not be set yet.
fn since_after(of: CType, local: usize, line: &Line, since: Option<usize>) -> Option<usize>
    requires fits { IfSome since (λ blocks. blocks + 1 < 2 ^ 64) }
    ensures { result ≡ scanning.since_after of local (line_of line.now) since }
{
    match since {
        Some(blocks) => open_after(line, blocks),
        None => {
            if line_sets(of, local, line) {
                Some(0)
            } else {
                None
            }
        }
    }
}

/// Whether a line names the local, where it isn't set.
fn line_needs(flags: &[bool], of: CType, local: usize, line: &Line, since: Option<usize>) -> bool
    ensures { result ≡ scanning.line_needs flags.now of local (line_of line.now) since }
{
    match since {
        Some(_) => false,
        None => line_reads(flags, of, local, line),
    }
}

/// Whether one of the lines does.
fn lines_need(flags: &[bool], of: CType, local: usize, lines: &[Line]) -> bool
    ensures { result ≡ scanning.lines_need flags.now of local (lines_in lines.now) None }
{
    let mut since = None;
    for line in lines {
        if line_needs(flags, of, local, line, since) {
            return true;
        }
        since = since_after(of, local, line, since);
    }
    false
}

/// Whether statements may read the local of a type with a number before they set it, where a bare
/// function is handed nothing.
fn needs(flags: &[bool], of: CType, local: usize, lines: &[Line]) -> bool
    ensures { (b : c.Block) → lines_in lines.now ≡ lines_of b →
        result ≡ spec.needs flags.now of local b }
{
    lines_need(flags, of, local, lines)
}

/// Whether statements need none of the parameters of these types.
pub fn needs_none(flags: &[bool], types: &[CType], lines: &[Line]) -> bool
    ensures { (b : c.Block) → lines_in lines.now ≡ lines_of b →
        result ≡ spec.needs_none flags.now 0 types.now b }
{
    for (local, of) in types.iter().enumerate() {
        if needs(flags, *of, local, lines) {
            return false;
        }
    }
    true
}
