//! How large functions are.
use c_subset::{CExpr, Function, Line};

/// The most lines of a function in which bodies are placed.
const MOST_LINES: u32 = 120;

/// The most branches of such a function: its McCabe number is one more.
const MOST_BRANCHES: u32 = 19;

/// The most lines of a body that is placed in any function: it takes hardly more than the call.
const PLAIN_LINES: u32 = 2;

/// The most lines of a function in which such bodies are placed. So it isn't nested or goes on deeper
/// than 200 statements, which a pass that decides tests asks of each function.
const LONGEST: u32 = 200;

/// How large a function is.
#[derive(Clone, Copy)]
pub struct Size {
    /// How many lines it has.
    pub lines: u32,
    /// How many tests and cases decide which way it goes.
    pub branches: u32,
}

impl Size {
    /// With so many bodies of that size.
    pub fn with(self, body: Size, bodies: u32) -> Size {
        Size {
            lines: self.lines.saturating_add(body.lines.saturating_mul(bodies)),
            branches: self
                .branches
                .saturating_add(body.branches.saturating_mul(bodies)),
        }
    }

    /// Whether a function in which bodies are placed may be so large.
    pub fn is_small(self) -> bool {
        self.lines <= MOST_LINES && self.branches <= MOST_BRANCHES
    }

    /// Whether a body takes hardly more than the call of it.
    pub fn is_plain(self) -> bool {
        self.lines <= PLAIN_LINES && self.branches == 0
    }

    /// Whether a function may be so large in which plain bodies are placed.
    pub fn is_short(self) -> bool {
        self.lines <= LONGEST
    }
}

/// One branch more than both have.
fn one_more(left: u32, right: u32) -> u32 {
    left.saturating_add(right).saturating_add(1)
}

/// The branches of an expression.
fn branches_of(expr: &CExpr) -> u32 {
    match expr {
        CExpr::Const(..) | CExpr::Field(_) | CExpr::Local(..) => 0,
        CExpr::Element(_, inner)
        | CExpr::Cast(_, inner)
        | CExpr::Minus(inner)
        | CExpr::Bang(inner) => branches_of(inner),
        CExpr::Calc(_, left, right) => branches_of(left).saturating_add(branches_of(right)),
        CExpr::Divide(_, left, right) => branches_of(left).saturating_add(branches_of(right)),
        CExpr::Bits(_, left, right) => branches_of(left).saturating_add(branches_of(right)),
        CExpr::Compare(_, left, right) => branches_of(left).saturating_add(branches_of(right)),
        CExpr::Both(left, right) => one_more(branches_of(left), branches_of(right)),
        CExpr::Either(left, right) => one_more(branches_of(left), branches_of(right)),
        CExpr::Choose(_, test, left, right) => one_more(
            branches_of(test),
            branches_of(left).saturating_add(branches_of(right)),
        ),
    }
}

/// The branches of a line.
fn branches_in(line: &Line) -> u32 {
    match line {
        Line::Set(_, _, expr) | Line::Store(_, expr) | Line::Return(expr) => branches_of(expr),
        Line::StoreAt(_, index, expr) => branches_of(index).saturating_add(branches_of(expr)),
        Line::Call(..) | Line::Else | Line::Close => 0,
        Line::Select(_, _, expr, cases, _) => {
            let ways = u32::try_from(cases.items().len()).unwrap_or(u32::MAX);
            branches_of(expr).saturating_add(ways)
        }
        Line::If(expr) | Line::While(expr) => branches_of(expr).saturating_add(1),
    }
}

/// How large the body of a function is with what sets its parameters, where it stands in place of a
/// call.
pub fn placed_size_of(function: &Function) -> Size {
    let own = size_of(function);
    let sets = u32::try_from(function.parameters.items().len()).unwrap_or(u32::MAX);
    Size {
        lines: own.lines.saturating_add(sets),
        branches: own.branches,
    }
}

/// How large a function is.
pub fn size_of(function: &Function) -> Size {
    let lines = function.lines.items();
    let mut branches: u32 = 0;
    for line in lines {
        branches = branches.saturating_add(branches_in(line));
    }
    Size {
        lines: u32::try_from(lines.len()).unwrap_or(u32::MAX),
        branches,
    }
}
