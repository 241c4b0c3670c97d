//! The C that is written for charts: types, expressions and lines.
//!
//! What each means stands in `specs/Meaning.antt` and `specs/Running.antt`, by C99.
use flow_base::List;

/// How many bits an integer type has.
#[derive(Clone, Copy, PartialEq, Eq)]
pub enum Width {
    /// 8 bits.
    W8,
    /// 16 bits.
    W16,
    /// 32 bits.
    W32,
    /// 64 bits.
    W64,
    /// 128 bits.
    W128,
}

/// An integer type.
///
/// Source: C99, 7.18.1.1 and 7.16; of 128 bits an extended type (6.2.5 p4, p6).
#[derive(Clone, Copy)]
pub enum CType {
    /// `intN_t`
    Signed(Width),
    /// `uintN_t`
    Unsigned(Width),
    /// `bool`
    Truth,
}

/// An operator whose result is exact where it is one of the type.
#[derive(Clone, Copy, PartialEq, Eq)]
pub enum Arithmetic {
    /// `+`
    Plus,
    /// `-` of two numbers
    Less,
    /// `*`
    Times,
}

/// A division, which truncates towards 0.
#[derive(Clone, Copy, PartialEq, Eq)]
pub enum Division {
    /// `/`
    Quotient,
    /// `%`
    Remainder,
}

/// An operator on the bits of unsigned numbers.
#[derive(Clone, Copy, PartialEq, Eq)]
pub enum Bitwise {
    /// `&`
    BitAnd,
    /// `|`
    BitOr,
}

/// A comparison.
#[derive(Clone, Copy, PartialEq, Eq)]
pub enum Comparison {
    /// `==`
    IsEqual,
    /// `!=`
    IsUnequal,
    /// `<`
    IsBelow,
    /// `<=`
    IsAtMost,
    /// `>`
    IsAbove,
    /// `>=`
    IsAtLeast,
}

/// An expression. Fields and arrays of the struct are told by number, a local by its type and its
/// number.
#[derive(Drop)]
pub enum CExpr {
    /// A constant of that type.
    Const(CType, i128),
    /// A field of the struct.
    Field(u32),
    /// An element of an array of the struct.
    Element(u32, Box<CExpr>),
    /// A local.
    Local(CType, u32),
    /// `(T)e`
    Cast(CType, Box<CExpr>),
    /// `-e`
    Minus(Box<CExpr>),
    /// `!e`
    Bang(Box<CExpr>),
    /// `a + b`, `a - b`, `a * b`
    Calc(Arithmetic, Box<CExpr>, Box<CExpr>),
    /// `a / b`, `a % b`
    Divide(Division, Box<CExpr>, Box<CExpr>),
    /// `a & b`, `a | b`
    Bits(Bitwise, Box<CExpr>, Box<CExpr>),
    /// `a == b` and the other comparisons
    Compare(Comparison, Box<CExpr>, Box<CExpr>),
    /// `a && b`
    Both(Box<CExpr>, Box<CExpr>),
    /// `a || b`
    Either(Box<CExpr>, Box<CExpr>),
    /// `c ? (T)a : (T)b`
    Choose(CType, Box<CExpr>, Box<CExpr>, Box<CExpr>),
}

/// A case of a `switch`: for that value the function is called.
#[derive(Clone, Copy)]
pub struct Case {
    /// The value.
    pub label: u32,
    /// The function.
    pub function: u32,
}

/// A line of statements. What stands between `If` or `While` and its `Close` is nested.
#[derive(Drop)]
pub enum Line {
    /// `x = e;`
    Set(CType, u32, CExpr),
    /// `m->f = e;`
    Store(u32, CExpr),
    /// `m->a[i] = e;`
    StoreAt(u32, CExpr, CExpr),
    /// `x = f(m, e, ..);`
    Call(CType, u32, u32, List<CExpr>),
    /// `switch (e) { case C: x = f(m, e, ..); break; .. default: break; }`
    Select(CType, u32, CExpr, List<Case>, List<CExpr>),
    /// `if (e) {`
    If(CExpr),
    /// `} else {`
    Else,
    /// `while (e) {`
    While(CExpr),
    /// `}`
    Close,
    /// `return e;`
    Return(CExpr),
}

/// A function: its parameters are the locals of these types with the numbers from 0 on.
#[derive(Drop)]
pub struct Function {
    /// The type of what it returns.
    pub result: CType,
    /// The types of its parameters.
    pub parameters: List<CType>,
    /// Its statements.
    pub lines: List<Line>,
}
