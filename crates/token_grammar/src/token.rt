//! The tokens of a chart text.

/// A place in a text: lines and columns count from 1, a column is a byte.
#[derive(Clone, Copy, Debug, PartialEq, Eq)]
pub struct Span {
    /// The line.
    pub line: u32,
    /// The byte of the line.
    pub column: u32,
}

/// What a token is: a reserved word of the chart language, a name, a number, a comment or a symbol.
#[derive(Clone, Copy, Debug, PartialEq, Eq)]
pub enum Kind {
    /// `chart`
    Chart,
    /// `or`
    Or,
    /// `and`
    And,
    /// `state`
    State,
    /// `entry`
    Entry,
    /// `during`
    During,
    /// `exit`
    Exit,
    /// `outer`
    Outer,
    /// `inner`
    Inner,
    /// `default`
    Default,
    /// `junction`
    Junction,
    /// `event`
    Event,
    /// `input`
    Input,
    /// `output`
    Output,
    /// `local`
    Local,
    /// `send`
    Send,
    /// `to`
    To,
    /// `emit`
    Emit,
    /// `in`
    In,
    /// `true`
    True,
    /// `false`
    False,
    /// `tick`
    Tick,
    /// `saturate`
    Saturate,
    /// `wrap`
    Wrap,
    /// `error`
    Error,
    /// `history`
    History,
    /// A name: a letter, and then letters, digits and underscores, but no reserved word.
    Name,
    /// A number.
    Number,
    /// A comment, up to the end of its line.
    Comment,
    /// `{`
    OpenBrace,
    /// `}`
    CloseBrace,
    /// `[`
    OpenBracket,
    /// `]`
    CloseBracket,
    /// `(`
    OpenParen,
    /// `)`
    CloseParen,
    /// `;`
    Semicolon,
    /// `:`
    Colon,
    /// `,`
    Comma,
    /// `@`
    At,
    /// `=`
    Assign,
    /// `->`
    Arrow,
    /// `/`
    Slash,
    /// `+`
    Plus,
    /// `-`
    Minus,
    /// `*`
    Star,
    /// `==`
    EqualEqual,
    /// `!=`
    NotEqual,
    /// `<`
    Less,
    /// `<=`
    LessEqual,
    /// `>`
    Greater,
    /// `>=`
    GreaterEqual,
    /// `&&`
    AndAnd,
    /// `||`
    OrOr,
    /// `!`
    Not,
}

/// A token, its bytes and the place of the first of them.
#[derive(Clone, Copy)]
pub struct Token<'a> {
    /// What it is.
    pub kind: Kind,
    /// Its bytes.
    pub text: &'a [u8],
    /// The place of its first byte.
    pub at: Span,
}
