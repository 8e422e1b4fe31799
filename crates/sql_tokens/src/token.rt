//! Tokens.

use vdb_base::Seq;

/// What a token is.
#[derive(Clone, Copy, Debug, PartialEq, Eq)]
pub enum Kind {
    /// A letter or `_` with letters, digits and `_` after it.
    Word,
    /// A name in double quotes.
    Name,
    /// Digits.
    Numeral,
    /// Digits with a fraction, an exponent or both.
    Fraction,
    /// A string in single quotes.
    Text,
    /// `(`
    Open,
    /// `)`
    Close,
    /// `,`
    Comma,
    /// `.`
    Dot,
    /// `;`
    Semicolon,
    /// `=`
    Equal,
    /// `<>` or `!=`
    NotEqual,
    /// `<`
    Less,
    /// `<=`
    AtMost,
    /// `>`
    Greater,
    /// `>=`
    AtLeast,
    /// `+`
    Plus,
    /// `-`
    Minus,
    /// `*`
    Times,
    /// `||`
    Join,
    /// Bytes that belong to no token, or a quotation or comment that is broken or not closed.
    Bad,
}

/// A token with its place, and the place after it.
#[derive(Clone, Copy, Debug, PartialEq, Eq)]
pub struct Token {
    pub kind: Kind,
    pub start: usize,
    pub end: usize,
}

/// The tokens of a text in turn, and the text's length.
#[derive(Debug, Drop)]
pub struct Tokens {
    pub items: Seq<Token>,
    pub len: usize,
}
