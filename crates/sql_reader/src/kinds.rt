//! The kinds that tokens have in the grammar.

ghost use Rattle.std.specs.Prelude.{◌≡◌, ◌<◌, ◌&&◌, ◌==◌, not, length, false, IfOk, IfSome};
ghost use Rattle.sql_reader.specs.Kinds as spec;
ghost use Rattle.sql_reader.specs.SoftWords.{soft};
ghost use Rattle.sql_tokens.specs.Values.{single};

use crate::soft_words::SOFT_WORDS;
use crate::symbols::{
    AT_LEAST, AT_MOST, BARS, CLOSE, COMMA, DOT, EQUAL, FIRST_WORD, FRACTION, GREATER, LESS, MINUS,
    NAME, NOT_EQUAL, NOWHERE, NUMERAL, OPEN, PLUS, SEMICOLON, STRING, TIMES,
};
use sql_tokens::parts::{NAME_LIMIT, bytes_of, inner};
use sql_tokens::reserved::{place_of, reserved};
use sql_tokens::{Kind, Token};
use std::alloc::Global;
use vdb_base::NoMemory;

/// Whether a byte is the first of two quotes.
fn is_first(quote: u8, seen: bool, b: u8) -> bool
    ensures { result ≡ (not seen && b == quote) }
{
    !seen && b == quote
}

/// How long the text between quotes is, with one quote for two.
#[tactic(auto, using(crate::proofs::Singles::one_more))]
fn single_len(quote: u8, inner: &[u8]) -> usize
    ensures { result ≡ length (single quote false inner.now) }
{
    let mut len = 0;
    let mut seen = false;
    for b in inner {
        seen = is_first(quote, seen, *b);
        if !seen {
            len += 1;
        }
    }
    len
}

/// The kind of a name of so many bytes.
fn name_kind(len: usize) -> u16
    ensures { result ≡ spec.name_kind len }
{
    if 1 <= len && len <= NAME_LIMIT {
        NAME
    } else {
        NOWHERE
    }
}

/// The place of a word among those that the grammars know and that may stand as names, if it is one.
#[tactic(auto, unfolding(crate::specs::SoftWords::soft))]
fn soft_word(word: &[u8]) -> Option<usize>
    ensures place { result ≡ soft word.now }
    ensures within { IfSome result (λ i. i < 28) }
{
    place_of(word, &SOFT_WORDS)
}

/// The kind of a word: of a reserved word its place, of another word of the grammars one of its own, else a name's.
fn word_kind(bytes: &[u8]) -> u16
    ensures { result ≡ spec.word_kind bytes.now }
{
    if let Some(at) = reserved(bytes) {
        return at as u16;
    }
    match soft_word(bytes) {
        Some(at) => FIRST_WORD + at as u16,
        None => name_kind(bytes.len()),
    }
}

/// The kind that a token has in the grammar.
fn kind_of(kind: Kind, bytes: &[u8]) -> u16
    ensures { result ≡ spec.kind_of kind bytes.now }
{
    match kind {
        Kind::Word => word_kind(bytes),
        Kind::Name => name_kind(single_len(b'"', inner(bytes))),
        Kind::Numeral => NUMERAL,
        Kind::Fraction => FRACTION,
        Kind::Text => STRING,
        Kind::Open => OPEN,
        Kind::Close => CLOSE,
        Kind::Comma => COMMA,
        Kind::Dot => DOT,
        Kind::Semicolon => SEMICOLON,
        Kind::Equal => EQUAL,
        Kind::NotEqual => NOT_EQUAL,
        Kind::Less => LESS,
        Kind::AtMost => AT_MOST,
        Kind::Greater => GREATER,
        Kind::AtLeast => AT_LEAST,
        Kind::Plus => PLUS,
        Kind::Minus => MINUS,
        Kind::Times => TIMES,
        Kind::Join => BARS,
        Kind::Bad => NOWHERE,
    }
}

/// The kinds of a text's tokens in turn.
pub fn kinds_of(alloc: Global, text: &[u8], tokens: &[Token]) -> Result<Vec<u16>, NoMemory>
    ensures { IfOk result (λ kinds. kinds.items ≡ spec.kinds_of text.now tokens.now) }
{
    let mut kinds = Vec::with_capacity(alloc, tokens.len())?;
    for token in tokens {
        kinds.push(kind_of(token.kind, bytes_of(text, *token)))?;
    }
    Ok(kinds)
}
