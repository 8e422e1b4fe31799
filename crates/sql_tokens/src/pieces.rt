//! What stands at the head of a text: a token, white space or a comment.

ghost use Rattle.std.specs.Prelude.{◌≡◌, ◌<◌, ◌≤◌, length, drop, ◌+◌, false};
ghost use Rattle.std.specs.List.{list_all};
ghost use Rattle.std.specs.Str.{is_utf8};
ghost use Rattle.sql_tokens.specs.Bytes as class;
ghost use Rattle.sql_tokens.specs.Lengths as far;
ghost use Rattle.sql_tokens.specs.Pieces as spec;

use crate::bytes::{Class, is_blank, is_digit, is_letter, is_printable};
use crate::lengths::{after, byte_at, commented, digits, exponent, fraction, quoted, run};
use crate::token::Kind;

/// A token by its kind, or a gap between tokens, with its length.
#[derive(Clone, Copy)]
pub struct Piece {
    pub kind: Option<Kind>,
    pub len: usize,
}

/// White space or a comment.
fn gap(len: usize) -> Piece
    ensures { result ≡ spec.gap len }
{
    Piece { kind: None, len }
}

/// A token.
fn one(kind: Kind, len: usize) -> Piece
    ensures { result ≡ spec.one kind len }
{
    Piece {
        kind: Some(kind),
        len,
    }
}

/// A comment between `/*` and `*/`.
fn comment(rest: &[u8]) -> Piece
    requires { 2 ≤ length rest.now }
    ensures value { result ≡ spec.comment rest.now (far.commented false (drop 2 rest.now)) }
    ensures some { 0 < result.len }
    ensures within { result.len ≤ length rest.now }
{
    match commented(after(rest, 2)) {
        None => one(Kind::Bad, rest.len()),
        Some(n) => gap(2 + n),
    }
}

/// Whether all bytes are printable ASCII.
fn all_printable(bytes: &[u8]) -> bool
    ensures { result ≡ list_all class.is_printable bytes.now }
{
    bytes.iter().all(|b| is_printable(*b))
}

/// Whether the bytes are text.
#[tactic(auto, using(crate::proofs::Utf8::tests))]
fn is_utf8(bytes: &[u8]) -> bool
    ensures { result ≡ is_utf8 bytes.now }
{
    match str::from_utf8(bytes) {
        Ok(_) => true,
        Err(_) => false,
    }
}

/// A name in quotes.
fn name(rest: &[u8]) -> Piece
    requires { 0 < length rest.now }
    ensures value { result ≡ spec.closed Kind.Name (list_all class.is_printable) rest.now (far.quoted 34 false (drop 1 rest.now)) }
    ensures some { 0 < result.len }
    ensures within { result.len ≤ length rest.now }
{
    match quoted(b'"', after(rest, 1)) {
        None => one(Kind::Bad, rest.len()),
        Some(n) => {
            if all_printable(rest.split_at(1 + n).0) {
                one(Kind::Name, 1 + n)
            } else {
                one(Kind::Bad, 1 + n)
            }
        }
    }
}

/// A string in quotes.
fn text(rest: &[u8]) -> Piece
    requires { 0 < length rest.now }
    ensures value { result ≡ spec.closed Kind.Text is_utf8 rest.now (far.quoted 39 false (drop 1 rest.now)) }
    ensures some { 0 < result.len }
    ensures within { result.len ≤ length rest.now }
{
    match quoted(b'\'', after(rest, 1)) {
        None => one(Kind::Bad, rest.len()),
        Some(n) => {
            if is_utf8(rest.split_at(1 + n).0) {
                one(Kind::Text, 1 + n)
            } else {
                one(Kind::Bad, 1 + n)
            }
        }
    }
}

/// A numeral or a fractional literal.
fn number(rest: &[u8]) -> Piece
    ensures value { result ≡ spec.number rest.now }
    ensures some { 0 < far.digits rest.now → 0 < result.len }
    ensures within { result.len ≤ length rest.now }
{
    let whole = digits(rest);
    let point = fraction(after(rest, whole));
    let power = exponent(after(rest, whole + point));
    if point + power != 0 {
        one(Kind::Fraction, whole + point + power)
    } else if is_letter(byte_at(rest, whole)) {
        one(Kind::Bad, whole)
    } else {
        one(Kind::Numeral, whole)
    }
}

/// A sign by its first two bytes: the longest that fits.
fn sign(a: u8, b: u8) -> Piece
    ensures value { result ≡ spec.sign a b }
    ensures some { 0 < result.len }
    ensures short { result.len ≤ 2 }
    ensures alone { b ≡ 0 → result.len ≤ 1 }
{
    if a == b'<' && b == b'>' {
        one(Kind::NotEqual, 2)
    } else if a == b'!' && b == b'=' {
        one(Kind::NotEqual, 2)
    } else if a == b'<' && b == b'=' {
        one(Kind::AtMost, 2)
    } else if a == b'>' && b == b'=' {
        one(Kind::AtLeast, 2)
    } else if a == b'|' && b == b'|' {
        one(Kind::Join, 2)
    } else if a == b'(' {
        one(Kind::Open, 1)
    } else if a == b')' {
        one(Kind::Close, 1)
    } else if a == b',' {
        one(Kind::Comma, 1)
    } else if a == b'.' {
        one(Kind::Dot, 1)
    } else if a == b';' {
        one(Kind::Semicolon, 1)
    } else if a == b'=' {
        one(Kind::Equal, 1)
    } else if a == b'<' {
        one(Kind::Less, 1)
    } else if a == b'>' {
        one(Kind::Greater, 1)
    } else if a == b'+' {
        one(Kind::Plus, 1)
    } else if a == b'-' {
        one(Kind::Minus, 1)
    } else if a == b'*' {
        one(Kind::Times, 1)
    } else {
        one(Kind::Bad, 1)
    }
}

/// What may begin with two bytes.
#[derive(Clone, Copy)]
enum Opening {
    Space,
    Line,
    Block,
    Letter,
    Digit,
    Double,
    Single,
    Other,
}

/// What begins with a byte and the one after it.
fn opens(a: u8, b: u8) -> Opening
    ensures { result ≡ spec.opens a b }
{
    if is_blank(a) {
        Opening::Space
    } else if a == b'-' && b == b'-' {
        Opening::Line
    } else if a == b'/' && b == b'*' {
        Opening::Block
    } else if is_letter(a) {
        Opening::Letter
    } else if is_digit(a) {
        Opening::Digit
    } else if a == b'"' {
        Opening::Double
    } else if a == b'\'' {
        Opening::Single
    } else {
        Opening::Other
    }
}

/// The piece at the head of a text that has bytes.
#[tactic(auto, unfolding(crate::specs::Pieces::piece))]
pub fn head_piece(rest: &[u8]) -> Piece
    requires { 0 < length rest.now }
    ensures value { result ≡ spec.piece rest.now }
    ensures some { 0 < result.len }
    ensures within { result.len ≤ length rest.now }
{
    let a = byte_at(rest, 0);
    let b = byte_at(rest, 1);
    match opens(a, b) {
        Opening::Space => gap(run(Class::Blank, rest)),
        Opening::Line => gap(run(Class::InLine, rest)),
        Opening::Block => comment(rest),
        Opening::Letter => one(Kind::Word, run(Class::Word, rest)),
        Opening::Digit => number(rest),
        Opening::Double => name(rest),
        Opening::Single => text(rest),
        Opening::Other => sign(a, b),
    }
}
