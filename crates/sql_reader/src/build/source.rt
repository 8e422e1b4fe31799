//! What the tokens of a text say.

ghost use Rattle.std.specs.Prelude.{◌≡◌, ◌^◌, pos, IfOk};
ghost use Rattle.sql_reader.specs.Source as spec;
ghost use Rattle.sql_tokens.specs.Values.{decimal};

use crate::tree::{Constant, Literal, Name};
use sql_tokens::parts::{bytes_of, inner, name_of, text_of};
use sql_tokens::reserved::is_same;
use sql_tokens::values::{single, value};
use sql_tokens::{Kind, Token};
use std::alloc::Global;
use std::marker::Model;
use vdb_base::{NoMemory, Text, Value};

/// A text and its tokens.
#[derive(Drop)]
pub struct Source<'a> {
    pub text: &'a [u8],
    pub tokens: &'a [Token],
}

impl<'a> Model for Source<'a> {
    ghost use Rattle.sql_reader.specs.Source as spec;

    ghost Value = { spec.Source };

    ghost view = { λ s. record { text = s.text.now; tokens = s.tokens.now } };
}

const NO_TOKEN: Token = Token {
    kind: Kind::Bad,
    start: 0,
    end: 0,
};

/// A whole number, where it has at most 128 bits with its sign.
fn positive(digits: &[u8]) -> Constant
    ensures { result ≡ spec.positive (decimal 0 digits.now) }
{
    match value(digits) {
        Some(number) if number < 1 << 127 => Constant::Value(Value::Num(number as i128)),
        _ => Constant::TooLong,
    }
}

/// The number with a `-` before it, where it has at most 128 bits with its sign.
fn negative(digits: &[u8]) -> Constant
    ensures { result ≡ spec.negative (decimal 0 digits.now) }
{
    match value(digits) {
        Some(0) => Constant::Value(Value::Num(0)),
        Some(number) if number <= 1 << 127 => {
            Constant::Value(Value::Num(-((number - 1) as i128) - 1))
        }
        _ => Constant::TooLong,
    }
}

/// A numeral's number, where one past 2^127 stands for all that are longer.
fn whole(digits: &[u8]) -> u128
    ensures { result ≡ spec.whole (decimal 0 digits.now) }
{
    match value(digits) {
        Some(number) if number <= 1 << 127 => number,
        _ => (1 << 127) + 1,
    }
}

/// The number of a numeral, and 0 of other tokens.
fn whole_of(kind: Kind, bytes: &[u8]) -> u128
    ensures { result ≡ spec.whole_of kind bytes.now }
{
    match kind {
        Kind::Numeral => whole(bytes),
        _ => 0,
    }
}

/// The value of TRUE, FALSE or NULL.
fn word_constant(word: &[u8]) -> Constant
    ensures { result ≡ spec.word_constant word.now }
{
    if is_same(word, b"true") {
        Constant::Value(Value::Bool(true))
    } else if is_same(word, b"false") {
        Constant::Value(Value::Bool(false))
    } else {
        Constant::Value(Value::Null)
    }
}

fn or_empty(alloc: Global, text: Option<Text>) -> Text
    ensures { result ≡ spec.or_empty text }
{
    match text {
        Some(text) => text,
        None => Text::new(alloc),
    }
}

fn constant_of(alloc: Global, kind: Kind, bytes: &[u8]) -> Result<Constant, NoMemory>
    ensures { IfOk result (λ constant. constant ≡ spec.constant_of kind bytes.now) }
{
    match kind {
        Kind::Numeral => Ok(positive(bytes)),
        Kind::Fraction => Ok(Constant::Fraction),
        Kind::Text => {
            let text = text_of(single(alloc, b'\'', inner(bytes))?);
            Ok(Constant::Value(Value::Str(or_empty(alloc, text))))
        }
        _ => Ok(word_constant(bytes)),
    }
}

impl<'a> Source<'a> {
    /// The last of so many tokens.
    fn last_token(&self, count: usize) -> Token
        ensures { result ≡ spec.last_token self.now count }
    {
        let at = count.saturating_sub(1);
        if at < self.tokens.len() {
            self.tokens[at]
        } else {
            NO_TOKEN
        }
    }

    /// The place of the last of so many tokens.
    pub(crate) fn place_at(&self, count: usize) -> usize
        ensures { result ≡ spec.place_at self.now count }
    {
        self.last_token(count).start
    }

    /// The name that the last of so many tokens is.
    pub(crate) fn name_at(&self, alloc: Global, count: usize) -> Result<Name, NoMemory>
        ensures { IfOk result (λ name. name ≡ spec.name_at self.now count) }
    {
        let token = self.last_token(count);
        let text = name_of(alloc, token.kind, bytes_of(self.text, token))?;
        Ok(Name {
            text: or_empty(alloc, text),
            at: token.start,
        })
    }

    /// The literal that the last of so many tokens is.
    pub(crate) fn literal_at(&self, alloc: Global, count: usize) -> Result<Literal, NoMemory>
        ensures { IfOk result (λ literal. literal ≡ spec.literal_at self.now count) }
    {
        let token = self.last_token(count);
        let bytes = bytes_of(self.text, token);
        Ok(Literal {
            constant: constant_of(alloc, token.kind, bytes)?,
            negative: false,
            whole: whole_of(token.kind, bytes),
            at: token.start,
        })
    }

    /// The literal of a numeral, the last of so many tokens, and a `-` before it.
    pub(crate) fn negative_at(&self, count: usize) -> Literal
        ensures { result ≡ spec.negative_at self.now count }
    {
        let bytes = bytes_of(self.text, self.last_token(count));
        Literal {
            constant: negative(bytes),
            negative: true,
            whole: whole(bytes),
            at: self.place_at(count.saturating_sub(1)),
        }
    }
}
