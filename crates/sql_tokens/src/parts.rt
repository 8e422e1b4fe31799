//! What single tokens say: words and names.

ghost use Rattle.std.specs.Prelude.{◌≡◌, IfOk};
ghost use Rattle.sql_tokens.specs.Parts as spec;

use crate::lengths::after;
use crate::reserved::reserved;
use crate::token::{Kind, Token};
use crate::values::{folded, single};
use std::alloc::Global;
use vdb_base::{NoMemory, Text};

/// The most bytes that a name may have.
pub const NAME_LIMIT: usize = 64;

/// A token's bytes in its text.
pub fn bytes_of<'a>(text: &'a [u8], token: Token) -> &'a [u8]
    ensures { result.now ≡ spec.bytes_of text.now token }
{
    let rest = after(text, token.start);
    let len = token.end.saturating_sub(token.start);
    if len <= rest.len() {
        rest.split_at(len).0
    } else {
        rest
    }
}

/// What stands between the quotes.
pub fn inner(bytes: &[u8]) -> &[u8]
    ensures { result.now ≡ spec.inner bytes.now }
{
    let rest = after(bytes, 1);
    if bytes.len() < 2 {
        rest.split_at(0).0
    } else {
        rest.split_at(bytes.len() - 2).0
    }
}

/// The text that bytes are, if they are one.
#[tactic(auto, using(crate::proofs::Utf8::tests))]
pub fn text_of(bytes: Vec<u8>) -> Option<Text>
    ensures { result ≡ spec.text_of bytes.items }
{
    match String::from_utf8(bytes) {
        Ok(text) => Some(Text::from_string(text)),
        Err(_) => None,
    }
}

/// A name that isn't empty or too long.
fn short(name: Vec<u8>) -> Option<Text>
    ensures { result ≡ spec.short name.items }
{
    if 1 <= name.len() && name.len() <= NAME_LIMIT {
        text_of(name)
    } else {
        None
    }
}

/// The name that a token is, if it is one.
pub fn name_of(alloc: Global, kind: Kind, bytes: &[u8]) -> Result<Option<Text>, NoMemory>
    ensures { IfOk result (λ name. name ≡ spec.name_of kind bytes.now) }
{
    match kind {
        Kind::Word => {
            if reserved(bytes).is_some() {
                return Ok(None);
            }
            Ok(short(folded(alloc, bytes)?))
        }
        Kind::Name => {
            let name = single(alloc, b'"', inner(bytes))?;
            Ok(short(folded(alloc, name.as_slice())?))
        }
        _ => Ok(None),
    }
}
