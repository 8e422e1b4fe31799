//! What tokens say: names, strings and numbers.

ghost use Rattle.std.specs.Prelude.{◌≡◌, ◌+◌, ◌-◌, ◌*◌, ◌^◌, IfOk, false};
ghost use Rattle.sql_tokens.specs.Values as spec;

use std::alloc::{AllocError, Global};

/// A letter in lower case.
pub fn fold(b: u8) -> u8
    ensures { result ≡ spec.fold b }
{
    if b'A' <= b && b <= b'Z' { b + 32 } else { b }
}

/// A word in lower case.
pub fn folded(alloc: Global, bytes: &[u8]) -> Result<Vec<u8>, AllocError>
    ensures { IfOk result (λ made. made.items ≡ spec.folded bytes.now) }
{
    let mut made = Vec::new(alloc);
    for b in bytes {
        made.push(fold(*b))?;
    }
    Ok(made)
}

/// The text between quotes, with one quote for two.
pub fn single(alloc: Global, quote: u8, inner: &[u8]) -> Result<Vec<u8>, AllocError>
    ensures { IfOk result (λ made. made.items ≡ spec.single quote false inner.now) }
{
    let mut made = Vec::new(alloc);
    let mut seen = false;
    for b in inner {
        if !seen && *b == quote {
            seen = true;
            continue;
        }
        made.push(*b)?;
        seen = false;
    }
    Ok(made)
}

/// A number with one more digit, if it has at most 128 bits.
fn more(n: u128, b: u8) -> Option<u128>
    ensures { result ≡ spec.below (2 ^ 128) (n * 10 + (b - 48)) }
{
    match n.checked_mul(10) {
        None => None,
        Some(ten) => ten.checked_add(b.saturating_sub(b'0') as u128),
    }
}

/// The value of a numeral, if it has at most 128 bits.
pub fn value(digits: &[u8]) -> Option<u128>
    ensures { result ≡ spec.value digits.now }
{
    let mut n: u128 = 0;
    for b in digits {
        match more(n, *b) {
            Some(next) => n = next,
            None => return None,
        }
    }
    Some(n)
}
