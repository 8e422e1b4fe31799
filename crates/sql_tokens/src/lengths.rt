//! How far a comment, a quotation or a number goes.

ghost use Rattle.std.specs.Prelude.{◌≡◌, ◌≤◌, ◌+◌, ◌<◌, length, drop, true, false, slice_index, IfSome, IsTrue};
ghost use Rattle.std.specs.List.{prefix_len};
ghost use Rattle.sql_tokens.specs.Bytes.{belongs};
ghost use Rattle.sql_tokens.specs.Lengths as spec;

use crate::bytes::{self, Class};

/// How many bytes at the head are of a class.
pub fn run(class: Class, rest: &[u8]) -> usize
    ensures value { result ≡ prefix_len (belongs class) rest.now }
    ensures within { result ≤ length rest.now }
{
    for (i, b) in rest.iter().enumerate() {
        if !bytes::belongs(class, *b) {
            return i;
        }
    }
    rest.len()
}

/// The length of the rest of a quotation after its opening quote, if it is closed.
pub fn quoted(quote: u8, rest: &[u8]) -> Option<usize>
    ensures value { result ≡ spec.quoted quote false rest.now }
    ensures within { IfSome result (λ n. n ≤ length rest.now) }
{
    let mut shut = false;
    for (i, b) in rest.iter().enumerate() {
        if shut && *b != quote {
            return Some(i);
        }
        shut = !shut && *b == quote;
    }
    if shut { Some(rest.len()) } else { None }
}

/// The length up to and with the first `*/`, if there is one.
pub fn commented(rest: &[u8]) -> Option<usize>
    ensures value { result ≡ spec.commented false rest.now }
    ensures within { IfSome result (λ n. n ≤ length rest.now) }
{
    let mut star = false;
    for (i, b) in rest.iter().enumerate() {
        if star && *b == b'/' {
            return Some(i + 1);
        }
        star = *b == b'*';
    }
    None
}

/// The byte at a place, or 0 past the end.
pub fn byte_at(rest: &[u8], at: usize) -> u8
    ensures value { result ≡ slice_index rest.now at }
    ensures past { length rest.now ≤ at → result ≡ 0 }
{
    if at < rest.len() { rest[at] } else { 0 }
}

/// The bytes from a place on; none past the end.
pub fn after(rest: &[u8], at: usize) -> &[u8]
    ensures { result.now ≡ drop at rest.now }
{
    if at <= rest.len() {
        rest.split_at(at).1
    } else {
        rest.split_at(rest.len()).1
    }
}

/// How many digits are at the head.
pub fn digits(rest: &[u8]) -> usize
    ensures value { result ≡ spec.digits rest.now }
    ensures within { result ≤ length rest.now }
{
    run(Class::Digit, rest)
}

/// The length of a `.` and digits, or 0.
pub fn fraction(rest: &[u8]) -> usize
    ensures value { result ≡ spec.fraction rest.now }
    ensures within { result ≤ length rest.now }
{
    let n = digits(after(rest, 1));
    if byte_at(rest, 0) != b'.' || n == 0 {
        0
    } else {
        1 + n
    }
}

/// The length of a `+` or `-`, or 0.
pub fn signed(rest: &[u8]) -> usize
    ensures { result ≡ spec.signed rest.now }
{
    let b = byte_at(rest, 0);
    if b == b'+' || b == b'-' { 1 } else { 0 }
}

/// The length of an `e`, an optional sign and digits, or 0.
pub fn exponent(rest: &[u8]) -> usize
    ensures value { result ≡ spec.exponent rest.now }
    ensures within { result ≤ length rest.now }
{
    let s = 1 + signed(after(rest, 1));
    let n = digits(after(rest, s));
    let b = byte_at(rest, 0);
    if !(b == b'e' || b == b'E') || n == 0 {
        0
    } else {
        s + n
    }
}
