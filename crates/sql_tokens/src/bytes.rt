//! The classes of bytes.

ghost use Rattle.std.specs.Prelude.{◌≡◌};
ghost use Rattle.sql_tokens.specs.Bytes as spec;

/// White space.
pub fn is_blank(b: u8) -> bool
    ensures { result ≡ spec.is_blank b }
{
    b == b' ' || b == b'\t' || b == b'\r' || b == b'\n'
}

/// `0` to `9`.
pub fn is_digit(b: u8) -> bool
    ensures { result ≡ spec.is_digit b }
{
    b'0' <= b && b <= b'9'
}

/// An ASCII letter or `_`.
pub fn is_letter(b: u8) -> bool
    ensures { result ≡ spec.is_letter b }
{
    (b'A' <= b && b <= b'Z') || (b'a' <= b && b <= b'z') || b == b'_'
}

/// A byte of a word after its first.
pub fn is_word(b: u8) -> bool
    ensures { result ≡ spec.is_word b }
{
    is_letter(b) || is_digit(b)
}

/// Printable ASCII.
pub fn is_printable(b: u8) -> bool
    ensures { result ≡ spec.is_printable b }
{
    b' ' <= b && b <= b'~'
}

/// Any byte but LF.
pub fn is_in_line(b: u8) -> bool
    ensures { result ≡ spec.is_in_line b }
{
    b != b'\n'
}

/// The classes that runs of bytes are made of.
#[derive(Clone, Copy)]
pub enum Class {
    /// White space.
    Blank,
    /// Any byte but LF.
    InLine,
    /// Letters, digits and `_`.
    Word,
    Digit,
}

/// Whether a byte is of a class.
pub fn belongs(class: Class, b: u8) -> bool
    ensures { result ≡ spec.belongs class b }
{
    match class {
        Class::Blank => is_blank(b),
        Class::InLine => is_in_line(b),
        Class::Word => is_word(b),
        Class::Digit => is_digit(b),
    }
}
