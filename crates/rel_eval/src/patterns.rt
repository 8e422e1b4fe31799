//! Patterns of LIKE.
//!
//! A pattern is matched piece by piece, each of them up to a `%`. A piece is tried at each end of the text in turn, and
//! the first at which it matches serves as well as any later one, since what is left behind it is longest. So the time goes
//! by the text's length times the pattern's, and nothing is recursive.

ghost use Rattle.std.specs.Prelude.{◌≡◌, ◌≤◌, length, true};
ghost use Rattle.std.specs.Option.{option_copied};
ghost use Rattle.vdb_model.specs.Words as spec;
ghost use Rattle.vdb_model.specs.Words.{some_end};
ghost use Rattle.rel_eval.specs.Pieces.{has_rest, rest_size, holds, taken};

/// What became of a piece.
#[derive(Clone, Copy)]
enum Piece<'a> {
    Fails,
    /// Pattern and text ended together.
    Ends,
    /// What is left of the pattern behind the `%`, and of the text.
    Rest(&'a [u8], &'a [u8]),
}

fn goes_on(b: u8) -> bool
    ensures { result ≡ spec.goes_on b }
{
    (128..192).contains(&b)
}

fn after_char(mut text: &[u8]) -> &[u8]
    ensures { result.now ≡ spec.after_char text.entry.now }
{
    while let [b, rest @ ..] = text {
        if !goes_on(*b) {
            break;
        }
        text = rest;
    }
    text
}

/// The text behind what one byte of a pattern other than `%` takes: `_` a character, and another byte itself.
fn behind<'a>(p: u8, text: &'a [u8]) -> Option<&'a [u8]>
    ensures { option_copied result ≡ taken p text.entry.now }
{
    match text {
        [] => None,
        [b, rest @ ..] => {
            if p == b'_' {
                if goes_on(*b) {
                    None
                } else {
                    Some(after_char(rest))
                }
            } else if p == *b {
                Some(rest)
            } else {
                None
            }
        }
    }
}

/// Matches a piece with what the text begins with.
fn begins<'a>(mut pattern: &'a [u8], mut text: &'a [u8]) -> Piece<'a>
    ensures holds { holds result ≡ spec.is_like pattern.entry.now text.entry.now }
    ensures first { has_rest result ≡ true → some_end (spec.is_like pattern.entry.now) text.entry.now ≡ holds result }
    ensures shorter { rest_size result ≤ length pattern.entry.now }
{
    while let [p, more @ ..] = pattern {
        if *p == b'%' {
            return Piece::Rest(more, text);
        }
        match behind(*p, text) {
            Some(rest) => text = rest,
            None => return Piece::Fails,
        }
        pattern = more;
    }
    if text.is_empty() {
        Piece::Ends
    } else {
        Piece::Fails
    }
}

/// Matches a piece with the first end of the text that begins with it.
fn found<'a>(pattern: &'a [u8], text: &'a [u8]) -> Piece<'a>
    ensures holds { holds result ≡ some_end (spec.is_like pattern.entry.now) text.entry.now }
    ensures shorter { rest_size result ≤ length pattern.entry.now }
{
    let mut end = text;
    while let [_, rest @ ..] = end {
        match begins(pattern, end) {
            Piece::Fails => end = rest,
            Piece::Ends => return Piece::Ends,
            Piece::Rest(pattern, text) => return Piece::Rest(pattern, text),
        }
    }
    begins(pattern, end)
}

/// Whether some end of the text matches.
fn has_end(pattern: &[u8], text: &[u8]) -> bool
    ensures { result ≡ some_end (spec.is_like pattern.now) text.now }
{
    let mut piece = found(pattern, text);
    while let Piece::Rest(pattern, text) = piece {
        piece = found(pattern, text);
    }
    matches!(piece, Piece::Ends)
}

/// Whether the whole text matches: `%` is any text, `_` one character, and another byte itself.
pub fn is_like(pattern: &[u8], text: &[u8]) -> bool
    ensures { result ≡ spec.is_like pattern.now text.now }
{
    match begins(pattern, text) {
        Piece::Fails => false,
        Piece::Ends => true,
        Piece::Rest(pattern, text) => has_end(pattern, text),
    }
}
