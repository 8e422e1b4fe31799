//! Reserved words.

ghost use Rattle.std.specs.Prelude.{◌≡◌, ◌<◌, length, IfSome};
ghost use Rattle.sql_tokens.specs.Words as spec;

use crate::values::fold;

/// The reserved words in lower case, in their order.
pub static WORDS: [&[u8]; 59] = [
    b"all",
    b"and",
    b"as",
    b"asc",
    b"begin",
    b"between",
    b"by",
    b"case",
    b"coalesce",
    b"commit",
    b"count",
    b"create",
    b"cross",
    b"declare",
    b"delete",
    b"desc",
    b"distinct",
    b"else",
    b"end",
    b"exec",
    b"explain",
    b"false",
    b"from",
    b"group",
    b"having",
    b"if",
    b"in",
    b"inner",
    b"insert",
    b"into",
    b"is",
    b"join",
    b"left",
    b"like",
    b"limit",
    b"loop",
    b"max",
    b"min",
    b"not",
    b"null",
    b"offset",
    b"on",
    b"or",
    b"order",
    b"outer",
    b"raise",
    b"rollback",
    b"select",
    b"set",
    b"start",
    b"sum",
    b"then",
    b"true",
    b"union",
    b"update",
    b"values",
    b"when",
    b"where",
    b"while",
];

/// Whether a word in any case is one in lower case.
#[tactic(auto, using(crate::proofs::Names::unlike))]
pub fn is_same(word: &[u8], low: &[u8]) -> bool
    ensures { result ≡ spec.is_same word.now low.now }
{
    if word.len() != low.len() {
        return false;
    }
    for (i, b) in word.iter().enumerate() {
        if fold(*b) != low[i] {
            return false;
        }
    }
    true
}

/// The place of a word in a list of words in lower case.
pub fn place_of(word: &[u8], lows: &[&[u8]]) -> Option<usize>
    ensures place { result ≡ spec.place_of word.now (spec.shown lows.now) }
    ensures within { IfSome result (λ i. i < length lows.now) }
{
    for (i, low) in lows.iter().enumerate() {
        if is_same(word, low) {
            return Some(i);
        }
    }
    None
}

/// The place of a word among the reserved ones, if it is one.
#[tactic(auto, unfolding(crate::specs::Words::reserved))]
pub fn reserved(word: &[u8]) -> Option<usize>
    ensures place { result ≡ spec.reserved word.now }
    ensures within { IfSome result (λ i. i < 59) }
{
    place_of(word, &WORDS)
}
