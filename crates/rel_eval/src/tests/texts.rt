//! LIKE and concatenation.

ghost use Rattle.std.specs.Prelude.{◌<◌};

use super::{boxed, gives, gives_word, maybe_word, two, word};
use std::alloc::Global;
use std::process::Abort;
use std::test::Fail;
use vdb_base::{NoMemory, Text, Value};
use vdb_model::Expr;

fn like(alloc: Global, v: Value, pattern: &str) -> Result<Expr, NoMemory> {
    let v = boxed(alloc, v)?;
    Ok(Expr::Like(v, Text::from_str(alloc, pattern)?))
}

fn word_like(alloc: Global, text: &str, pattern: &str) -> Result<Expr, NoMemory> {
    like(alloc, word(alloc, text)?, pattern)
}

/// A text, a pattern, and whether the text is like it.
fn try_each<A: Abort>(rt: &A, alloc: Global, cases: &[(&str, &str, bool)]) -> Result<(), NoMemory> {
    for (text, pattern, want) in cases {
        let e = word_like(alloc, text, pattern)?;
        assert!(rt;
            gives(alloc, e, Value::Bool(*want))?,
            "{text} LIKE {pattern}"
        );
    }
    Ok(())
}

fn linked(alloc: Global, a: Option<&str>, b: Option<&str>) -> Result<Expr, NoMemory> {
    let a = maybe_word(alloc, a)?;
    Ok(Expr::Concat(two(alloc, a, maybe_word(alloc, b)?)?))
}

#[test]
fn any_text(rt: HostRuntime) -> Result<(), Fail> {
    let cases = [
        ("", "%", true),
        ("abc", "%", true),
        ("abc", "a%", true),
        ("abc", "b%", false),
        ("abc", "%c", true),
        ("abc", "%b", false),
        ("abc", "%b%", true),
        ("abc", "%%", true),
        ("abcbd", "a%b%d", true),
        ("abcbd", "a%d%b", false),
        ("aab", "%ab", true),
    ];
    try_each(&rt, rt.alloc(), &cases)?;
    Ok(())
}

#[test]
fn one_character(rt: HostRuntime) -> Result<(), Fail> {
    let cases = [
        ("a", "_", true),
        ("", "_", false),
        ("ab", "_", false),
        ("é", "_", true),
        ("é", "__", false),
        ("aéb", "a_b", true),
        ("日本", "_本", true),
        ("日本", "__", true),
        ("日本", "%_", true),
        ("日", "_%_", false),
    ];
    try_each(&rt, rt.alloc(), &cases)?;
    Ok(())
}

#[test]
fn other_characters(rt: HostRuntime) -> Result<(), Fail> {
    let cases = [
        ("", "", true),
        ("a", "", false),
        ("abc", "abc", true),
        ("abc", "ABC", false),
        ("abc", "ab", false),
        ("ab", "abc", false),
        ("é", "é", true),
        ("\\é", "\\%", true),
        ("%", "\\%", false),
    ];
    try_each(&rt, rt.alloc(), &cases)?;
    Ok(())
}

#[test]
fn null_is_like_nothing(rt: HostRuntime) -> Result<(), Fail> {
    let alloc = rt.alloc();
    for pattern in ["%", "_", ""] {
        let e = like(alloc, Value::Null, pattern)?;
        assert!(rt; gives(alloc, e, Value::Null)?, "NULL LIKE {pattern}");
    }
    Ok(())
}

#[test]
fn concatenation(rt: HostRuntime) -> Result<(), Fail> {
    let alloc = rt.alloc();
    for (a, b, want) in [
        (Some("ab"), Some("c"), Some("abc")),
        (Some(""), Some("é"), Some("é")),
        (Some("日"), Some(""), Some("日")),
        (Some(""), Some(""), Some("")),
        (Some("a"), None, None),
        (None, Some("a"), None),
        (None, None, None),
    ] {
        let e = linked(alloc, a, b)?;
        assert!(rt; gives_word(alloc, e, want)?, "{a:?} || {b:?}");
    }
    Ok(())
}
