//! The texts of names.

ghost use Rattle.std.specs.Prelude.{◌≡◌, ◌++◌, IfOk, OnOk, OnErr};
ghost use Rattle.std.specs.List.{list_all};
ghost use Rattle.std.specs.String.{string_bytes};
ghost use Rattle.vdb_base.specs.Print.{quoted};
ghost use Rattle.vdb_model.specs.NameText.{name_text};
ghost use Rattle.vdb_model.specs.NameText as spec;

use std::alloc::Global;
use vdb_base::{NoMemory, Text};

fn is_letter(byte: u8) -> bool
    ensures { result ≡ spec.is_letter byte }
{
    (b'A' <= byte && byte <= b'Z') || (b'a' <= byte && byte <= b'z') || byte == b'_'
}

fn is_word_byte(byte: u8) -> bool
    ensures { result ≡ spec.is_word_byte byte }
{
    is_letter(byte) || (b'0' <= byte && byte <= b'9')
}

fn are_word_bytes(bytes: &[u8]) -> bool
    ensures { result ≡ list_all spec.is_word_byte bytes.now }
{
    for byte in bytes {
        if !is_word_byte(*byte) {
            return false;
        }
    }
    true
}

/// Whether a name has the form of a word: a letter or `_`, and then letters, digits and `_`.
pub fn is_word(bytes: &[u8]) -> bool
    ensures { result ≡ spec.is_word bytes.now }
{
    match bytes.split_first() {
        Some((first, rest)) => is_letter(*first) && are_word_bytes(rest),
        None => false,
    }
}

/// The name in quotes, each quote inside doubled.
fn quote(alloc: Global, name: &str) -> Result<String, NoMemory>
    ensures { IfOk result (λ made. string_bytes made ≡ quoted 34 name.now) }
{
    let mut made = String::from_str(alloc, "\"")?;
    let mut rest = name;
    while let Some((head, tail)) = rest.split_once('"') {
        made.push_str(head)?;
        made.push_str("\"\"")?;
        rest = tail;
    }
    made.push_str(rest)?;
    made.push_str("\"")?;
    Ok(made)
}

/// Appends the text of a name: bare where it has the form of a word, and else in quotes with each quote inside doubled.
/// Where memory is wanting, `out` is as before.
pub fn print_name(name: &Text, out: &mut Text) -> Result<(), NoMemory>
    ensures ok { OnOk result (out.new ≡ out.old ++ name_text name.now) }
    ensures err { OnErr result (out.new ≡ out.old) }
{
    if is_word(name.as_bytes()) {
        out.push_str(name.as_str())
    } else {
        let text = quote(out.alloc(), name.as_str())?;
        out.push_str(&text)
    }
}

/// The text of a name.
pub fn printed(alloc: Global, name: &Text) -> Result<Text, NoMemory>
    ensures { IfOk result (λ made. made ≡ name_text name.now) }
{
    let mut made = Text::new(alloc);
    print_name(name, &mut made)?;
    Ok(made)
}

/// The text of a name within another, with a dot between them.
pub fn dotted(alloc: Global, outer: &Text, name: &Text) -> Result<Text, NoMemory>
    ensures { IfOk result (λ made. made ≡ spec.dotted outer.now name.now) }
{
    let mut made = printed(alloc, outer)?;
    made.push_str(".")?;
    print_name(name, &mut made)?;
    Ok(made)
}
