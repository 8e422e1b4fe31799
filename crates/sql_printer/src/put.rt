//! Single words and signs.

ghost use Rattle.std.specs.Prelude.{◌≡◌, ◌++◌, ◌∷◌, [], OnOk, if◌then◌else◌, codes};
ghost use Rattle.sql_printer.specs.Names.{optional};
ghost use Rattle.sql_printer.specs.Spelled.{spelled, word_text};

use vdb_base::{NoMemory, Text};

/// A text and a space.
pub(crate) fn put(text: &str, out: &mut Text) -> Result<(), NoMemory>
    ensures { OnOk result (out.new ≡ out.old ++ (text.now ++ 32 ∷ [])) }
{
    out.push_str(text)?;
    out.push_str(" ")
}

/// A word or sign, by the number of its kind, where it is written.
pub(crate) fn put_optional(
    written: bool,
    kind: u16,
    text: &str,
    out: &mut Text,
) -> Result<(), NoMemory>
    requires text { text.now ≡ word_text kind }
    ensures { OnOk result (out.new ≡ out.old ++ spelled (optional written kind)) }
{
    if written { put(text, out) } else { Ok(()) }
}

/// What stands before a part of a list: some words, each with its space, before the first, and a comma before another.
pub(crate) fn put_before(first: bool, words: &str, out: &mut Text) -> Result<(), NoMemory>
    ensures { OnOk result (out.new ≡ out.old ++ (if first then words.now else codes ", ")) }
{
    if first {
        out.push_str(words)
    } else {
        out.push_str(", ")
    }
}
