//! The names of the columns so far, and their source names in lower case.

ghost use Rattle.std.specs.Prelude.{◌≡◌, ◌&&◌, ◌||◌, [], ℕ, List, IfOk, OnOk};
ghost use Rattle.std.specs.Str.{str_to_ascii_lowercase};
ghost use Rattle.metadata.specs.Taken.{IsOf};
ghost use Rattle.metadata.specs.Texts.{is_among};
ghost use Rattle.vdb_model.specs.Defs.{same_name};

use crate::texts::Texts;
use std::alloc::Global;
use vdb_base::{NoMemory, Text};

/// The names of columns, and their source names in lower case.
#[derive(Drop)]
pub(crate) struct Taken {
    names: Texts,
    sources: Texts,
}

fn lower(alloc: Global, text: &Text) -> Result<Text, NoMemory>
    ensures { IfOk result (λ made. made ≡ str_to_ascii_lowercase text.now) }
{
    Ok(Text::from_string(text.as_str().to_ascii_lowercase(alloc)?))
}

impl Taken {
    pub(crate) fn new(alloc: Global) -> Taken
        ensures { IsOf result [] }
    {
        Taken {
            names: Texts::new(alloc),
            sources: Texts::new(alloc),
        }
    }

    /// Whether one of the columns has the name, or the source name where these have to differ.
    pub(crate) fn takes(
        &self,
        alloc: Global,
        apart: bool,
        name: &Text,
        source: &Text,
    ) -> Result<bool, NoMemory>
        ensures { IfOk result (λ takes. takes ≡ (is_among self.now.names.texts.keys name.now || (apart && is_among self.now.sources.texts.keys (str_to_ascii_lowercase source.now)))) }
    {
        if self.names.has(name) {
            return Ok(true);
        }
        if !apart {
            return Ok(false);
        }
        let source = lower(alloc, source)?;
        Ok(self.sources.has(&source))
    }

    /// Adds a column.
    pub(crate) fn add(&mut self, alloc: Global, name: &Text, source: &Text) -> Result<(), NoMemory>
        ensures names { OnOk result ((q : List ℕ) → is_among self.new.names.texts.keys q ≡ (same_name name.now q || is_among self.old.names.texts.keys q)) }
        ensures sources { OnOk result ((q : List ℕ) → is_among self.new.sources.texts.keys q ≡ (same_name (str_to_ascii_lowercase source.now) q || is_among self.old.sources.texts.keys q)) }
    {
        self.names.add(name.copy(alloc)?)?;
        self.sources.add(lower(alloc, source)?)
    }
}
