//! Texts in a set, so that one is found in the time of a search.

ghost use Rattle.std.specs.Prelude.{◌≡◌, ◌||◌, [], ℕ, List, OnOk};
ghost use Rattle.metadata.specs.Texts.{is_among};
ghost use Rattle.vdb_model.specs.Defs.{same_name};

use std::alloc::Global;
use std::collections::BTreeSet;
use vdb_base::{NoMemory, Text};

/// Texts, each once.
#[derive(Drop)]
pub(crate) struct Texts {
    texts: BTreeSet<Text>,
}

impl Texts {
    pub(crate) fn new(alloc: Global) -> Texts
        ensures { result.texts.keys ≡ [] }
    {
        Texts {
            texts: BTreeSet::new(alloc),
        }
    }

    pub(crate) fn has(&self, text: &Text) -> bool
        ensures { result ≡ is_among self.now.texts.keys text.now }
    {
        self.texts.contains(text)
    }

    pub(crate) fn add(&mut self, text: Text) -> Result<(), NoMemory>
        ensures { OnOk result ((q : List ℕ) → is_among self.new.texts.keys q ≡ (same_name text q || is_among self.old.texts.keys q)) }
    {
        self.texts.insert(text)?;
        Ok(())
    }
}
