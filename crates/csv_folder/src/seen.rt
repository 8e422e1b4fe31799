//! Items so far, to see whether one stands twice.

ghost use Rattle.std.specs.Prelude.{◌≡◌, [], not, ◌||◌, IfOk, OnOk};
ghost use Rattle.std.specs.List.{list_any};
ghost use Rattle.csv_folder.specs.Seen.{is_same};

use std::alloc::Global;
use std::collections::BTreeSet;
use vdb_base::NoMemory;

#[derive(Drop)]
pub struct Seen<K: Ord> {
    items: BTreeSet<K>,
}

impl<K: Ord + Drop> Seen<K> {
    ghost use Rattle.csv_folder.specs.SeenItems.{items_of};

    pub fn new(alloc: Global) -> Seen<K>
        ensures { items_of result ≡ [] }
    {
        Seen {
            items: BTreeSet::new(alloc),
        }
    }

    /// Adds an item, and says whether it is new.
    pub fn add(&mut self, item: K) -> Result<bool, NoMemory>
        ensures new { IfOk result (λ new. new ≡ not (list_any (is_same K.cmp item) (items_of self.old))) }
        ensures added { OnOk result ((other : K) → list_any (is_same K.cmp other) (items_of self.new) ≡ (is_same K.cmp item other || list_any (is_same K.cmp other) (items_of self.old))) }
    {
        Ok(self.items.insert(item)?)
    }
}
