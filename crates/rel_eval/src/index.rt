//! Rows by the values of some of their columns.

ghost use Rattle.std.specs.Prelude.{◌≡◌, ◌++◌, ◌∷◌, [], IfOk, OnOk, if◌then◌else◌};
ghost use Rattle.std.specs.List.{list_any};
ghost use Rattle.std.specs.Option.{option_copied};
ghost use Rattle.indexmap.specs.IndexMap.{keys};
ghost use Rattle.vdb_model.specs.Groups.{members};
ghost use Rattle.vdb_model.specs.Rows.{Cells, cut_rows, distinct_rows, same_row};
ghost use Rattle.rel_eval.specs.Indexed.{keys_in, listed, under};
ghost use Rattle.rel_eval.specs.RowKeys.{cells};

use crate::row_key::RowKey;
use indexmap::IndexMap;
use std::alloc::Global;
use vdb_base::{NoMemory, Row, Rows};

/// Rows that are lent, by a key. NULL is the same as NULL here.
#[derive(Drop)]
pub struct Index<'a> {
    groups: IndexMap<RowKey<'a>, Vec<&'a Row>>,
}

impl<'a> Index<'a> {
    fn add(&mut self, alloc: Global, key: RowKey<'a>, row: &'a Row) -> Result<(), NoMemory>
        ensures rows { OnOk result ((q : Cells) → under self.new q ≡ (if same_row (cells key.entry) q then under self.old q ++ row.now ∷ [] else under self.old q)) }
        ensures keys { OnOk result (keys_in self.new ≡ (if list_any (same_row (cells key.entry)) (keys_in self.old) then keys_in self.old else keys_in self.old ++ cells key.entry ∷ [])) }
    {
        match self.groups.get_mut(&key) {
            Some(rows) => rows.push(row)?,
            None => {
                let mut rows = Vec::new(alloc);
                rows.push(row)?;
                self.groups.insert(key, rows)?;
            }
        }
        Ok(())
    }

    /// The rows by their cells in the columns.
    pub fn of(alloc: Global, rows: &'a Rows, columns: &'a [u32]) -> Result<Index<'a>, NoMemory>
        ensures rows { IfOk result (λ made. (q : Cells) → under made q ≡ members columns.now q rows.now) }
        ensures keys { IfOk result (λ made. keys_in made ≡ distinct_rows (cut_rows columns.now rows.now)) }
    {
        let mut made = Index {
            groups: IndexMap::new(alloc),
        };
        for row in rows.as_slice() {
            made.add(alloc, RowKey::of(row, columns), row)?;
        }
        Ok(made)
    }

    /// The rows with the key, in the order in which they were given; there is one at least, or `None`.
    pub fn find(&self, key: &RowKey<'a>) -> Option<&Vec<&'a Row>>
        ensures { listed (option_copied result) ≡ under self.now (cells key.now) }
    {
        self.groups.get(key)
    }

    /// The keys, each once, in the order in which they came.
    pub fn keys(&self) -> &[RowKey<'a>]
        ensures { result.now ≡ keys self.now.groups }
    {
        self.groups.keys().as_slice()
    }
}
