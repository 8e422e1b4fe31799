//! Rows cut to columns, and primary keys.

ghost use Rattle.std.specs.Prelude.{◌≡◌, not, ◌||◌, List, IfOk, OnOk};
ghost use Rattle.std.specs.List.{list_any};
ghost use Rattle.vdb_base.specs.declared.value.Value.{Value};
ghost use Rattle.vdb_model.specs.Rows as spec;
ghost use Rattle.vdb_model.specs.World as world;
ghost use Rattle.vdb_model.specs.Meaning as meaning;

use std::alloc::Global;
use std::collections::BTreeSet;
use vdb_base::{NoMemory, Nums, Row, Seq, Value};

fn cell(alloc: Global, row: &[Value], at: u32) -> Result<Value, NoMemory>
    ensures { IfOk result (λ v. v ≡ meaning.cell row.now at) }
{
    match row.get(at as usize) {
        Some(v) => v.copy(alloc),
        None => Ok(Value::Null),
    }
}

/// A row cut to columns, in the order in which they are asked. A column past the row's end is NULL.
pub fn cut(alloc: Global, row: &[Value], columns: &[u32]) -> Result<Row, NoMemory>
    ensures { IfOk result (λ made. made ≡ spec.cut columns.now row.now) }
{
    let mut cells = Vec::with_capacity(alloc, columns.len())?;
    for at in columns {
        cells.push(cell(alloc, row, *at)?)?;
    }
    Ok(Seq::from_vec(cells))
}

/// The keys of the rows so far.
#[derive(Drop)]
struct Seen {
    keys: BTreeSet<Row>,
}

impl Seen {
    /// Adds a key, and says whether it is new.
    fn add(&mut self, key: Row) -> Result<bool, NoMemory>
        ensures new { IfOk result (λ new. new ≡ not (list_any (spec.same_row key) self.old.keys.keys)) }
        ensures added { OnOk result ((other : List Value) → list_any (spec.same_row other) self.new.keys.keys ≡ (spec.same_row key other || list_any (spec.same_row other) self.old.keys.keys)) }
    {
        Ok(self.keys.insert(key)?)
    }
}

fn are_keyed_apart(alloc: Global, columns: &[u32], rows: &[Row]) -> Result<bool, NoMemory>
    ensures { IfOk result (λ apart. apart ≡ world.are_keyed_apart columns.now rows.now) }
{
    let mut seen = Seen {
        keys: BTreeSet::new(alloc),
    };
    for row in rows {
        let key = cut(alloc, row.as_slice(), columns)?;
        if !seen.add(key)? {
            return Ok(false);
        }
    }
    Ok(true)
}

/// No two rows agree on the key, where there is one.
pub fn keeps_key(alloc: Global, key: &Option<Nums>, rows: &[Row]) -> Result<bool, NoMemory>
    ensures { IfOk result (λ kept. kept ≡ world.keeps_key key.now rows.now) }
{
    match key {
        None => Ok(true),
        Some(columns) => are_keyed_apart(alloc, columns.as_slice(), rows),
    }
}
