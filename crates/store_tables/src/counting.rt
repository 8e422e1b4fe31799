//! A map from rows to how often they stand.

ghost use Rattle.std.specs.Prelude.{◌≡◌, ◌+◌, ◌-◌, ◌<◌, true, OnOk};
ghost use Rattle.store_tables.specs.Counting.{kept_at, seen_at, has_place, Places, SeesSo, Settles};

use std::alloc::Global;
use std::collections::BTreeMap;
use vdb_base::{NoMemory, Row};

/// How often a row is kept, and how often the branch sees it.
#[derive(Clone, Copy, Debug, PartialEq, Eq)]
pub struct Counts {
    pub kept: u64,
    pub seen: u64,
}

pub type Counted = BTreeMap<Row, Counts>;

/// How often the branch sees the row.
pub fn seen_in(map: &Counted, row: &Row) -> u64
    ensures { result ≡ seen_at map.now row.now }
{
    match map.get(row) {
        Some(counts) => counts.seen,
        None => 0,
    }
}

/// How often the row is kept.
pub fn kept_in(map: &Counted, row: &Row) -> u64
    ensures { result ≡ kept_at map.now row.now }
{
    match map.get(row) {
        Some(counts) => counts.kept,
        None => 0,
    }
}

/// Makes a place for the row, where there is none.
pub fn make_place(map: &mut Counted, alloc: Global, row: &Row) -> Result<(), NoMemory>
    ensures same { Places row.now map.old map.new }
    ensures here { OnOk result (has_place map.new row.now ≡ true) }
{
    if map.contains_key(row) {
        return Ok(());
    }
    map.insert(row.copy(alloc)?, Counts { kept: 0, seen: 0 })?;
    Ok(())
}

/// The row is seen so often from now on. It needs its place.
pub fn see(map: &mut Counted, row: &Row, times: u64)
    requires { has_place map.old row.now ≡ true }
    ensures { SeesSo row.now times map.old map.new }
{
    match map.get_mut(row) {
        Some(counts) => counts.seen = times,
        None => {}
    }
}

/// The row is kept and seen so often from now on. A row that stands no more loses its place.
pub fn settle(map: &mut Counted, row: &Row, times: u64)
    requires { 0 < times → has_place map.old row.now ≡ true }
    ensures { Settles row.now times map.old map.new }
{
    if times == 0 {
        let _counts = map.remove(row);
        return;
    }
    match map.get_mut(row) {
        Some(counts) => {
            counts.kept = times;
            counts.seen = times;
        }
        None => {}
    }
}
