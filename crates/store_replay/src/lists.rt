//! The records of a log, taken one after the other as lists, to name the fault of tables that break their definitions.

ghost use Rattle.std.specs.Prelude.{◌≡◌, [], List, IfOk, OnOk};
ghost use Rattle.std.specs.Option.{unwrap_or};
ghost use Rattle.vdb_model.specs.declared.source.Xid as source;
ghost use Rattle.vdb_model.specs.Deltas.{changed};
ghost use Rattle.resource.specs.Checked.{IsCheckAnswer, stored_fault};
ghost use Rattle.resource.specs.Stored as stored;
ghost use Rattle.resource.specs.Stored.{after_one, after_stored};
ghost use Rattle.store_records.specs.declared.entry.Entry.TheVariants as written;
ghost use Rattle.store_replay.specs.Listing.{ListingHas, EndsHeld, stored_left, left_in};
ghost use Rattle.store_replay.specs.Replay.{Replayed, nothing, after_entry};
ghost use Rattle.store_replay.specs.Walking.{Follows};

use crate::walk::Takes;
use resource::{AttachFault, StoredDelta, StoredTable, Tables, check_tables, take_out};
use std::alloc::Global;
use store_records::{Entry, ReadFault, StoredDeltas};
use vdb_base::{NoMemory, Rows, Seq, Text};
use vdb_model::{TableDef, Xid};

/// A branch that waits for its end, as it is stored.
#[derive(Drop)]
pub struct Held {
    xid: Xid,
    deltas: StoredDeltas,
}

/// What the records so far left, as lists.
#[derive(Drop)]
pub struct Listing {
    tables: Vec<StoredTable>,
    branch: Option<Held>,
}

/// Takes the table with the name out, and gives its rows.
fn take_named(alloc: Global, tables: &mut Vec<StoredTable>, source: &Text) -> Rows
    ensures rows { result ≡ stored.rows_named source.now tables.old.items }
    ensures others { tables.new.items ≡ stored.others_than source.now tables.old.items }
{
    let mut found = None;
    let mut i = 0;
    'tables: while i < tables.len() {
        if tables[i].source != *source {
            i += 1;
            continue;
        }
        let table = tables.remove(i);
        found = Some(found.unwrap_or(table.rows));
    }
    found.unwrap_or(Seq::new(alloc))
}

/// The rows after a change of their table. They are moved.
fn change_rows(alloc: Global, rows: Rows, delta: &StoredDelta) -> Result<Rows, NoMemory>
    ensures { IfOk result (λ made. made ≡ changed (stored.by_number 0 delta.now) rows) }
{
    let mut made = rows.into_vec();
    for row in delta.removed.as_slice() {
        take_out(&mut made, row);
    }
    let mut made = Seq::from_vec(made);
    made.append(delta.added.copy(alloc)?)?;
    Ok(made)
}

/// Makes a change. Its table goes to the front.
fn change_one(
    alloc: Global,
    tables: &mut Vec<StoredTable>,
    delta: &StoredDelta,
) -> Result<(), NoMemory>
    ensures { OnOk result (tables.new.items ≡ after_one tables.old.items delta.now) }
{
    let rows = take_named(alloc, tables, &delta.source);
    let rows = change_rows(alloc, rows, delta)?;
    let source = delta.source.copy(alloc)?;
    match tables.insert(0, StoredTable { source, rows }) {
        Ok(()) => Ok(()),
        Err(_) => Err(NoMemory),
    }
}

/// Makes changes in turn.
fn change_each(
    alloc: Global,
    tables: &mut Vec<StoredTable>,
    deltas: &[StoredDelta],
) -> Result<(), NoMemory>
    ensures { OnOk result (tables.new.items ≡ after_stored tables.old.items deltas.now) }
{
    for delta in deltas {
        change_one(alloc, tables, delta)?;
    }
    Ok(())
}

/// The tables as the branch would leave them, where there is one.
fn left_of(alloc: Global, kept: &Tables, branch: &Option<Held>) -> Result<Option<Tables>, NoMemory>
    ensures { IfOk result (λ left. unwrap_or left kept.now ≡ left_in branch.now kept.now) }
{
    match branch {
        None => Ok(None),
        Some(branch) => {
            let mut tables = kept.copy(alloc)?.into_vec();
            change_each(alloc, &mut tables, branch.deltas.as_slice())?;
            Ok(Some(Seq::from_vec(tables)))
        }
    }
}

impl Listing {
    /// Nothing yet: no tables, and no branch.
    pub fn new(alloc: Global) -> Listing
        ensures { ListingHas nothing result }
    {
        Listing {
            tables: Vec::new(alloc),
            branch: None,
        }
    }

    /// Makes changes in turn, where no branch waits.
    fn change(&mut self, alloc: Global, deltas: &[StoredDelta]) -> Result<(), ReadFault>
        ensures { (x : source.Xid) → (r : Replayed) → ListingHas r self.old → Follows ListingHas (after_entry (written.OnePhase x deltas.now) r) self.new result }
    {
        if self.branch.is_some() {
            return Err(ReadFault::Broken);
        }
        match change_each(alloc, &mut self.tables, deltas) {
            Ok(()) => Ok(()),
            Err(_) => Err(ReadFault::Memory),
        }
    }

    /// Takes the branch of the transaction, which ends.
    fn ended(&mut self, x: Xid) -> Result<Held, ReadFault>
        ensures { (r : Replayed) → ListingHas r self.old → EndsHeld r x self.new result }
    {
        match self.branch.take() {
            Some(held) => {
                if held.xid == x {
                    Ok(held)
                } else {
                    Err(ReadFault::Broken)
                }
            }
            None => Err(ReadFault::Broken),
        }
    }

    /// Checks the tables under the definitions, each as it is kept and then as the branch would leave it.
    pub fn check(self, alloc: Global, defs: &[TableDef]) -> Result<(), AttachFault>
        ensures { (r : Replayed) → ListingHas r self → IsCheckAnswer (stored_fault defs.now r.tables (stored_left r)) result }
    {
        let Listing { tables, branch } = self;
        let kept = Seq::from_vec(tables);
        let Ok(left) = left_of(alloc, &kept, &branch) else {
            return Err(AttachFault::Memory);
        };
        check_tables(alloc, defs, kept.as_slice(), &left)
    }
}

impl Takes for Listing {
    ghost has = { ListingHas };

    ghost under = { λ listing. [] };

    fn take(&mut self, alloc: Global, entry: Entry) -> Result<(), ReadFault> {
        match entry {
            Entry::Prepared(x, deltas) => {
                if self.branch.is_some() {
                    return Err(ReadFault::Broken);
                }
                self.branch = Some(Held { xid: x, deltas });
                Ok(())
            }
            Entry::OnePhase(_, deltas) => self.change(alloc, deltas.as_slice()),
            Entry::Committed(x) => match self.ended(x) {
                Ok(held) => self.change(alloc, held.deltas.as_slice()),
                Err(fault) => Err(fault),
            },
            Entry::RolledBack(x) => match self.ended(x) {
                Ok(_) => Ok(()),
                Err(fault) => Err(fault),
            },
        }
    }
}
