//! The records of a log, taken one after the other under definitions.

ghost use Rattle.std.specs.Prelude.{◌≡◌, ◌++◌, List, IfOk, OnOk};
ghost use Rattle.vdb_model.specs.declared.source.Xid as source;
ghost use Rattle.vdb_model.specs.Deltas.{after_deltas};
ghost use Rattle.vdb_model.specs.Rows.{Cells};
ghost use Rattle.resource.specs.Stored.{numbered};
ghost use Rattle.store_records.specs.Framing.{ending_of};
ghost use Rattle.store_records.specs.declared.entry.Entry.TheVariants as written;
ghost use Rattle.store_tables.specs.Shelves.{ShelfHas};
ghost use Rattle.store_replay.specs.Replay.{Replayed, nothing, after_entry};
ghost use Rattle.store_replay.specs.Replaying as spec;
ghost use Rattle.store_replay.specs.Replaying.{AreApart, ReplayHas, listed_by};
ghost use Rattle.store_replay.specs.Walking.{Follows};

use crate::opening::Waiting;
use crate::walk::Takes;
use resource::StoredDelta;
use std::alloc::Global;
use store_records::{Ending, Entry, ReadFault};
use store_tables::{Shelf, by_number};
use vdb_base::NoMemory;
use vdb_model::{Delta, TableDefs, Xid};

/// What the records so far left, under definitions.
#[derive(Drop)]
pub struct Replay {
    pub shelf: Shelf,
    pub waiting: Option<Waiting>,
}

/// Makes a change where its table is defined, and adds it to the list by its number.
fn make_one(
    alloc: Global,
    shelf: &mut Shelf,
    made: &mut Vec<Delta>,
    delta: &StoredDelta,
) -> Result<(), NoMemory>
    ensures defs { shelf.new.defs ≡ shelf.old.defs }
    ensures made { OnOk result (made.new.items ≡ made.old.items ++ listed_by shelf.old.defs delta.now) }
    ensures has { OnOk result ((kept : List (List Cells)) → (seen : List (List Cells)) → ShelfHas kept seen shelf.old → ShelfHas kept (after_deltas shelf.old.defs seen (listed_by shelf.old.defs delta.now)) shelf.new) }
{
    match by_number(alloc, shelf.defs(), delta)? {
        Some(delta) => {
            shelf.make(alloc, &delta)?;
            made.push(delta)?;
            Ok(())
        }
        None => Ok(()),
    }
}

/// Makes the changes of defined tables in turn, and gives them by their numbers.
fn make_each(
    alloc: Global,
    shelf: &mut Shelf,
    deltas: &[StoredDelta],
) -> Result<Vec<Delta>, NoMemory>
    ensures defs { shelf.new.defs ≡ shelf.old.defs }
    ensures made { IfOk result (λ made. made.items ≡ numbered shelf.old.defs deltas.now) }
    ensures has { OnOk result ((kept : List (List Cells)) → (seen : List (List Cells)) → ShelfHas kept seen shelf.old → ShelfHas kept (after_deltas shelf.old.defs seen (numbered shelf.old.defs deltas.now)) shelf.new) }
{
    let mut made = Vec::new(alloc);
    for delta in deltas {
        make_one(alloc, shelf, &mut made, delta)?;
    }
    Ok(made)
}

/// Whether the branch of the transaction waits for its end.
fn waits_for(waiting: &Option<Waiting>, x: Xid) -> bool
    ensures { result ≡ spec.waits_for waiting.now x }
{
    match waiting {
        Some(waiting) => waiting.xid == x,
        None => false,
    }
}

impl Replay {
    /// Nothing yet: empty tables, and no branch.
    pub fn new(alloc: Global, defs: TableDefs) -> Result<Replay, NoMemory>
        requires { AreApart defs }
        ensures defs { IfOk result (λ made. made.shelf.defs ≡ defs) }
        ensures has { IfOk result (ReplayHas nothing) }
    {
        Ok(Replay {
            shelf: Shelf::new(alloc, defs)?,
            waiting: None,
        })
    }

    /// A branch begins.
    fn prepare(&mut self, alloc: Global, x: Xid, deltas: &[StoredDelta]) -> Result<(), ReadFault>
        ensures goes_on { (r : Replayed) → ReplayHas r self.old → Follows ReplayHas (after_entry (written.Prepared x deltas.now) r) self.new result }
        ensures under { self.new.shelf.defs ≡ self.old.shelf.defs }
    {
        if self.waiting.is_some() {
            return Err(ReadFault::Broken);
        }
        let Ok(deltas) = make_each(alloc, &mut self.shelf, deltas) else {
            return Err(ReadFault::Memory);
        };
        self.waiting = Some(Waiting { xid: x, deltas });
        Ok(())
    }

    /// A branch is committed as it comes.
    fn commit_at_once(&mut self, alloc: Global, deltas: &[StoredDelta]) -> Result<(), ReadFault>
        ensures goes_on { (x : source.Xid) → (r : Replayed) → ReplayHas r self.old → Follows ReplayHas (after_entry (written.OnePhase x deltas.now) r) self.new result }
        ensures under { self.new.shelf.defs ≡ self.old.shelf.defs }
    {
        if self.waiting.is_some() {
            return Err(ReadFault::Broken);
        }
        let Ok(_made) = make_each(alloc, &mut self.shelf, deltas) else {
            return Err(ReadFault::Memory);
        };
        self.shelf.keep();
        Ok(())
    }

    /// The branch ends.
    fn end(&mut self, ending: Ending, x: Xid) -> Result<(), ReadFault>
        ensures goes_on { (r : Replayed) → ReplayHas r self.old → Follows ReplayHas (after_entry (ending_of ending x) r) self.new result }
        ensures under { self.new.shelf.defs ≡ self.old.shelf.defs }
    {
        if !waits_for(&self.waiting, x) {
            return Err(ReadFault::Broken);
        }
        self.waiting = None;
        match ending {
            Ending::Committed => {
                self.shelf.keep();
                Ok(())
            }
            Ending::RolledBack => {
                self.shelf.take_back();
                Ok(())
            }
        }
    }
}

impl Takes for Replay {
    ghost has = { ReplayHas };

    ghost under = { λ replay. replay.shelf.defs };

    fn take(&mut self, alloc: Global, entry: Entry) -> Result<(), ReadFault> {
        match entry {
            Entry::Prepared(x, deltas) => self.prepare(alloc, x, deltas.as_slice()),
            Entry::OnePhase(_, deltas) => self.commit_at_once(alloc, deltas.as_slice()),
            Entry::Committed(x) => self.end(Ending::Committed, x),
            Entry::RolledBack(x) => self.end(Ending::RolledBack, x),
        }
    }
}
