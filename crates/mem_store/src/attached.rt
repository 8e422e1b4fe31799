//! The tables of an attached store, with the changes of its branch.

ghost use Rattle.std.specs.Prelude.{◌≡◌, ◌≤◌, ◌+◌, not, true, false, [], ◌∷◌, ◌++◌, ℕ, List, length, get_or, is_some, IfOk, IfSome};
ghost use Rattle.vdb_model.specs.declared.table.TableDef as model;
ghost use Rattle.vdb_model.specs.Defs.{def_of, is_defined};
ghost use Rattle.vdb_model.specs.Deltas.{after_deltas, are_there, repeats_key};
ghost use Rattle.vdb_model.specs.Rows.{Cells};
ghost use Rattle.vdb_model.specs.World.{is_world, table_rows};
ghost use Rattle.resource.specs.Checked.{passing_cut};
ghost use Rattle.resource.specs.Making.{by_name};
ghost use Rattle.store_records.specs.Encoding.{Encodes};
ghost use Rattle.store_records.specs.Framing.{Frames, record_of};
ghost use Rattle.store_tables.specs.Counting.{SameBag};
ghost use Rattle.store_tables.specs.declared.table.Table as shelved;
ghost use Rattle.store_tables.specs.Shelves.{IsPlace, SameShelf, ShelfHas};
ghost use Rattle.store_tables.specs.Tables.{AreKeys, MayApply};
ghost use Rattle.mem_store.specs.Changes.{IsKeyAnswer, IsRoomAnswer, stored_as, store_needs, taken};

use resource::{ChangeFault, StoredDelta};
use std::alloc::Global;
use store_records::{Branch, Form, encoded};
use store_tables::{Keys, Shelf, place_of};
use vdb_base::{NoMemory, Rows, Seq};
use vdb_model::{Delta, SourceQuery, Xid};

/// The tables of an attached store, and the changes of its branch.
#[derive(Drop)]
pub struct Attached {
    pub shelf: Shelf,
    /// The branch's changes in turn.
    pub deltas: Vec<Delta>,
    /// The same changes as the log will have them.
    branch: Branch,
}

/// Takes the tables' memory for a change of the table at the place. None where its key would stand twice.
fn make_ready(
    shelf: &mut Shelf,
    alloc: Global,
    at: usize,
    delta: &Delta,
) -> Result<Option<Keys>, NoMemory>
    requires { IsPlace delta.now.table shelf.old.defs at }
    ensures same { SameShelf shelf.old shelf.new }
    ensures keys { IfOk result (λ made. IfSome made (λ keys. (d : model.TableDef) → AreKeys (get_or shelf.old.defs at d).key delta.now keys)) }
    ensures ready { IfOk result (λ made. IfSome made (λ keys. (t : shelved.Table) → MayApply delta.now keys (get_or shelf.new.tables.items at t))) }
    ensures key { (kept : List (List Cells)) → (seen : List (List Cells)) → ShelfHas kept seen shelf.old → is_world shelf.old.defs seen ≡ true → are_there delta.now.removed (table_rows shelf.old.defs seen delta.now.table) ≡ true → IfOk result (λ made. is_some made ≡ not (repeats_key shelf.old.defs seen delta.now)) }
{
    let keys = shelf.touch(alloc, at, delta)?;
    if shelf.keeps_key(alloc, at, &keys)? {
        Ok(Some(keys))
    } else {
        Ok(None)
    }
}

/// The bytes of a change of the table at the place.
fn written(alloc: Global, shelf: &Shelf, at: usize, delta: &Delta) -> Result<Vec<u8>, NoMemory>
    requires { IsPlace delta.now.table shelf.now.defs at }
    ensures is { IfOk result (λ bytes. Encodes (by_name (def_of shelf.now.defs delta.now.table).source delta.now) bytes.items) }
    ensures short { IfOk result (λ bytes. length bytes.items ≤ 4294967274) }
{
    let stored = StoredDelta::named(alloc, &shelf.defs()[at].source, delta)?;
    encoded(alloc, &stored)
}

impl Attached {
    ghost use Rattle.mem_store.specs.Attaching.{AttachedHas, IsWritten};

    /// Tables with changes of them. A branch that isn't empty was written before: it stands in the log.
    pub fn of(alloc: Global, shelf: Shelf, deltas: Vec<Delta>) -> Attached
        ensures shelf { result.shelf ≡ shelf }
        ensures deltas { result.deltas ≡ deltas }
        ensures written { deltas.items ≡ [] → IsWritten result }
    {
        Attached {
            shelf,
            deltas,
            branch: Branch::new(alloc),
        }
    }

    /// Makes a change, or says why not: its memory is taken before anything is changed.
    pub fn change(&mut self, alloc: Global, delta: &Delta, left: u64) -> Result<(), ChangeFault>
        requires table { is_defined self.old.shelf.defs delta.now.table ≡ true }
        requires written { IsWritten self.old }
        ensures defs { self.new.shelf.defs ≡ self.old.shelf.defs }
        ensures written { IsWritten self.new }
        ensures deltas { self.new.deltas.items ≡ taken result self.old.deltas.items delta.now }
        ensures has { (kept : List (List Cells)) → AttachedHas kept self.old → AttachedHas kept self.new }
        ensures room { IsRoomAnswer delta.now.table (store_needs self.old.shelf.defs (self.old.deltas.items ++ delta.now ∷ [])) left result }
        ensures key { (kept : List (List Cells)) → AttachedHas kept self.old → is_world self.old.shelf.defs (after_deltas self.old.shelf.defs kept self.old.deltas.items) ≡ true → are_there delta.now.removed (table_rows self.old.shelf.defs (after_deltas self.old.shelf.defs kept self.old.deltas.items) delta.now.table) ≡ true → IsKeyAnswer (repeats_key self.old.shelf.defs (after_deltas self.old.shelf.defs kept self.old.deltas.items) delta.now) result }
    {
        let Some(at) = place_of(self.shelf.defs(), delta.table) else {
            return Err(ChangeFault::Memory);
        };
        let keys = match make_ready(&mut self.shelf, alloc, at, delta) {
            Ok(Some(keys)) => keys,
            Ok(None) => return Err(ChangeFault::DuplicateKey { table: delta.table }),
            Err(NoMemory) => return Err(ChangeFault::Memory),
        };
        match self.note(alloc, at, delta, left) {
            Ok(()) => {
                self.shelf.apply(at, delta, &keys);
                Ok(())
            }
            Err(fault) => Err(fault),
        }
    }

    /// Notes a change of the table at the place, where the log has room for it. The tables stay.
    fn note(
        &mut self,
        alloc: Global,
        at: usize,
        delta: &Delta,
        left: u64,
    ) -> Result<(), ChangeFault>
        requires place { IsPlace delta.now.table self.old.shelf.defs at }
        requires written { IsWritten self.old }
        ensures shelf { self.new.shelf ≡ self.old.shelf }
        ensures written { IsWritten self.new }
        ensures deltas { self.new.deltas.items ≡ taken result self.old.deltas.items delta.now }
        ensures room { IsRoomAnswer delta.now.table (store_needs self.old.shelf.defs (self.old.deltas.items ++ delta.now ∷ [])) left result }
        ensures key { IsKeyAnswer false result }
    {
        let Ok(bytes) = written(alloc, &self.shelf, at, delta) else {
            return Err(ChangeFault::Memory);
        };
        let needed = self.branch.size_with(bytes.as_slice());
        if needed > left {
            return Err(ChangeFault::LogFull { needed, left });
        }
        let Ok(copied) = delta.copy(alloc) else {
            return Err(ChangeFault::Memory);
        };
        if self.deltas.push(copied).is_err() {
            return Err(ChangeFault::Memory);
        }
        if self.branch.add(bytes.as_slice()).is_err() {
            let _delta = self.deltas.pop();
            return Err(ChangeFault::Memory);
        }
        Ok(())
    }

    /// Keeps what the branch's changes made. It takes no memory.
    pub fn keep(&mut self)
        ensures defs { self.new.shelf.defs ≡ self.old.shelf.defs }
        ensures deltas { self.new.deltas.items ≡ [] }
        ensures written { IsWritten self.new }
        ensures has { (kept : List (List Cells)) → AttachedHas kept self.old → AttachedHas (after_deltas self.old.shelf.defs kept self.old.deltas.items) self.new }
    {
        self.shelf.keep();
        self.deltas.clear();
        self.branch.clear();
    }

    /// Takes back what the branch's changes made. It takes no memory.
    pub fn take_back(&mut self)
        ensures defs { self.new.shelf.defs ≡ self.old.shelf.defs }
        ensures deltas { self.new.deltas.items ≡ [] }
        ensures written { IsWritten self.new }
        ensures has { (kept : List (List Cells)) → AttachedHas kept self.old → AttachedHas kept self.new }
    {
        self.shelf.take_back();
        self.deltas.clear();
        self.branch.clear();
    }

    /// The frame of the branch's record.
    pub fn frame(&self, alloc: Global, form: Form, x: Xid) -> Result<Vec<u8>, NoMemory>
        requires { IsWritten self.now }
        ensures frame { IfOk result (λ frame. Frames (record_of form x (stored_as self.now.shelf.defs self.now.deltas.items)) frame.items) }
        ensures size { IfOk result (λ frame. length frame.items + 22 ≡ store_needs self.now.shelf.defs self.now.deltas.items) }
    {
        self.branch.frame(alloc, form, x)
    }

    /// The rows of the first of the query's tables that pass its conditions, cut to its columns.
    pub fn answer(&self, alloc: Global, q: &SourceQuery) -> Result<Rows, NoMemory>
        ensures { (number : ℕ) → (more : List ℕ) → q.now.tables ≡ number ∷ more → IfOk result (λ rows. (kept : List (List Cells)) → AttachedHas kept self.now → SameBag rows (passing_cut q.now.filter q.now.columns (table_rows self.now.shelf.defs (after_deltas self.now.shelf.defs kept self.now.deltas.items) number))) }
    {
        match q.tables.get(0) {
            Some(number) => {
                self.shelf
                    .answer(alloc, *number, q.filter.as_slice(), q.columns.as_slice())
            }
            None => Ok(Seq::new(alloc)),
        }
    }
}
