//! The tables of the attached definitions, one for each in their order.

ghost use Rattle.std.specs.Prelude.{◌≡◌, ◌<◌, ◌&&◌, [], List, length, get_or, not, true, IfOk, OnOk};
ghost use Rattle.vdb_model.specs.Rows.{Cells};
ghost use Rattle.vdb_model.specs.declared.source.Delta as delta_of;
ghost use Rattle.vdb_model.specs.declared.table.TableDef as model;

use crate::place::place_of;
use crate::table::{Keys, Table};
use std::alloc::Global;
use vdb_base::{NoMemory, Rows, Seq};
use vdb_model::{Delta, Expr, TableDef, TableDefs};

/// Definitions, and for each its table: its rows as they are kept and as the branch sees them.
#[derive(Drop)]
pub struct Shelf {
    defs: TableDefs,
    tables: Vec<Table>,
    ghost as_many: { length tables.items ≡ length defs },
}

impl Shelf {
    ghost use Rattle.resource.specs.Checked.{passing_cut};
    ghost use Rattle.resource.specs.Stored.{tables_in};
    ghost use Rattle.vdb_model.specs.Deltas.{after_delta, are_there, repeats_key};
    ghost use Rattle.vdb_model.specs.World.{is_world, table_rows};
    ghost use Rattle.store_tables.specs.Counting.{SameBag};
    ghost use Rattle.store_tables.specs.Shelves.{ShelfHas, SameShelf, IsPlace};
    ghost use Rattle.store_tables.specs.Tables.{AreKeys, MayApply};

    /// Empty tables.
    pub fn new(alloc: Global, defs: TableDefs) -> Result<Shelf, NoMemory>
        ensures defs { IfOk result (λ made. made.defs ≡ defs) }
        ensures has { IfOk result (ShelfHas (tables_in [] defs) (tables_in [] defs)) }
    {
        let mut tables = Vec::new(alloc);
        for _ in 0..defs.len() {
            tables.push(Table::new(alloc))?;
        }
        Ok(Shelf { defs, tables })
    }

    /// Takes the memory for a change of the table at the place, and gives the keys of its rows.
    pub fn touch(&mut self, alloc: Global, at: usize, delta: &Delta) -> Result<Keys, NoMemory>
        requires { at < length self.old.defs }
        ensures same { SameShelf self.old self.new }
        ensures keys { IfOk result (λ keys. (d : model.TableDef) → AreKeys (get_or self.old.defs at d).key delta.now keys) }
        ensures ready { IfOk result (λ keys. (t : Table) → MayApply delta.now keys (get_or self.new.tables.items at t)) }
    {
        let keys = Keys::of(alloc, &self.defs.as_slice()[at].key, delta)?;
        self.tables[at].touch(alloc, delta, &keys)?;
        Ok(keys)
    }

    /// Whether the primary key of the table at the place stands apart after a change.
    pub fn keeps_key(&self, alloc: Global, at: usize, keys: &Keys) -> Result<bool, NoMemory>
        requires { at < length self.now.defs }
        ensures { (kept : List (List Cells)) → (seen : List (List Cells)) → (delta : delta_of.Delta) → IsPlace delta.table self.now.defs at → ((d : model.TableDef) → AreKeys (get_or self.now.defs at d).key delta keys.now) → ShelfHas kept seen self.now → is_world self.now.defs seen ≡ true → are_there delta.removed (table_rows self.now.defs seen delta.table) ≡ true → IfOk result (λ apart. apart ≡ not (repeats_key self.now.defs seen delta)) }
    {
        self.tables[at].keeps_key(alloc, keys)
    }

    /// Makes a change of the table at the place.
    pub fn apply(&mut self, at: usize, delta: &Delta, keys: &Keys)
        requires place { at < length self.old.defs }
        requires ready { (t : Table) → MayApply delta.now keys.now (get_or self.old.tables.items at t) }
        ensures defs { self.new.defs ≡ self.old.defs }
        ensures has { (kept : List (List Cells)) → (seen : List (List Cells)) → IsPlace delta.now.table self.old.defs at → ((d : model.TableDef) → AreKeys (get_or self.old.defs at d).key delta.now keys.now) → ShelfHas kept seen self.old → ShelfHas kept (after_delta self.old.defs seen delta.now) self.new }
    {
        self.tables[at].apply(delta, keys);
    }

    /// Makes a change, where its table is defined.
    pub fn make(&mut self, alloc: Global, delta: &Delta) -> Result<(), NoMemory>
        ensures defs { self.new.defs ≡ self.old.defs }
        ensures has { OnOk result ((kept : List (List Cells)) → (seen : List (List Cells)) → ShelfHas kept seen self.old → ShelfHas kept (after_delta self.old.defs seen delta.now) self.new) }
    {
        match place_of(self.defs.as_slice(), delta.table) {
            Some(at) => {
                let keys = self.touch(alloc, at, delta)?;
                self.apply(at, delta, &keys);
                Ok(())
            }
            None => Ok(()),
        }
    }

    /// The rows of the table with the number that pass every condition, cut to columns, in the order of the map.
    pub fn answer(
        &self,
        alloc: Global,
        number: u32,
        conditions: &[Expr],
        columns: &[u32],
    ) -> Result<Rows, NoMemory>
        ensures { IfOk result (λ made. (kept : List (List Cells)) → (seen : List (List Cells)) → ShelfHas kept seen self.now → SameBag made (passing_cut conditions.now columns.now (table_rows self.now.defs seen number))) }
    {
        match place_of(self.defs.as_slice(), number) {
            Some(at) => self.tables[at].answer(alloc, conditions, columns),
            None => Ok(Seq::new(alloc)),
        }
    }

    pub fn defs(&self) -> &[TableDef]
        ensures { result.now ≡ self.now.defs }
    {
        self.defs.as_slice()
    }

    pub fn copy_defs(&self, alloc: Global) -> Result<TableDefs, NoMemory>
        ensures { IfOk result (λ made. made ≡ self.now.defs) }
    {
        self.defs.copy(alloc)
    }

    /// Whether every table's rows go into its columns and keep its primary key, as kept and as seen.
    pub fn is_in_order(&self) -> bool
        ensures { (kept : List (List Cells)) → (seen : List (List Cells)) → ShelfHas kept seen self.now → result ≡ (is_world self.now.defs kept && is_world self.now.defs seen) }
    {
        let defs = self.defs.as_slice();
        for i in 0..defs.len() {
            if !self.tables[i].is_in_order(&defs[i]) {
                return false;
            }
        }
        true
    }

    /// Keeps what the branch sees. It takes no memory.
    pub fn keep(&mut self)
        ensures defs { self.new.defs ≡ self.old.defs }
        ensures has { (kept : List (List Cells)) → (seen : List (List Cells)) → ShelfHas kept seen self.old → ShelfHas seen seen self.new }
    {
        for i in 0..self.tables.len() {
            self.tables[i].keep();
        }
    }

    /// Takes back what the branch did. It takes no memory.
    pub fn take_back(&mut self)
        ensures defs { self.new.defs ≡ self.old.defs }
        ensures has { (kept : List (List Cells)) → (seen : List (List Cells)) → ShelfHas kept seen self.old → ShelfHas kept kept self.new }
    {
        for i in 0..self.tables.len() {
            self.tables[i].take_back();
        }
    }
}
