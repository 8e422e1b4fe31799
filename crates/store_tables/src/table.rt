//! A table of the store: its rows, and its primary keys.

ghost use Rattle.std.specs.Prelude.{◌≡◌, ◌&&◌, [], ◌∷◌, ◌++◌, length, true, ℕ, List, Option, IfOk, IfSome, OnOk};
ghost use Rattle.std.specs.Option.{option_copied};
ghost use Rattle.std.specs.List.{list_all};
ghost use Rattle.vdb_model.specs.declared.source.Delta as model;
ghost use Rattle.vdb_model.specs.Deltas.{are_there, changed, without_one, without_each};
ghost use Rattle.vdb_model.specs.Rows.{Cells, cut_rows};
ghost use Rattle.vdb_model.specs.World.{is_table, keeps_key};
ghost use Rattle.resource.specs.Checked.{passing_cut};
ghost use Rattle.store_tables.specs.Counting.{SameBag};
ghost use Rattle.store_tables.specs.Keyed.{is_alone};
ghost use Rattle.store_tables.specs.Tallies.{IsReady, AreReady, seen_times};
ghost use Rattle.store_tables.specs.Tables as spec;
ghost use Rattle.store_tables.specs.Tables.{AreKeys, TableHas, SameRows, StaysReady, MayApply, key_of};

use crate::tally::Tally;
use resource::cut;
use std::alloc::Global;
use vdb_base::{NoMemory, Nums, Row, Rows, Seq};
use vdb_model::{Delta, Expr, TableDef};

/// The keys of a change's rows: of those that are removed, and of those that are added. Without a primary key there are
/// none.
#[derive(Drop)]
pub struct Keys {
    gone: Rows,
    come: Rows,
}

#[derive(Drop)]
pub struct Table {
    rows: Tally,
    keys: Tally,
}

fn cut_each(alloc: Global, columns: &[u32], rows: &[Row]) -> Result<Rows, NoMemory>
    ensures { IfOk result (λ made. made ≡ cut_rows columns.now rows.now) }
{
    let mut made = Seq::new(alloc);
    for row in rows {
        made.push(cut(alloc, row.as_slice(), columns)?)?;
    }
    Ok(made)
}

fn keys_of(alloc: Global, key: &Option<Nums>, rows: &[Row]) -> Result<Rows, NoMemory>
    ensures { IfOk result (λ made. made ≡ spec.keys_of key.now rows.now) }
{
    match key {
        Some(columns) => cut_each(alloc, columns.as_slice(), rows),
        None => Ok(Seq::new(alloc)),
    }
}

/// Whether each key that comes in stands alone then.
fn stand_alone(stood: &Tally, gone: &Tally, come: &Tally, keys: &[Row]) -> bool
    ensures { result ≡ list_all (is_alone (seen_times stood.now) (seen_times gone.now) (seen_times come.now)) keys.now }
{
    for key in keys {
        if stood.seen(key) > gone.seen(key) || come.seen(key) > 1 {
            return false;
        }
    }
    true
}

impl Keys {
    pub fn of(alloc: Global, key: &Option<Nums>, delta: &Delta) -> Result<Keys, NoMemory>
        ensures { IfOk result (AreKeys key.now delta.now) }
    {
        Ok(Keys {
            gone: keys_of(alloc, key, delta.removed.as_slice())?,
            come: keys_of(alloc, key, delta.added.as_slice())?,
        })
    }
}

impl Table {
    pub fn new(alloc: Global) -> Table
        ensures { (key : Option (List ℕ)) → TableHas key [] [] result }
    {
        Table {
            rows: Tally::new(alloc),
            keys: Tally::new(alloc),
        }
    }

    /// Takes the memory for a change.
    pub fn touch(&mut self, alloc: Global, delta: &Delta, keys: &Keys) -> Result<(), NoMemory>
        ensures same { SameRows self.old self.new }
        ensures ready { OnOk result (MayApply delta.now keys.now self.new) }
    {
        let removed = delta.removed.as_slice();
        let added = delta.added.as_slice();
        self.rows.touch_each(alloc, removed, 0)?;
        self.rows.touch_each(alloc, added, added.len() as u64)?;
        let gone = keys.gone.as_slice();
        let come = keys.come.as_slice();
        self.keys.touch_each(alloc, gone, 0)?;
        self.keys.touch_each(alloc, come, come.len() as u64)?;
        Ok(())
    }

    /// Takes a row with its key out once, where the branch sees it.
    fn take_out(&mut self, row: &Row, key: Option<&Row>)
        requires row { IsReady 0 self.old.rows row.now }
        requires key { IfSome key (λ k. IsReady 0 self.old.keys k.now) }
        ensures keeps { StaysReady self.old self.new }
        ensures has { (ats : Option (List ℕ)) → (kept : List Cells) → (seen : List Cells) → option_copied key.entry ≡ key_of ats row.now → TableHas ats kept seen self.old → TableHas ats kept (without_one row.now seen) self.new }
    {
        if self.rows.seen(row) == 0 {
            return;
        }
        self.rows.take_out(row);
        let key = match key {
            Some(key) => key,
            None => return,
        };
        self.keys.take_out(key);
    }

    /// Takes each of the rows with its key out once, where the branch sees it.
    fn take_out_each(&mut self, removed: &[Row], gone: &Rows)
        requires removed { AreReady 0 removed.now self.old.rows }
        requires gone { AreReady 0 gone.now self.old.keys }
        ensures keeps { StaysReady self.old self.new }
        ensures has { (ats : Option (List ℕ)) → (kept : List Cells) → (seen : List Cells) → gone.now ≡ spec.keys_of ats removed.now → TableHas ats kept seen self.old → TableHas ats kept (without_each removed.now seen) self.new }
    {
        for i in 0..removed.len() {
            self.take_out(&removed[i], gone.get(i));
        }
    }

    /// Makes a change, for which `touch` took the memory.
    pub fn apply(&mut self, delta: &Delta, keys: &Keys)
        requires { MayApply delta.now keys.now self.old }
        ensures { (ats : Option (List ℕ)) → (kept : List Cells) → (seen : List Cells) → AreKeys ats delta.now keys.now → TableHas ats kept seen self.old → TableHas ats kept (changed delta.now seen) self.new }
    {
        self.take_out_each(delta.removed.as_slice(), &keys.gone);
        self.rows.put_in_each(delta.added.as_slice());
        self.keys.put_in_each(keys.come.as_slice());
    }

    /// The rows that the branch sees and that pass every condition, cut to columns.
    pub fn answer(
        &self,
        alloc: Global,
        conditions: &[Expr],
        columns: &[u32],
    ) -> Result<Rows, NoMemory>
        ensures { (ats : Option (List ℕ)) → (kept : List Cells) → (seen : List Cells) → TableHas ats kept seen self.now → IfOk result (λ made. SameBag made (passing_cut conditions.now columns.now seen)) }
    {
        self.rows.answer(alloc, conditions, columns)
    }

    /// Keeps what the branch sees. It takes no memory.
    pub fn keep(&mut self)
        ensures { (ats : Option (List ℕ)) → (kept : List Cells) → (seen : List Cells) → TableHas ats kept seen self.old → TableHas ats seen seen self.new }
    {
        self.rows.keep();
        self.keys.keep();
    }

    /// Takes back what the branch did. It takes no memory.
    pub fn take_back(&mut self)
        ensures { (ats : Option (List ℕ)) → (kept : List Cells) → (seen : List Cells) → TableHas ats kept seen self.old → TableHas ats kept kept self.new }
    {
        self.rows.take_back();
        self.keys.take_back();
    }

    /// Whether the primary key stands apart after a change, where it stands apart before and the removed rows stand there.
    pub fn keeps_key(&self, alloc: Global, keys: &Keys) -> Result<bool, NoMemory>
        ensures { (ats : Option (List ℕ)) → (kept : List Cells) → (seen : List Cells) → (delta : model.Delta) → AreKeys ats delta keys.now → TableHas ats kept seen self.now → keeps_key ats seen ≡ true → are_there delta.removed seen ≡ true → IfOk result (λ apart. apart ≡ keeps_key ats (changed delta seen)) }
    {
        let gone = Tally::of(alloc, keys.gone.as_slice())?;
        let added = keys.come.as_slice();
        let come = Tally::of(alloc, added)?;
        Ok(stand_alone(&self.keys, &gone, &come, added))
    }

    /// Whether the rows go into the columns and keep the primary key, as kept and as seen.
    pub fn is_in_order(&self, def: &TableDef) -> bool
        ensures { (kept : List Cells) → (seen : List Cells) → TableHas def.now.key kept seen self.now → result ≡ (is_table def.now kept && is_table def.now seen) }
    {
        let fits = self.rows.all_fit(def.columns.as_slice());
        let alone = self.keys.stand_alone();
        fits && alone
    }
}
