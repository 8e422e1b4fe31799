//! The rows of a table: how often each is kept, and how often a branch sees it.

ghost use Rattle.std.specs.Prelude.{◌≡◌, [], ◌∷◌, ◌++◌, length, List, IfOk, OnOk};
ghost use Rattle.std.specs.BTreeMap.{IsOrdered};
ghost use Rattle.std.specs.List.{list_all};
ghost use Rattle.vdb_base.specs.Order.{row_cmp};
ghost use Rattle.vdb_model.specs.Rows.{Cells};
ghost use Rattle.resource.specs.Checked as asked;
ghost use Rattle.store_tables.specs.Answering.{repeated};
ghost use Rattle.store_tables.specs.InOrder.{entry_fits, entry_is_alone};
ghost use Rattle.store_tables.specs.Counting.{OnlyAt, SameBag, times};

use crate::counting::{Counted, kept_in, make_place, see, seen_in, settle};
use resource::{passing_cut, takes_row};
use std::alloc::Global;
use std::collections::BTreeMap;
use std::slice;
use vdb_base::{NoMemory, Row, Rows, Seq, Value};
use vdb_model::{ColumnDef, Expr};

/// Rows, each of them once, with how often it is kept and how often the branch sees it.
///
/// The memory for a branch's changes is taken by `touch_each`, before them. The end of the branch takes none.
#[derive(Drop)]
pub struct Tally {
    counts: Counted,
    /// The rows that the branch may have changed.
    touched: Vec<Row>,
    ghost only_touched: { OnlyAt touched.items counts },
}

/// Adds the rows so many times.
fn add_copies(alloc: Global, made: &mut Rows, rows: &Rows, times: u64) -> Result<(), NoMemory>
    ensures { OnOk result (made.new ≡ made.old ++ repeated times rows.now) }
{
    for _ in 0..times {
        made.append(rows.copy(alloc)?)?;
    }
    Ok(())
}

impl Tally {
    ghost use Rattle.store_tables.specs.Tallies.{Tallies, SameTimes, KeepsReady, IsReady, AreReady, Loses, Gains, Ends, kept_times, seen_times};

    pub fn new(alloc: Global) -> Tally
        ensures { Tallies [] [] result }
    {
        Tally {
            counts: BTreeMap::new(alloc),
            touched: Vec::new(alloc),
        }
    }

    /// A tally that sees these rows.
    pub fn of(alloc: Global, rows: &[Row]) -> Result<Tally, NoMemory>
        ensures { IfOk result (λ made. (row : Cells) → seen_times made row ≡ times row rows.now) }
    {
        let mut made = Tally::new(alloc);
        made.touch_each(alloc, rows, rows.len() as u64)?;
        made.put_in_each(rows);
        Ok(made)
    }

    /// How often the branch sees the row.
    pub fn seen(&self, row: &Row) -> u64
        ensures { result ≡ seen_times self.now row.now }
    {
        seen_in(&self.counts, row)
    }

    /// The rows that the branch sees and that pass every condition, cut to columns.
    pub fn answer(
        &self,
        alloc: Global,
        conditions: &[Expr],
        columns: &[u32],
    ) -> Result<Rows, NoMemory>
        ensures { (kept : List Cells) → (seen : List Cells) → Tallies kept seen self.now → IfOk result (λ made. SameBag made (asked.passing_cut conditions.now columns.now seen)) }
    {
        let mut made = Seq::new(alloc);
        for (row, counts) in &self.counts {
            let passing = passing_cut(alloc, conditions, columns, slice::from_ref(row))?;
            add_copies(alloc, &mut made, &passing, counts.seen)?;
        }
        Ok(made)
    }

    /// Takes the memory for changes of the row, up to so many more of it.
    fn touch(&mut self, alloc: Global, row: &Row, more: u64) -> Result<(), NoMemory>
        ensures same { SameTimes self.old self.new }
        ensures keeps { KeepsReady self.old self.new }
        ensures ready { OnOk result (IsReady more self.new row.now) }
    {
        make_place(&mut self.counts, alloc, row)?;
        if seen_in(&self.counts, row) > u64::MAX - more {
            return Err(NoMemory);
        }
        self.touched.push(row.copy(alloc)?)?;
        Ok(())
    }

    /// Takes the memory for changes of these rows, up to so many more of each.
    pub fn touch_each(&mut self, alloc: Global, rows: &[Row], more: u64) -> Result<(), NoMemory>
        ensures same { SameTimes self.old self.new }
        ensures keeps { KeepsReady self.old self.new }
        ensures ready { OnOk result (AreReady more rows.now self.new) }
    {
        for row in rows {
            self.touch(alloc, row, more)?;
        }
        Ok(())
    }

    /// Takes the row out once, where the branch sees it.
    pub fn take_out(&mut self, row: &Row)
        requires { IsReady 0 self.old row.now }
        ensures { Loses (row.now ∷ []) self.old self.new }
    {
        let times = seen_in(&self.counts, row);
        see(&mut self.counts, row, times.saturating_sub(1));
    }

    /// Puts the row in once.
    fn put_in(&mut self, row: &Row)
        requires { IsReady 1 self.old row.now }
        ensures { Gains (row.now ∷ []) self.old self.new }
    {
        let times = seen_in(&self.counts, row);
        see(&mut self.counts, row, times + 1);
    }

    /// Puts each of the rows in once.
    pub fn put_in_each(&mut self, rows: &[Row])
        requires { AreReady (length rows.now) rows.now self.old }
        ensures { Gains rows.now self.old self.new }
    {
        for row in rows {
            self.put_in(row);
        }
    }

    /// Keeps what the branch sees.
    pub fn keep(&mut self)
        ensures { Ends seen_times self.old self.new }
    {
        while let Some(row) = self.touched.pop() {
            let times = seen_in(&self.counts, &row);
            settle(&mut self.counts, &row, times);
        }
    }

    /// Takes back what the branch did.
    pub fn take_back(&mut self)
        ensures { Ends kept_times self.old self.new }
    {
        while let Some(row) = self.touched.pop() {
            let times = kept_in(&self.counts, &row);
            settle(&mut self.counts, &row, times);
        }
    }

    /// Whether every row that stands, kept or seen, goes into the columns.
    pub fn all_fit(&self, columns: &[ColumnDef]) -> bool
        ensures all { result ≡ list_all (entry_fits columns.now) self.now.counts.entries }
        ensures ordered { IsOrdered row_cmp self.now.counts }
    {
        for (row, counts) in &self.counts {
            if (counts.kept > 0 || counts.seen > 0) && !takes_row(columns, row.as_slice()) {
                return false;
            }
        }
        true
    }

    /// Whether every row stands once at most, kept and seen.
    pub fn stand_alone(&self) -> bool
        ensures all { result ≡ list_all entry_is_alone self.now.counts.entries }
        ensures ordered { IsOrdered row_cmp self.now.counts }
    {
        for (_, counts) in &self.counts {
            if counts.kept > 1 || counts.seen > 1 {
                return false;
            }
        }
        true
    }
}
