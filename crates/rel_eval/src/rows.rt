//! Operators that go through rows one by one.

ghost use Rattle.std.specs.Prelude.{◌≡◌, IfOk, List, OnOk, not, ◌||◌};
ghost use Rattle.std.specs.List.{list_any};
ghost use Rattle.vdb_base.specs.declared.value.Value.{Value};
ghost use Rattle.vdb_model.specs.Meaning.{values};
ghost use Rattle.vdb_model.specs.Rows as spec;
ghost use Rattle.vdb_model.specs.Relations.{union_rows};
ghost use Rattle.vdb_model.specs.declared.bag.Bag.{Bag};
ghost use Rattle.rel_eval.specs.Unions.{rows_of};

use crate::logic::is_true;
use crate::value::{eval, eval_all};
use std::alloc::Global;
use std::collections::BTreeSet;
use vdb_base::{NoMemory, Row, Rows, Seq};
use vdb_model::{Expr, Exprs};

/// The rows of several relations.
pub type RowsList = Seq<Rows>;

fn passes(alloc: Global, condition: &Expr, vars: &Row, row: &Row) -> Result<bool, NoMemory>
    ensures { IfOk result (λ passed. passed ≡ spec.passes condition.now vars.now row.now) }
{
    Ok(is_true(&eval(alloc, condition, row, vars)?))
}

fn values_at(alloc: Global, es: &Exprs, vars: &Row, row: &Row) -> Result<Row, NoMemory>
    ensures { IfOk result (λ made. made ≡ values es.now row.now vars.now) }
{
    Ok(Seq::from_vec(eval_all(alloc, es.as_slice(), row.as_slice(), &[], vars.as_slice())?))
}

/// The rows at which the condition is TRUE.
pub fn filter(alloc: Global, rows: &Rows, e: &Expr, vars: &Row) -> Result<Rows, NoMemory>
    ensures { IfOk result (λ kept. kept ≡ spec.where_rows e.now vars.now rows.now) }
{
    let mut kept = Seq::new(alloc);
    for row in rows.as_slice() {
        if passes(alloc, e, vars, row)? {
            kept.push(row.copy(alloc)?)?;
        }
    }
    Ok(kept)
}

/// One row of values for each row.
pub fn select(alloc: Global, rows: &Rows, es: &Exprs, vars: &Row) -> Result<Rows, NoMemory>
    ensures { IfOk result (λ made. made ≡ spec.select_rows es.now vars.now rows.now) }
{
    let mut made = Vec::with_capacity(alloc, rows.len())?;
    for row in rows.as_slice() {
        made.push(values_at(alloc, es, vars, row)?)?;
    }
    Ok(Seq::from_vec(made))
}

/// Part after part.
pub fn union_all(alloc: Global, parts: &RowsList) -> Result<Rows, NoMemory>
    ensures { (bags : List Bag) → rows_of bags ≡ parts.now → IfOk result (λ rows. rows ≡ union_rows bags) }
{
    let mut rows = Seq::new(alloc);
    for part in parts.as_slice() {
        rows.append(part.copy(alloc)?)?;
    }
    Ok(rows)
}

/// The rows that were seen, each once.
#[derive(Drop)]
struct Seen {
    rows: BTreeSet<Row>,
}

impl Seen {
    /// Adds a row, and says whether it is new.
    fn add(&mut self, alloc: Global, row: &Row) -> Result<bool, NoMemory>
        ensures new { IfOk result (λ new. new ≡ not (list_any (spec.same_row row.now) self.old.rows.keys)) }
        ensures added { OnOk result ((q : List Value) → list_any (spec.same_row q) self.new.rows.keys ≡ (spec.same_row row.now q || list_any (spec.same_row q) self.old.rows.keys)) }
    {
        if self.rows.contains(row) {
            return Ok(false);
        }
        Ok(self.rows.insert(row.copy(alloc)?)?)
    }
}

/// The first of the rows that are the same, where NULL is the same as NULL. It takes the time of a sort.
pub fn distinct(alloc: Global, rows: &Rows) -> Result<Rows, NoMemory>
    ensures { IfOk result (λ kept. kept ≡ spec.distinct_rows rows.now) }
{
    let mut seen = Seen {
        rows: BTreeSet::new(alloc),
    };
    let mut kept = Seq::new(alloc);
    for row in rows.as_slice() {
        if seen.add(alloc, row)? {
            kept.push(row.copy(alloc)?)?;
        }
    }
    Ok(kept)
}
