//! A query over the rows of its tables.

ghost use Rattle.std.specs.Prelude.{IfOk};
ghost use Rattle.processor.specs.Ran.{IsRun};

use crate::relation::bag_of;
use rel_eval::arrange;
use std::alloc::Global;
use vdb_base::{NoMemory, Row, Rows};
use vdb_model::{Bags, Ranked};

/// The rows of a query whose views are expanded, over these tables and with these variables, as it arranges them. Rows that tie
/// under its keys come in any order, as the definition leaves it.
pub fn run(alloc: Global, tables: &Bags, vars: &Row, q: &Ranked) -> Result<Rows, NoMemory>
    ensures { IfOk result (λ rows. IsRun tables.now vars.now q.now rows) }
{
    let bag = bag_of(alloc, tables, vars, &q.rel)?;
    arrange(alloc, &bag.rows, &q.keys, q.offset, q.limit)
}
