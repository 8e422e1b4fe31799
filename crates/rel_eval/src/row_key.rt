//! The cells of a row in some columns, where they stand.

ghost use Rattle.std.specs.Prelude.{◌≡◌, IfOk, fold};
ghost use Rattle.std.specs.List.{list_any};
ghost use Rattle.vdb_base.specs.declared.value.Value.{Value};
ghost use Rattle.vdb_model.specs.Logic.{is_null};
ghost use Rattle.vdb_model.specs.Rows.{cut, same_row};
ghost use Rattle.rel_eval.specs.Fed.{fed_cells, fed_value};
ghost use Rattle.rel_eval.specs.RowKeys.{cells};

use crate::lend::cut;
use crate::logic::is_null;
use crate::value::cell;
use std::alloc::Global;
use std::hash::{Hash, Hasher};
use vdb_base::{NoMemory, Row, Value, cmp_values};

/// The cells of a row in some columns, by which rows are told apart. NULL is the same as NULL here.
#[derive(Drop)]
pub struct RowKey<'a> {
    row: &'a [Value],
    columns: &'a [u32],
}

impl<'a> RowKey<'a> {
    pub fn of(row: &'a Row, columns: &'a [u32]) -> RowKey<'a>
        ensures { cells result ≡ cut columns.now row.now }
    {
        RowKey {
            row: row.as_slice(),
            columns,
        }
    }

    /// The cells, copied.
    pub fn copy(&self, alloc: Global) -> Result<Row, NoMemory>
        ensures { IfOk result (λ made. made ≡ cells self.now) }
    {
        cut(alloc, self.row, self.columns)
    }

    pub fn has_null(&self) -> bool
        ensures { result ≡ list_any is_null (cells self.now) }
    {
        for column in self.columns {
            if is_null(cell(self.row, *column as usize).get()) {
                return true;
            }
        }
        false
    }
}

fn are_same(a: &RowKey<'_>, b: &RowKey<'_>) -> bool
    ensures { result ≡ same_row (cells a.now) (cells b.now) }
{
    if a.columns.len() != b.columns.len() {
        return false;
    }
    for i in 0..a.columns.len() {
        let x = cell(a.row, a.columns[i] as usize);
        let y = cell(b.row, b.columns[i] as usize);
        if !cmp_values(x.get(), y.get()).is_eq() {
            return false;
        }
    }
    true
}

/// Feeds a value to a hasher.
fn feed<H: Hasher>(v: &Value, state: &mut H)
    ensures { state.new ≡ fold H.write state.old (fed_value v.now) }
{
    match v {
        Value::Null => state.write_u8(0),
        Value::Bool(truth) => truth.hash(state),
        Value::Num(number) => state.write_i128(*number),
        Value::Str(text) => text.as_str().hash(state),
    }
}

/// Feeds the cells of a row in some columns to a hasher.
fn feed_cells<H: Hasher>(row: &[Value], columns: &[u32], state: &mut H)
    ensures { state.new ≡ fold H.write state.old (fed_cells (cut columns.now row.now)) }
{
    for column in columns {
        feed(cell(row, *column as usize).get(), state);
    }
}

// By the cells, so that maps speak of them.
impl<'a> PartialEq for RowKey<'a> {
    ghost use Rattle.std.specs.Cmp.{eq_by_cmp_equiv, partial_equiv_from_equiv};
    ghost use Rattle.rel_eval.specs.RowKeys.{same_key, key_total};

    ghost eq = { same_key };

    ghost laws = { partial_equiv_from_equiv (eq_by_cmp_equiv key_total) };

    fn eq(&self, other: &RowKey<'a>) -> bool {
        are_same(self, other)
    }
}

impl<'a> Eq for RowKey<'a> {
    ghost use Rattle.std.specs.Cmp.{eq_by_cmp_equiv};
    ghost use Rattle.rel_eval.specs.RowKeys.{key_total};

    ghost laws = { eq_by_cmp_equiv key_total };
}

impl<'a> Hash for RowKey<'a> {
    ghost use Rattle.rel_eval.specs.RowKeys.{fed_key, same_fed};

    ghost hash_input = { fed_key };

    ghost respects_eq = { same_fed };

    fn hash<H: Hasher>(&self, state: &mut H) {
        feed_cells(self.row, self.columns, state);
    }
}
