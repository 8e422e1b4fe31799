//! Values, the types of columns, and the order of values and rows.

ghost use Rattle.std.specs.Prelude.{◌≡◌, IfOk};
ghost use Rattle.vdb_base.specs.Fits.{fit_of, in_range};
ghost use Rattle.vdb_base.specs.Order.{kind_of, value_cmp, row_cmp};

use crate::memory::{Duplicate, NoMemory};
use crate::seq::Row;
use crate::text::Text;
use std::alloc::Global;
use std::cmp::Ordering;

#[derive(Debug, Drop)]
pub enum Value {
    Null,
    Bool(bool),
    Num(i128),
    Str(Text),
}

#[derive(Clone, Copy, Debug, PartialEq, Eq)]
pub enum Ty {
    Boolean,
    Integer,
    Long,
    BigInteger,
    Str,
}

/// Whether a value goes into a column of a type, and what stands against it.
#[derive(Clone, Copy, Debug, PartialEq, Eq)]
pub enum Fit {
    Yes,
    /// A number past its type.
    Range,
    /// A text that is too long.
    Length,
    /// Another kind of value.
    Kind,
}

/// The most bytes that a column's text may have.
pub const TEXT_LIMIT: usize = 4000;

impl Value {
    pub fn copy(&self, alloc: Global) -> Result<Value, NoMemory>
        ensures { IfOk result (λ made. made ≡ self.now) }
    {
        match self {
            Value::Null => Ok(Value::Null),
            Value::Bool(truth) => Ok(Value::Bool(*truth)),
            Value::Num(number) => Ok(Value::Num(*number)),
            Value::Str(text) => Ok(Value::Str(text.copy(alloc)?)),
        }
    }
}

impl Duplicate for Value {
    fn copy(&self, alloc: Global) -> Result<Value, NoMemory> {
        self.copy(alloc)
    }
}

impl Duplicate for Ty {
    fn copy(&self, _alloc: Global) -> Result<Ty, NoMemory> {
        Ok(*self)
    }
}

fn within(number: i128, low: i128, high: i128) -> Fit
    ensures { result ≡ in_range low high number }
{
    if low <= number && number <= high {
        Fit::Yes
    } else {
        Fit::Range
    }
}

pub fn fits(v: &Value, t: Ty) -> Fit
    ensures { result ≡ fit_of v.now t }
{
    match (v, t) {
        (Value::Null, _) => Fit::Yes,
        (Value::Bool(_), Ty::Boolean) => Fit::Yes,
        (Value::Num(number), Ty::Integer) => within(*number, -2147483648, 2147483647),
        (Value::Num(number), Ty::Long) => {
            within(*number, -9223372036854775808, 9223372036854775807)
        }
        (Value::Num(_), Ty::BigInteger) => Fit::Yes,
        (Value::Str(text), Ty::Str) => {
            if text.len() <= TEXT_LIMIT {
                Fit::Yes
            } else {
                Fit::Length
            }
        }
        _ => Fit::Kind,
    }
}

fn kind(v: &Value) -> u8
    ensures { result ≡ kind_of v.now }
{
    match v {
        Value::Null => 0,
        Value::Bool(_) => 1,
        Value::Num(_) => 2,
        Value::Str(_) => 3,
    }
}

/// NULL, then FALSE and TRUE, then numbers, then texts by their bytes.
pub fn cmp_values(a: &Value, b: &Value) -> Ordering
    ensures { result ≡ value_cmp a.now b.now }
{
    match (a, b) {
        (Value::Bool(x), Value::Bool(y)) => x.cmp(y),
        (Value::Num(x), Value::Num(y)) => x.cmp(y),
        (Value::Str(x), Value::Str(y)) => x.cmp(y),
        _ => kind(a).cmp(&kind(b)),
    }
}

// By the order, so that maps, sets and sorts speak of it.
impl PartialEq for Value {
    ghost use Rattle.std.specs.Ordering.{eq_by_cmp};
    ghost use Rattle.std.specs.Cmp.{eq_by_cmp_equiv, partial_equiv_from_equiv};
    ghost use Rattle.vdb_base.specs.Order.{value_cmp};
    ghost use Rattle.vdb_base.specs.Total.{value_total};

    ghost eq = { eq_by_cmp value_cmp };

    ghost laws = { partial_equiv_from_equiv (eq_by_cmp_equiv value_total) };

    fn eq(&self, other: &Value) -> bool {
        cmp_values(self, other).is_eq()
    }
}

impl Eq for Value {
    ghost use Rattle.std.specs.Cmp.{eq_by_cmp_equiv};
    ghost use Rattle.vdb_base.specs.Total.{value_total};

    ghost laws = { eq_by_cmp_equiv value_total };
}

impl PartialOrd for Value {
    ghost use Rattle.std.specs.Ordering.{as_partial_cmp};
    ghost use Rattle.std.specs.Cmp.{partial_order_from_total};
    ghost use Rattle.vdb_base.specs.Order.{value_cmp};
    ghost use Rattle.vdb_base.specs.Total.{value_total};

    ghost partial_cmp = { as_partial_cmp value_cmp };

    ghost laws = { partial_order_from_total value_total };

    fn partial_cmp(&self, other: &Value) -> Option<Ordering> {
        Some(cmp_values(self, other))
    }
}

impl Ord for Value {
    ghost use Rattle.std.specs.Prelude.{refl};
    ghost use Rattle.vdb_base.specs.Order.{value_cmp};
    ghost use Rattle.vdb_base.specs.Total.{value_total};

    ghost cmp = { value_cmp };

    ghost total = { value_total };

    ghost matches_partial_cmp = { λ x y. refl };

    ghost matches_eq = { λ x y. refl };

    fn cmp(&self, other: &Value) -> Ordering {
        cmp_values(self, other)
    }
}

/// Column by column, and a row before what extends it.
pub fn cmp_rows(a: &Row, b: &Row) -> Ordering
    ensures { result ≡ row_cmp a.now b.now }
{
    a.as_slice().cmp(b.as_slice())
}
