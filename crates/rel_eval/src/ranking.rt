//! Rows in the order of a first key, by a number each that mostly tells it, so that sorting seldom looks at the rows.

ghost use Rattle.std.specs.Prelude.{◌≡◌, ◌∷◌, List, IfSome};
ghost use Rattle.vdb_model.specs.Keys.{keys_cmp};
ghost use Rattle.vdb_model.specs.Meaning.{cell};
ghost use Rattle.rel_eval.specs.Ranks.{clamped, rank_of};

use crate::value::cell;
use std::cmp::Ordering;
use vdb_base::{Row, Value};
use vdb_model::Key;

/// The least rank of a number, -2^62.
const LOW: i128 = -4_611_686_018_427_387_904;

/// The greatest rank of a number, 2^62.
const HIGH: i128 = 4_611_686_018_427_387_904;

/// A row, and the rank of its cell in the key's column.
#[derive(Drop)]
pub struct Ranked<'a> {
    pub row: &'a Row,
    key: Key,
    rank: i64,
    ghost coherent: { rank ≡ rank_of (cell row.now key.column) },
}

fn clamped(n: i128) -> i64
    ensures { result ≡ clamped n }
{
    if n < LOW {
        LOW as i64
    } else if HIGH < n {
        HIGH as i64
    } else {
        n as i64
    }
}

/// Of two values with different ranks the one with the lesser rank is the lesser. Texts have one rank.
fn rank_of(v: &Value) -> i64
    ensures { result ≡ rank_of v.now }
{
    match v {
        Value::Null => i64::MIN,
        Value::Bool(_) => i64::MIN + 1,
        Value::Num(n) => clamped(*n),
        Value::Str(_) => i64::MAX,
    }
}

impl<'a> Ranked<'a> {
    pub fn of(row: &'a Row, key: Key) -> Ranked<'a>
        ensures { result.row.now ≡ row.now }
    {
        let rank = rank_of(cell(row.as_slice(), key.column as usize).get());
        Ranked { row, key, rank }
    }

    /// How two rows stand by a key and further ones, where their ranks tell it.
    pub fn by_rank(&self, other: &Ranked<'_>, key: Key) -> Option<Ordering>
        ensures { IfSome result (λ order. (rest : List Key) → keys_cmp (key ∷ rest) self.now.row.now other.now.row.now ≡ order) }
    {
        if self.key != key || other.key != key {
            return None;
        }
        let (low, high) = if key.desc {
            (other.rank, self.rank)
        } else {
            (self.rank, other.rank)
        };
        if low < high {
            Some(Ordering::Less)
        } else if high < low {
            Some(Ordering::Greater)
        } else {
            None
        }
    }
}
