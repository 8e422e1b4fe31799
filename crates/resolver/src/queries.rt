//! Whole queries: ORDER BY, LIMIT and OFFSET behind the selects.

ghost use Rattle.std.specs.Prelude.{◌≡◌, [], IfOk};
ghost use Rattle.expr_resolver.specs.Answers.{Resolves};
ghost use Rattle.resolver.specs.Queries as spec;

use crate::selected::{Column, Selected};
use crate::selects::set_walk;
use crate::unions::union_of;
use expr_resolver::ResolveFault;
use expr_resolver::aggregates::place;
use expr_resolver::types::settled;
use sql_reader::tree::{Constant, Key, KeyTarget, Literal, Name, Query};
use std::alloc::Global;
use vdb_base::{NoMemory, Seq, Text, Texts, Tys, Value};
use vdb_model::{Catalog, Keys, Ranked, Refusal, printed};

fn names_of(alloc: Global, columns: &[Column]) -> Result<Texts, NoMemory>
    ensures { IfOk result (λ made. made ≡ spec.names_of columns.now) }
{
    let mut made = Seq::new(alloc);
    for column in columns {
        made.push(column.name.copy(alloc)?)?;
    }
    Ok(made)
}

fn types_of(alloc: Global, columns: &[Column]) -> Result<Tys, NoMemory>
    ensures { IfOk result (λ made. made ≡ spec.types_of columns.now) }
{
    let mut made = Seq::new(alloc);
    for column in columns {
        made.push(settled(column.ty))?;
    }
    Ok(made)
}

/// Where the columns of the name stand.
fn places_of(alloc: Global, name: &Text, columns: &[Column]) -> Result<Vec<u32>, NoMemory>
    ensures { IfOk result (λ found. found.items ≡ spec.places_of 0 name.now columns.now) }
{
    let mut found = Vec::new(alloc);
    for (at, column) in columns.iter().enumerate() {
        if column.name == *name {
            found.push(place(at, 0)?)?;
        }
    }
    Ok(found)
}

fn named(alloc: Global, columns: &[Column], name: &Name) -> Result<u32, ResolveFault>
    ensures { Resolves (spec.named columns.now name.now) result }
{
    let found = places_of(alloc, &name.text, columns)?;
    match found.as_slice() {
        [] => Err(ResolveFault::Refused(Refusal::Unknown {
            name: printed(alloc, &name.text)?,
        })),
        [at] => Ok(*at),
        [_, _, ..] => Err(ResolveFault::Refused(Refusal::Ambiguous {
            name: printed(alloc, &name.text)?,
        })),
    }
}

/// The column of a number from 1 to the count.
fn numbered(at: usize, columns: &[Column], number: i128) -> Result<u32, ResolveFault>
    ensures { Resolves (spec.numbered at columns.now number) result }
{
    let count = columns.len() as i128;
    if 1 <= number && number <= count {
        Ok(place((number - 1) as usize, 0)?)
    } else {
        Err(ResolveFault::mismatch(at))
    }
}

fn numbered_by(columns: &[Column], literal: &Literal) -> Result<u32, ResolveFault>
    ensures { Resolves (spec.numbered_by literal.now.at columns.now literal.now.constant) result }
{
    match &literal.constant {
        Constant::Value(Value::Num(number)) => Ok(numbered(literal.at, columns, *number)?),
        _ => Err(ResolveFault::mismatch(literal.at)),
    }
}

/// The column that a key is.
fn key_column(alloc: Global, columns: &[Column], target: &KeyTarget) -> Result<u32, ResolveFault>
    ensures { Resolves (spec.key_column columns.now target.now) result }
{
    match target {
        KeyTarget::Name(name) => Ok(named(alloc, columns, name)?),
        KeyTarget::Number(literal) => Ok(numbered_by(columns, literal)?),
    }
}

fn keys_of(alloc: Global, columns: &[Column], keys: &[Key]) -> Result<Keys, ResolveFault>
    ensures { Resolves (spec.keys_of columns.now keys.now []) result }
{
    let mut made = Seq::new(alloc);
    for k in keys {
        let column = key_column(alloc, columns, &k.target)?;
        made.push(vdb_model::Key {
            column,
            desc: k.descending,
        })?;
    }
    Ok(made)
}

fn counted(at: usize, number: i128) -> Result<u64, ResolveFault>
    ensures { Resolves (spec.counted at number) result }
{
    if 0 <= number && number <= 9223372036854775807 {
        Ok(number as u64)
    } else {
        Err(ResolveFault::too_wide(at))
    }
}

fn counted_by(literal: &Literal) -> Result<u64, ResolveFault>
    ensures { Resolves (spec.counted_by literal.now.at literal.now.constant) result }
{
    match &literal.constant {
        Constant::Value(Value::Num(number)) => Ok(counted(literal.at, *number)?),
        _ => Err(ResolveFault::too_wide(literal.at)),
    }
}

/// The number of a LIMIT or an OFFSET.
fn count_of(literal: &Option<Literal>) -> Result<Option<u64>, ResolveFault>
    ensures { Resolves (spec.count_of literal.now) result }
{
    match literal {
        None => Ok(None),
        Some(literal) => Ok(Some(counted_by(literal)?)),
    }
}

fn or_zero(count: Option<u64>) -> u64
    ensures { result ≡ spec.or_zero count }
{
    match count {
        None => 0,
        Some(n) => n,
    }
}

fn ranked(
    alloc: Global,
    s: Selected,
    keys: Keys,
    limit: Option<u64>,
    offset: Option<u64>,
) -> Result<Ranked, NoMemory>
    ensures { IfOk result (λ made. made ≡ spec.ranked s keys limit offset) }
{
    Ok(Ranked {
        names: names_of(alloc, s.columns.as_slice())?,
        tys: types_of(alloc, s.columns.as_slice())?,
        rel: union_of(s.parts),
        keys,
        offset: or_zero(offset),
        limit,
    })
}

/// The query of a view: its relation, with the names and types of its columns, or the first refusal of its walk. How large
/// a view may be is the deployment's to test.
pub fn resolve_view(alloc: Global, cat: &Catalog, q: &Query) -> Result<Ranked, ResolveFault>
    ensures { Resolves (spec.query_walk cat.now q.now) result }
{
    let s = set_walk(alloc, cat, &q.set)?;
    let keys = keys_of(alloc, s.columns.as_slice(), q.keys.as_slice())?;
    let limit = count_of(&q.limit)?;
    let offset = count_of(&q.offset)?;
    Ok(ranked(alloc, s, keys, limit, offset)?)
}
