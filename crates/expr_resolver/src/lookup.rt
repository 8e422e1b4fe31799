//! Which column a name means.

ghost use Rattle.std.specs.Prelude.{◌≡◌, ◌++◌, IfOk, OnOk};
ghost use Rattle.expr_resolver.specs.Answers.{Resolves};
ghost use Rattle.expr_resolver.specs.Scope as spec;

use crate::aggregates::place;
use crate::fault::ResolveFault;
use crate::scope::{Entry, Names, Over};
use sql_reader::tree::ColumnName;
use std::alloc::Global;
use vdb_base::{NoMemory, Text, Ty};
use vdb_model::{Refusal, VarDef, dotted, print_name, printed};

/// The name as it is written, with its dots.
fn written(alloc: Global, c: &ColumnName) -> Result<Text, NoMemory>
    ensures { IfOk result (λ made. made ≡ spec.written c.now) }
{
    match c {
        ColumnName::Plain(name) => Ok(printed(alloc, &name.text)?),
        ColumnName::Of { relation, name } => Ok(dotted(alloc, &relation.text, &name.text)?),
        ColumnName::InSchema {
            schema,
            relation,
            name,
        } => {
            let mut made = dotted(alloc, &schema.text, &relation.text)?;
            made.push_str(".")?;
            print_name(&name.text, &mut made)?;
            Ok(made)
        }
    }
}

/// The name of the column itself.
pub fn last_name(c: &ColumnName) -> &Text
    ensures { result.now ≡ spec.last_name c.now }
{
    match c {
        ColumnName::Plain(name) => &name.text,
        ColumnName::Of { name, .. } => &name.text,
        ColumnName::InSchema { name, .. } => &name.text,
    }
}

/// The place of its first token.
pub fn first_place(c: &ColumnName) -> usize
    ensures { result ≡ spec.first_place c.now }
{
    match c {
        ColumnName::Plain(name) => name.at,
        ColumnName::Of { relation, .. } => relation.at,
        ColumnName::InSchema { schema, .. } => schema.at,
    }
}

fn is_in_schema(schema: &Text, of: &Option<Text>) -> bool
    ensures { result ≡ spec.is_in_schema schema.now of.now }
{
    match of {
        None => false,
        Some(of) => *of == *schema,
    }
}

fn may_be_of(c: &ColumnName, entry: &Entry) -> bool
    ensures { result ≡ spec.may_be_of c.now entry.now }
{
    match c {
        ColumnName::Plain(_) => true,
        ColumnName::Of { relation, .. } => entry.name == relation.text,
        ColumnName::InSchema {
            schema,
            relation,
            ..
        } => entry.name == relation.text && is_in_schema(&schema.text, &entry.schema),
    }
}

/// Adds the columns of the name, by their numbers from `at` on, with their types.
pub fn add_named(
    at: u32,
    name: &Text,
    columns: &[VarDef],
    found: &mut Vec<(u32, Ty)>,
) -> Result<(), NoMemory>
    ensures { OnOk result (found.new.items ≡ found.old.items ++ spec.named at name.now columns.now) }
{
    let mut number = at;
    for column in columns {
        if column.name == *name {
            found.push((number, column.ty))?;
        }
        number = place(number as usize, 1)?;
    }
    Ok(())
}

/// All columns that the name may mean.
fn found(alloc: Global, c: &ColumnName, entries: &[Entry]) -> Result<Vec<(u32, Ty)>, NoMemory>
    ensures { IfOk result (λ found. found.items ≡ spec.found 0 c.now entries.now) }
{
    let mut found = Vec::new(alloc);
    let mut at = 0;
    for entry in entries {
        if may_be_of(c, entry) {
            add_named(at, last_name(c), entry.columns.as_slice(), &mut found)?;
        }
        at = place(at as usize, entry.columns.len())?;
    }
    Ok(found)
}

/// The only column that the name may mean, by its place in the joined row, and its type.
pub fn column_of(
    alloc: Global,
    entries: &[Entry],
    c: &ColumnName,
) -> Result<(u32, Ty), ResolveFault>
    ensures { Resolves (spec.column_of entries.now c.now) result }
{
    let found = found(alloc, c, entries)?;
    match found.as_slice() {
        [] => Err(ResolveFault::Refused(Refusal::Unknown {
            name: written(alloc, c)?,
        })),
        [column] => Ok(*column),
        [_, _, ..] => Err(ResolveFault::Refused(Refusal::Ambiguous {
            name: written(alloc, c)?,
        })),
    }
}

fn key_at(keys: &[u32], column: u32) -> Option<usize>
    ensures { result ≡ spec.key_at 0 keys.now column }
{
    for (at, key) in keys.iter().enumerate() {
        if *key == column {
            return Some(at);
        }
    }
    None
}

/// The column over the rows or the groups; over groups it has to be a key.
pub fn column_over(
    over: Over,
    keys: &[u32],
    at: usize,
    column: (u32, Ty),
) -> Result<(u32, Ty), ResolveFault>
    ensures { Resolves (spec.column_over over keys.now at column) result }
{
    match over {
        Over::Rows => Ok(column),
        Over::Groups => match key_at(keys, column.0) {
            None => Err(ResolveFault::mismatch(at)),
            Some(key) => Ok((place(key, 0)?, column.1)),
        },
    }
}

/// The column that a name means.
pub fn column_seen(
    alloc: Global,
    names: &Names,
    over: Over,
    c: &ColumnName,
) -> Result<(u32, Ty), ResolveFault>
    ensures { Resolves (spec.column_seen names.now over c.now) result }
{
    let column = column_of(alloc, names.entries.as_slice(), c)?;
    Ok(column_over(over, names.keys.as_slice(), first_place(c), column)?)
}
