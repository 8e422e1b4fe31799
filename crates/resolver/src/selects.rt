//! Selects: FROM, WHERE, GROUP BY, HAVING, the items, and then the next select of the chain.

ghost use Rattle.std.specs.Prelude.{◌≡◌, ◌++◌};
ghost use Rattle.expr_resolver.specs.Answers.{Resolves};
ghost use Rattle.resolver.specs.From as from;
ghost use Rattle.resolver.specs.Selects as spec;
ghost use Rattle.expr_resolver.specs.Walking.{next};

use crate::from::{crossed, derived, joined_by, seen_with, source_or_one, table_source, visible};
use crate::grouping::{filtered, grouped_walk};
use crate::selected::{Selected, Source};
use crate::unions::united;
use expr_resolver::ResolveFault;
use sql_reader::tree::{JoinKind, Select, SetQuery, TableRef};
use std::alloc::Global;
use vdb_base::Text;
use vdb_model::Catalog;

/// A query without an order.
#[cycle(select)]
#[tactic(auto, using(crate::proofs::Rules::set_rules))]
pub fn set_walk(alloc: Global, cat: &Catalog, q: &SetQuery) -> Result<Selected, ResolveFault>
    ensures { Resolves (spec.set_walk cat.now q.now) result }
{
    match q {
        SetQuery::Select(s) => Ok(select_walk(alloc, cat, s)?),
        SetQuery::Union { left, all, right } => {
            let left = set_walk(alloc, cat, left.get())?;
            Ok(right_walk(alloc, cat, right, *all, left)?)
        }
    }
}

/// A UNION behind its left side.
#[cycle(select)]
#[tactic(auto, using(crate::proofs::Rules::set_rules))]
fn right_walk(
    alloc: Global,
    cat: &Catalog,
    right: &Select,
    all: bool,
    left: Selected,
) -> Result<Selected, ResolveFault>
    ensures { Resolves (next (spec.select_walk cat.now right.now) (spec.united all left)) result }
{
    let right = select_walk(alloc, cat, right)?;
    Ok(united(alloc, all, left, right)?)
}

#[cycle(select)]
#[tactic(auto, using(crate::proofs::Rules::set_rules))]
fn select_walk(alloc: Global, cat: &Catalog, s: &Select) -> Result<Selected, ResolveFault>
    ensures { Resolves (spec.select_walk cat.now s.now) result }
{
    let source = from_walk(alloc, cat, s.from.as_slice())?;
    let source = filtered(alloc, &s.condition, source)?;
    Ok(grouped_walk(alloc, s, source)?)
}

/// FROM, and the tables between its commas.
#[cycle(select)]
#[tactic(auto, using(crate::proofs::Rules::set_rules))]
fn from_walk(alloc: Global, cat: &Catalog, tables: &[TableRef]) -> Result<Source, ResolveFault>
    ensures { Resolves (from.from (spec.tables_walk cat.now tables.now)) result }
{
    let mut before = None;
    for table in tables {
        before = Some(beside_walk(alloc, cat, table, before)?);
    }
    Ok(source_or_one(alloc, before))
}

/// A table of FROM, alone or beside those before it.
#[cycle(select)]
#[tactic(auto, using(crate::proofs::Rules::set_rules))]
fn beside_walk(
    alloc: Global,
    cat: &Catalog,
    table: &TableRef,
    before: Option<Source>,
) -> Result<Source, ResolveFault>
    ensures { Resolves (from.beside before (spec.table_walk cat.now table.now)) result }
{
    match before {
        None => Ok(table_walk(alloc, cat, table, &[])?),
        Some(left) => {
            let seen = visible(alloc, left.entries.as_slice())?;
            let right = table_walk(alloc, cat, table, seen.as_slice())?;
            Ok(crossed(alloc, left, right)?)
        }
    }
}

/// What stands between the commas of FROM, behind the names that are visible already.
#[cycle(select)]
#[tactic(auto, using(crate::proofs::Rules::set_rules))]
fn table_walk(
    alloc: Global,
    cat: &Catalog,
    table: &TableRef,
    seen: &[Text],
) -> Result<Source, ResolveFault>
    ensures { Resolves (spec.table_walk cat.now table.now seen.now) result }
{
    match table {
        TableRef::Named { name, alias } => Ok(table_source(alloc, cat, name, alias, seen)?),
        TableRef::Derived { query, alias } => {
            let selected = set_walk(alloc, cat, query.get())?;
            Ok(derived(alloc, selected, alias, seen)?)
        }
        TableRef::Joined { left, right, kind } => {
            let left = table_walk(alloc, cat, left.get(), seen)?;
            Ok(joined_walk(alloc, cat, right.get(), kind, seen, left)?)
        }
    }
}

/// A join behind its left side.
#[cycle(select)]
#[tactic(auto, using(crate::proofs::Rules::set_rules))]
fn joined_walk(
    alloc: Global,
    cat: &Catalog,
    right: &TableRef,
    kind: &JoinKind,
    seen: &[Text],
    left: Source,
) -> Result<Source, ResolveFault>
    ensures { Resolves (next (spec.table_walk cat.now right.now (seen.now ++ from.visible left.entries)) (from.joined_by kind.now left)) result }
{
    let seen = seen_with(alloc, seen, left.entries.as_slice())?;
    let right = table_walk(alloc, cat, right, seen.as_slice())?;
    Ok(joined_by(alloc, kind, left, right)?)
}
