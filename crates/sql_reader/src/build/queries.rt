//! What is built of selects, tables and queries.

ghost use Rattle.std.specs.Prelude.{◌≡◌, reverse, OnOk};
ghost use Rattle.sql_reader.specs.Build.{waiting};
ghost use Rattle.sql_reader.specs.BuildQueries as spec;
ghost use Rattle.sql_reader.specs.Waiting.{rest, on, made, made2, put, put2, joined, with};
ghost use Rattle.sql_reader.specs.declared.tree.query.JoinKind.TheVariants.{Inner, Left, Cross};
ghost use Rattle.sql_reader.specs.declared.tree.query.SelectItem.TheVariants.{All};

use crate::build::parts::push;
use crate::build::{Parts, QueryAction, Source};
use crate::tree::{
    ColumnName, Expr, JoinKind, Key, KeyTarget, Literal, Name, Query, RelationName, Select,
    SelectItem, SetQuery, TableRef,
};
use sqlite_items::{Boxed, Items};
use std::alloc::Global;
use vdb_base::{NoMemory, Seq};

fn distinct(selects: &mut Vec<Select>) -> Result<(), NoMemory>
    ensures selects { OnOk result (reverse selects.new.items ≡ on spec.distinct (reverse selects.old.items)) }
{
    let Some(mut select) = selects.pop() else {
        return Ok(());
    };
    select.distinct = true;
    selects.push(select)?;
    Ok(())
}

fn all(at: usize, selects: &mut Vec<Select>) -> Result<(), NoMemory>
    ensures selects { OnOk result (reverse selects.new.items ≡ on (spec.add_item (All at)) (reverse selects.old.items)) }
{
    add_item(SelectItem::All { at }, selects)
}

fn all_of(names: &mut Vec<Name>, selects: &mut Vec<Select>) -> Result<(), NoMemory>
    ensures names { OnOk result (reverse names.new.items ≡ rest (reverse names.old.items)) }
    ensures selects { OnOk result (reverse selects.new.items ≡ put spec.all_of (reverse names.old.items) (reverse selects.old.items)) }
{
    let Some(relation) = names.pop() else {
        return Ok(());
    };
    add_item(SelectItem::AllOf { relation }, selects)
}

fn item(exprs: &mut Vec<Boxed<Expr>>, selects: &mut Vec<Select>) -> Result<(), NoMemory>
    ensures exprs { OnOk result (reverse exprs.new.items ≡ rest (reverse exprs.old.items)) }
    ensures selects { OnOk result (reverse selects.new.items ≡ put spec.plain_item (reverse exprs.old.items) (reverse selects.old.items)) }
{
    let Some(expr) = exprs.pop() else {
        return Ok(());
    };
    let expr = expr.into_inner();
    add_item(SelectItem::Expr { expr, alias: None }, selects)
}

fn item_as(
    names: &mut Vec<Name>,
    exprs: &mut Vec<Boxed<Expr>>,
    selects: &mut Vec<Select>,
) -> Result<(), NoMemory>
    ensures names { OnOk result (reverse names.new.items ≡ rest (reverse names.old.items)) }
    ensures exprs { OnOk result (reverse exprs.new.items ≡ rest (reverse exprs.old.items)) }
    ensures selects { OnOk result (reverse selects.new.items ≡ put2 spec.named_item (reverse names.old.items) (reverse exprs.old.items) (reverse selects.old.items)) }
{
    let Some((alias, expr)) = names.pop().zip(exprs.pop()) else {
        return Ok(());
    };
    let expr = expr.into_inner();
    let alias = Some(alias);
    add_item(SelectItem::Expr { expr, alias }, selects)
}

fn from(tables: &mut Vec<Boxed<TableRef>>, selects: &mut Vec<Select>) -> Result<(), NoMemory>
    ensures tables { OnOk result (reverse tables.new.items ≡ rest (reverse tables.old.items)) }
    ensures selects { OnOk result (reverse selects.new.items ≡ put spec.from (reverse tables.old.items) (reverse selects.old.items)) }
{
    let Some(table) = tables.pop() else {
        return Ok(());
    };
    let Some(mut select) = selects.pop() else {
        return Ok(());
    };
    select.from.push(table.into_inner())?;
    selects.push(select)?;
    Ok(())
}

fn where_true(exprs: &mut Vec<Boxed<Expr>>, selects: &mut Vec<Select>) -> Result<(), NoMemory>
    ensures exprs { OnOk result (reverse exprs.new.items ≡ rest (reverse exprs.old.items)) }
    ensures selects { OnOk result (reverse selects.new.items ≡ put spec.where_true (reverse exprs.old.items) (reverse selects.old.items)) }
{
    let Some(condition) = exprs.pop() else {
        return Ok(());
    };
    let Some(mut select) = selects.pop() else {
        return Ok(());
    };
    select.condition = Some(condition.into_inner());
    selects.push(select)?;
    Ok(())
}

fn group_by(columns: &mut Vec<ColumnName>, selects: &mut Vec<Select>) -> Result<(), NoMemory>
    ensures columns { OnOk result (reverse columns.new.items ≡ rest (reverse columns.old.items)) }
    ensures selects { OnOk result (reverse selects.new.items ≡ put spec.group_by (reverse columns.old.items) (reverse selects.old.items)) }
{
    let Some(column) = columns.pop() else {
        return Ok(());
    };
    let Some(mut select) = selects.pop() else {
        return Ok(());
    };
    select.group.push(column)?;
    selects.push(select)?;
    Ok(())
}

fn having(exprs: &mut Vec<Boxed<Expr>>, selects: &mut Vec<Select>) -> Result<(), NoMemory>
    ensures exprs { OnOk result (reverse exprs.new.items ≡ rest (reverse exprs.old.items)) }
    ensures selects { OnOk result (reverse selects.new.items ≡ put spec.having_true (reverse exprs.old.items) (reverse selects.old.items)) }
{
    let Some(condition) = exprs.pop() else {
        return Ok(());
    };
    let Some(mut select) = selects.pop() else {
        return Ok(());
    };
    select.having = Some(condition.into_inner());
    selects.push(select)?;
    Ok(())
}

fn one_select(
    alloc: Global,
    selects: &mut Vec<Select>,
    sets: &mut Vec<Boxed<SetQuery>>,
) -> Result<(), NoMemory>
    ensures selects { OnOk result (reverse selects.new.items ≡ rest (reverse selects.old.items)) }
    ensures sets { OnOk result (reverse sets.new.items ≡ made spec.one_select (reverse selects.old.items) (reverse sets.old.items)) }
{
    let Some(select) = selects.pop() else {
        return Ok(());
    };
    push(alloc, SetQuery::Select(select), sets)
}

fn union(
    alloc: Global,
    all: bool,
    selects: &mut Vec<Select>,
    sets: &mut Vec<Boxed<SetQuery>>,
) -> Result<(), NoMemory>
    ensures selects { OnOk result (reverse selects.new.items ≡ rest (reverse selects.old.items)) }
    ensures sets { OnOk result (reverse sets.new.items ≡ put (spec.union all) (reverse selects.old.items) (reverse sets.old.items)) }
{
    let Some(right) = selects.pop() else {
        return Ok(());
    };
    let Some(left) = sets.pop() else {
        return Ok(());
    };
    push(alloc, SetQuery::Union { left, all, right }, sets)
}

fn table(
    alloc: Global,
    relations: &mut Vec<RelationName>,
    tables: &mut Vec<Boxed<TableRef>>,
) -> Result<(), NoMemory>
    ensures relations { OnOk result (reverse relations.new.items ≡ rest (reverse relations.old.items)) }
    ensures tables { OnOk result (reverse tables.new.items ≡ made spec.table (reverse relations.old.items) (reverse tables.old.items)) }
{
    let Some(name) = relations.pop() else {
        return Ok(());
    };
    push(alloc, TableRef::Named { name, alias: None }, tables)
}

fn table_as(
    alloc: Global,
    relations: &mut Vec<RelationName>,
    names: &mut Vec<Name>,
    tables: &mut Vec<Boxed<TableRef>>,
) -> Result<(), NoMemory>
    ensures relations { OnOk result (reverse relations.new.items ≡ rest (reverse relations.old.items)) }
    ensures names { OnOk result (reverse names.new.items ≡ rest (reverse names.old.items)) }
    ensures tables { OnOk result (reverse tables.new.items ≡ made2 spec.table_as (reverse relations.old.items) (reverse names.old.items) (reverse tables.old.items)) }
{
    let Some((name, alias)) = relations.pop().zip(names.pop()) else {
        return Ok(());
    };
    push(
        alloc,
        TableRef::Named {
            name,
            alias: Some(alias),
        },
        tables,
    )
}

fn derived(
    alloc: Global,
    sets: &mut Vec<Boxed<SetQuery>>,
    names: &mut Vec<Name>,
    tables: &mut Vec<Boxed<TableRef>>,
) -> Result<(), NoMemory>
    ensures sets { OnOk result (reverse sets.new.items ≡ rest (reverse sets.old.items)) }
    ensures names { OnOk result (reverse names.new.items ≡ rest (reverse names.old.items)) }
    ensures tables { OnOk result (reverse tables.new.items ≡ made2 spec.derived (reverse sets.old.items) (reverse names.old.items) (reverse tables.old.items)) }
{
    let Some((query, alias)) = sets.pop().zip(names.pop()) else {
        return Ok(());
    };
    push(alloc, TableRef::Derived { query, alias }, tables)
}

fn inner_join(
    alloc: Global,
    exprs: &mut Vec<Boxed<Expr>>,
    tables: &mut Vec<Boxed<TableRef>>,
) -> Result<(), NoMemory>
    ensures exprs { OnOk result (reverse exprs.new.items ≡ rest (reverse exprs.old.items)) }
    ensures tables { OnOk result (reverse tables.new.items ≡ with (λ e. joined (spec.joined_tables (Inner e))) (reverse exprs.old.items) (reverse tables.old.items)) }
{
    let Some(condition) = exprs.pop() else {
        return Ok(());
    };
    let Some((right, left)) = tables.pop().zip(tables.pop()) else {
        return Ok(());
    };
    let kind = JoinKind::Inner(condition.into_inner());
    push(alloc, TableRef::Joined { left, right, kind }, tables)
}

fn left_join(
    alloc: Global,
    exprs: &mut Vec<Boxed<Expr>>,
    tables: &mut Vec<Boxed<TableRef>>,
) -> Result<(), NoMemory>
    ensures exprs { OnOk result (reverse exprs.new.items ≡ rest (reverse exprs.old.items)) }
    ensures tables { OnOk result (reverse tables.new.items ≡ with (λ e. joined (spec.joined_tables (Left e))) (reverse exprs.old.items) (reverse tables.old.items)) }
{
    let Some(condition) = exprs.pop() else {
        return Ok(());
    };
    let Some((right, left)) = tables.pop().zip(tables.pop()) else {
        return Ok(());
    };
    let kind = JoinKind::Left(condition.into_inner());
    push(alloc, TableRef::Joined { left, right, kind }, tables)
}

fn cross_join(alloc: Global, tables: &mut Vec<Boxed<TableRef>>) -> Result<(), NoMemory>
    ensures tables { OnOk result (reverse tables.new.items ≡ joined (spec.joined_tables Cross) (reverse tables.old.items)) }
{
    let Some((right, left)) = tables.pop().zip(tables.pop()) else {
        return Ok(());
    };
    let kind = JoinKind::Cross;
    push(alloc, TableRef::Joined { left, right, kind }, tables)
}

fn query(
    alloc: Global,
    sets: &mut Vec<Boxed<SetQuery>>,
    queries: &mut Vec<Query>,
) -> Result<(), NoMemory>
    ensures sets { OnOk result (reverse sets.new.items ≡ rest (reverse sets.old.items)) }
    ensures queries { OnOk result (reverse queries.new.items ≡ made spec.query (reverse sets.old.items) (reverse queries.old.items)) }
{
    let Some(set) = sets.pop() else {
        return Ok(());
    };
    queries.push(Query {
        set: set.into_inner(),
        keys: Seq::new(alloc),
        limit: None,
        offset: None,
    })?;
    Ok(())
}

fn key_name(
    descending: bool,
    names: &mut Vec<Name>,
    queries: &mut Vec<Query>,
) -> Result<(), NoMemory>
    ensures names { OnOk result (reverse names.new.items ≡ rest (reverse names.old.items)) }
    ensures queries { OnOk result (reverse queries.new.items ≡ put (spec.key_name descending) (reverse names.old.items) (reverse queries.old.items)) }
{
    let Some(name) = names.pop() else {
        return Ok(());
    };
    let Some(mut query) = queries.pop() else {
        return Ok(());
    };
    let target = KeyTarget::Name(name);
    query.keys.push(Key { target, descending })?;
    queries.push(query)?;
    Ok(())
}

fn key_number(
    descending: bool,
    literals: &mut Vec<Literal>,
    queries: &mut Vec<Query>,
) -> Result<(), NoMemory>
    ensures literals { OnOk result (reverse literals.new.items ≡ rest (reverse literals.old.items)) }
    ensures queries { OnOk result (reverse queries.new.items ≡ put (spec.key_number descending) (reverse literals.old.items) (reverse queries.old.items)) }
{
    let Some(number) = literals.pop() else {
        return Ok(());
    };
    let Some(mut query) = queries.pop() else {
        return Ok(());
    };
    let target = KeyTarget::Number(number);
    query.keys.push(Key { target, descending })?;
    queries.push(query)?;
    Ok(())
}

fn limit(literals: &mut Vec<Literal>, queries: &mut Vec<Query>) -> Result<(), NoMemory>
    ensures literals { OnOk result (reverse literals.new.items ≡ rest (reverse literals.old.items)) }
    ensures queries { OnOk result (reverse queries.new.items ≡ put spec.limit (reverse literals.old.items) (reverse queries.old.items)) }
{
    let Some(number) = literals.pop() else {
        return Ok(());
    };
    let Some(mut query) = queries.pop() else {
        return Ok(());
    };
    query.limit = Some(number);
    queries.push(query)?;
    Ok(())
}

fn offset(literals: &mut Vec<Literal>, queries: &mut Vec<Query>) -> Result<(), NoMemory>
    ensures literals { OnOk result (reverse literals.new.items ≡ rest (reverse literals.old.items)) }
    ensures queries { OnOk result (reverse queries.new.items ≡ put spec.offset (reverse literals.old.items) (reverse queries.old.items)) }
{
    let Some(number) = literals.pop() else {
        return Ok(());
    };
    let Some(mut query) = queries.pop() else {
        return Ok(());
    };
    query.offset = Some(number);
    queries.push(query)?;
    Ok(())
}

/// One item more in the last select.
fn add_item(item: SelectItem, selects: &mut Vec<Select>) -> Result<(), NoMemory>
    ensures { OnOk result (reverse selects.new.items ≡ on (spec.add_item item) (reverse selects.old.items)) }
{
    let Some(mut select) = selects.pop() else {
        return Ok(());
    };
    select.items.push(item)?;
    selects.push(select)?;
    Ok(())
}

/// A select of which SELECT alone is read.
fn bare_select(alloc: Global, at: usize) -> Select
    ensures { result ≡ spec.bare_select at }
{
    Select {
        distinct: false,
        items: Seq::new(alloc),
        from: Items::new(alloc),
        condition: None,
        group: Seq::new(alloc),
        having: None,
        at,
    }
}

/// Does an action of queries, after so many tokens.
pub(super) fn act(
    alloc: Global,
    source: &Source<'_>,
    at: usize,
    action: QueryAction,
    parts: &mut Parts,
) -> Result<(), NoMemory>
    ensures { OnOk result (waiting parts.new ≡ spec.query_on source.now at action (waiting parts.old)) }
{
    match action {
        QueryAction::Select => Ok(parts.selects.push(bare_select(alloc, source.place_at(at)))?),
        QueryAction::Distinct => distinct(&mut parts.selects),
        QueryAction::All => all(source.place_at(at), &mut parts.selects),
        QueryAction::AllOf => all_of(&mut parts.names, &mut parts.selects),
        QueryAction::Item => item(&mut parts.exprs, &mut parts.selects),
        QueryAction::ItemAs => item_as(&mut parts.names, &mut parts.exprs, &mut parts.selects),
        QueryAction::From => from(&mut parts.tables, &mut parts.selects),
        QueryAction::Where => where_true(&mut parts.exprs, &mut parts.selects),
        QueryAction::GroupKey => group_by(&mut parts.columns, &mut parts.selects),
        QueryAction::Having => having(&mut parts.exprs, &mut parts.selects),
        QueryAction::Selects => one_select(alloc, &mut parts.selects, &mut parts.sets),
        QueryAction::Union(all) => union(alloc, all, &mut parts.selects, &mut parts.sets),
        QueryAction::Table => table(alloc, &mut parts.relations, &mut parts.tables),
        QueryAction::TableAs => table_as(
            alloc,
            &mut parts.relations,
            &mut parts.names,
            &mut parts.tables,
        ),
        QueryAction::Derived => derived(
            alloc,
            &mut parts.sets,
            &mut parts.names,
            &mut parts.tables,
        ),
        QueryAction::Inner => inner_join(alloc, &mut parts.exprs, &mut parts.tables),
        QueryAction::Left => left_join(alloc, &mut parts.exprs, &mut parts.tables),
        QueryAction::Cross => cross_join(alloc, &mut parts.tables),
        QueryAction::Query => query(alloc, &mut parts.sets, &mut parts.queries),
        QueryAction::KeyName(descending) => key_name(
            descending,
            &mut parts.names,
            &mut parts.queries,
        ),
        QueryAction::KeyNumber(descending) => key_number(
            descending,
            &mut parts.literals,
            &mut parts.queries,
        ),
        QueryAction::Limit => limit(&mut parts.literals, &mut parts.queries),
        QueryAction::Offset => offset(&mut parts.literals, &mut parts.queries),
    }
}
