//! Queries.

ghost use Rattle.std.specs.Prelude.{◌≡◌, ◌++◌, [], OnOk, OnErr};
ghost use Rattle.sql_printer.specs.Lists.{listed};
ghost use Rattle.sql_printer.specs.Names.{column};
ghost use Rattle.sql_printer.specs.Queries as spec;
ghost use Rattle.sql_printer.specs.Spelled.{spelled, word_text};

use crate::exprs::put_expr;
use crate::names::{put_alias, put_column, put_literal, put_name, put_relation};
use crate::put::{put, put_before, put_optional};
use sql_reader::symbols::{ALL, DESC, DISTINCT, HAVING, LIMIT, OFFSET, WHERE};
use sql_reader::tree::{
    ColumnName, Expr, JoinKind, Key, KeyTarget, Literal, Query, Select, SelectItem, SetQuery,
    TableRef,
};
use std::alloc::Global;
use vdb_base::{NoMemory, Text};

#[tactic(auto, using(crate::proofs::Rules::query_rules))]
fn put_item(alloc: Global, item: &SelectItem, out: &mut Text) -> Result<(), NoMemory>
    ensures { OnOk result (out.new ≡ out.old ++ spelled (spec.item_said item.now)) }
{
    match item {
        SelectItem::All { .. } => put("*", out),
        SelectItem::AllOf { relation } => {
            put_name(alloc, relation, out)?;
            put(".", out)?;
            put("*", out)
        }
        SelectItem::Expr { expr, alias } => {
            put_expr(alloc, expr, out)?;
            put_alias(alloc, alias, out)
        }
    }
}

#[tactic(auto, using(crate::proofs::Rules::query_rules))]
fn put_items(alloc: Global, items: &[SelectItem], out: &mut Text) -> Result<(), NoMemory>
    ensures { OnOk result (out.new ≡ out.old ++ spelled (listed [] spec.item_said items.now)) }
{
    let mut first = true;
    for item in items {
        put_before(first, "", out)?;
        put_item(alloc, item, out)?;
        first = false;
    }
    Ok(())
}

/// A word and a condition, where there is one.
#[tactic(auto, using(crate::proofs::Rules::query_rules))]
fn put_condition(
    alloc: Global,
    kind: u16,
    word: &str,
    condition: &Option<Expr>,
    out: &mut Text,
) -> Result<(), NoMemory>
    requires word { word.now ≡ word_text kind }
    ensures { OnOk result (out.new ≡ out.old ++ spelled (spec.condition_said kind condition.now)) }
{
    match condition {
        Some(condition) => {
            put(word, out)?;
            put_expr(alloc, condition, out)
        }
        None => Ok(()),
    }
}

/// What stands between two tables.
fn put_join(kind: &JoinKind, out: &mut Text) -> Result<(), NoMemory>
    ensures { OnOk result (out.new ≡ out.old ++ spelled (spec.join_said kind.now)) }
{
    match kind {
        JoinKind::Inner(_) => put("join", out),
        JoinKind::Left(_) => put("left join", out),
        JoinKind::Cross => put("cross join", out),
    }
}

/// What stands after them.
#[tactic(auto, using(crate::proofs::Rules::query_rules))]
fn put_on(alloc: Global, kind: &JoinKind, out: &mut Text) -> Result<(), NoMemory>
    ensures { OnOk result (out.new ≡ out.old ++ spelled (spec.on_said kind.now)) }
{
    match kind {
        JoinKind::Inner(condition) => {
            put("on", out)?;
            put_expr(alloc, condition, out)
        }
        JoinKind::Left(condition) => {
            put("on", out)?;
            put_expr(alloc, condition, out)
        }
        JoinKind::Cross => Ok(()),
    }
}

#[tactic(auto, using(crate::proofs::Rules::query_rules))]
fn put_group(alloc: Global, columns: &[ColumnName], out: &mut Text) -> Result<(), NoMemory>
    ensures { OnOk result (out.new ≡ out.old ++ spelled (listed spec.group_by column columns.now)) }
{
    let mut first = true;
    for column in columns {
        put_before(first, "group by ", out)?;
        put_column(alloc, column, out)?;
        first = false;
    }
    Ok(())
}

#[cycle(querying)]
#[tactic(auto, using(crate::proofs::Rules::query_rules))]
fn put_set(alloc: Global, set: &SetQuery, out: &mut Text) -> Result<(), NoMemory>
    ensures { OnOk result (out.new ≡ out.old ++ spelled (spec.set set.now)) }
{
    match set {
        SetQuery::Select(select) => put_select(alloc, select, out),
        SetQuery::Union { left, all, right } => {
            put_set(alloc, left.get(), out)?;
            put("union", out)?;
            put_optional(*all, ALL, "all", out)?;
            put_select(alloc, right, out)
        }
    }
}

#[cycle(querying)]
#[tactic(auto, using(crate::proofs::Rules::query_rules))]
fn put_select(alloc: Global, select: &Select, out: &mut Text) -> Result<(), NoMemory>
    ensures { OnOk result (out.new ≡ out.old ++ spelled (spec.select select.now)) }
{
    put("select", out)?;
    put_optional(select.distinct, DISTINCT, "distinct", out)?;
    put_items(alloc, select.items.as_slice(), out)?;
    put_tables(alloc, select.from.as_slice(), out)?;
    put_condition(alloc, WHERE, "where", &select.condition, out)?;
    put_group(alloc, select.group.as_slice(), out)?;
    put_condition(alloc, HAVING, "having", &select.having, out)
}

/// FROM and tables with commas between them, where there are any.
#[cycle(querying)]
#[tactic(auto, using(crate::proofs::Rules::query_rules))]
fn put_tables(alloc: Global, tables: &[TableRef], out: &mut Text) -> Result<(), NoMemory>
    ensures { OnOk result (out.new ≡ out.old ++ spelled (listed spec.from spec.table tables.now)) }
{
    let mut first = true;
    for table in tables {
        put_before(first, "from ", out)?;
        put_table(alloc, table, out)?;
        first = false;
    }
    Ok(())
}

#[cycle(querying)]
#[tactic(auto, using(crate::proofs::Rules::query_rules))]
fn put_table(alloc: Global, table: &TableRef, out: &mut Text) -> Result<(), NoMemory>
    ensures { OnOk result (out.new ≡ out.old ++ spelled (spec.table table.now)) }
{
    match table {
        TableRef::Named { name, alias } => {
            put_relation(alloc, name, out)?;
            put_alias(alloc, alias, out)
        }
        TableRef::Derived { query, alias } => {
            put("(", out)?;
            put_set(alloc, query.get(), out)?;
            put(")", out)?;
            put_name(alloc, alias, out)
        }
        TableRef::Joined { left, right, kind } => {
            put_table(alloc, left.get(), out)?;
            put_join(kind, out)?;
            put_table(alloc, right.get(), out)?;
            put_on(alloc, kind, out)
        }
    }
}

fn put_target(alloc: Global, target: &KeyTarget, out: &mut Text) -> Result<(), NoMemory>
    ensures { OnOk result (out.new ≡ out.old ++ spelled (spec.target_said target.now)) }
{
    match target {
        KeyTarget::Name(name) => put_name(alloc, name, out),
        KeyTarget::Number(number) => put_literal(alloc, number, out),
    }
}

#[tactic(auto, using(crate::proofs::Rules::query_rules))]
fn put_key(alloc: Global, key: &Key, out: &mut Text) -> Result<(), NoMemory>
    ensures { OnOk result (out.new ≡ out.old ++ spelled (spec.key key.now)) }
{
    put_target(alloc, &key.target, out)?;
    put_optional(key.descending, DESC, "desc", out)
}

#[tactic(auto, using(crate::proofs::Rules::query_rules))]
fn put_keys(alloc: Global, keys: &[Key], out: &mut Text) -> Result<(), NoMemory>
    ensures { OnOk result (out.new ≡ out.old ++ spelled (listed spec.order_by spec.key keys.now)) }
{
    let mut first = true;
    for key in keys {
        put_before(first, "order by ", out)?;
        put_key(alloc, key, out)?;
        first = false;
    }
    Ok(())
}

/// LIMIT or OFFSET and its number, where it is written.
#[tactic(auto, using(crate::proofs::Rules::query_rules))]
fn put_bound(
    alloc: Global,
    kind: u16,
    word: &str,
    bound: &Option<Literal>,
    out: &mut Text,
) -> Result<(), NoMemory>
    requires word { word.now ≡ word_text kind }
    ensures { OnOk result (out.new ≡ out.old ++ spelled (spec.bound_said kind bound.now)) }
{
    match bound {
        Some(number) => {
            put(word, out)?;
            put_literal(alloc, number, out)
        }
        None => Ok(()),
    }
}

#[tactic(auto, using(crate::proofs::Rules::query_rules))]
fn put_query(alloc: Global, query: &Query, out: &mut Text) -> Result<(), NoMemory>
    ensures { OnOk result (out.new ≡ out.old ++ spelled (spec.printed query.now)) }
{
    put_set(alloc, &query.set, out)?;
    put_keys(alloc, query.keys.as_slice(), out)?;
    put_bound(alloc, LIMIT, "limit", &query.limit, out)?;
    put_bound(alloc, OFFSET, "offset", &query.offset, out)
}

/// Appends the text of a query. Where memory is wanting, `out` is as before.
pub fn print_query(alloc: Global, query: &Query, out: &mut Text) -> Result<(), NoMemory>
    ensures ok { OnOk result (out.new ≡ out.old ++ spelled (spec.printed query.now)) }
    ensures err { OnErr result (out.new ≡ out.old) }
{
    let mut made = Text::new(alloc);
    put_query(alloc, query, &mut made)?;
    out.push_str(made.as_str())
}
