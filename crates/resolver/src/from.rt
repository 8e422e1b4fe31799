//! What the parts of a FROM give.

ghost use Rattle.std.specs.Prelude.{◌≡◌, ◌++◌, IfOk, OnOk, Ok};
ghost use Rattle.expr_resolver.specs.Answers.{Resolves};
ghost use Rattle.resolver.specs.From as spec;
ghost use Rattle.expr_resolver.specs.Exprs as exprs;
ghost use Rattle.expr_resolver.specs.Operators as op;
ghost use Rattle.resolver.specs.Selects as selects;
ghost use Rattle.expr_resolver.specs.Walking.{next, one};
ghost use Rattle.vdb_model.specs.declared.rel.Rel.TheVariants as rel;
ghost use Rattle.expr_resolver.specs.declared.scope.Over.TheVariants.{Rows};

use crate::relation::Relation;
use crate::relations::{rel_of, relation_of, written_relation};
use crate::selected::{Column, Selected, Source};
use crate::unions::union_of;
use expr_resolver::exprs::walk;
use expr_resolver::operators::condition;
use expr_resolver::types::settled;
use expr_resolver::{Entry, Known, Names, Over, ResolveFault};
use sql_reader::tree::{self, Name, RelationName};
use sqlite_items::Boxed;
use std::alloc::Global;
use vdb_base::{NoMemory, Seq, Text, Texts, Value};
use vdb_model::{Catalog, Expr, JoinKind, Refusal, Rel, VarDef, VarDefs, printed};

/// A condition over the joined rows.
pub fn condition_of(alloc: Global, names: &Names, e: &tree::Expr) -> Result<Known, ResolveFault>
    ensures { Resolves (spec.alone (one (exprs.walk names.now e.now Rows) op.condition)) result }
{
    let mut aggs = Seq::new(alloc);
    let k = walk(alloc, names, Over::Rows, e, &mut aggs)?;
    Ok(condition(k)?)
}

fn is_seen(name: &Text, seen: &[Text]) -> bool
    ensures { result ≡ spec.is_seen name.now seen.now }
{
    for other in seen {
        if *other == *name {
            return true;
        }
    }
    false
}

/// One entry more, where its visible name is new in this FROM.
fn enter(
    alloc: Global,
    seen: &[Text],
    written: Text,
    entry: Entry,
    rel: Rel,
) -> Result<Source, ResolveFault>
    ensures { Resolves (spec.enter seen.now written entry rel) result }
{
    if is_seen(&entry.name, seen) {
        return Err(ResolveFault::Refused(Refusal::Ambiguous { name: written }));
    }
    let mut entries = Seq::new(alloc);
    entries.push(entry)?;
    Ok(Source { rel, entries })
}

pub fn table_entry(alloc: Global, alias: &Option<Name>, r: Relation) -> Result<Entry, NoMemory>
    ensures { IfOk result (λ entry. entry ≡ spec.table_entry alias.now r) }
{
    let Relation {
        schema,
        name,
        columns,
        ..
    } = r;
    match alias {
        None => Ok(Entry {
            name,
            schema: Some(schema),
            columns,
        }),
        Some(alias) => Ok(Entry {
            name: alias.text.copy(alloc)?,
            schema: None,
            columns,
        }),
    }
}

fn entry_text(alloc: Global, alias: &Option<Name>, r: &RelationName) -> Result<Text, NoMemory>
    ensures { IfOk result (λ made. made ≡ spec.entry_text alias.now r.now) }
{
    match alias {
        None => Ok(written_relation(alloc, r)?),
        Some(alias) => Ok(printed(alloc, &alias.text)?),
    }
}

/// A relation under its alias or its name.
pub fn table_source(
    alloc: Global,
    cat: &Catalog,
    r: &RelationName,
    alias: &Option<Name>,
    seen: &[Text],
) -> Result<Source, ResolveFault>
    ensures { Resolves (spec.table_source cat.now r.now alias.now seen.now) result }
{
    let relation = relation_of(alloc, cat, r)?;
    let rel = rel_of(relation.target);
    let written = entry_text(alloc, alias, r)?;
    let entry = table_entry(alloc, alias, relation)?;
    Ok(enter(alloc, seen, written, entry, rel)?)
}

fn settled_columns(alloc: Global, columns: &[Column]) -> Result<VarDefs, NoMemory>
    ensures { IfOk result (λ made. made ≡ spec.settled_columns columns.now) }
{
    let mut made = Seq::new(alloc);
    for column in columns {
        made.push(VarDef {
            name: column.name.copy(alloc)?,
            ty: settled(column.ty),
        })?;
    }
    Ok(made)
}

/// A query under its alias.
fn derived_source(
    alloc: Global,
    rel: Rel,
    columns: &[Column],
    alias: &Name,
    seen: &[Text],
) -> Result<Source, ResolveFault>
    ensures { Resolves (spec.derived_source rel columns.now alias.now seen.now) result }
{
    let written = printed(alloc, &alias.text)?;
    let entry = Entry {
        name: alias.text.copy(alloc)?,
        schema: None,
        columns: settled_columns(alloc, columns)?,
    };
    Ok(enter(alloc, seen, written, entry, rel)?)
}

/// A walked query under its alias.
pub fn derived(
    alloc: Global,
    selected: Selected,
    alias: &Name,
    seen: &[Text],
) -> Result<Source, ResolveFault>
    ensures { Resolves (selects.derived (Ok selected) alias.now seen.now) result }
{
    let Selected { parts, columns, .. } = selected;
    Ok(derived_source(alloc, union_of(parts), columns.as_slice(), alias, seen)?)
}

/// The visible names of entries, behind these.
fn add_visible(alloc: Global, entries: &[Entry], seen: &mut Texts) -> Result<(), NoMemory>
    ensures { OnOk result (seen.new ≡ seen.old ++ spec.visible entries.now) }
{
    for entry in entries {
        seen.push(entry.name.copy(alloc)?)?;
    }
    Ok(())
}

/// The visible names of entries.
pub fn visible(alloc: Global, entries: &[Entry]) -> Result<Texts, NoMemory>
    ensures { IfOk result (λ made. made ≡ spec.visible entries.now) }
{
    let mut made = Seq::new(alloc);
    add_visible(alloc, entries, &mut made)?;
    Ok(made)
}

/// Those that are seen already, and those of entries.
pub fn seen_with(alloc: Global, seen: &[Text], entries: &[Entry]) -> Result<Texts, NoMemory>
    ensures { IfOk result (λ made. made ≡ seen.now ++ spec.visible entries.now) }
{
    let mut made = Seq::new(alloc);
    for name in seen {
        made.push(name.copy(alloc)?)?;
    }
    add_visible(alloc, entries, &mut made)?;
    Ok(made)
}

fn join_of(alloc: Global, kind: JoinKind, left: Rel, right: Rel, on: Expr) -> Result<Rel, NoMemory>
    ensures { IfOk result (λ made. made ≡ rel.Join kind left right on) }
{
    let left = Boxed::new(alloc, left)?;
    let right = Boxed::new(alloc, right)?;
    Ok(Rel::Join {
        kind,
        left,
        right,
        on,
    })
}

/// The comma and CROSS JOIN: an inner join on TRUE.
pub fn crossed(alloc: Global, left: Source, right: Source) -> Result<Source, ResolveFault>
    ensures { Resolves (Ok (spec.crossed left right)) result }
{
    let Source {
        rel: left,
        mut entries,
    } = left;
    entries.append(right.entries)?;
    let on = Expr::Const(Value::Bool(true));
    let rel = join_of(alloc, JoinKind::Inner, left, right.rel, on)?;
    Ok(Source { rel, entries })
}

/// Without a FROM there is one row without columns.
pub fn source_or_one(alloc: Global, before: Option<Source>) -> Source
    ensures { result ≡ spec.source_or_one before }
{
    match before {
        None => Source {
            rel: Rel::One,
            entries: Seq::new(alloc),
        },
        Some(source) => source,
    }
}

/// The entries of both sides behind one another, over the left side, and the relation of the right one.
fn side_by_side(left: Source, right: Source) -> Result<(Source, Rel), NoMemory>
    ensures { IfOk result (λ sides. sides ≡ (record { rel = left.rel; entries = left.entries ++ right.entries }, right.rel)) }
{
    let Source { rel, mut entries } = left;
    let Source {
        rel: behind,
        entries: more,
    } = right;
    entries.append(more)?;
    Ok((Source { rel, entries }, behind))
}

fn joined_over(
    alloc: Global,
    kind: JoinKind,
    left: Rel,
    right: Rel,
    on: Expr,
    names: Names,
) -> Result<Source, NoMemory>
    ensures { IfOk result (λ made. made ≡ record { rel = rel.Join kind left right on; entries = names.entries }) }
{
    let Names { entries, .. } = names;
    let rel = join_of(alloc, kind, left, right, on)?;
    Ok(Source { rel, entries })
}

/// A join of sides whose entries stand together.
fn joined_when(
    alloc: Global,
    kind: JoinKind,
    sides: Source,
    right: Rel,
    on: &tree::Expr,
) -> Result<Source, ResolveFault>
    ensures { Resolves (next (spec.condition_over sides.entries on.now) (λ k. Ok (record { rel = rel.Join kind sides.rel right k.expr; entries = sides.entries }))) result }
{
    let Source { rel, entries } = sides;
    let names = Names {
        entries,
        keys: Seq::new(alloc),
    };
    let k = condition_of(alloc, &names, on)?;
    Ok(joined_over(alloc, kind, rel, right, k.expr, names)?)
}

fn joined_on(
    alloc: Global,
    kind: JoinKind,
    left: Source,
    right: Source,
    on: &tree::Expr,
) -> Result<Source, ResolveFault>
    ensures { Resolves (spec.joined_on kind left right on.now) result }
{
    let (sides, right) = side_by_side(left, right)?;
    Ok(joined_when(alloc, kind, sides, right, on)?)
}

/// A join; its condition sees the entries of both sides.
pub fn joined_by(
    alloc: Global,
    kind: &tree::JoinKind,
    left: Source,
    right: Source,
) -> Result<Source, ResolveFault>
    ensures { Resolves (spec.joined_by kind.now left right) result }
{
    match kind {
        tree::JoinKind::Inner(on) => Ok(joined_on(alloc, JoinKind::Inner, left, right, on)?),
        tree::JoinKind::Left(on) => Ok(joined_on(alloc, JoinKind::Left, left, right, on)?),
        tree::JoinKind::Cross => Ok(crossed(alloc, left, right)?),
    }
}
