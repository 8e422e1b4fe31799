//! What stands in a select behind its FROM.

ghost use Rattle.std.specs.Prelude.{◌≡◌, [], IfOk, Some};
ghost use Rattle.expr_resolver.specs.Answers.{Meets, Resolves};
ghost use Rattle.resolver.specs.Selects as spec;
ghost use Rattle.sql_reader.specs.declared.tree.query.Select.{out-Select};

use crate::aggregated::any_aggregate;
use crate::from::condition_of;
use crate::items::{first_of, items_walk, split};
use crate::selected::{Choices, Selected, Source};
use expr_resolver::exprs::walk;
use expr_resolver::lookup::column_of;
use expr_resolver::operators::condition;
use expr_resolver::{Entry, Known, Names, Over, ResolveFault};
use sql_reader::tree::{ColumnName, Expr, Select, SelectItem};
use sqlite_items::{Boxed, Items};
use std::alloc::Global;
use vdb_base::{NoMemory, Nums, Seq};
use vdb_model::{Aggs, Rel};

fn filtered_by(alloc: Global, e: &Expr, source: Source) -> Result<Source, ResolveFault>
    ensures { Resolves (spec.filtered (Some e.now) source) result }
{
    let Source { rel, entries } = source;
    let names = Names {
        entries,
        keys: Seq::new(alloc),
    };
    let k = condition_of(alloc, &names, e)?;
    let rel = Rel::Where(Boxed::new(alloc, rel)?, k.expr);
    let Names { entries, .. } = names;
    Ok(Source { rel, entries })
}

/// WHERE.
pub fn filtered(alloc: Global, e: &Option<Expr>, source: Source) -> Result<Source, ResolveFault>
    ensures { Resolves (spec.filtered e.now source) result }
{
    match e {
        None => Ok(source),
        Some(e) => Ok(filtered_by(alloc, e, source)?),
    }
}

/// The columns of GROUP BY.
fn keys_of(alloc: Global, entries: &[Entry], columns: &[ColumnName]) -> Result<Nums, ResolveFault>
    ensures { Resolves (spec.keys_of entries.now columns.now []) result }
{
    let mut made = Seq::new(alloc);
    for c in columns {
        let (number, _) = column_of(alloc, entries, c)?;
        made.push(number)?;
    }
    Ok(made)
}

fn having_walk(
    alloc: Global,
    names: &Names,
    over: Over,
    having: &Option<Expr>,
    aggs: &mut Aggs,
) -> Result<Option<Known>, ResolveFault>
    ensures { Meets (spec.having_walk names.now over having.now aggs.old) result aggs.new }
{
    match having {
        None => Ok(None),
        Some(e) => {
            let k = walk(alloc, names, over, e, aggs)?;
            Ok(Some(condition(k)?))
        }
    }
}

fn is_grouped(group: &[ColumnName], having: &Option<Expr>, items: &[SelectItem]) -> bool
    ensures { result ≡ spec.is_grouped group.now having.now items.now }
{
    !group.is_empty() || having.is_some() || any_aggregate(items)
}

fn level(grouped: bool) -> Over
    ensures { result ≡ spec.level grouped }
{
    if grouped { Over::Groups } else { Over::Rows }
}

fn having_rel(alloc: Global, having: Option<Known>, rel: Rel) -> Result<Rel, NoMemory>
    ensures { IfOk result (λ made. made ≡ spec.having_rel having rel) }
{
    match having {
        None => Ok(rel),
        Some(k) => Ok(Rel::Where(Boxed::new(alloc, rel)?, k.expr)),
    }
}

fn grouped_rel(
    alloc: Global,
    over: Over,
    keys: Nums,
    aggs: Aggs,
    having: Option<Known>,
    rel: Rel,
) -> Result<Rel, NoMemory>
    ensures { IfOk result (λ made. made ≡ spec.grouped_rel over keys aggs having rel) }
{
    match over {
        Over::Rows => Ok(rel),
        Over::Groups => {
            let of = Boxed::new(alloc, rel)?;
            Ok(having_rel(alloc, having, Rel::Group { of, keys, aggs })?)
        }
    }
}

fn distinct_rel(alloc: Global, distinct: bool, rel: Rel) -> Result<Rel, NoMemory>
    ensures { IfOk result (λ made. made ≡ spec.distinct_rel distinct rel) }
{
    if distinct {
        Ok(Rel::Distinct(Boxed::new(alloc, rel)?))
    } else {
        Ok(rel)
    }
}

fn selected(
    alloc: Global,
    distinct: bool,
    items: &[SelectItem],
    rel: Rel,
    chosen: Choices,
) -> Result<Selected, NoMemory>
    ensures { IfOk result (λ made. made ≡ spec.selected distinct items.now rel chosen) }
{
    let first = first_of(items, chosen.as_slice());
    let (exprs, columns) = split(alloc, chosen)?;
    let rel = Rel::Select(Boxed::new(alloc, rel)?, exprs);
    let mut parts = Vec::with_capacity(alloc, 1)?;
    parts.push(distinct_rel(alloc, distinct, rel)?)?;
    Ok(Selected {
        parts: Items::from_vec(parts),
        columns,
        first,
    })
}

/// HAVING and the items.
fn level_walk(
    alloc: Global,
    s: &Select,
    names: Names,
    over: Over,
    rel: Rel,
) -> Result<Selected, ResolveFault>
    ensures { Resolves (spec.level_walk (out-Select s.now).distinct (out-Select s.now).items (out-Select s.now).having names over rel) result }
{
    let mut aggs = Seq::new(alloc);
    let having = having_walk(alloc, &names, over, &s.having, &mut aggs)?;
    let chosen = items_walk(alloc, &names, over, s.items.as_slice(), &mut aggs)?;
    let rel = grouped_rel(alloc, over, names.keys, aggs, having, rel)?;
    Ok(selected(alloc, s.distinct, s.items.as_slice(), rel, chosen)?)
}

/// What stands behind WHERE.
pub fn grouped_walk(alloc: Global, s: &Select, source: Source) -> Result<Selected, ResolveFault>
    ensures { Resolves (spec.grouped_walk (out-Select s.now).group (out-Select s.now).having (out-Select s.now).items (out-Select s.now).distinct source) result }
{
    let Source { rel, entries } = source;
    let keys = keys_of(alloc, entries.as_slice(), s.group.as_slice())?;
    let over = level(is_grouped(s.group.as_slice(), &s.having, s.items.as_slice()));
    Ok(level_walk(alloc, s, Names { entries, keys }, over, rel)?)
}
