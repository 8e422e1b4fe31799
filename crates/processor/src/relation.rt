//! The rows of a relation over tables.

ghost use Rattle.std.specs.Prelude.{◌≡◌, ◌+◌, [], ◌∷◌, length, IfOk, slice_index_or};
ghost use Rattle.vdb_model.specs.Groups.{group_rows};
ghost use Rattle.vdb_model.specs.Relations.{no_bag, bag_of, bags_of, first_width, union_rows};
ghost use Rattle.vdb_model.specs.Rows.{join_rows, where_rows};
ghost use Rattle.vdb_model.specs.declared.expr.Expr.TheVariants.{And};
ghost use Rattle.processor.specs.Parts.{held, bag_of_part};

use crate::part::Part;
use rel_eval::{distinct, filter, group, join, select};
use sqlite_items::Items;
use std::alloc::Global;
use vdb_base::{NoMemory, Nums, Row, Seq};
use vdb_model::{Aggs, Bag, Bags, Expr, JoinKind, Rel};

/// The rows of a relation over these tables and with these variables, in the definition's order. A table stands at its
/// number; one that isn't there has no rows, and so has a view: views are to be expanded before. A join whose right side has
/// more than 4,294,967,295 columns is want of memory.
pub fn bag_of(alloc: Global, tables: &Bags, vars: &Row, rel: &Rel) -> Result<Bag, NoMemory>
    ensures { IfOk result (λ bag. bag ≡ bag_of tables.now [] vars.now rel.now) }
{
    part_of(alloc, tables.as_slice(), vars, rel)?.own(alloc)
}

fn table<'a>(alloc: Global, tables: &'a [Bag], at: usize) -> Part<'a>
    ensures { bag_of_part result ≡ slice_index_or tables.now at no_bag }
{
    match tables.get(at) {
        Some(bag) => Part::lent(bag),
        None => Part::none(alloc),
    }
}

/// One row without columns.
fn one<'a>(alloc: Global) -> Result<Part<'a>, NoMemory>
    ensures { IfOk result (λ part. bag_of_part part ≡ record { width = 0; rows = [] ∷ [] }) }
{
    let mut rows = Seq::new(alloc);
    rows.push(Seq::new(alloc))?;
    Ok(Part::made(0, rows))
}

fn joined<'a>(
    alloc: Global,
    kind: JoinKind,
    left: Part<'a>,
    right: Part<'a>,
    on: &Expr,
    vars: &Row,
) -> Result<Part<'a>, NoMemory>
    ensures { IfOk result (λ part. bag_of_part part ≡ record { width = left.entry.width + right.entry.width; rows = join_rows kind right.entry.width on.now vars.now (held left.entry.rows) (held right.entry.rows) }) }
{
    let width = left.width.checked_add(right.width).ok_or(NoMemory)?;
    let right_width = u32::try_from(right.width).map_err(|_| NoMemory)?;
    let rows = join(
        alloc,
        kind,
        left.rows.get(),
        right.rows.get(),
        right_width,
        on,
        vars,
    )?;
    Ok(Part::made(width, rows))
}

fn filtered<'a>(
    alloc: Global,
    of: Part<'a>,
    condition: &Expr,
    vars: &Row,
) -> Result<Part<'a>, NoMemory>
    ensures { IfOk result (λ part. bag_of_part part ≡ record { width = of.entry.width; rows = where_rows condition.now vars.now (held of.entry.rows) }) }
{
    Ok(Part::made(of.width, filter(alloc, of.rows.get(), condition, vars)?))
}

/// Two conditions as one.
fn both(alloc: Global, on: &Expr, condition: &Expr) -> Result<Expr, NoMemory>
    ensures { IfOk result (λ e. e ≡ And (on.now ∷ condition.now ∷ [])) }
{
    let mut conditions = Vec::new(alloc);
    conditions.push(on.copy(alloc)?)?;
    conditions.push(condition.copy(alloc)?)?;
    Ok(Expr::And(Items::from_vec(conditions)))
}

/// The rows of a join at which a condition over it is TRUE. Over an inner join it is one more condition of the join, which finds
/// its rows by the equalities of both.
#[tactic(auto, using(crate::proofs::WhereOverJoin::where_join))]
fn joined_where<'a>(
    alloc: Global,
    kind: JoinKind,
    left: Part<'a>,
    right: Part<'a>,
    on: &Expr,
    condition: &Expr,
    vars: &Row,
) -> Result<Part<'a>, NoMemory>
    ensures { IfOk result (λ part. bag_of_part part ≡ record { width = left.entry.width + right.entry.width; rows = where_rows condition.now vars.now (join_rows kind right.entry.width on.now vars.now (held left.entry.rows) (held right.entry.rows)) }) }
{
    match kind {
        JoinKind::Inner => {
            let on = both(alloc, on, condition)?;
            joined(alloc, kind, left, right, &on, vars)
        }
        JoinKind::Left => {
            let all = joined(alloc, kind, left, right, on, vars)?;
            filtered(alloc, all, condition, vars)
        }
    }
}

/// The rows of a part of a relation.
#[cycle(evaluating)]
#[tactic(auto, using(crate::proofs::Rules::bag_rules))]
fn part_of<'a>(
    alloc: Global,
    tables: &'a [Bag],
    vars: &Row,
    rel: &Rel,
) -> Result<Part<'a>, NoMemory>
    ensures { IfOk result (λ part. bag_of_part part ≡ bag_of tables.now [] vars.now rel.now) }
{
    match rel {
        Rel::One => one(alloc),
        Rel::Table(at) => Ok(table(alloc, tables, *at as usize)),
        Rel::View(_) => Ok(Part::none(alloc)),
        Rel::Where(of, condition) => match of.get() {
            Rel::Join {
                kind,
                left,
                right,
                on,
            } => {
                let left = part_of(alloc, tables, vars, left.get())?;
                let right = part_of(alloc, tables, vars, right.get())?;
                joined_where(alloc, *kind, left, right, on, condition, vars)
            }
            of => {
                let of = part_of(alloc, tables, vars, of)?;
                filtered(alloc, of, condition, vars)
            }
        },
        Rel::Select(of, items) => {
            let of = part_of(alloc, tables, vars, of.get())?;
            Ok(Part::made(items.len(), select(alloc, of.rows.get(), items, vars)?))
        }
        Rel::Join {
            kind,
            left,
            right,
            on,
        } => {
            let left = part_of(alloc, tables, vars, left.get())?;
            let right = part_of(alloc, tables, vars, right.get())?;
            joined(alloc, *kind, left, right, on, vars)
        }
        Rel::Group { of, keys, aggs } => {
            let of = part_of(alloc, tables, vars, of.get())?;
            grouped(alloc, of, keys, aggs, vars)
        }
        Rel::Distinct(of) => {
            let of = part_of(alloc, tables, vars, of.get())?;
            Ok(Part::made(of.width, distinct(alloc, of.rows.get())?))
        }
        Rel::Union(parts) => union_of(alloc, tables, vars, parts.as_slice()),
    }
}

fn grouped<'a>(
    alloc: Global,
    of: Part<'a>,
    keys: &Nums,
    aggs: &Aggs,
    vars: &Row,
) -> Result<Part<'a>, NoMemory>
    ensures { IfOk result (λ part. bag_of_part part ≡ record { width = length keys.now + length aggs.now; rows = group_rows keys.now aggs.now vars.now (held of.entry.rows) }) }
{
    let width = keys.len().checked_add(aggs.len()).ok_or(NoMemory)?;
    Ok(Part::made(width, group(alloc, of.rows.get(), keys, aggs, vars)?))
}

/// Part after part, as wide as the first.
#[cycle(evaluating)]
#[tactic(auto, using(crate::proofs::Rules::bag_rules))]
fn union_of<'a>(
    alloc: Global,
    tables: &'a [Bag],
    vars: &Row,
    parts: &[Rel],
) -> Result<Part<'a>, NoMemory>
    ensures { IfOk result (λ part. bag_of_part part ≡ record { width = first_width (bags_of tables.now [] vars.now parts.now); rows = union_rows (bags_of tables.now [] vars.now parts.now) }) }
{
    let mut width = 0;
    let mut rows = Seq::new(alloc);
    for (i, part) in parts.iter().enumerate() {
        let bag = part_of(alloc, tables, vars, part)?;
        if i == 0 {
            width = bag.width;
        }
        rows.append(bag.rows.own(alloc)?)?;
    }
    Ok(Part::made(width, rows))
}
