//! UNION: two queries with columns that go together.

ghost use Rattle.std.specs.Prelude.{◌≡◌, ◌∷◌, ◌++◌, [], IfOk};
ghost use Rattle.expr_resolver.specs.Answers.{Resolves};
ghost use Rattle.resolver.specs.Selects as spec;
ghost use Rattle.expr_resolver.specs.Types as types;
ghost use Rattle.vdb_model.specs.declared.rel.Rel.TheVariants as rel;

use crate::selected::{Column, Columns, Selected};
use expr_resolver::ResolveFault;
use expr_resolver::types::common;
use sqlite_items::{Boxed, Items};
use std::alloc::Global;
use vdb_base::{NoMemory, Seq};
use vdb_model::{Rel, Rels};

/// The relation of a query: a chain of UNION ALL is one Union.
pub fn union_of(parts: Rels) -> Rel
    ensures { result ≡ spec.union_of parts }
{
    let mut parts = parts;
    if parts.len() == 1 {
        if let Some(rel) = parts.pop() {
            return rel;
        }
    }
    Rel::Union(parts)
}

fn merged(alloc: Global, left: &Column, right: &Column) -> Result<Column, ResolveFault>
    ensures { Resolves (spec.merged left.now right.now (types.common left.now.ty right.now.ty)) result }
{
    match common(left.ty, right.ty) {
        None => Err(ResolveFault::mismatch(right.first)),
        Some(ty) => Ok(Column {
            name: left.name.copy(alloc)?,
            ty,
            first: left.first,
        }),
    }
}

/// Column by column: the names of the left side, and types that both go together in.
fn merge(alloc: Global, left: &[Column], right: &[Column]) -> Result<Columns, ResolveFault>
    ensures { Resolves (spec.merge left.now right.now []) result }
{
    let mut made = Seq::new(alloc);
    for (i, l) in left.iter().enumerate() {
        let Some(r) = right.get(i) else {
            return Ok(made);
        };
        made.push(merged(alloc, l, r)?)?;
    }
    Ok(made)
}

/// The parts of a chain of UNION ALL, with the right side as one more.
fn chained(left: Rels, right: Rel) -> Result<Rels, NoMemory>
    ensures { IfOk result (λ made. made ≡ left ++ right ∷ []) }
{
    let mut parts = left;
    parts.push(right)?;
    Ok(parts)
}

fn single(alloc: Global, rel: Rel) -> Result<Rels, NoMemory>
    ensures { IfOk result (λ made. made ≡ rel ∷ []) }
{
    let mut parts = Vec::with_capacity(alloc, 1)?;
    parts.push(rel)?;
    Ok(Items::from_vec(parts))
}

fn distinct_of(alloc: Global, left: Rel, right: Rel) -> Result<Rels, NoMemory>
    ensures { IfOk result (λ made. made ≡ rel.Distinct (rel.Union (left ∷ right ∷ [])) ∷ []) }
{
    let both = Rel::Union(chained(single(alloc, left)?, right)?);
    Ok(single(alloc, Rel::Distinct(Boxed::new(alloc, both)?))?)
}

fn parts_by(alloc: Global, all: bool, left: Rels, right: Rels) -> Result<Rels, NoMemory>
    ensures { IfOk result (λ made. made ≡ spec.parts_by all left right) }
{
    let right = union_of(right);
    if all {
        Ok(chained(left, right)?)
    } else {
        Ok(distinct_of(alloc, union_of(left), right)?)
    }
}

/// UNION or UNION ALL of two queries.
pub fn united(
    alloc: Global,
    all: bool,
    left: Selected,
    right: Selected,
) -> Result<Selected, ResolveFault>
    ensures { Resolves (spec.united all left right) result }
{
    if left.columns.len() != right.columns.len() {
        return Err(ResolveFault::mismatch(right.first));
    }
    let columns = merge(alloc, left.columns.as_slice(), right.columns.as_slice())?;
    Ok(Selected {
        first: left.first,
        columns,
        parts: parts_by(alloc, all, left.parts, right.parts)?,
    })
}
