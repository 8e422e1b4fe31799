//! Copies of relations.

ghost use Rattle.std.specs.Prelude.{◌≡◌, IfOk};
ghost use Rattle.vdb_model.specs.declared.rel.Rel.TheVariants.{Where, Select, Join, Group};

use crate::expr::{Expr, Exprs};
use crate::rel::{Aggs, JoinKind, Rel, Rels};
use sqlite_items::{Boxed, Items};
use std::alloc::Global;
use vdb_base::{Duplicate, NoMemory, Nums};

impl Rel {
    #[cycle(rel_copy)]
    pub fn copy(&self, alloc: Global) -> Result<Rel, NoMemory>
        ensures { IfOk result (λ made. made ≡ self.now) }
    {
        match self {
            Rel::One => Ok(Rel::One),
            Rel::Table(at) => Ok(Rel::Table(*at)),
            Rel::View(at) => Ok(Rel::View(*at)),
            Rel::Where(of, condition) => where_of(alloc, copy_boxed(alloc, of.get())?, condition),
            Rel::Select(of, items) => select_of(alloc, copy_boxed(alloc, of.get())?, items),
            Rel::Join {
                kind,
                left,
                right,
                on,
            } => {
                let left = copy_boxed(alloc, left.get())?;
                let right = copy_boxed(alloc, right.get())?;
                join_of(alloc, *kind, left, right, on)
            }
            Rel::Group { of, keys, aggs } => {
                group_of(alloc, copy_boxed(alloc, of.get())?, keys, aggs)
            }
            Rel::Distinct(of) => Ok(Rel::Distinct(copy_boxed(alloc, of.get())?)),
            Rel::Union(parts) => Ok(Rel::Union(copy_rels(alloc, parts.as_slice())?)),
        }
    }
}

#[cycle(rel_copy)]
fn copy_boxed(alloc: Global, rel: &Rel) -> Result<Boxed<Rel>, NoMemory>
    ensures { IfOk result (λ made. made ≡ rel.now) }
{
    Ok(Boxed::new(alloc, rel.copy(alloc)?)?)
}

// One function for each kind of relation keeps the proof of the recursion small.
fn where_of(alloc: Global, of: Boxed<Rel>, condition: &Expr) -> Result<Rel, NoMemory>
    ensures { IfOk result (λ made. made ≡ Where of condition.now) }
{
    let condition = condition.copy(alloc)?;
    Ok(Rel::Where(of, condition))
}

fn select_of(alloc: Global, of: Boxed<Rel>, items: &Exprs) -> Result<Rel, NoMemory>
    ensures { IfOk result (λ made. made ≡ Select of items.now) }
{
    let items = items.copy(alloc)?;
    Ok(Rel::Select(of, items))
}

fn join_of(
    alloc: Global,
    kind: JoinKind,
    left: Boxed<Rel>,
    right: Boxed<Rel>,
    on: &Expr,
) -> Result<Rel, NoMemory>
    ensures { IfOk result (λ made. made ≡ Join kind left right on.now) }
{
    let on = on.copy(alloc)?;
    Ok(Rel::Join {
        kind,
        left,
        right,
        on,
    })
}

fn group_of(alloc: Global, of: Boxed<Rel>, keys: &Nums, aggs: &Aggs) -> Result<Rel, NoMemory>
    ensures { IfOk result (λ made. made ≡ Group of keys.now aggs.now) }
{
    let keys = keys.copy(alloc)?;
    let aggs = aggs.copy(alloc)?;
    Ok(Rel::Group { of, keys, aggs })
}

#[cycle(rel_copy)]
fn copy_rels(alloc: Global, rels: &[Rel]) -> Result<Rels, NoMemory>
    ensures { IfOk result (λ made. made ≡ rels.now) }
{
    let mut made = Vec::with_capacity(alloc, rels.len())?;
    for rel in rels {
        made.push(rel.copy(alloc)?)?;
    }
    Ok(Items::from_vec(made))
}

impl Duplicate for Rel {
    fn copy(&self, alloc: Global) -> Result<Rel, NoMemory> {
        self.copy(alloc)
    }
}
