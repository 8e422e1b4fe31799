//! The expansion of views.

ghost use Rattle.std.specs.Prelude.{◌≡◌, [], length, slice_index_or, IsTrue, IfOk, IfErr, OnOk};
ghost use Rattle.vdb_model.specs.declared.rel.Rel.TheVariants.{View};
ghost use Rattle.vdb_model.specs.World.{view_rels};
ghost use Rattle.vdb_model.specs.Sizes.{nodes_of, depth_of, is_within_size};
ghost use Rattle.vdb_model.specs.Stacked.{names_first, has_no_view};
ghost use Rattle.vdb_model.specs.Expanded.{expanded, expanded_over, expanded_after};
ghost use Rattle.view_stack.specs.Parts.{expanded_each};
ghost use Rattle.view_stack.specs.Expansion.{HasRowsOf, HasCause};

use crate::fault::ExpandFault;
use crate::sizes::expanded_size;
use sqlite_items::{Boxed, Items};
use std::alloc::Global;
use vdb_base::{Duplicate, NoMemory};
use vdb_model::{Catalog, Rel, Rels, ViewDef};

/// The relation with each view replaced by its own relation, over foreign tables alone. Its size is tested before anything
/// is built; a view that is read twice is built twice, and one that isn't read is left alone. Where a count doesn't fit
/// 64 bits, no memory could hold the relation.
pub fn expand(alloc: Global, cat: &Catalog, rel: &Rel) -> Result<Rel, ExpandFault>
    requires named { IsTrue (names_first (length cat.now.views) rel.now) }
    ensures tree { IfOk result (λ made. made ≡ expanded cat.now rel.now) }
    ensures no_view { IfOk result (λ made. IsTrue (has_no_view made)) }
    ensures rows { IfOk result (λ made. HasRowsOf cat.now rel.now made) }
    ensures nodes { IfOk result (λ made. nodes_of [] made ≡ nodes_of cat.now.views rel.now) }
    ensures depth { IfOk result (λ made. depth_of [] made ≡ depth_of cat.now.views rel.now) }
    ensures within { OnOk result (IsTrue (is_within_size (nodes_of cat.now.views rel.now) (depth_of cat.now.views rel.now))) }
    ensures cause { IfErr result (HasCause (nodes_of cat.now.views rel.now) (depth_of cat.now.views rel.now)) }
{
    cat.is_well_formed();
    let Some(size) = expanded_size(cat, rel) else {
        return Err(ExpandFault::Memory);
    };
    if !size.is_within_limits() {
        return Err(ExpandFault::TooLarge {
            nodes: size.nodes,
            depth: size.depth,
        });
    }
    Ok(expanded_rel(alloc, cat.views().as_slice(), rel)?)
}

/// The relation with each view replaced.
#[cycle(expanding)]
#[tactic(auto, using(crate::proofs::Rules::tree_rules))]
fn expanded_rel(alloc: Global, views: &[ViewDef], rel: &Rel) -> Result<Rel, NoMemory>
    ensures { IfOk result (λ made. made ≡ expanded_over (expanded_after [] (view_rels views.now)) rel.now) }
{
    match rel {
        Rel::One => Ok(Rel::One),
        Rel::Table(at) => Ok(Rel::Table(*at)),
        Rel::View(at) => expanded_view(alloc, views, *at),
        Rel::Where(of, condition) => Ok(Rel::Where(
            expanded_boxed(alloc, views, of.get())?,
            condition.copy(alloc)?,
        )),
        Rel::Select(of, items) => Ok(Rel::Select(
            expanded_boxed(alloc, views, of.get())?,
            items.copy(alloc)?,
        )),
        Rel::Join {
            kind,
            left,
            right,
            on,
        } => Ok(Rel::Join {
            kind: *kind,
            left: expanded_boxed(alloc, views, left.get())?,
            right: expanded_boxed(alloc, views, right.get())?,
            on: on.copy(alloc)?,
        }),
        Rel::Group { of, keys, aggs } => Ok(Rel::Group {
            of: expanded_boxed(alloc, views, of.get())?,
            keys: keys.copy(alloc)?,
            aggs: aggs.copy(alloc)?,
        }),
        Rel::Distinct(of) => Ok(Rel::Distinct(expanded_boxed(alloc, views, of.get())?)),
        Rel::Union(parts) => Ok(Rel::Union(expanded_rels(alloc, views, parts.as_slice())?)),
    }
}

/// The relation of a view over the views before it; a number that no view has stays.
#[cycle(expanding)]
fn expanded_view(alloc: Global, views: &[ViewDef], at: u32) -> Result<Rel, NoMemory>
    ensures { IfOk result (λ made. made ≡ slice_index_or (expanded_after [] (view_rels views.now)) at (View at)) }
{
    let number = at as usize;
    match views.get(number) {
        Some(view) => expanded_rel(alloc, &views[..number], &view.rel),
        None => Ok(Rel::View(at)),
    }
}

/// One part of a relation.
#[cycle(expanding)]
fn expanded_boxed(alloc: Global, views: &[ViewDef], rel: &Rel) -> Result<Boxed<Rel>, NoMemory>
    ensures { IfOk result (λ made. made ≡ expanded_over (expanded_after [] (view_rels views.now)) rel.now) }
{
    Ok(Boxed::new(alloc, expanded_rel(alloc, views, rel)?)?)
}

/// The parts of a union in turn.
#[cycle(expanding)]
fn expanded_rels(alloc: Global, views: &[ViewDef], rels: &[Rel]) -> Result<Rels, NoMemory>
    ensures { IfOk result (λ made. made ≡ expanded_each (expanded_after [] (view_rels views.now)) rels.now) }
{
    let mut made = Vec::with_capacity(alloc, rels.len())?;
    for rel in rels {
        made.push(expanded_rel(alloc, views, rel)?)?;
    }
    Ok(Items::from_vec(made))
}
