//! CREATE VIEW.

ghost use Rattle.std.specs.Prelude.{◌≡◌, ◌+◌, None, IsTrue, IfOk, OnOk};
ghost use Rattle.metadata.specs.Answers.{Passes, Makes, Becomes};
ghost use Rattle.metadata.specs.SoFar.{relation_taken, relation_text, schema_set, too_many};
ghost use Rattle.metadata.specs.Sound.{IsSound};
ghost use Rattle.metadata.specs.Tests.{first, unless};
ghost use Rattle.metadata.specs.Views as spec;
ghost use Rattle.metadata.specs.Walked.{IsTypedQuery};
ghost use Rattle.vdb_model.specs.Sizes.{nodes_of, depth_of};
ghost use Rattle.vdb_model.specs.WellFormed.{IsWellFormed, stands_in_schema};

use crate::chains::chain_below;
use crate::fault::DeployRefusal;
use crate::options::{Owner, is_updatable, taken_options};
use crate::so_far::{SoFar, few, good_name, number};
use crate::view_columns::{
    are_apart, fits_list, known_types, named_well, view_columns, whole_types,
};
use crate::walk::{ViewWalk, WalkFault};
use sql_reader::tree::{Name, Query};
use std::alloc::Global;
use vdb_base::NoMemory;
use vdb_ddl::tree::{Setting, Settings, ViewColumns};
use vdb_model::{DeployFault, Ranked, VarDefs, ViewDef};
use view_stack::{Size, expanded_size};

/// Refused in a schema that isn't virtual.
fn in_virtual_schema(alloc: Global, s: &SoFar, name: &Name) -> Result<(), DeployRefusal>
    ensures { Passes (spec.not_virtual s.now name.now) result }
{
    if s.is_of_server() {
        let name = s.relation_text(alloc, name)?;
        return Err(DeployRefusal::Refused(DeployFault::WrongKind { name }));
    }
    Ok(())
}

/// Refused where the name is taken.
fn free_view(alloc: Global, s: &SoFar, name: &Name) -> Result<(), DeployRefusal>
    ensures { Passes (relation_taken s.now name.now) result }
{
    if s.is_taken(name) {
        let name = s.relation_text(alloc, name)?;
        return Err(DeployRefusal::Refused(DeployFault::Duplicate { name }));
    }
    Ok(())
}

/// The tests of a view before its query is walked.
fn sound_view(
    alloc: Global,
    s: &SoFar,
    name: &Name,
    columns: &Option<ViewColumns>,
    options: &[Setting],
) -> Result<(), DeployRefusal>
    ensures { Passes (first (spec.view_tests s.now name.now columns.now options.now)) result }
{
    s.has_schema(alloc, name)?;
    known_types(alloc, columns)?;
    in_virtual_schema(alloc, s, name)?;
    free_view(alloc, s, name)?;
    whole_types(columns)?;
    taken_options(Owner::View, options)
}

/// The typed query of the view, or that it is refused.
fn walked<W: ViewWalk>(
    alloc: Global,
    walk: &W,
    s: &SoFar,
    name: &Name,
    query: &Query,
) -> Result<Ranked, DeployRefusal>
    ensures walks { Makes (spec.walked s.now name.now (W.walk walk.now s.now.catalog query.now)) result }
    ensures typed { IfOk result (IsTypedQuery s.now.catalog) }
{
    match walk.walk_view(alloc, &s.catalog, query) {
        Ok(query) => Ok(query),
        Err(WalkFault::Memory) => Err(DeployRefusal::Memory),
        Err(WalkFault::Refused(refusal)) => Err(DeployRefusal::Refused(DeployFault::Body {
            name: s.relation_text(alloc, name)?,
            number: refusal.number(),
        })),
    }
}

/// Refused where columns have one name, or the list doesn't go with the query.
fn good_columns(
    alloc: Global,
    s: &SoFar,
    name: &Name,
    columns: &Option<ViewColumns>,
    query: &Ranked,
    made: &VarDefs,
) -> Result<(), DeployRefusal>
    requires { made.now ≡ spec.view_columns columns.now query.now }
    ensures { Passes (spec.bad_columns s.now name.now columns.now query.now) result }
{
    let apart = are_apart(alloc, made.as_slice())?;
    if !(fits_list(columns, query.tys.as_slice()) && apart) {
        let name = s.relation_text(alloc, name)?;
        return Err(DeployRefusal::Refused(DeployFault::Columns { name }));
    }
    Ok(())
}

/// Refused where too many views stand over one another.
fn short_chain(alloc: Global, s: &SoFar, name: &Name, below: u32) -> Result<(), DeployRefusal>
    ensures { Passes (too_many 16 (below + 1) (relation_text s.now name.now)) result }
{
    few(16, u64::from(below) + 1, s.relation_text(alloc, name)?)
}

fn few_nodes(alloc: Global, s: &SoFar, name: &Name, size: Size) -> Result<(), DeployRefusal>
    ensures { Passes (too_many 4096 size.nodes (relation_text s.now name.now)) result }
{
    few(4096, size.nodes, s.relation_text(alloc, name)?)
}

fn not_deep(alloc: Global, s: &SoFar, name: &Name, size: Size) -> Result<(), DeployRefusal>
    ensures { Passes (too_many 512 size.depth (relation_text s.now name.now)) result }
{
    few(512, size.depth, s.relation_text(alloc, name)?)
}

/// The size of the view; none past 64 bits, which no memory holds.
fn size_of(s: &SoFar, query: &Ranked) -> Result<Size, NoMemory>
    ensures nodes { IfOk result (λ size. size.nodes ≡ nodes_of s.now.catalog.views query.now.rel) }
    ensures depth { IfOk result (λ size. size.depth ≡ depth_of s.now.catalog.views query.now.rel) }
{
    match expanded_size(&s.catalog, &query.rel) {
        Some(size) => Ok(size),
        None => Err(NoMemory),
    }
}

/// The view's definition, where no test of its query fails.
fn view_of(
    alloc: Global,
    s: &SoFar,
    name: &Name,
    columns: &Option<ViewColumns>,
    options: &[Setting],
    query: Ranked,
) -> Result<ViewDef, DeployRefusal>
    ensures { Makes (unless (spec.query_tests s.now name.now columns.now query) (spec.view_of s.now name.now columns.now options.now query)) result }
{
    let made = view_columns(alloc, columns, &query)?;
    good_columns(alloc, s, name, columns, &query, &made)?;
    s.few_relations(alloc, name)?;
    s.good_column_count(alloc, name, made.len())?;
    good_name(alloc, &name.text)?;
    named_well(alloc, made.as_slice())?;
    short_chain(alloc, s, name, chain_below(s.chains.as_slice(), &query.rel))?;
    let size = size_of(s, &query)?;
    few_nodes(alloc, s, name, size)?;
    not_deep(alloc, s, name, size)?;
    Ok(ViewDef {
        name: name.text.copy(alloc)?,
        schema: s.schema_name(alloc)?,
        columns: made,
        rel: query.rel,
        nodes: size.nodes,
        depth: size.depth,
        updatable: is_updatable(options),
    })
}

/// Adds a view, and its chain, which is one more than the longest below it.
fn add_view(s: &mut SoFar, view: ViewDef, below: u32) -> Result<(), NoMemory>
    requires { IsWellFormed (spec.with_view s.old view (below + 1)).catalog }
    ensures { OnOk result (s.new ≡ spec.with_view s.old view (below + 1)) }
{
    let chain = number(below as usize + 1)?;
    s.chains.push(chain)?;
    s.catalog.add_view(view)
}

/// A view over the query that its walk gave.
fn view_over(
    alloc: Global,
    s: &mut SoFar,
    name: &Name,
    columns: &Option<ViewColumns>,
    options: &[Setting],
    query: Ranked,
) -> Result<(), DeployRefusal>
    requires sound { IsSound s.old }
    requires stands { IsTrue (stands_in_schema s.old.catalog.schemas None (schema_set s.old).name) }
    requires typed { IsTypedQuery s.old.catalog query }
    ensures { Becomes (spec.view_over s.old name.now columns.now options.now query) result s.new }
{
    let below = chain_below(s.chains.as_slice(), &query.rel);
    let view = view_of(alloc, s, name, columns, options, query)?;
    Ok(add_view(s, view, below)?)
}

pub(crate) fn create_view<W: ViewWalk>(
    alloc: Global,
    walk: &W,
    s: &mut SoFar,
    name: &Name,
    columns: &Option<ViewColumns>,
    options: &Settings,
    query: &Query,
) -> Result<(), DeployRefusal>
    requires { IsSound s.old }
    ensures becomes { Becomes (spec.create_view (W.walk walk.now) s.old name.now columns.now options.now query.now) result s.new }
    ensures sound { OnOk result (IsSound s.new) }
{
    let options = options.as_slice();
    sound_view(alloc, s, name, columns, options)?;
    let query = walked(alloc, walk, s, name, query)?;
    view_over(alloc, s, name, columns, options, query)
}
