//! What no clause says: that relations are measured and expanded where there is memory, over views that double at each step.

ghost use Rattle.std.specs.Prelude.{length, IsTrue, IfOk};
ghost use Rattle.vdb_model.specs.Stacked.{names_first};

use crate::worked::{deployed, tower};
use resolver::resolve_view;
use sql_reader::read::read_statement;
use sql_reader::tree::Statement;
use std::alloc::Global;
use std::test::Fail;
use vdb_model::{Catalog, Rel};
use view_stack::{ExpandFault, Size, expand, expanded_size};
use walk_laws::queries_are_closed;

/// The relation of a query over the catalog.
fn relation(alloc: Global, cat: &Catalog, text: &str) -> Result<Rel, Fail>
    ensures { IfOk result (λ rel. IsTrue (names_first (length cat.now.views) rel)) }
{
    queries_are_closed();
    let Ok(Statement::Query(q)) = read_statement(alloc, text.as_bytes()) else {
        return Err("no query".into());
    };
    match resolve_view(alloc, cat, &q) {
        Ok(query) => Ok(query.rel),
        Err(_) => Err("no relation".into()),
    }
}

/// Whether the relation of the query has this size, before it is expanded and after.
fn has_size(alloc: Global, cat: &Catalog, text: &str, size: Size) -> Result<bool, Fail> {
    let rel = relation(alloc, cat, text)?;
    let made = expand(alloc, cat, &rel)?;
    Ok(expanded_size(cat, &rel) == Some(size) && expanded_size(cat, &made) == Some(size))
}

/// Whether the relation of the query isn't expanded, since it would have this size.
fn is_too_large(alloc: Global, cat: &Catalog, text: &str, size: Size) -> Result<bool, Fail> {
    let rel = relation(alloc, cat, text)?;
    let Size { nodes, depth } = size;
    match expand(alloc, cat, &rel) {
        Ok(_) => Ok(false),
        Err(fault) => Ok(fault == ExpandFault::TooLarge { nodes, depth }),
    }
}

/// Views of which each doubles the one before it, up to the last that fits.
fn doubling(alloc: Global) -> Result<Catalog, Fail> {
    let ddl = tower(alloc, 10, true)?;
    deployed(alloc, ddl.as_slice())
}

#[test]
fn the_last_that_fits(rt: HostRuntime) -> Result<(), Fail> {
    let alloc = rt.alloc();
    let cat = doubling(alloc)?;
    let size = Size {
        nodes: 4095,
        depth: 23,
    };
    assert!(rt; has_size(alloc, &cat, "SELECT id FROM v.d10", size)?);
    Ok(())
}

#[test]
fn the_first_past_the_limit(rt: HostRuntime) -> Result<(), Fail> {
    let alloc = rt.alloc();
    let cat = doubling(alloc)?;
    let size = Size {
        nodes: 8190,
        depth: 24,
    };
    let text = "SELECT a.id FROM v.d10 a JOIN v.d10 b ON a.id = b.id";
    assert!(rt; is_too_large(alloc, &cat, text, size)?);
    Ok(())
}
