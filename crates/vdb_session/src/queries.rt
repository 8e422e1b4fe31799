//! From a text to its query, and from a query to its rows.

ghost use Rattle.std.specs.Prelude.{◌≡◌, ◌≤◌, length, Err, IfOk, IsTrue, []};
ghost use Rattle.catalog_laws.specs.Over.{HasNoPatterns};
ghost use Rattle.expr_resolver.specs.Answers.{Resolves};
ghost use Rattle.sql_reader.specs.declared.tree.statement.Statement.TheVariants as statement;
ghost use Rattle.vdb_model.specs.Arranged.{Arranged};
ghost use Rattle.vdb_model.specs.Relations as rels;
ghost use Rattle.vdb_model.specs.Stacked.{names_first};
ghost use Rattle.vdb_session.specs.Fetching.{failed_lane, AreAttached};
ghost use Rattle.vdb_session.specs.Lanes.{AreAsked};
ghost use Rattle.vdb_session.specs.Querying as spec;
ghost use Rattle.view_stack.specs.Expansion.{HasRowsOf};

use crate::fetching::{FetchFault, fetch_tables};
use crate::refusals::moved;
use processor::{bag_of, mark_tables};
use rel_eval::arrange;
use resolver::{ResolveFault, resolve, resolve_view};
use resource::{Lane, Resource};
use sql_reader::read::{ReadFault, read_statement};
use sql_reader::tree::{Query, Statement};
use std::alloc::Global;
use vdb_base::{NoMemory, Row, Rows, Seq};
use vdb_model::{Bags, Catalog, Ranked, Refusal, Rel};
use view_stack::{expand, expanded_size};

/// Why a statement has no query.
#[derive(Debug, Drop)]
pub enum NoQuery {
    Refused(Refusal),
    Memory,
}

/// A refusal of a statement that begins at `base`. A place past 64 bits is want of memory.
fn refused(base: u64, refusal: Refusal) -> NoQuery
    ensures { spec.IsMoved base refusal result }
{
    match moved(base, refusal) {
        Some(refusal) => NoQuery::Refused(refusal),
        None => NoQuery::Memory,
    }
}

/// A statement that isn't answered yet is refused where it begins.
fn later(base: u64) -> NoQuery
    ensures { result ≡ spec.later base }
{
    NoQuery::Refused(Refusal::Syntax { at: base })
}

/// A query that isn't too large with every view expanded. No memory could hold one whose counts are past 64 bits.
fn within_size(cat: &Catalog, query: Ranked) -> Result<Ranked, ResolveFault>
    ensures { Resolves (spec.sized cat.now.views query) result }
{
    let Some(size) = expanded_size(cat, &query.rel) else {
        return Err(ResolveFault::Memory);
    };
    if size.is_within_limits() {
        Ok(query)
    } else {
        Err(ResolveFault::Refused(Refusal::TooLarge {
            nodes: size.nodes,
            depth: size.depth,
        }))
    }
}

/// A query with its names and types, its size counted last.
fn resolved(alloc: Global, cat: &Catalog, q: &Query) -> Result<Ranked, ResolveFault>
    ensures { Resolves (spec.sized_walk cat.now q.now) result }
{
    match resolve_view(alloc, cat, q) {
        Ok(query) => within_size(cat, query),
        Err(fault) => Err(fault),
    }
}

/// Why a statement has no query, where its walk was refused.
fn no_query(base: u64, fault: ResolveFault) -> NoQuery
    ensures { spec.IsNoQuery base fault result }
{
    match fault {
        ResolveFault::Refused(refusal) => refused(base, refusal),
        ResolveFault::Memory => NoQuery::Memory,
    }
}

/// The query of a statement that is one.
#[tactic(auto, using(crate::proofs::QueryWalks::query_given, crate::proofs::QueryWalks::query_refused))]
fn typed_query(alloc: Global, cat: &Catalog, q: &Query, base: u64) -> Result<Ranked, NoQuery>
    ensures { spec.HasQuery cat.now base (statement.Query q.now) result }
{
    match resolved(alloc, cat, q) {
        Ok(query) => Ok(query),
        Err(fault) => Err(no_query(base, fault)),
    }
}

/// Why a statement that isn't answered yet has no query: its walk is refused, or it comes later.
#[tactic(auto, using(crate::proofs::QueryWalks::later_given, crate::proofs::QueryWalks::later_refused))]
fn unanswered(alloc: Global, cat: &Catalog, statement: &Statement, base: u64) -> NoQuery
    requires walked { spec.IsWalkedFirst statement.now }
    ensures { spec.HasQuery cat.now base statement.now (Err result) }
{
    match resolve(alloc, cat, statement).err() {
        None => later(base),
        Some(fault) => no_query(base, fault),
    }
}

/// The query that a statement means.
fn query_of(
    alloc: Global,
    cat: &Catalog,
    statement: &Statement,
    base: u64,
) -> Result<Ranked, NoQuery>
    ensures { spec.HasQuery cat.now base statement.now result }
{
    match statement {
        Statement::Query(q) => typed_query(alloc, cat, q, base),
        Statement::Exec(_) => Err(unanswered(alloc, cat, statement, base)),
        Statement::Explain(_)
        | Statement::Insert(_)
        | Statement::Update(_)
        | Statement::Delete(_)
        | Statement::Start
        | Statement::Commit
        | Statement::Rollback => Err(later(base)),
    }
}

/// The query that a text means, which begins at `base` of the script.
pub fn read_query(alloc: Global, cat: &Catalog, text: &[u8], base: u64) -> Result<Ranked, NoQuery>
    ensures { spec.ReadsQuery cat.now (record { at = base; text = text.now }) result }
{
    match read_statement(alloc, text) {
        Ok(statement) => query_of(alloc, cat, &statement, base),
        Err(ReadFault::Syntax { at }) => Err(refused(base, Refusal::Syntax { at: at as u64 })),
        Err(ReadFault::Memory) => Err(NoQuery::Memory),
    }
}

/// A mark for each table, set where the relation reads it.
#[tactic(auto, using(crate::proofs::Marked::whole_slice))]
fn marked(alloc: Global, tables: usize, rel: &Rel) -> Result<Vec<bool>, NoMemory>
    ensures { IfOk result (λ marks. spec.AreMarked rel.now tables marks.items) }
{
    let mut marks = vec![in alloc; false; tables]?;
    mark_tables(rel, marks.as_mut_slice());
    Ok(marks)
}

/// The rows of a query over fetched tables, with its relation expanded.
fn run_over(alloc: Global, tables: &Bags, rel: &Rel, query: &Ranked) -> Result<Rows, NoMemory>
    ensures { IfOk result (Arranged query.now.keys query.now.offset query.now.limit (rels.bag_of tables.now [] [] rel.now).rows) }
{
    let none: Row = Seq::new(alloc);
    let bag = bag_of(alloc, tables, &none, rel)?;
    arrange(alloc, &bag.rows, &query.keys, query.offset, query.limit)
}

/// The rows of a query, whose views are expanded, over the tables that the lanes show.
fn fetch_and_run<S: Resource>(
    lanes: &mut [Lane<S>],
    alloc: Global,
    cat: &Catalog,
    rel: &Rel,
    query: &Ranked,
) -> Result<Rows, FetchFault>
    requires few { length lanes.old ≤ 4294967295 }
    requires patterns { HasNoPatterns cat.now }
    requires attached { AreAttached S.told cat.now lanes.old }
    requires expanded { HasRowsOf cat.now query.now.rel rel.now }
    ensures asked { AreAsked S.told (failed_lane result) lanes.old lanes.new }
    ensures rows { IfOk result (spec.AreRowsOf S.told cat.now lanes.old query.now) }
{
    let Ok(marks) = marked(alloc, cat.tables().len(), rel) else {
        return Err(FetchFault::Memory);
    };
    let tables = match fetch_tables(lanes, alloc, cat, marks.as_slice()) {
        Ok(tables) => tables,
        Err(fault) => return Err(fault),
    };
    match run_over(alloc, &tables, rel, query) {
        Ok(rows) => Ok(rows),
        Err(NoMemory) => Err(FetchFault::Memory),
    }
}

/// The rows of a query over the tables that the lanes show. Each table that it reads is fetched whole, and once. A resolved
/// query is within the limits of size, so the fault of one that isn't never comes.
pub fn rows_of<S: Resource>(
    lanes: &mut [Lane<S>],
    alloc: Global,
    cat: &Catalog,
    query: &Ranked,
) -> Result<Rows, FetchFault>
    requires few { length lanes.old ≤ 4294967295 }
    requires patterns { HasNoPatterns cat.now }
    requires named { IsTrue (names_first (length cat.now.views) query.now.rel) }
    requires attached { AreAttached S.told cat.now lanes.old }
    ensures asked { AreAsked S.told (failed_lane result) lanes.old lanes.new }
    ensures rows { IfOk result (spec.AreRowsOf S.told cat.now lanes.old query.now) }
{
    match expand(alloc, cat, &query.rel) {
        Ok(rel) => fetch_and_run(lanes, alloc, cat, &rel, query),
        Err(_) => Err(FetchFault::Memory),
    }
}
