//! The tables that a query reads, each fetched whole and once.

ghost use Rattle.std.specs.Prelude.{◌≡◌, ◌≤◌, ◌<◌, length, true, IfOk};
ghost use Rattle.catalog_laws.specs.Over.{HasNoPatterns};
ghost use Rattle.resource.specs.Asks.{Allows};
ghost use Rattle.vdb_session.specs.Fetching as spec;
ghost use Rattle.vdb_session.specs.Lanes.{AreAsked};

use crate::serving::lane_serving;
use resource::{Lane, ResFault, Resource};
use sqlite_items::Items;
use std::alloc::Global;
use vdb_base::{NoMemory, Nums, Rows, Seq};
use vdb_model::{Bag, Bags, Catalog, SourceQuery, TableDef};

/// Why tables weren't fetched.
#[derive(Clone, Copy, Debug, PartialEq, Eq)]
pub enum FetchFault {
    /// The lane's count of faults rose.
    Failed { lane: u32 },
    Memory,
}

/// The numbers of so many columns.
#[tactic(auto, using(crate::proofs::Numbers::numbers_more))]
fn numbers(alloc: Global, count: usize) -> Result<Nums, NoMemory>
    ensures { IfOk result (λ made. made ≡ spec.numbers 0 count) }
{
    let count = u32::try_from(count).map_err(|_| NoMemory)?;
    let mut made = Seq::new(alloc);
    for at in 0..count {
        made.push(at)?;
    }
    Ok(made)
}

/// The query for the whole of a table.
fn whole(alloc: Global, table: &TableDef) -> Result<SourceQuery, NoMemory>
    ensures { IfOk result (λ q. q ≡ spec.whole table.now) }
{
    let mut tables = Seq::new(alloc);
    tables.push(table.number)?;
    Ok(SourceQuery {
        tables,
        filter: Items::new(alloc),
        columns: numbers(alloc, table.columns.len())?,
        distinct: false,
        order: Seq::new(alloc),
        limit: None,
        count: false,
    })
}

/// Asks a lane for the whole of a table.
fn ask<S: Resource>(lane: &mut Lane<S>, alloc: Global, table: &TableDef) -> Result<Rows, ResFault>
    requires { Allows (S.told lane.old.res) (spec.whole table.now) }
    ensures name { lane.new.name ≡ lane.old.name }
    ensures kind { lane.new.kind ≡ lane.old.kind }
    ensures asked { spec.AskedHere table.now result (S.told lane.old.res) (S.told lane.new.res) }
{
    let Ok(q) = whole(alloc, table) else {
        return Err(ResFault::Memory);
    };
    lane.res.query(alloc, &q)
}

/// The answer of the lane at the place.
fn at_lane(answer: Result<Rows, ResFault>, lane: u32) -> Result<Rows, FetchFault>
    ensures { result ≡ spec.at_lane answer lane }
{
    match answer {
        Ok(rows) => Ok(rows),
        Err(ResFault::Failed) => Err(FetchFault::Failed { lane }),
        Err(ResFault::Memory) => Err(FetchFault::Memory),
    }
}

/// Asks the lane at the place for the whole of a table.
fn ask_at<S: Resource>(
    lanes: &mut [Lane<S>],
    at: usize,
    alloc: Global,
    cat: &Catalog,
    table: &TableDef,
) -> Result<Rows, FetchFault>
    requires few { length lanes.old ≤ 4294967295 }
    requires there { at < length lanes.old }
    requires serving { spec.IsServing cat.now table.now.server lanes.old at }
    requires allowed { spec.MayAsk S.told cat.now table.now lanes.old }
    ensures asked { AreAsked S.told (spec.failed_lane result) lanes.old lanes.new }
    ensures rows { IfOk result (spec.AreRows S.told cat.now lanes.old table.now) }
{
    let lane = at as u32;
    at_lane(ask(&mut lanes[at], alloc, table), lane)
}

/// The rows of a table; without a lane that serves its server there are none.
fn fetch<S: Resource>(
    lanes: &mut [Lane<S>],
    alloc: Global,
    cat: &Catalog,
    table: &TableDef,
) -> Result<Rows, FetchFault>
    requires few { length lanes.old ≤ 4294967295 }
    requires allowed { spec.MayAsk S.told cat.now table.now lanes.old }
    ensures asked { AreAsked S.told (spec.failed_lane result) lanes.old lanes.new }
    ensures rows { IfOk result (spec.AreRows S.told cat.now lanes.old table.now) }
{
    match lane_serving(cat, lanes, table.server) {
        None => Ok(Seq::new(alloc)),
        Some(at) => ask_at(lanes, at, alloc, cat, table),
    }
}

/// A table's rows where it is marked, and else none.
fn fetch_marked<S: Resource>(
    lanes: &mut [Lane<S>],
    alloc: Global,
    cat: &Catalog,
    table: &TableDef,
    marked: bool,
) -> Result<Bag, FetchFault>
    requires few { length lanes.old ≤ 4294967295 }
    requires allowed { spec.MayAsk S.told cat.now table.now lanes.old }
    ensures asked { AreAsked S.told (spec.failed_lane result) lanes.old lanes.new }
    ensures bag { IfOk result (λ bag. marked ≡ true → spec.IsFetched S.told cat.now lanes.old table.now bag) }
{
    let width = table.columns.len();
    if !marked {
        return Ok(Bag {
            width,
            rows: Seq::new(alloc),
        });
    }
    match fetch(lanes, alloc, cat, table) {
        Ok(rows) => Ok(Bag { width, rows }),
        Err(fault) => Err(fault),
    }
}

/// The marked tables of the catalog, in turn.
pub fn fetch_tables<S: Resource>(
    lanes: &mut [Lane<S>],
    alloc: Global,
    cat: &Catalog,
    marks: &[bool],
) -> Result<Bags, FetchFault>
    requires few { length lanes.old ≤ 4294967295 }
    requires marks { length marks.now ≡ length cat.now.tables }
    requires patterns { HasNoPatterns cat.now }
    requires attached { spec.AreAttached S.told cat.now lanes.old }
    ensures asked { AreAsked S.told (spec.failed_lane result) lanes.old lanes.new }
    ensures bags { IfOk result (spec.AreFetched S.told cat.now lanes.old marks.now) }
{
    cat.is_well_formed();
    let mut bags = Seq::new(alloc);
    for (at, table) in cat.tables().as_slice().iter().enumerate() {
        match fetch_marked(lanes, alloc, cat, table, marks[at]) {
            Ok(bag) => {
                if bags.push(bag).is_err() {
                    return Err(FetchFault::Memory);
                }
            }
            Err(fault) => return Err(fault),
        }
    }
    Ok(bags)
}
