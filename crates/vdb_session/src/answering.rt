//! Answers one statement over lanes.

ghost use Rattle.std.specs.Prelude.{◌≡◌, ◌≤◌, length, None, IsTrue};
ghost use Rattle.catalog_laws.specs.Over.{HasNoPatterns};
ghost use Rattle.resource.specs.Leaves.{unasked};
ghost use Rattle.vdb_model.specs.Stacked.{names_first};
ghost use Rattle.vdb_session.specs.Answer as spec;
ghost use Rattle.vdb_session.specs.Fetching.{AreAttached};
ghost use Rattle.vdb_session.specs.Lanes.{AreAsked};
ghost use Rattle.vdb_session.specs.Shown.{world_by, sees};

use crate::fetching::FetchFault;
use crate::queries::{NoQuery, read_query, rows_of};
use resource::{Lane, Lanes, Resource};
use std::alloc::Global;
use vdb_base::{Rows, Texts};
use vdb_model::{Catalog, Ranked, Reply};
use walk_laws::statements_are_closed;

/// The answer to a statement.
#[derive(Drop)]
pub enum Answer {
    Reply(Reply),
    /// A lane's count of faults rose, and the engine is broken.
    Fault { lane: u32 },
}

fn clear_lane<S: Resource>(lane: &mut Lane<S>)
    ensures name { lane.new.name ≡ lane.old.name }
    ensures kind { lane.new.kind ≡ lane.old.kind }
    ensures told { S.told lane.new.res ≡ unasked (S.told lane.old.res) }
{
    lane.res.clear_asked();
}

/// Each lane forgets what it was asked.
fn clear_lanes<S: Resource>(lanes: &mut [Lane<S>])
    ensures { AreAsked S.told None lanes.old lanes.new }
{
    for lane in lanes.iter_mut() {
        clear_lane(lane);
    }
}

fn names_of(query: Ranked) -> Texts
    ensures { result ≡ query.names }
{
    query.names
}

/// The answer with rows under these names, or why there are none.
fn answer_with(names: Texts, rows: Result<Rows, FetchFault>) -> Answer
    ensures { result ≡ spec.answer_with names rows }
{
    match rows {
        Ok(rows) => Answer::Reply(Reply::Rows { names, rows }),
        Err(FetchFault::Failed { lane }) => Answer::Fault { lane },
        Err(FetchFault::Memory) => Answer::Reply(Reply::Memory),
    }
}

/// The rows of a query as an answer.
#[tactic(auto, using(crate::proofs::AnswerSays::failed_same, crate::proofs::AnswerSays::answers_query))]
fn rows_answer<S: Resource>(
    lanes: &mut [Lane<S>],
    alloc: Global,
    cat: &Catalog,
    query: Ranked,
) -> Answer
    requires few { length lanes.old ≤ 4294967295 }
    requires patterns { HasNoPatterns cat.now }
    requires named { IsTrue (names_first (length cat.now.views) query.rel) }
    requires attached { AreAttached S.told cat.now lanes.old }
    ensures asked { AreAsked S.told (spec.failed_in result) lanes.old lanes.new }
    ensures answer { spec.AnswersQuery S.told cat.now lanes.old query result }
{
    let rows = rows_of(lanes, alloc, cat, &query);
    answer_with(names_of(query), rows)
}

/// Answers the statement that begins at `base` of the script over lanes that are attached. They forget first what they were asked.
fn answer_on<S: Resource>(
    lanes: &mut [Lane<S>],
    alloc: Global,
    cat: &Catalog,
    text: &[u8],
    base: u64,
) -> Answer
    requires few { length lanes.old ≤ 4294967295 }
    requires patterns { HasNoPatterns cat.now }
    requires attached { AreAttached S.told cat.now lanes.old }
    ensures asked { AreAsked S.told (spec.failed_in result) lanes.old lanes.new }
    ensures answer { spec.IsAnswer cat.now (world_by (sees S.told) cat.now lanes.old) (record { at = base; text = text.now }) (length lanes.old) result }
{
    statements_are_closed();
    clear_lanes(lanes);
    match read_query(alloc, cat, text, base) {
        Ok(query) => rows_answer(lanes, alloc, cat, query),
        Err(NoQuery::Refused(refusal)) => Answer::Reply(Reply::Refused(refusal)),
        Err(NoQuery::Memory) => Answer::Reply(Reply::Memory),
    }
}

/// The same over all lanes of an engine.
pub fn answer_over<S: Resource>(
    lanes: &mut Lanes<S>,
    alloc: Global,
    cat: &Catalog,
    text: &[u8],
    base: u64,
) -> Answer
    requires few { length lanes.old ≤ 4294967295 }
    requires patterns { HasNoPatterns cat.now }
    requires attached { AreAttached S.told cat.now lanes.old }
    ensures asked { AreAsked S.told (spec.failed_in result) lanes.old lanes.new }
    ensures answer { spec.IsAnswer cat.now (world_by (sees S.told) cat.now lanes.old) (record { at = base; text = text.now }) (length lanes.old) result }
{
    answer_on(lanes.as_mut_slice(), alloc, cat, text, base)
}
