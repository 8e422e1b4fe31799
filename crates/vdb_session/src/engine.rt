//! The engine: parts that are deployed and attached.

ghost use Rattle.std.specs.Prelude.{◌≡◌, ◌<◌, length, slice_index_or, IsTrue};

use crate::answering::{Answer, answer_over};
use crate::parts::{Opened, Parts, StartRefused};
use crate::start::deploy_and_attach;
use resource::Resource;
use std::alloc::Global;
use std::marker::Model;
use vdb_base::Text;
use vdb_model::Catalog;

/// Parts that are deployed and attached.
#[derive(Drop)]
pub struct Engine<S: Resource> {
    opened: Opened<S>,
}

impl<S: Resource> Model for Engine<S> {
    ghost use Rattle.std.specs.Coded.{codes};
    ghost use Rattle.vdb_model.specs.contracts.expr.Expr as expr;
    ghost use Rattle.vdb_model.specs.contracts.rel.Rel as rel;
    ghost use Rattle.vdb_model.specs.contracts.typed.TypedStmt as stmt;
    ghost use Rattle.vdb_session.specs.declared.parts.Opened.{Opened};
    ghost use Rattle.vdb_session.specs.Answer.{IsReady};

    ghost Value = { Opened S };

    ghost coded = { Prim.hlevel (codes, expr.the_row.coded, rel.the_row.coded, stmt.the_row.coded) };

    ghost view = { λ e. e.opened };

    ghost invariant = { λ e. IsReady S.told e.opened };
}

impl<S: Resource> Engine<S> {
    ghost use Rattle.resource.specs.declared.lane.Lane.{Lane};
    ghost use Rattle.vdb_session.specs.Answer as spec;
    ghost use Rattle.vdb_session.specs.Lanes.{are_apart, are_here, names_of, counts, LaneCounts};
    ghost use Rattle.vdb_session.specs.Starting.{Starts};

    /// Deploys the parts' DDL over the lanes, and attaches each lane to the tables of its server. A refusal hands the
    /// parts back with the first fault: of the text, of the deployment, then of the stores in turn. A branch that a store
    /// has prepared is rolled back once it is attached, since no journal tells yet what was decided.
    ///
    /// No two lanes may have one name, which `are_apart` tests, since a server is one connection; and none may be lost,
    /// which `are_here` tests.
    pub fn start(parts: Parts<S>, alloc: Global) -> Result<Engine<S>, StartRefused<S>>
        requires apart { IsTrue (are_apart (names_of parts.lanes)) }
        requires here { IsTrue (are_here S.told parts.lanes) }
        ensures { Starts S.told S.images parts result }
    {
        let mut parts = parts;
        match deploy_and_attach(&mut parts.lanes, alloc, parts.ddl.as_slice()) {
            Ok(catalog) => Ok(Engine {
                opened: Opened {
                    parts,
                    catalog,
                    broken: false,
                },
            }),
            Err(fault) => Err(StartRefused { parts, fault }),
        }
    }

    /// Answers the statement that begins at `base` of the script. A failed lane gives no reply, and breaks the engine.
    pub fn answer(&mut self, alloc: Global, text: &[u8], base: u64) -> Answer
        ensures answer { spec.IsAnswer self.old.catalog (spec.world_of S.told self.old) (record { at = base; text = text.now }) (length self.old.parts.lanes) result }
        ensures stays { spec.EngineStays S.told self.old self.new }
        ensures counts { LaneCounts (spec.failed_in result) (counts S.told self.old.parts) (counts S.told self.new.parts) }
        ensures broken { self.new.broken ≡ spec.is_broken_by result self.old.broken }
    {
        let answer = answer_over(
            &mut self.opened.parts.lanes,
            alloc,
            &self.opened.catalog,
            text,
            base,
        );
        match answer {
            Answer::Reply(reply) => Answer::Reply(reply),
            Answer::Fault { lane } => {
                self.opened.broken = true;
                Answer::Fault { lane }
            }
        }
    }

    /// Whether a lane failed in an answer.
    pub fn is_broken(&self) -> bool
        ensures { result ≡ self.now.broken }
    {
        self.opened.broken
    }

    /// What the DDL defines.
    pub fn catalog(&self) -> &Catalog
        ensures { result.now ≡ self.now.catalog }
    {
        &self.opened.catalog
    }

    /// The name of a lane that is there.
    pub fn lane_name(&self, lane: u32) -> &Text
        requires { lane < length self.now.parts.lanes }
        ensures { (other : Lane S) → result.now ≡ (slice_index_or self.now.parts.lanes lane other).name }
    {
        &self.opened.parts.lanes.as_slice()[lane as usize].name
    }

    /// The parts, as they are now.
    pub fn into_parts(self) -> Parts<S>
        ensures { result ≡ self.parts }
    {
        let Engine { opened } = self;
        let Opened { parts, .. } = opened;
        parts
    }
}
