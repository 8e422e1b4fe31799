//! Branches that wait for a decision when an engine starts.

ghost use Rattle.std.specs.Prelude.{◌≡◌, IsSome};
ghost use Rattle.resource.specs.Told.{prepared_in};
ghost use Rattle.vdb_session.specs.Attaching as spec;

use crate::parts::StartFault;
use resource::{Lane, ResState, Resource};
use vdb_base::Failed;
use vdb_model::Xid;

/// The transaction of the lane's prepared branch.
fn prepared<S: Resource>(lane: &Lane<S>) -> Option<Xid>
    ensures { result ≡ prepared_in (S.told lane.now.res).state }
{
    match lane.res.state() {
        ResState::Prepared(x) => Some(x),
        ResState::Idle | ResState::Active(_) | ResState::Ended(_) | ResState::Lost => None,
    }
}

/// Rolls back the branch that the attached lane at the place has prepared, where it has one: no journal keeps decisions yet,
/// so nothing is decided.
pub fn roll_back<S: Resource>(lane: &mut Lane<S>, at: u32) -> Result<(), StartFault>
    requires attached { IsSome (S.told lane.old.res).defs }
    ensures name { lane.new.name ≡ lane.old.name }
    ensures kind { lane.new.kind ≡ lane.old.kind }
    ensures rolled { spec.RollsBack (prepared_in (S.told lane.old.res).state) at result (S.told lane.old.res) (S.told lane.new.res) (S.images lane.old.res) (S.images lane.new.res) }
{
    let Some(x) = prepared(lane) else {
        return Ok(());
    };
    match lane.res.rollback(x) {
        Ok(()) => Ok(()),
        Err(Failed) => Err(StartFault::Failed { lane: at }),
    }
}
