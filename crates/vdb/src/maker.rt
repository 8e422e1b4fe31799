//! Makers of parts.

ghost use Rattle.std.specs.Prelude.{◌≡◌, ◌&&◌, true, false, not, Some, IsSome};
ghost use Rattle.vdb_base.specs.Calls.{uncalled};
ghost use Rattle.resource.specs.Lanes.{labels_of};
ghost use Rattle.resource.specs.Told.{is_lost};
ghost use Rattle.vdb.specs.Making.{labels};

use crate::words::{Conn, Setup};
use resource::{Lane, ResState, Resource};
use vdb_base::{Calls, Nums};
use vdb_session::Parts;

#[derive(Clone, Copy, Debug, PartialEq, Eq)]
pub enum MakeFault {
    /// The count of faults rose.
    Failed,
    Memory,
}

/// Makes the parts of a run, and takes them back after it.
///
/// A make that is Ok hands out lanes of which none is lost. One that was refused leaves what is held. `keep` can't be refused.
pub trait Maker {
    ghost use Rattle.vdb.specs.Making.{MakerTold, Makes, Keeps};

    type S: Resource;

    /// The count of faults, and the parts that are held where they can be told.
    ghost told: { Self → MakerTold Self.S };

    fn make(&mut self, setup: &Setup) -> Result<Parts<Self::S>, MakeFault>
        ensures { Makes Self.S.told setup.now (told self.old) (told self.new) result };

    fn keep(&mut self, parts: Parts<Self::S>)
        ensures { Keeps (told self.old) (told self.new) parts };
}

/// Parts that are ready. Its k-th make, from 1, fails where `fails` lists k, where no parts are held, where the lanes' names
/// and kinds aren't those of the connections in turn, and where a lane is lost.
#[derive(Drop)]
pub struct ReadyMaker<S> {
    parts: Option<Parts<S>>,
    calls: Calls,
}

/// Whether the lane has the connection's name and kind.
fn is_labelled<S>(lane: &Lane<S>, conn: &Conn) -> bool
    ensures same { result ≡ true → (lane.now.name ≡ conn.now.name) × (lane.now.kind ≡ conn.now.kind) }
    ensures other { result ≡ false → lane.now.name ≡ conn.now.name → lane.now.kind ≡ conn.now.kind → ⊥ }
{
    lane.name == conn.name && lane.kind == conn.kind
}

/// Whether the lanes' names and kinds are the connections' in turn.
fn are_labelled<S>(lanes: &[Lane<S>], conns: &[Conn]) -> bool
    ensures same { result ≡ true → labels_of lanes.now ≡ labels conns.now }
    ensures other { result ≡ false → labels_of lanes.now ≡ labels conns.now → ⊥ }
{
    let mut left = lanes;
    let mut others = conns;
    while let [lane, more @ ..] = left {
        let [conn, more_conns @ ..] = others else {
            return false;
        };
        if !is_labelled(lane, conn) {
            return false;
        }
        left = more;
        others = more_conns;
    }
    others.is_empty()
}

/// Whether none was lost so far, and this one isn't.
fn is_still_here(here: bool, state: ResState) -> bool
    ensures { result ≡ (here && not (is_lost state)) }
{
    here && !matches!(state, ResState::Lost)
}

impl<S> ReadyMaker<S> {
    ghost use Rattle.vdb.specs.ReadyMaker.{held_of, calls_of};

    pub fn new(parts: Parts<S>, fails: Nums) -> ReadyMaker<S>
        ensures held { held_of result ≡ Some parts }
        ensures calls { calls_of result ≡ uncalled fails }
    {
        ReadyMaker {
            parts: Some(parts),
            calls: Calls::new(fails),
        }
    }

    /// The parts that are held, as they are after `new`, a refused `make`, and a run of the program.
    pub fn into_parts(self) -> Parts<S>
        requires held { IsSome (held_of self) }
        ensures { held_of self ≡ Some result }
    {
        let ReadyMaker { parts, calls: _ } = self;
        parts.unwrap()
    }
}

impl<T: Resource> Maker for ReadyMaker<T> {
    ghost use Rattle.vdb.specs.Making.{Makes, Keeps};
    ghost use Rattle.vdb.specs.ReadyMaker.{calls_of, ready_told, MakesByList};

    type S = T;

    ghost told = { ready_told };

    #[tactic(auto, using(crate::proofs::LostLanes::lanes_more))]
    fn make(&mut self, setup: &Setup) -> Result<Parts<T>, MakeFault>
        ensures makes { Makes T.told setup.now (ready_told self.old) (ready_told self.new) result }
        ensures by_list { MakesByList T.told setup.now self.old self.new result }
    {
        let listed = self.calls.begin();
        match self.parts.take() {
            Some(parts) => {
                let mut here = true;
                for lane in parts.lanes.as_slice() {
                    here = is_still_here(here, lane.res.state());
                }
                if !listed && here && are_labelled(parts.lanes.as_slice(), setup.conns.as_slice()) {
                    return Ok(parts);
                }
                self.parts = Some(parts);
            }
            None => {}
        }
        self.calls.fail();
        Err(MakeFault::Failed)
    }

    fn keep(&mut self, parts: Parts<T>)
        ensures keeps { Keeps (ready_told self.old) (ready_told self.new) parts }
        ensures calls { calls_of self.new ≡ calls_of self.old }
    {
        self.parts = Some(parts);
    }
}
