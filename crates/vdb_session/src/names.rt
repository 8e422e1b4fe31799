//! What a start needs of lanes: that their names differ, and that none is lost.

ghost use Rattle.std.specs.Prelude.{◌≡◌, not};
ghost use Rattle.std.specs.List.{list_any};
ghost use Rattle.vdb_model.specs.Defs.{same_name};
ghost use Rattle.resource.specs.Told.{is_lost};
ghost use Rattle.vdb_session.specs.Lanes as spec;

use resource::{Lane, Lanes, ResState, Resource};
use vdb_base::Text;

fn has_name<S>(name: &Text, lanes: &[Lane<S>]) -> bool
    ensures { result ≡ list_any (same_name name.now) (spec.names_of lanes.now) }
{
    for lane in lanes {
        if *name == lane.name {
            return true;
        }
    }
    false
}

fn are_named_apart<S>(lanes: &[Lane<S>]) -> bool
    ensures { result ≡ spec.are_apart (spec.names_of lanes.now) }
{
    let mut left = lanes;
    while let [lane, others @ ..] = left {
        if has_name(&lane.name, others) {
            return false;
        }
        left = others;
    }
    true
}

/// Whether no two lanes have one name, as `Engine::start` needs it. It takes no memory.
pub fn are_apart<S>(lanes: &Lanes<S>) -> bool
    ensures { result ≡ spec.are_apart (spec.names_of lanes.now) }
{
    are_named_apart(lanes.as_slice())
}

fn is_here<S: Resource>(lane: &Lane<S>) -> bool
    ensures { result ≡ not (is_lost (S.told lane.now.res).state) }
{
    !matches!(lane.res.state(), ResState::Lost)
}

/// Whether none of the lanes is lost, as `Engine::start` needs it. It takes no memory.
pub fn are_here<S: Resource>(lanes: &Lanes<S>) -> bool
    ensures { result ≡ spec.are_here S.told lanes.now }
{
    for lane in lanes.as_slice() {
        if !is_here(lane) {
            return false;
        }
    }
    true
}
