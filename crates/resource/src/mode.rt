//! Where a resource in memory stands, and what its store may hold.

ghost use Rattle.std.specs.Prelude.{◌≡◌};
ghost use Rattle.resource.specs.Holding as spec;

use crate::resource::ResState;
use vdb_model::Xid;

/// What a store may hold of a branch.
#[derive(Clone, Copy, Debug, PartialEq, Eq)]
pub enum Side {
    /// Nothing.
    Plain,
    /// The prepared branch.
    Branched(Xid),
    /// Its changes, committed.
    Done,
}

#[derive(Clone, Copy, Debug, PartialEq, Eq)]
pub enum Mode {
    Idle,
    Active(Xid),
    Ended(Xid),
    Prepared(Xid),
    /// A stop leaves the one side or the other.
    Lost(Side, Side),
}

pub fn state_of(mode: Mode) -> ResState
    ensures { result ≡ spec.state_of mode }
{
    match mode {
        Mode::Idle => ResState::Idle,
        Mode::Active(x) => ResState::Active(x),
        Mode::Ended(x) => ResState::Ended(x),
        Mode::Prepared(x) => ResState::Prepared(x),
        Mode::Lost(_, _) => ResState::Lost,
    }
}

/// The side that the store is read with.
pub fn first_of(mode: Mode) -> Side
    ensures { result ≡ spec.first_of mode }
{
    match mode {
        Mode::Idle | Mode::Active(_) | Mode::Ended(_) => Side::Plain,
        Mode::Prepared(x) => Side::Branched(x),
        Mode::Lost(first, _) => first,
    }
}

/// The side that a stop may leave beside it.
pub fn other_of(mode: Mode) -> Side
    ensures { result ≡ spec.other_of mode }
{
    match mode {
        Mode::Idle | Mode::Active(_) | Mode::Ended(_) => Side::Plain,
        Mode::Prepared(x) => Side::Branched(x),
        Mode::Lost(_, other) => other,
    }
}
