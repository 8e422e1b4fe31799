//! Lanes: resources with the names and kinds of their connections.

ghost use Rattle.std.specs.Prelude.{◌≡◌, length};

use std::marker::Model;
use vdb_base::Text;
use vdb_model::Kind;

/// A resource under the name of its connection.
#[derive(Drop)]
pub struct Lane<S> {
    pub name: Text,
    pub kind: Kind,
    pub res: S,
}

impl<S> Lane<S> {
    pub fn new(name: Text, kind: Kind, res: S) -> Lane<S>
        ensures { result ≡ record { name = name; kind = kind; res = res } }
    {
        Lane { name, kind, res }
    }
}

/// A list of lanes, which has no copy, since a store has none.
#[derive(Drop)]
pub struct Lanes<S> {
    items: Vec<Lane<S>>,
}

impl<S> Model for Lanes<S> {
    ghost use Rattle.std.specs.Prelude.{List};
    ghost use Rattle.resource.specs.declared.lane.Lane.{Lane};

    ghost Value = { List (Lane S) };

    ghost view = { λ l. l.items.items };
}

impl<S> Lanes<S> {
    ghost use Rattle.std.specs.Borrow.{Lends, sem};
    ghost use denote.Array.{Array};
    ghost use Rattle.resource.specs.contracts.lane.Lanes.{the_row};
    ghost use Rattle.resource.specs.contracts.lane.Lane.{the_row as lane_row};
    ghost use Rattle.resource.specs.Slices.{written_back};

    pub fn from_vec(items: Vec<Lane<S>>) -> Lanes<S>
        ensures { result ≡ items.items }
    {
        Lanes { items }
    }

    pub fn into_vec(self) -> Vec<Lane<S>>
        ensures { result.items ≡ self }
    {
        let Lanes { items } = self;
        items
    }

    pub fn len(&self) -> usize
        ensures { result ≡ length self.now }
    {
        self.items.len()
    }

    pub fn as_slice(&self) -> &[Lane<S>]
        ensures { result.now ≡ self.now }
    {
        self.items.as_slice()
    }

    pub fn as_mut_slice(&mut self) -> &mut [Lane<S>]
        ensures* writes_back { sem 𝓛 (Lends (the_row S.row) (Array (lane_row S.row) 0) self.entry result (written_back self.old)) }
        ensures value { result.now ≡ self.old }
    {
        self.items.as_mut_slice()
    }
}
