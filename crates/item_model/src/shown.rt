//! The properties that a listing shows.

ghost use Rattle.std.specs.Prelude.{◌≡◌, ◌≤◌, ◌+◌, ◌++◌, [], length};
ghost use Rattle.item_model.specs.Projection.{asked, first_mentions, mentions, new_mention};

use crate::property::{DEFAULT_PROJECTION, PROPERTIES, Property};
use crate::request::Meta;
use std::marker::Model;

/// The properties that a listing shows, in order, each once. There are 26 at most, so this does not allocate.
#[derive(Drop)]
pub struct ShownProperties {
    room: [Property; 26],
    len: usize,
}

impl Model for ShownProperties {
    ghost use Rattle.std.specs.Prelude.{List, take, ◌≤◌, ◌≡◌};
    ghost use Rattle.item_model.specs.declared.property.Property.{Property};
    ghost use Rattle.item_model.specs.Projection.{first_mentions};

    ghost Value = { List Property };

    ghost view = { λ a. take a.len a.room };

    ghost invariant = { λ a. (a.len ≤ 26) × (first_mentions (take a.len a.room) ≡ take a.len a.room) };
}

impl ShownProperties {
    /// Returns the properties that `meta` requests.
    #[tactic(auto, using(crate::proofs::Few::default_once, crate::proofs::Few::all_once))]
    pub fn of(meta: &Meta) -> ShownProperties
        ensures { result ≡ asked meta.now }
    {
        match meta {
            Meta::Default => each_once(&DEFAULT_PROJECTION),
            Meta::All => each_once(&PROPERTIES),
            Meta::Names(properties) => each_once(properties.as_slice()),
        }
    }

    pub fn as_slice(&self) -> &[Property]
        ensures shown { result.now ≡ self.now }
        ensures once { first_mentions self.now ≡ self.now }
    {
        let (shown, _) = self.room.split_at(self.len);
        shown
    }

    fn new() -> ShownProperties
        ensures { result ≡ [] }
    {
        ShownProperties {
            room: [Property::Minm; 26],
            len: 0,
        }
    }

    // Appends a property, unless it is already there.
    fn mention(&mut self, property: Property)
        requires { length (self.old ++ new_mention self.old property) ≤ 26 }
        ensures { self.new ≡ self.old ++ new_mention self.old property }
    {
        if mentions(self.as_slice(), property) {
            return;
        }
        self.room[self.len] = property;
        self.len += 1;
    }
}

fn each_once(properties: &[Property]) -> ShownProperties
    ensures { result ≡ first_mentions properties.now }
{
    let mut shown = ShownProperties::new();
    for property in properties {
        shown.mention(*property);
    }
    shown
}

pub(crate) fn mentions(properties: &[Property], property: Property) -> bool
    ensures { result ≡ mentions properties.now property }
{
    for p in properties {
        if p.rank() == property.rank() {
            return true;
        }
    }
    false
}
