//! What batches name.

use std::marker::Model;

/// The lists, members and items that a batch names, each kind in order.
#[derive(Drop)]
pub(crate) struct Named {
    pub(crate) lists: Vec<u32>,
    pub(crate) members: Vec<(u32, u32)>,
    pub(crate) items: Vec<u32>,
}

impl Model for Named {
    ghost use Rattle.playlist_store.specs.Names.{Names};

    ghost Value = { Names };

    ghost view = { λ a. record { lists = a.lists.items; members = a.members.items; items = a.items.items } };
}
