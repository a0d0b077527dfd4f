//! The stored versions of a list.

use crate::head::ListHead;
use key_versions::Versions;
use std::collections::{BTreeSet, VecDeque};

/// A list since one of its puts or drops.
#[derive(Drop)]
pub(crate) struct ListVersion {
    // the revision of the put or drop
    pub(crate) since: u32,
    // `None` if the list was dropped
    pub(crate) head: Option<ListHead>,
    // the id of the item under each key; in a smart playlist the key is that id
    pub(crate) members: Versions<u32>,
    // the members of a playlist by item, as (item, key); some pairs may be out of date
    pub(crate) near: BTreeSet<(u32, u32)>,
}

/// A list as it is, and its earlier versions, newest first.
#[derive(Drop)]
pub(crate) struct ListHistory {
    pub(crate) now: ListVersion,
    pub(crate) older: VecDeque<ListVersion>,
}
