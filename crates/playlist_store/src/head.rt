//! The head of a list, and a member.

use dmap_tags::Text;
use item_model::Query;

/// The head of a list: its name, and the rule of a smart playlist. A playlist has no rule.
#[derive(Drop)]
pub struct ListHead {
    pub name: Text,
    pub rule: Option<Query>,
}

/// A member of a list. In a smart playlist the key is the item's id.
#[derive(Clone, Copy, PartialEq, Eq)]
pub struct Member {
    pub key: u32,
    pub item: u32,
}
