//! Heads of lists, and new lists.

ghost use Rattle.std.specs.Prelude.{◌≡◌, [], Some, None, IfOk};
ghost use Rattle.playlist_store.specs.Lists.{has_rule};
ghost use Rattle.playlist_store.specs.Changes.{is_plain};

use crate::head::ListHead;
use crate::kept::ListVersion;
use dmap_tags::Text;
use item_model::Query;
use key_versions::Versions;
use std::alloc::{AllocError, Global};
use std::collections::BTreeSet;

pub(crate) fn plain_head(name: &Text) -> Result<ListHead, AllocError>
    ensures { IfOk result (λ head. head ≡ record { name = name.now; rule = None }) }
{
    match name.copy() {
        Ok(name) => Ok(ListHead { name, rule: None }),
        Err(error) => Err(error),
    }
}

pub(crate) fn ruled_head(name: &Text, rule: &Query) -> Result<ListHead, AllocError>
    ensures { IfOk result (λ head. head ≡ record { name = name.now; rule = Some rule.now }) }
{
    let name = match name.copy() {
        Ok(name) => name,
        Err(error) => return Err(error),
    };
    match rule.copy() {
        Ok(rule) => Ok(ListHead {
            name,
            rule: Some(rule),
        }),
        Err(error) => Err(error),
    }
}

// Returns a list without members as it is from `since` on; without a head it is a dropped one.
pub(crate) fn fresh(alloc: Global, since: u32, head: Option<ListHead>) -> ListVersion
    ensures since { result.since ≡ since }
    ensures head { result.head ≡ head }
    ensures members { result.members ≡ [] }
{
    ListVersion {
        since,
        head,
        members: Versions::new(alloc),
        near: BTreeSet::new(alloc),
    }
}

pub(crate) fn has_rule(head: &Option<ListHead>) -> bool
    ensures { result ≡ has_rule head.now }
{
    match head {
        Some(head) => head.rule.is_some(),
        None => false,
    }
}

pub(crate) fn is_plain(head: &Option<ListHead>) -> bool
    ensures { result ≡ is_plain head.now }
{
    match head {
        Some(head) => head.rule.is_none(),
        None => false,
    }
}
