//! Listings of the database and of the containers.

ghost use Rattle.std.specs.Prelude.{◌≡◌, ◌≤◌, ◌++◌, ◌==◌, [], ◌∷◌, ℕ, List, Option, false, true, None, is_some, length, option_map, option_to_list, IfOk, OnOk};
ghost use Rattle.std.specs.Option.{option_map_or};
ghost use Rattle.dmap_tags.specs.Codes.{code};
ghost use Rattle.dmap_tags.specs.Tree as tree;
ghost use Rattle.dmap_tags.specs.Tree.{Tree, leaf, U8, U32};
ghost use Rattle.item_model.specs.Limits.{text_limit};
ghost use Rattle.item_model.specs.declared.changes.Entry.{Entry};
ghost use Rattle.item_model.specs.declared.request.Target.TheVariants.{Container};
ghost use Rattle.share_history.specs.Databases.{databases_body, containers_body, container_tag, container_tags, database_tag, list_tag, entry_tag};
ghost use Rattle.share_history.specs.Histories.{all_edits, batches, revision};
ghost use Rattle.share_history.specs.LastSaid.{list_at};
ghost use Rattle.share_history.specs.Numbers.{base_list};
ghost use Rattle.share_history.specs.Rows.{rows, lists, library};
ghost use Rattle.share_replies.specs.Replies.{Tagged};
ghost use Rattle.share_core.specs.Contents.{IsContent};
ghost use Rattle.share_core.specs.Held.{AreHeld};
ghost use Rattle.share_core.specs.Entries.{entry_with, entry_at};

use crate::answer::ReplyContent;
use crate::stores::Stores;
use crate::tags::{list, number, push_number, small_number, text, whole};
use dmap_tags::{Code, Tag, Tags, Text};
use playlist_store::{ListHead, Member};
use share_history::BASE_LIST;
use std::alloc::{AllocError, Global};

/// Returns the listing of the only database.
pub(crate) fn databases(
    alloc: Global,
    name: &Text,
    stores: &Stores,
) -> Result<ReplyContent, AllocError>
    requires name { length name.now ≤ text_limit }
    requires held { (h : List Entry) × AreHeld h stores.now }
    ensures { IfOk result (λ content. (h : List Entry) → AreHeld h stores.now
        → IsContent (200, Tagged (databases_body name.now h)) content) }
{
    let containers = stores.lists.count();
    let items = stores.items.count();
    let entry = database_entry(alloc, name, items, containers + 1)?;
    let mut entries = Tags::new(alloc);
    entries.push(entry)?;
    let revision = stores.items.revision();
    whole(alloc, Code(*b"avdb"), Code(*b"mlcl"), revision, entries)
}

fn database_entry(
    alloc: Global,
    name: &Text,
    items: u32,
    containers: u32,
) -> Result<Tag, AllocError>
    ensures { IfOk result (λ tag. tag
        ≡ entry_tag (leaf (code "miid") (U32 1) ∷ leaf (code "minm") (tree.Text name.now) ∷ leaf
        (code "mimc") (U32 items) ∷ leaf (code "mctc") (U32 containers) ∷ [])) }
{
    let name = text(alloc, Code(*b"minm"), name.as_str())?;
    let tags = Vec::from_array(
        alloc,
        [
            number(Code(*b"miid"), 1),
            name,
            number(Code(*b"mimc"), items),
            number(Code(*b"mctc"), containers),
        ],
    )?;
    Ok(list(Code(*b"mlit"), Tags::of(tags)))
}

/// Returns the listing of the containers.
pub(crate) fn containers(
    alloc: Global,
    name: &Text,
    stores: &Stores,
) -> Result<ReplyContent, AllocError>
    requires name { length name.now ≤ text_limit }
    requires held { (h : List Entry) × AreHeld h stores.now }
    ensures { IfOk result (λ content. (h : List Entry) → AreHeld h stores.now
        → IsContent (200, Tagged (containers_body name.now h)) content) }
{
    let entries = entries(alloc, name, stores)?;
    let revision = stores.items.revision();
    whole(alloc, Code(*b"aply"), Code(*b"mlcl"), revision, entries)
}

fn entries(alloc: Global, name: &Text, stores: &Stores) -> Result<Tags, AllocError>
    requires held { (h : List Entry) × AreHeld h stores.now }
    ensures { IfOk result (λ tags. (h : List Entry) → AreHeld h stores.now
        → tags ≡ container_tags name.now (all_edits h)) }
{
    let first = base_entry(alloc, name, stores)?;
    let ids = stores.lists.lists()?;
    let mut tags = Tags::new(alloc);
    tags.push(first)?;
    for id in &ids {
        push_list(&mut tags, alloc, stores, *id)?;
    }
    Ok(tags)
}

// The entry of container 1, which has all items.
fn base_entry(alloc: Global, name: &Text, stores: &Stores) -> Result<Tag, AllocError>
    ensures { IfOk result (λ tag. (h : List Entry) → AreHeld h stores.now
        → tag ≡ container_tag base_list name.now (leaf (code "abpl") (U8 1) ∷ []) (all_edits h)) }
{
    let count = stores.items.count();
    entry(alloc, BASE_LIST, name, Some(Code(*b"abpl")), count)
}

// Appends the entry of list `id`, if it exists.
fn push_list(tags: &mut Tags, alloc: Global, stores: &Stores, id: u32) -> Result<(), AllocError>
    requires held { (h : List Entry) × AreHeld h stores.now }
    ensures { OnOk result ((h : List Entry) → AreHeld h stores.now
        → tags.new ≡ tags.old ++ option_to_list (entry_at (all_edits h) id)) }
{
    if id == BASE_LIST {
        return Ok(());
    }
    match stores.lists.head(id) {
        Some(head) => {
            let count = member_count(stores, id)?;
            tags.push(list_entry(alloc, id, head, count)?)
        }
        None => Ok(()),
    }
}

fn list_entry(alloc: Global, id: u32, head: &ListHead, count: u32) -> Result<Tag, AllocError>
    ensures { IfOk result (λ tag. tag ≡ entry_with id head.now count) }
{
    entry(alloc, id, &head.name, mark_of(head), count)
}

// Returns the code of the tag that a list with a rule has.
fn mark_of(head: &ListHead) -> Option<Code>
    ensures { option_map (λ of. leaf of (U8 1)) result
        ≡ option_map (λ _. leaf (code "aeSP") (U8 1)) head.now.rule }
{
    match &head.rule {
        Some(_) => Some(Code(*b"aeSP")),
        None => None,
    }
}

// Appends the tag `mark` with the number 1, if there is one.
fn push_mark(tags: &mut Tags, mark: Option<Code>) -> Result<(), AllocError>
    ensures { OnOk result (tags.new
        ≡ tags.old ++ option_to_list (option_map (λ of. leaf of (U8 1)) mark)) }
{
    match mark {
        Some(of) => tags.push(small_number(of, 1)),
        None => Ok(()),
    }
}

// Returns the entry of a container: id, name, the tag `mark` if any, and the number of its rows.
fn entry(
    alloc: Global,
    id: u32,
    name: &Text,
    mark: Option<Code>,
    count: u32,
) -> Result<Tag, AllocError>
    ensures { IfOk result (λ tag. tag
        ≡ entry_tag (leaf (code "miid") (U32 id) ∷ leaf (code "minm") (tree.Text name.now)
        ∷ (option_to_list (option_map (λ of. leaf of (U8 1)) mark) ++ leaf (code "mimc")
        (U32 count) ∷ []))) }
{
    let name = text(alloc, Code(*b"minm"), name.as_str())?;
    let tags = Vec::from_array(alloc, [number(Code(*b"miid"), id), name])?;
    let mut tags = Tags::of(tags);
    push_mark(&mut tags, mark)?;
    push_number(&mut tags, Code(*b"mimc"), count)?;
    Ok(list(Code(*b"mlit"), tags))
}

// Returns the number of rows in the listing of list `id`.
fn member_count(stores: &Stores, id: u32) -> Result<u32, AllocError>
    requires other { (id == base_list) ≡ false }
    requires held { (h : List Entry) × AreHeld h stores.now }
    ensures { IfOk result (λ count. (h : List Entry) → AreHeld h stores.now
        → is_some (list_at (all_edits h) id) ≡ true
        → count ≡ length (rows (all_edits h) (Container id) None)) }
{
    let found = stores.lists.members(id, &stores.items)?;
    let count = count_of(found);
    Ok(count as u32)
}

fn count_of(found: Option<Vec<Member>>) -> usize
    ensures { result ≡ option_map_or (λ members. length members.items) found 0 }
{
    match found {
        Some(members) => members.len(),
        None => 0,
    }
}
