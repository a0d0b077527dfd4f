//! The listings of databases and of containers.

ghost use Rattle.std.specs.Prelude.{◌≡◌, ◌<◌, ◌≤◌, ◌+◌, ◌^◌, ◌++◌, ◌∷◌, [], IfOk, OnOk, map, length, option_map, option_to_list, None};
ghost use Rattle.dmap_tags.specs.Codes.{code};
ghost use Rattle.dmap_tags.specs.Tree as tree;
ghost use Rattle.dmap_tags.specs.Tree.{Tree, leaf, U8, U32};
ghost use Rattle.item_model.specs.declared.request.Target.TheVariants.{Container};
ghost use Rattle.share_history.specs.Histories.{batches, revision, all_edits};
ghost use Rattle.share_history.specs.Rows.{rows, library, lists};
ghost use Rattle.share_history.specs.Databases.{whole_body, entry_tag, database_tag, databases_body, container_tag, list_tag, container_tags, containers_body};
ghost use Rattle.reference_share.specs.PlaylistSeen.{playlist_of, listed_of};

use crate::bodies::{list_tag, number_tag, start_tags};
use crate::keys::{lists, lists_with};
use crate::lists::{PlaylistRef, list, list_with};
use crate::revisions::revision;
use crate::selection::{library, rows};
use dmap_tags::{Code, Tag, Tags, Text, Value};
use item_model::{Edit, Entry, Target};
use share_history::BASE_LIST;
use std::alloc::{AllocError, Global};

/// Returns the body of a full listing of `entries`.
pub(crate) fn whole_body(
    alloc: Global,
    of: Code,
    entries_of: Code,
    revision: u32,
    entries: Tags,
) -> Result<Tag, AllocError>
    requires { length entries < 2 ^ 32 }
    ensures { IfOk result (λ tag. tag ≡ whole_body of entries_of revision entries) }
{
    let count = entries.as_slice().len() as u32;
    let mut tags = start_tags(alloc, false, revision, count, count)?;
    tags.push(list_tag(entries_of, entries))?;
    Ok(list_tag(of, tags))
}

fn name_tag(name: &Text) -> Result<Tag, AllocError>
    ensures { IfOk result (λ tag. tag ≡ leaf (code "minm") (tree.Text name.now)) }
{
    Ok(Tag {
        code: Code(*b"minm"),
        value: Value::Text(name.copy()?),
    })
}

fn mark_tag(of: Code) -> Tag
    ensures { result ≡ leaf of (U8 1) }
{
    Tag {
        code: of,
        value: Value::U8(1),
    }
}

fn push_list<'a>(
    found: &mut Vec<(u32, PlaylistRef<'a>)>,
    id: u32,
    list: Option<PlaylistRef<'a>>,
) -> Result<(), AllocError>
    ensures { OnOk result (map listed_of found.new.items
        ≡ map listed_of found.old.items ++ option_to_list
        (option_map (λ one. (id, one)) (option_map playlist_of list.entry))) }
{
    if let Some(one) = list {
        found.push((id, one))?;
    }
    Ok(())
}

/// Returns the existing lists besides container 1, ascending by id.
#[tactic(auto, using(share_history::proofs::FoldFacts::found_next))]
pub fn playlists(
    alloc: Global,
    history: &[Entry],
) -> Result<Vec<(u32, PlaylistRef<'_>)>, AllocError>
    ensures { IfOk result (λ found. map listed_of found.items ≡ lists (all_edits history.now)) }
{
    let mut found = Vec::new(alloc);
    for id in &lists(alloc, history)? {
        push_list(&mut found, *id, list(history, *id))?;
    }
    Ok(found)
}

// Returns the lists that exist after the history and `edits`.
#[tactic(auto, using(share_history::proofs::FoldFacts::found_next))]
pub(crate) fn playlists_with<'a>(
    alloc: Global,
    history: &'a [Entry],
    edits: &'a [Edit],
) -> Result<Vec<(u32, PlaylistRef<'a>)>, AllocError>
    ensures { IfOk result (λ found. map listed_of found.items
        ≡ lists (all_edits history.now ++ edits.now)) }
{
    let mut found = Vec::new(alloc);
    for id in &lists_with(alloc, history, edits)? {
        push_list(&mut found, *id, list_with(history, edits, *id))?;
    }
    Ok(found)
}

// Returns the only database, with the numbers of its items and containers.
fn database_tag(alloc: Global, name: &Text, items: u32, containers: u32) -> Result<Tag, AllocError>
    ensures { IfOk result (λ tag. tag
        ≡ entry_tag (leaf (code "miid") (U32 1) ∷ leaf (code "minm") (tree.Text name.now) ∷ leaf
        (code "mimc") (U32 items) ∷ leaf (code "mctc") (U32 containers) ∷ [])) }
{
    let mut tags = Tags::new(alloc);
    tags.push(number_tag(Code(*b"miid"), 1))?;
    tags.push(name_tag(name)?)?;
    tags.push(number_tag(Code(*b"mimc"), items))?;
    tags.push(number_tag(Code(*b"mctc"), containers))?;
    Ok(list_tag(Code(*b"mlit"), tags))
}

fn push_mark(tags: &mut Tags, mark: Option<Tag>) -> Result<(), AllocError>
    ensures { OnOk result (tags.new ≡ tags.old ++ option_to_list mark) }
{
    if let Some(tag) = mark {
        tags.push(tag)?;
    }
    Ok(())
}

// Returns a container with the tag for its kind, if it has one, and the number of its rows.
fn container_tag(
    alloc: Global,
    id: u32,
    name: &Text,
    mark: Option<Tag>,
    count: u32,
) -> Result<Tag, AllocError>
    ensures { IfOk result (λ tag. tag
        ≡ entry_tag (leaf (code "miid") (U32 id) ∷ leaf (code "minm") (tree.Text name.now)
        ∷ (option_to_list mark ++ leaf (code "mimc") (U32 count) ∷ []))) }
{
    let mut tags = Tags::new(alloc);
    tags.push(number_tag(Code(*b"miid"), id))?;
    tags.push(name_tag(name)?)?;
    push_mark(&mut tags, mark)?;
    tags.push(number_tag(Code(*b"mimc"), count))?;
    Ok(list_tag(Code(*b"mlit"), tags))
}

#[tactic(auto, using(crate::proofs::CountFacts::counted_rows))]
fn row_count(alloc: Global, history: &[Entry], target: Target) -> Result<u32, AllocError>
    requires { length (all_edits history.now) < 2 ^ 32 }
    ensures { IfOk result (λ n. n ≡ length (rows (all_edits history.now) target None)) }
{
    let found = rows(alloc, history, target, None)?;
    Ok(found.len() as u32)
}

fn list_entry(
    alloc: Global,
    history: &[Entry],
    found: (u32, PlaylistRef<'_>),
) -> Result<Tag, AllocError>
    requires { length (all_edits history.now) < 2 ^ 32 }
    ensures { IfOk result (λ tag. tag ≡ list_tag (all_edits history.now) (listed_of found.entry)) }
{
    let (id, list) = found;
    let count = row_count(alloc, history, Target::Container(id))?;
    match list {
        PlaylistRef::Plain { name } => container_tag(alloc, id, name, None, count),
        PlaylistRef::Ruled { name, .. } => {
            let mark = Some(mark_tag(Code(*b"aeSP")));
            container_tag(alloc, id, name, mark, count)
        }
    }
}

#[tactic(auto, using(crate::proofs::CountFacts::few_lists, crate::proofs::CountFacts::counted_lists))]
fn list_count(alloc: Global, history: &[Entry]) -> Result<u32, AllocError>
    requires { length (all_edits history.now) < 2 ^ 32 }
    ensures count { IfOk result (λ n. n ≡ length (lists (all_edits history.now))) }
    ensures few { IfOk result (λ n. n ≤ length (all_edits history.now)) }
{
    let found = playlists(alloc, history)?;
    Ok(found.len() as u32)
}

/// Returns the body of the listing of databases. `name` is the share's.
pub fn databases_body(alloc: Global, name: &Text, history: &[Entry]) -> Result<Tag, AllocError>
    requires revision { revision (batches history.now) < 2 ^ 32 }
    requires edits { length (all_edits history.now) + 1 < 2 ^ 32 }
    ensures { IfOk result (λ tag. tag ≡ databases_body name.now history.now) }
{
    let items = row_count(alloc, history, Target::Items)?;
    let containers = list_count(alloc, history)? + 1;
    let mut entries = Tags::new(alloc);
    entries.push(database_tag(alloc, name, items, containers)?)?;
    let (of, entries_of) = (Code(*b"avdb"), Code(*b"mlcl"));
    whole_body(alloc, of, entries_of, revision(history), entries)
}

#[tactic(auto, using(share_history::proofs::FoldFacts::shown_next))]
fn container_tags(alloc: Global, name: &Text, history: &[Entry]) -> Result<Tags, AllocError>
    requires { length (all_edits history.now) < 2 ^ 32 }
    ensures { IfOk result (λ tags. tags ≡ container_tags name.now (all_edits history.now)) }
{
    let found = playlists(alloc, history)?;
    let count = row_count(alloc, history, Target::Container(BASE_LIST))?;
    let mark = Some(mark_tag(Code(*b"abpl")));
    let mut tags = Tags::new(alloc);
    tags.push(container_tag(alloc, BASE_LIST, name, mark, count)?)?;
    for list in &found {
        tags.push(list_entry(alloc, history, *list)?)?;
    }
    Ok(tags)
}

/// Returns the body of the listing of containers. Container 1 has the share's name.
pub fn containers_body(alloc: Global, name: &Text, history: &[Entry]) -> Result<Tag, AllocError>
    requires revision { revision (batches history.now) < 2 ^ 32 }
    requires edits { length (all_edits history.now) + 1 < 2 ^ 32 }
    ensures { IfOk result (λ tag. tag ≡ containers_body name.now history.now) }
{
    let entries = container_tags(alloc, name, history)?;
    let (of, entries_of) = (Code(*b"aply"), Code(*b"mlcl"));
    whole_body(alloc, of, entries_of, revision(history), entries)
}
