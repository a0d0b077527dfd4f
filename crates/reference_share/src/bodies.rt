//! The bodies of listings of items.

ghost use Rattle.std.specs.Prelude.{◌≡◌, ◌<◌, ◌^◌, ◌++◌, IfOk, OnOk, map, length};
ghost use Rattle.dmap_tags.specs.Tree.{leaf, list, trees_of, U32};
ghost use Rattle.share_history.specs.Histories.{batches, revision, all_edits};
ghost use Rattle.share_history.specs.Bodies.{start_tags, key_code, gone_tags, body_tree, full_body, delta_body, listing_body};
ghost use Rattle.reference_share.specs.ListingSeen.{listing_of};

use crate::listings::{Listing, delta_listing, full_listing, listing_for};
use dmap_tags::{Code, Tag, Tags, Value};
use item_model::{Entry, Look, Target};
use share_history::{body_code, key_code};
use std::alloc::{AllocError, Global};

pub(crate) fn number_tag(of: Code, n: u32) -> Tag
    ensures { result ≡ leaf of (U32 n) }
{
    Tag {
        code: of,
        value: Value::U32(n),
    }
}

pub(crate) fn list_tag(of: Code, members: Tags) -> Tag
    ensures { result ≡ list of (trees_of members) }
{
    Tag {
        code: of,
        value: Value::List(members),
    }
}

// Returns the tags at the start of every listing.
pub(crate) fn start_tags(
    alloc: Global,
    is_delta: bool,
    revision: u32,
    total: u32,
    listed: u32,
) -> Result<Tags, AllocError>
    ensures { IfOk result (λ tags. tags ≡ start_tags is_delta revision total listed) }
{
    let kind = if is_delta { 1 } else { 0 };
    let mut tags = Tags::new(alloc);
    tags.push(number_tag(Code(*b"mstt"), 200))?;
    tags.push(Tag {
        code: Code(*b"muty"),
        value: Value::U8(kind),
    })?;
    tags.push(number_tag(Code(*b"musr"), revision))?;
    tags.push(number_tag(Code(*b"mtco"), total))?;
    tags.push(number_tag(Code(*b"mrco"), listed))?;
    Ok(tags)
}

#[tactic(auto, using(share_history::proofs::FoldFacts::shown_next))]
fn key_tags(alloc: Global, target: Target, keys: &[u32]) -> Result<Tags, AllocError>
    ensures { IfOk result (λ tags. tags ≡ map (λ key. leaf (key_code target) (U32 key)) keys.now) }
{
    let mut tags = Tags::new(alloc);
    for key in keys {
        tags.push(number_tag(key_code(target), *key))?;
    }
    Ok(tags)
}

fn row_tags(alloc: Global, rows: Vec<(u32, Tag)>) -> Result<Tags, AllocError>
    ensures { IfOk result (λ tags. tags ≡ map (λ row. row.1) rows.items) }
{
    let mut tags = Tags::new(alloc);
    for row in rows {
        tags.push(row.1)?;
    }
    Ok(tags)
}

// Pushes the deleted keys if the listing is a delta.
fn push_gone(
    tags: &mut Tags,
    alloc: Global,
    target: Target,
    is_delta: bool,
    gone: &[u32],
) -> Result<(), AllocError>
    ensures { OnOk result (tags.new ≡ tags.old ++ gone_tags target is_delta gone.now) }
{
    if is_delta {
        tags.push(list_tag(Code(*b"mudl"), key_tags(alloc, target, gone)?))?;
    }
    Ok(())
}

/// Returns the body of a listing.
pub fn body(alloc: Global, target: Target, listing: Listing) -> Result<Tag, AllocError>
    requires { length listing.rows.items < 2 ^ 32 }
    ensures { IfOk result (λ tag. tag ≡ body_tree target (listing_of listing)) }
{
    let Listing {
        is_delta,
        revision,
        total,
        rows,
        gone,
    } = listing;
    let mut tags = start_tags(alloc, is_delta, revision, total, rows.len() as u32)?;
    tags.push(list_tag(Code(*b"mlcl"), row_tags(alloc, rows)?))?;
    push_gone(&mut tags, alloc, target, is_delta, gone.as_slice())?;
    Ok(list_tag(body_code(target), tags))
}

/// Returns the body of the full listing.
pub fn full_body(
    alloc: Global,
    history: &[Entry],
    target: Target,
    look: &Look,
) -> Result<Tag, AllocError>
    requires revision { revision (batches history.now) < 2 ^ 32 }
    requires edits { length (all_edits history.now) < 2 ^ 32 }
    ensures { IfOk result (λ tag. tag ≡ full_body history.now target look.now) }
{
    let listing = full_listing(alloc, history, target, look)?;
    let tag = body(alloc, target, listing)?;
    Ok(tag)
}

/// Returns the body of the delta since `base`.
pub fn delta_body(
    alloc: Global,
    history: &[Entry],
    target: Target,
    look: &Look,
    base: u32,
) -> Result<Tag, AllocError>
    requires revision { revision (batches history.now) < 2 ^ 32 }
    requires edits { length (all_edits history.now) < 2 ^ 32 }
    ensures { IfOk result (λ tag. tag ≡ delta_body history.now target look.now base) }
{
    let listing = delta_listing(alloc, history, target, look, base)?;
    let tag = body(alloc, target, listing)?;
    Ok(tag)
}

/// Returns the body of the response to a look: a delta if its base is in the window, else a full listing.
pub fn listing_body(
    alloc: Global,
    keep: u32,
    history: &[Entry],
    target: Target,
    look: &Look,
) -> Result<Tag, AllocError>
    requires revision { revision (batches history.now) < 2 ^ 32 }
    requires edits { length (all_edits history.now) < 2 ^ 32 }
    ensures { IfOk result (λ tag. tag ≡ listing_body keep history.now target look.now) }
{
    let listing = listing_for(alloc, keep, history, target, look)?;
    let tag = body(alloc, target, listing)?;
    Ok(tag)
}
