//! Listings of items.

ghost use Rattle.std.specs.Prelude.{◌≡◌, ◌<◌, ◌≤◌, ◌+◌, ◌^◌, ◌++◌, ◌∷◌, [], IfOk, OnOk, map, length, is_none, not, if◌then◌else◌, option_copied};
ghost use Rattle.std.specs.Map.{keys_of};
ghost use Rattle.std.specs.List.{filter};
ghost use Rattle.share_history.specs.Histories.{batches, revision, all_edits};
ghost use Rattle.share_history.specs.Rows.{row_at, rows};
ghost use Rattle.share_history.specs.Differences.{has_tag};
ghost use Rattle.share_history.specs.Listings.{member_of, shown, shown_rows, full_of, full_listing, delta_with, delta_listing, listing};
ghost use Rattle.reference_share.specs.RowSeen.{row_of};
ghost use Rattle.reference_share.specs.ListingSeen.{listing_of};

use crate::kept::{is_kept, push_if};
use crate::ranges::in_range;
use crate::revisions::{at_revision, revision};
use crate::selection::{row, rows};
use dmap_tags::Tag;
use item_model::{Entry, Look, Meta, Query, Row, ShownProperties, Target, is_shown_alike, project};
use std::alloc::{AllocError, Global};

/// The contents of a listing of items.
#[derive(Drop)]
pub struct Listing {
    pub is_delta: bool,
    pub revision: u32,
    /// The number of rows before the range.
    pub total: u32,
    /// The listed rows with their keys, ascending.
    pub rows: Vec<(u32, Tag)>,
    /// The keys that a delta deletes, ascending.
    pub gone: Vec<u32>,
}

// In a container the row of an item also states its key, the member's id.
fn member_of(target: Target, key: u32) -> Option<u32>
    ensures { result ≡ member_of target key }
{
    match target {
        Target::Items => None,
        Target::Container(_) => Some(key),
    }
}

fn shown(
    alloc: Global,
    target: Target,
    meta: &Meta,
    row: (u32, &Row),
) -> Result<(u32, Tag), AllocError>
    ensures { IfOk result (λ tag. tag ≡ shown target meta.now (row_of row.entry)) }
{
    let (key, item) = row;
    Ok((key, project(alloc, item, member_of(target, key), meta)?))
}

#[tactic(auto, using(share_history::proofs::FoldFacts::shown_next))]
fn shown_rows(
    alloc: Global,
    target: Target,
    meta: &Meta,
    rows: &[(u32, &Row)],
) -> Result<Vec<(u32, Tag)>, AllocError>
    ensures { IfOk result (λ tags. tags.items ≡ shown_rows target meta.now (map row_of rows.now)) }
{
    let mut tags = Vec::new(alloc);
    for row in rows {
        tags.push(shown(alloc, target, meta, *row)?)?;
    }
    Ok(tags)
}

fn full_of(
    alloc: Global,
    revision: u32,
    target: Target,
    look: &Look,
    all: &[(u32, &Row)],
) -> Result<Listing, AllocError>
    requires { length all.now < 2 ^ 32 }
    ensures { IfOk result (λ l. listing_of l
        ≡ full_of revision target look.now (map row_of all.now)) }
{
    let rows = shown_rows(alloc, target, &look.meta, in_range(look.range, all))?;
    Ok(Listing {
        is_delta: false,
        revision,
        total: all.len() as u32,
        rows,
        gone: Vec::new(alloc),
    })
}

/// Returns the full listing.
pub fn full_listing(
    alloc: Global,
    history: &[Entry],
    target: Target,
    look: &Look,
) -> Result<Listing, AllocError>
    requires revision { revision (batches history.now) < 2 ^ 32 }
    requires edits { length (all_edits history.now) < 2 ^ 32 }
    ensures { IfOk result (λ l. listing_of l ≡ full_listing (batches history.now) target look.now) }
{
    let all = rows(alloc, history, target, look.query.as_ref())?;
    full_of(alloc, revision(history), target, look, all.as_slice())
}

fn push_row_if<'a>(
    rows: &mut Vec<(u32, &'a Row)>,
    row: (u32, &'a Row),
    is_wanted: bool,
) -> Result<(), AllocError>
    ensures rows { OnOk result (map row_of rows.new.items
        ≡ map row_of rows.old.items ++ (if is_wanted then row_of row.entry ∷ [] else [])) }
    ensures few { OnOk result (length rows.new.items ≤ length rows.old.items + 1) }
{
    if is_wanted {
        rows.push(row)?;
    }
    Ok(())
}

// Returns whether the earlier history shows no row or another one under the key.
fn is_new(
    earlier: &[Entry],
    target: Target,
    query: Option<&Query>,
    meta: &Meta,
    found: (u32, &Row),
) -> bool
    ensures { result ≡ not (has_tag
        (shown_rows target meta.now
        (rows (all_edits earlier.now) target (option_copied query.entry)))
        (shown target meta.now (row_of found.entry))) }
{
    let (key, now) = found;
    let Some(old) = row(earlier, target, query, key) else {
        return true;
    };
    !is_shown_alike(old, now, ShownProperties::of(meta).as_slice())
}

// Returns those of the rows that the earlier history does not show.
fn new_rows<'a>(
    alloc: Global,
    earlier: &[Entry],
    target: Target,
    query: Option<&Query>,
    meta: &Meta,
    current: &[(u32, &'a Row)],
) -> Result<Vec<(u32, &'a Row)>, AllocError>
    ensures rows { IfOk result (λ found. map row_of found.items
        ≡ filter (λ row. not (has_tag
        (shown_rows target meta.now
        (rows (all_edits earlier.now) target (option_copied query.entry)))
        (shown target meta.now row))) (map row_of current.now)) }
    ensures few { IfOk result (λ found. length found.items ≤ length current.now) }
{
    let mut found = Vec::new(alloc);
    for row in current {
        push_row_if(&mut found, *row, is_new(earlier, target, query, meta, *row))?;
    }
    Ok(found)
}

// Returns the keys of those earlier rows that the history does not have any more.
#[tactic(auto, using(crate::proofs::LoopFacts::filtered_key_next))]
fn gone_keys(
    alloc: Global,
    history: &[Entry],
    target: Target,
    query: Option<&Query>,
    earlier: &[(u32, &Row)],
) -> Result<Vec<u32>, AllocError>
    ensures { IfOk result (λ gone. gone.items
        ≡ filter (λ key. is_none
        (row_at (all_edits history.now) target (option_copied query.entry) key))
        (keys_of (map row_of earlier.now))) }
{
    let mut gone = Vec::new(alloc);
    for old in earlier {
        let is_gone = row(history, target, query, old.0).is_none();
        push_if(&mut gone, old.0, is_gone)?;
    }
    Ok(gone)
}

fn delta_with(
    alloc: Global,
    revision: u32,
    target: Target,
    meta: &Meta,
    listed: &[(u32, &Row)],
    gone: Vec<u32>,
) -> Result<Listing, AllocError>
    requires { length listed.now < 2 ^ 32 }
    ensures { IfOk result (λ l. listing_of l
        ≡ delta_with revision (shown_rows target meta.now (map row_of listed.now)) gone.items) }
{
    let rows = shown_rows(alloc, target, meta, listed)?;
    Ok(Listing {
        is_delta: true,
        revision,
        total: listed.len() as u32,
        rows,
        gone,
    })
}

/// Returns the delta since `base`: the rows that are new or shown differently, and the keys that are gone.
pub fn delta_listing(
    alloc: Global,
    history: &[Entry],
    target: Target,
    look: &Look,
    base: u32,
) -> Result<Listing, AllocError>
    requires revision { revision (batches history.now) < 2 ^ 32 }
    requires edits { length (all_edits history.now) < 2 ^ 32 }
    ensures { IfOk result (λ l. listing_of l
        ≡ delta_listing (batches history.now) target look.now base) }
{
    let query = look.query.as_ref();
    let earlier = at_revision(history, base);
    let all = rows(alloc, history, target, query)?;
    let listed = new_rows(alloc, earlier, target, query, &look.meta, all.as_slice())?;
    let old = rows(alloc, earlier, target, query)?;
    let gone = gone_keys(alloc, history, target, query, old.as_slice())?;
    let delta = delta_with(
        alloc,
        revision(history),
        target,
        &look.meta,
        listed.as_slice(),
        gone,
    )?;
    Ok(delta)
}

/// Returns the listing for a look: a delta if its base is in the window, else the full listing.
pub fn listing_for(
    alloc: Global,
    keep: u32,
    history: &[Entry],
    target: Target,
    look: &Look,
) -> Result<Listing, AllocError>
    requires revision { revision (batches history.now) < 2 ^ 32 }
    requires edits { length (all_edits history.now) < 2 ^ 32 }
    ensures { IfOk result (λ l. listing_of l ≡ listing keep (batches history.now) target look.now) }
{
    if is_kept(keep, history, target, look.base) {
        delta_listing(alloc, history, target, look, look.base)
    } else {
        full_listing(alloc, history, target, look)
    }
}
