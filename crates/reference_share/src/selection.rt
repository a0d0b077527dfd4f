//! Rows of listings.

ghost use Rattle.std.specs.Prelude.{◌≡◌, ◌<◌, ◌≤◌, ◌++◌, length, IfOk, OnOk, map, option_copied, option_map, option_and_then, option_to_list};
ghost use Rattle.item_model.specs.QuerySeen.{tree_of};
ghost use Rattle.song_query.specs.Holds.{holds};
ghost use Rattle.share_history.specs.Histories.{all_edits};
ghost use Rattle.share_history.specs.Rows.{is_selected, if_selected, in_list, in_target, row_at, rows, library, is_there};
ghost use Rattle.reference_share.specs.PlaylistSeen.{playlist_of};
ghost use Rattle.reference_share.specs.RowSeen.{row_of};

use crate::items::item;
use crate::keys::keys;
use crate::lists::{PlaylistRef, list, member};
use item_model::{Entry, Query, Row, Target};
use share_history::BASE_LIST;
use song_query::{Steps, matches};
use std::alloc::{AllocError, Global};
use std::marker::Brand;
use std::sync::ledger::{Blank, Ledger};

// No contract states the steps that it counts.
fn does_hold_by<L: Ledger>(blank: Blank, query: &Query, row: &Row) -> bool
    requires name { blank.name ≡ L.name }
    requires parts { blank.parts ≡ L.parts }
    requires any { 0 < blank.parts }
    ensures { result ≡ holds (tree_of query.now) row.now }
{
    matches(query, row, &mut Steps::<L>::open(blank))
}

fn does_hold(query: &Query, row: &Row) -> bool
    ensures { result ≡ holds (tree_of query.now) row.now }
{
    does_hold_by::<Brand>(Blank::new(1), query, row)
}

/// Returns whether the row matches the query. Without a query every row does.
pub fn is_selected(query: Option<&Query>, row: &Row) -> bool
    ensures { result ≡ is_selected (option_copied query.entry) row.now }
{
    match query {
        Some(query) => does_hold(query, row),
        None => true,
    }
}

// Returns the row if it exists and matches.
fn if_selected<'a>(query: Option<&Query>, found: Option<&'a Row>) -> Option<&'a Row>
    ensures { option_copied result
        ≡ option_and_then (if_selected (option_copied query.entry)) (option_copied found.entry) }
{
    let row = found?;
    if is_selected(query, row) {
        Some(row)
    } else {
        None
    }
}

fn in_list<'a>(
    found: Option<PlaylistRef<'_>>,
    history: &'a [Entry],
    id: u32,
    key: u32,
) -> Option<&'a Row>
    ensures { option_copied result
        ≡ in_list (option_map playlist_of found.entry) (all_edits history.now) id key }
{
    match found {
        None => None,
        Some(PlaylistRef::Plain { .. }) => match member(history, id, key) {
            Some(item_id) => item(history, item_id),
            None => None,
        },
        Some(PlaylistRef::Ruled { rule, .. }) => if_selected(Some(rule), item(history, key)),
    }
}

fn in_target(history: &[Entry], target: Target, key: u32) -> Option<&Row>
    ensures { option_copied result ≡ in_target (all_edits history.now) target key }
{
    match target {
        Target::Container(id) if id != BASE_LIST => in_list(list(history, id), history, id, key),
        _ => item(history, key),
    }
}

/// Returns whether the target of a listing exists.
pub fn is_there(history: &[Entry], target: Target) -> bool
    ensures { result ≡ is_there (all_edits history.now) target }
{
    match target {
        Target::Container(id) if id != BASE_LIST => list(history, id).is_some(),
        _ => true,
    }
}

/// Returns the row of a listing under `key`.
pub fn row<'a>(
    history: &'a [Entry],
    target: Target,
    query: Option<&Query>,
    key: u32,
) -> Option<&'a Row>
    ensures { option_copied result
        ≡ row_at (all_edits history.now) target (option_copied query.entry) key }
{
    if_selected(query, in_target(history, target, key))
}

fn push_found<'a>(
    rows: &mut Vec<(u32, &'a Row)>,
    key: u32,
    found: Option<&'a Row>,
) -> Result<(), AllocError>
    ensures { OnOk result (map row_of rows.new.items
        ≡ map row_of rows.old.items ++ option_to_list
        (option_map (λ row. (key, row)) (option_copied found.entry))) }
{
    if let Some(row) = found {
        rows.push((key, row))?;
    }
    Ok(())
}

#[tactic(auto, using(share_history::proofs::FoldFacts::found_next))]
fn found_rows<'a>(
    alloc: Global,
    history: &'a [Entry],
    target: Target,
    query: Option<&Query>,
) -> Result<Vec<(u32, &'a Row)>, AllocError>
    ensures { IfOk result (λ found. map row_of found.items
        ≡ rows (all_edits history.now) target (option_copied query.entry)) }
{
    let mut rows = Vec::new(alloc);
    for key in &keys(alloc, history)? {
        push_found(&mut rows, *key, row(history, target, query, *key))?;
    }
    Ok(rows)
}

/// Returns the rows of a listing with their keys, ascending.
#[tactic(auto, using(crate::proofs::CountFacts::few_rows))]
pub fn rows<'a>(
    alloc: Global,
    history: &'a [Entry],
    target: Target,
    query: Option<&Query>,
) -> Result<Vec<(u32, &'a Row)>, AllocError>
    ensures rows { IfOk result (λ found. map row_of found.items
        ≡ rows (all_edits history.now) target (option_copied query.entry)) }
    ensures few { IfOk result (λ found. length found.items ≤ length (all_edits history.now)) }
{
    let rows = found_rows(alloc, history, target, query)?;
    Ok(rows)
}

/// Returns the items of the library with their ids, ascending.
pub fn library(alloc: Global, history: &[Entry]) -> Result<Vec<(u32, &Row)>, AllocError>
    ensures rows { IfOk result (λ found. map row_of found.items ≡ library (all_edits history.now)) }
    ensures few { IfOk result (λ found. length found.items ≤ length (all_edits history.now)) }
{
    rows(alloc, history, Target::Items, None)
}
