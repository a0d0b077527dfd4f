//! Merging a listing into the held rows.

ghost use Rattle.std.specs.Prelude.{◌≡◌, ◌≤◌, ◌<◌, ◌+◌, ◌++◌, ◌∷◌, [], ℕ, List, length, vec_len, vec_capacity, fold, map, OnOk, OnErr, if◌then◌else◌};
ghost use Rattle.dmap_tags.specs.Tree.{Tree};
ghost use Rattle.share_history.specs.Keyed.{put_in, taken_out, IsAscending};
ghost use Rattle.mirror_core.specs.Reading.{row_of, key_of};
ghost use Rattle.mirror_core.specs.Changes.{Change, changed, past_row, merged, next_order, with_next};

use crate::changes::{Changes, changes};
use crate::told::ToldRef;
use dmap_tags::Tag;
use item_model::Target;
use std::alloc::{AllocError, Global};
use std::cmp::Ordering;
use std::collections::VecDeque;
use std::mem;

// Applies a listing to the rows. All memory is allocated first, so that after an `Err` the rows are as before.
pub(crate) fn take_in(
    alloc: Global,
    target: Target,
    held: &mut Vec<(u32, Tag)>,
    told: ToldRef<'_>,
) -> Result<(), AllocError>
    ensures rows { OnOk result (IsAscending held.old.items
        → held.new.items ≡ fold put_in
        (if told.entry.is_delta then fold taken_out held.old.items
        (map (key_of target) told.entry.gone.now) else [])
        (map (row_of target) told.entry.rows.now)) }
    ensures unchanged { OnErr result (held.new.items ≡ held.old.items) }
{
    let changes = match changes(alloc, target, told.gone, told.rows) {
        Ok(changes) => changes,
        Err(error) => return Err(error),
    };
    let room = kept_len(told.is_delta, held.as_slice()) + changes.len();
    let out = match Vec::with_capacity(alloc, room) {
        Ok(out) => out,
        Err(error) => return Err(error),
    };
    let before = mem::replace(held, Vec::new(alloc));
    *held = merge(out, kept(alloc, told.is_delta, before), changes);
    Ok(())
}

fn kept_len(is_delta: bool, held: &[(u32, Tag)]) -> usize
    ensures { result ≡ length (if is_delta then held.now else []) }
{
    if is_delta { held.len() } else { 0 }
}

// A full listing keeps no rows.
fn kept(alloc: Global, is_delta: bool, held: Vec<(u32, Tag)>) -> VecDeque<(u32, Tag)>
    ensures { result.items ≡ (if is_delta then held.items else []) }
{
    if is_delta {
        VecDeque::from_vec(held)
    } else {
        VecDeque::new(alloc)
    }
}

// Appends the held rows with the changes to `out`, which has capacity for all of them.
pub(crate) fn merge(
    mut out: Vec<(u32, Tag)>,
    mut held: VecDeque<(u32, Tag)>,
    mut changes: Changes,
) -> Vec<(u32, Tag)>
    requires { vec_len out + (length held.items + length changes.entries) ≤ vec_capacity out }
    ensures { result.items ≡ out.items ++ merged held.items changes.entries }
{
    while let Some(row) = held.pop_front() {
        push_row(&mut out, &mut changes, row);
    }
    push_rest(out, changes)
}

fn push_rest(mut out: Vec<(u32, Tag)>, mut changes: Changes) -> Vec<(u32, Tag)>
    requires { vec_len out + length changes.entries ≤ vec_capacity out }
    ensures { result.items ≡ out.items ++ changed changes.entries }
{
    while !changes.is_empty() {
        push_next(&mut out, &mut changes);
    }
    out
}

// Pushes the changes up to the key of `row`, and `row` itself unless a change has its key.
fn push_row(out: &mut Vec<(u32, Tag)>, changes: &mut Changes, row: (u32, Tag))
    requires { vec_len out.old + (length changes.old.entries + 1) ≤ vec_capacity out.old }
    ensures rows { (rest : List Change → List (ℕ × Tree))
        → out.new.items ++ rest changes.new.entries
        ≡ out.old.items ++ past_row row rest changes.old.entries }
    ensures room { vec_len out.new + length changes.new.entries
        ≤ vec_len out.old + (length changes.old.entries + 1) }
    ensures capacity { vec_capacity out.new ≡ vec_capacity out.old }
{
    if push_up_to(out, changes, row.0) {
        return;
    }
    out.push_reserved(row);
}

// Pushes the changes up to a key. Returns whether one of them has the key.
fn push_up_to(out: &mut Vec<(u32, Tag)>, changes: &mut Changes, key: u32) -> bool
    requires { vec_len out.old + length changes.old.entries ≤ vec_capacity out.old }
    ensures rows { (tag : Tree) (rest : List Change → List (ℕ × Tree))
        → out.new.items ++ (if result then rest changes.new.entries
        else (key, tag) ∷ rest changes.new.entries)
        ≡ out.old.items ++ past_row (key, tag) rest changes.old.entries }
    ensures room { vec_len out.new + length changes.new.entries
        ≤ vec_len out.old + length changes.old.entries }
    ensures capacity { vec_capacity out.new ≡ vec_capacity out.old }
{
    while order_of_next(changes, key) == Ordering::Less {
        push_next(out, changes);
    }
    if order_of_next(changes, key) == Ordering::Equal {
        push_next(out, changes);
        return true;
    }
    false
}

// Compares the key of the next change to `key`; without a change returns `Greater`.
fn order_of_next(changes: &Changes, key: u32) -> Ordering
    ensures { result ≡ next_order key changes.now.entries }
{
    match changes.first_key_value() {
        Some((next, _)) => next.cmp(&key),
        None => Ordering::Greater,
    }
}

// Pushes the row of the next change, if it has one.
fn push_next(out: &mut Vec<(u32, Tag)>, changes: &mut Changes)
    requires { vec_len out.old + length changes.old.entries ≤ vec_capacity out.old }
    ensures rows { (rest : List Change → List (ℕ × Tree))
        → out.new.items ++ rest changes.new.entries
        ≡ out.old.items ++ with_next rest changes.old.entries }
    ensures room { vec_len out.new + length changes.new.entries
        ≤ vec_len out.old + length changes.old.entries }
    ensures fewer { 0 < length changes.old.entries
        → length changes.new.entries < length changes.old.entries }
    ensures capacity { vec_capacity out.new ≡ vec_capacity out.old }
{
    match changes.pop_first() {
        Some((key, Some(tag))) => out.push_reserved((key, tag)),
        _ => {}
    }
}
