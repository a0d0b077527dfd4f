//! The changes that a listing makes.

ghost use Rattle.std.specs.Prelude.{◌≡◌, OnOk, IfOk, fold, map};
ghost use Rattle.mirror_core.specs.Reading.{row_of, key_of};
ghost use Rattle.mirror_core.specs.Changes.{with_gone, with_row, changes_of};

use crate::tags::{key_of, key_of_row};
use dmap_tags::Tag;
use item_model::Target;
use std::alloc::{AllocError, Global};
use std::collections::BTreeMap;

// By key: `None` for a deleted one, the tag for a listed one.
pub(crate) type Changes = BTreeMap<u32, Option<Tag>>;

pub(crate) fn changes(
    alloc: Global,
    target: Target,
    gone: &[Tag],
    rows: &[Tag],
) -> Result<Changes, AllocError>
    ensures { IfOk result (λ changes. changes.entries
        ≡ changes_of (map (key_of target) gone.now) (map (row_of target) rows.now)) }
{
    let mut changes = BTreeMap::new(alloc);
    put_gone(&mut changes, target, gone)?;
    put_rows(&mut changes, target, rows)?;
    Ok(changes)
}

#[tactic(auto, using(crate::proofs::TagFacts::folded_left))]
fn put_gone(changes: &mut Changes, target: Target, tags: &[Tag]) -> Result<(), AllocError>
    ensures { OnOk result (changes.new.entries
        ≡ fold with_gone changes.old.entries (map (key_of target) tags.now)) }
{
    for tag in tags {
        changes.insert(key_of(target, tag), None)?;
    }
    Ok(())
}

#[tactic(auto, using(crate::proofs::TagFacts::folded_left))]
fn put_rows(changes: &mut Changes, target: Target, tags: &[Tag]) -> Result<(), AllocError>
    ensures { OnOk result (changes.new.entries
        ≡ fold with_row changes.old.entries (map (row_of target) tags.now)) }
{
    for tag in tags {
        let copy = tag.copy()?;
        changes.insert(key_of_row(target, tag), Some(copy))?;
    }
    Ok(())
}
