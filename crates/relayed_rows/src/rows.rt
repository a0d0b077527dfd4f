//! Rows, read back from the tags that list them.

ghost use Rattle.std.specs.Prelude.{◌≡◌, ◌∷◌, IfOk};
ghost use Rattle.relayed_rows.specs.ReadRows.{id_told, row_among, row_of};

use crate::items::item_told;
use dmap_tags::{Tag, Value};
use item_model::{Row, Target};
use mirror_core::key_of;
use std::alloc::{AllocError, Global};

/// Reads a row back from the tag of a listed item. Returns `None` if the first member is not the row's id, a `miid`
/// of 1 or more. Of two members of one property the first is used. Members with other codes, and values of another
/// kind or range, are ignored.
/// Returns `AllocError` if allocation fails.
#[tactic(auto, unfolding(crate::specs::ReadRows::row_of))]
pub fn row_of(alloc: Global, tag: &Tag) -> Result<Option<Row>, AllocError>
    ensures { IfOk result (λ row. row ≡ row_of tag.now) }
{
    match &tag.value {
        Value::List(members) => row_among(alloc, members.as_slice()),
        _ => Ok(None),
    }
}

fn row_among(alloc: Global, members: &[Tag]) -> Result<Option<Row>, AllocError>
    ensures { IfOk result (λ row. row ≡ row_among members.now) }
{
    match members {
        [key, members @ ..] => row_behind(alloc, key, members),
        [] => Ok(None),
    }
}

// Returns the row with the id in `key` and the item in `members`.
fn row_behind(alloc: Global, key: &Tag, members: &[Tag]) -> Result<Option<Row>, AllocError>
    ensures { IfOk result (λ row. row ≡ row_among (key.now ∷ members.now)) }
{
    let Some(id) = id_told(key) else {
        return Ok(None);
    };
    Ok(Some(Row {
        id,
        item: item_told(alloc, members)?,
    }))
}

fn id_told(key: &Tag) -> Option<u32>
    ensures { result ≡ id_told key.now }
{
    match key_of(Target::Items, key) {
        0 => None,
        id => Some(id),
    }
}
