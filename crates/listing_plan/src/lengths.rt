//! The lengths of the tags of rows, found without encoding them.

ghost use Rattle.std.specs.Prelude.{◌≡◌, ◌≤◌, ◌+◌, ◌*◌, ℕ, [], ◌∷◌, true, length};
ghost use Rattle.dmap_tags.specs.Spelling.{leaf_payload, spelling, spellings};
ghost use Rattle.dmap_tags.specs.Tree.{trees_of};
ghost use Rattle.item_model.specs.Items.{is_value_of};
ghost use Rattle.item_model.specs.Projection.{number_leaf, property_tag, shown, keys, first_mentions};
ghost use Rattle.listing_plan.specs.Held.{row_tree, rows_length};
ghost use Rattle.listing_plan.specs.Lengths.{tag_most, tags_most};
ghost use Rattle.listing_plan.specs.Limits.{rows_limit, row_limit};

use crate::row::PlanRow;
use dmap_tags::Kind;
use item_model::{Item, PropValue, Property, ShownProperties};

/// The length of a tag's head.
pub(crate) const HEAD_LEN: u64 = 8;

/// The length of a tag whose value is a number of 32 bits.
pub(crate) const NUMBER_LEN: u64 = 12;

// The length of the tags of all rows.
pub(crate) fn rows_len(rows: &[PlanRow], properties: &ShownProperties) -> u64
    requires { length rows.now ≤ rows_limit }
    ensures counted { result ≡ rows_length properties.now rows.now }
    ensures short { result ≤ row_limit * rows_limit }
{
    let properties = properties.as_slice();
    let mut len = 0;
    for row in rows {
        len += row_len(row, properties);
    }
    len
}

#[tactic(auto, using(crate::proofs::Short::row_length, crate::proofs::Short::once_short))]
pub(crate) fn row_len(row: &PlanRow, properties: &[Property]) -> u64
    requires once { first_mentions properties.now ≡ properties.now }
    ensures counted { result ≡ length (spelling (row_tree properties.now row.now)) }
    ensures short { result ≤ row_limit }
{
    HEAD_LEN + keys_len(row.member) + shown_len(&row.row.row().item, properties)
}

fn keys_len(member: Option<u32>) -> u64
    ensures counted { (id : ℕ) → result ≡ length (spellings (trees_of (keys member id))) }
    ensures short { result ≤ 24 }
{
    match member {
        Some(_) => 2 * NUMBER_LEN,
        None => NUMBER_LEN,
    }
}

// The length of the tags of those properties that the item has.
fn shown_len(item: &Item, properties: &[Property]) -> u64
    requires once { first_mentions properties.now ≡ properties.now }
    ensures counted { result ≡ length (spellings (trees_of (shown item.now properties.now))) }
    ensures short { result ≤ tags_most properties.now }
{
    let mut len = 0;
    for property in properties {
        len += property_len(item, *property);
    }
    len
}

fn property_len(item: &Item, property: Property) -> u64
    ensures counted { result ≡ length (spellings (trees_of (shown item.now (property ∷ [])))) }
    ensures short { result ≤ tag_most property }
{
    match item.get(property) {
        Some(value) => value_len(property, value),
        None => 0,
    }
}

#[tactic(auto, using(crate::proofs::Short::property_short, crate::proofs::Short::property_length))]
fn value_len(property: Property, value: &PropValue) -> u64
    requires { is_value_of property value.now ≡ true }
    ensures counted { result ≡ length (spelling (property_tag property value.now)) }
    ensures short { result ≤ tag_most property }
{
    match value {
        PropValue::Number(_) => HEAD_LEN + number_len(property.kind()),
        PropValue::Text(text) => HEAD_LEN + text.as_str().len() as u64,
    }
}

fn number_len(kind: Kind) -> u64
    ensures counted { (n : ℕ) → result ≡ length (leaf_payload (number_leaf kind n)) }
    ensures short { result ≤ 8 }
{
    match kind {
        Kind::U8 => 1,
        Kind::U16 => 2,
        Kind::U32 | Kind::Date => 4,
        _ => 8,
    }
}
