//! Items, read back from the tags of their properties.

ghost use Rattle.std.specs.Prelude.{◌≡◌, OnOk, IfOk, option_and_then};
ghost use Rattle.relayed_rows.specs.ReadRows.{value_of_kind, if_of_kind, value_told, first_told, item_told};
ghost use Rattle.relayed_rows.specs.Putting.{put_told, put_all_told};

use dmap_tags::{Kind, Tag, Text, Value};
use item_model::{Item, PROPERTIES, PropValue, Property, TEXT_BYTES};
use std::alloc::{AllocError, Global};

/// Returns the item that the tags state.
#[tactic(auto, using(crate::proofs::ItemFacts::all_put))]
pub(crate) fn item_told(alloc: Global, tags: &[Tag]) -> Result<Item, AllocError>
    ensures { IfOk result (λ item. item ≡ item_told tags.now) }
{
    let mut item = Item::new(alloc);
    put_all_told(&mut item, &PROPERTIES, tags)?;
    Ok(item)
}

fn put_all_told(item: &mut Item, properties: &[Property], tags: &[Tag]) -> Result<(), AllocError>
    ensures { OnOk result (item.new ≡ put_all_told tags.now item.old properties.now) }
{
    for property in properties {
        put_told(item, *property, tags)?;
    }
    Ok(())
}

// Puts the first value of `property` that the tags state, if any.
fn put_told(item: &mut Item, property: Property, tags: &[Tag]) -> Result<(), AllocError>
    ensures { OnOk result (item.new ≡ put_told tags.now item.old property) }
{
    let Some(value) = first_told(property, tags)? else {
        return Ok(());
    };
    match item.put(property, value) {
        Ok(()) => Ok(()),
        Err(_) => Err(AllocError),
    }
}

fn first_told(property: Property, tags: &[Tag]) -> Result<Option<PropValue>, AllocError>
    ensures { IfOk result (λ value. value ≡ first_told property tags.now) }
{
    for tag in tags {
        if let Some(value) = value_told(property, tag)? {
            return Ok(Some(value));
        }
    }
    Ok(None)
}

fn value_told(property: Property, tag: &Tag) -> Result<Option<PropValue>, AllocError>
    ensures { IfOk result (λ value. value ≡ value_told property tag.now) }
{
    if tag.code != property.code() {
        return Ok(None);
    }
    value_in_range(property.kind(), tag)
}

// Returns the value of the kind that `tag` states, if it is in range. Every number that fits a kind's width is in
// range.
fn value_in_range(kind: Kind, tag: &Tag) -> Result<Option<PropValue>, AllocError>
    ensures { IfOk result (λ value. value
        ≡ option_and_then (if_of_kind kind) (value_of_kind kind tag.now)) }
{
    match kind {
        Kind::U8 => match &tag.value {
            Value::U8(n) => Ok(Some(PropValue::Number(u64::from(*n)))),
            _ => Ok(None),
        },
        Kind::U16 => match &tag.value {
            Value::U16(n) => Ok(Some(PropValue::Number(u64::from(*n)))),
            _ => Ok(None),
        },
        Kind::U32 => match &tag.value {
            Value::U32(n) => Ok(Some(PropValue::Number(u64::from(*n)))),
            _ => Ok(None),
        },
        Kind::U64 => match &tag.value {
            Value::U64(n) => Ok(Some(PropValue::Number(*n))),
            _ => Ok(None),
        },
        Kind::Date => match &tag.value {
            Value::Date(n) => Ok(Some(PropValue::Number(u64::from(*n)))),
            _ => Ok(None),
        },
        Kind::Text => match &tag.value {
            Value::Text(text) => text_in_range(text),
            _ => Ok(None),
        },
        _ => Ok(None),
    }
}

// Returns a copy of the text if it is neither empty nor too long.
fn text_in_range(text: &Text) -> Result<Option<PropValue>, AllocError>
    ensures { IfOk result (λ value. value ≡ if_of_kind Kind.Text (PropValue.Text text.now)) }
{
    let len = text.as_str().len();
    if len == 0 || TEXT_BYTES < len {
        return Ok(None);
    }
    Ok(Some(PropValue::Text(text.copy()?)))
}
