//! Encoded tags, put at the end of a buffer.

ghost use Rattle.std.specs.Prelude.{◌≡◌, ◌<◌, ◌++◌, true, OnOk};
ghost use Rattle.dmap_tags.specs.Spelling.{framed, spelling};
ghost use Rattle.dmap_tags.specs.Tree.{leaf};
ghost use Rattle.item_model.specs.Items.{is_value_of, numbers_of};
ghost use Rattle.item_model.specs.Projection.{number_leaf, property_tag};
ghost use Rattle.row_sheets.specs.Cells.{cell, HasValue};

use dmap_tags::{Code, Kind};
use item_model::{Item, PropValue, Property};
use std::alloc::AllocError;

// The tag of a property, or nothing if the item lacks it.
pub(crate) fn push_cell(
    bytes: &mut Vec<u8>,
    item: &Item,
    property: Property,
) -> Result<(), AllocError>
    ensures cell { OnOk result (bytes.new.items ≡ bytes.old.items ++ cell item.now property) }
    ensures value { HasValue item.now property }
{
    match item.get(property) {
        Some(value) => push_value(bytes, property, value),
        None => Ok(()),
    }
}

fn push_value(bytes: &mut Vec<u8>, property: Property, value: &PropValue) -> Result<(), AllocError>
    requires { is_value_of property value.now ≡ true }
    ensures { OnOk result (bytes.new.items
        ≡ bytes.old.items ++ spelling (property_tag property value.now)) }
{
    match value {
        PropValue::Number(n) => push_number(bytes, property.code(), property.kind(), *n),
        PropValue::Text(text) => push_leaf(bytes, property.code(), text.as_str().as_bytes()),
    }
}

fn push_number(bytes: &mut Vec<u8>, of: Code, kind: Kind, n: u64) -> Result<(), AllocError>
    requires { n < numbers_of kind }
    ensures { OnOk result (bytes.new.items
        ≡ bytes.old.items ++ spelling (leaf of (number_leaf kind n))) }
{
    match kind {
        Kind::U8 => push_leaf(bytes, of, &(n as u8).to_be_bytes()),
        Kind::U16 => push_leaf(bytes, of, &(n as u16).to_be_bytes()),
        Kind::U32 | Kind::Date => push_leaf(bytes, of, &(n as u32).to_be_bytes()),
        _ => push_leaf(bytes, of, &n.to_be_bytes()),
    }
}

// A code, the length of the payload, and the payload.
fn push_leaf(bytes: &mut Vec<u8>, of: Code, payload: &[u8]) -> Result<(), AllocError>
    ensures { OnOk result (bytes.new.items ≡ bytes.old.items ++ framed of payload.now) }
{
    let Ok(len) = u32::try_from(payload.len()) else {
        return Err(AllocError);
    };
    bytes.extend_from_slice(&of.0)?;
    bytes.extend_from_slice(&len.to_be_bytes())?;
    bytes.extend_from_slice(payload)
}
