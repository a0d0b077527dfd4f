//! The tag that lists an item.

ghost use Rattle.std.specs.Prelude.{◌≡◌, ◌<◌, ◌++◌, ◌∷◌, [], OnOk, IfOk, true};
ghost use Rattle.dmap_tags.specs.Codes.{Four};
ghost use Rattle.dmap_tags.specs.Tree.{leaf, U32};
ghost use Rattle.dmap_tags.specs.Seen.{tree_with};
ghost use Rattle.item_model.specs.Properties.{property_code};
ghost use Rattle.item_model.specs.Items.{is_value_of, numbers_of};
ghost use Rattle.item_model.specs.Projection.{projection, number_leaf, property_tag, shown, keys};

use crate::item::{Item, PropValue, Row};
use crate::property::Property;
use crate::request::Meta;
use crate::shown::ShownProperties;
use dmap_tags::{Code, Kind, Tag, Tags, Value};
use std::alloc::{AllocError, Global};

/// Returns the `mlit` of a row: its `mcti` if it is a member of a container, its `miid`, and the properties that are
/// requested and that the item has, in order of first mention (DAAP's listings).
pub fn project(
    alloc: Global,
    row: &Row,
    member: Option<u32>,
    meta: &Meta,
) -> Result<Tag, AllocError>
    ensures { IfOk result (λ tag. tag ≡ projection row.now member meta.now) }
{
    let shown = ShownProperties::of(meta);
    let mut tags = Tags::new(alloc);
    push_keys(&mut tags, member, row.id)?;
    push_shown(&mut tags, &row.item, shown.as_slice())?;
    Ok(Tag {
        code: Code(*b"mlit"),
        value: Value::List(tags),
    })
}

fn push_keys(tags: &mut Tags, member: Option<u32>, id: u32) -> Result<(), AllocError>
    ensures { OnOk result (tags.new ≡ tags.old ++ keys member id) }
{
    if let Some(member) = member {
        tags.push(number(Code(*b"mcti"), member))?;
    }
    tags.push(number(Code(*b"miid"), id))
}

fn number(code: Code, n: u32) -> Tag
    ensures { result ≡ leaf code (U32 n) }
{
    Tag {
        code,
        value: Value::U32(n),
    }
}

// Appends the tags of those of the properties that the item has.
fn push_shown(tags: &mut Tags, item: &Item, properties: &[Property]) -> Result<(), AllocError>
    ensures { OnOk result (tags.new ≡ tags.old ++ shown item.now properties.now) }
{
    for property in properties {
        push_property(tags, item, *property)?;
    }
    Ok(())
}

fn push_property(tags: &mut Tags, item: &Item, property: Property) -> Result<(), AllocError>
    ensures { OnOk result (tags.new ≡ tags.old ++ shown item.now (property ∷ [])) }
{
    let Some(value) = item.get(property) else {
        return Ok(());
    };
    tags.push(Tag {
        code: property.code(),
        value: tag_value(property, value)?,
    })
}

fn tag_value(property: Property, value: &PropValue) -> Result<Value, AllocError>
    requires { is_value_of property value.now ≡ true }
    ensures { IfOk result (λ v. tree_with (property_code property) v
        ≡ property_tag property value.now) }
{
    match value {
        PropValue::Number(n) => Ok(typed(property.kind(), *n)),
        PropValue::Text(text) => Ok(Value::Text(text.copy()?)),
    }
}

fn typed(kind: Kind, n: u64) -> Value
    requires { n < numbers_of kind }
    ensures { (code : Four) → tree_with code result ≡ leaf code (number_leaf kind n) }
{
    match kind {
        Kind::U8 => Value::U8(n as u8),
        Kind::U16 => Value::U16(n as u16),
        Kind::U32 => Value::U32(n as u32),
        Kind::Date => Value::Date(n as u32),
        _ => Value::U64(n),
    }
}
