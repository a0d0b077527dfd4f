//! The properties that some row of a sheet has, and the index of one among them.

ghost use Rattle.std.specs.Prelude.{◌≡◌, false, filter, is_some, IfOk, IfSome, IfNone};
ghost use Rattle.std.specs.List.{list_any};
ghost use Rattle.item_model.specs.Items.{value_of};
ghost use Rattle.item_model.specs.Projection.{mentions};
ghost use Rattle.row_sheets.specs.Held.{is_held, held_properties, IsIndex};

use item_model::{Item, Property, SharedRow};
use std::alloc::{AllocError, Global};

// The order of the properties of a sheet: those of the default projection, and then the others in the order of listings.
const SHEET_ORDER: [Property; 26] = [
    Property::Mikd,
    Property::Minm,
    Property::Asar,
    Property::Asal,
    Property::Astn,
    Property::Astm,
    Property::Mper,
    Property::Asaa,
    Property::Asgn,
    Property::Ascp,
    Property::Ascm,
    Property::Agrp,
    Property::Asfm,
    Property::Asyr,
    Property::Astc,
    Property::Asdn,
    Property::Asdc,
    Property::Asbr,
    Property::Asbt,
    Property::Assr,
    Property::Assz,
    Property::Asur,
    Property::Asco,
    Property::Aemk,
    Property::Asda,
    Property::Asdm,
];

pub(crate) fn held_properties(
    alloc: Global,
    rows: &[SharedRow],
) -> Result<Vec<Property>, AllocError>
    ensures { IfOk result (λ held. held.items ≡ held_properties rows.now) }
{
    held_among(alloc, rows, &SHEET_ORDER)
}

// Those of the properties that some row has.
fn held_among(
    alloc: Global,
    rows: &[SharedRow],
    properties: &[Property],
) -> Result<Vec<Property>, AllocError>
    ensures { IfOk result (λ held. held.items ≡ filter (is_held rows.now) properties.now) }
{
    let mut held = Vec::new(alloc);
    for property in properties {
        if is_held(rows, *property) {
            held.push(*property)?;
        }
    }
    held.shrink_to_fit();
    Ok(held)
}

fn is_held(rows: &[SharedRow], property: Property) -> bool
    ensures { result ≡ is_held rows.now property }
{
    for row in rows {
        if has(&row.row().item, property) {
            return true;
        }
    }
    false
}

fn has(item: &Item, property: Property) -> bool
    ensures { result ≡ is_some (value_of property item.now) }
{
    match item.get(property) {
        Some(_) => true,
        None => false,
    }
}

/// Returns the index of a property among those of a sheet, if the sheet has it.
#[inline(always)]
pub fn index_of(properties: &[Property], property: Property) -> Option<usize>
    ensures some { IfSome result (λ index. IsIndex properties.now index property) }
    ensures none { IfNone result (mentions properties.now property ≡ false) }
{
    for index in 0..properties.len() {
        if properties[index].rank() == property.rank() {
            return Some(index);
        }
    }
    None
}
