//! Puts the tags of rows on a page, straight from their items.

ghost use Rattle.std.specs.Prelude.{◌≡◌, ◌≤◌, ◌<◌, ◌+◌, ◌++◌, ◌∷◌, [], true, length, OnOk};
ghost use Rattle.dmap_tags.specs.Spelling.{framed, spelling, spellings};
ghost use Rattle.dmap_tags.specs.Tree.{leaf, trees_of};
ghost use Rattle.item_model.specs.Items.{is_value_of, numbers_of};
ghost use Rattle.item_model.specs.Limits.{text_limit};
ghost use Rattle.item_model.specs.Projection.{number_leaf, property_tag, shown, keys, first_mentions};
ghost use Rattle.listing_plan.specs.Held.{row_tree, row_trees};
ghost use Rattle.listing_plan.specs.Limits.{row_limit};
ghost use Rattle.listing_plan.specs.Pages.{Pushes};

use crate::lengths::{HEAD_LEN, row_len};
use crate::page::Page;
use crate::row::PlanRow;
use dmap_tags::{Code, Kind};
use item_model::{Item, PropValue, Property};
use outside_net::{Failed, Sink};

pub(crate) fn push_rows<W: Sink, const N: usize>(
    page: &mut Page<N>,
    sink: &mut W,
    rows: &[PlanRow],
    properties: &[Property],
) -> Result<(), Failed>
    requires wide { row_limit ≤ N }
    requires once { first_mentions properties.now ≡ properties.now }
    ensures pushes { Pushes (spellings (trees_of (row_trees properties.now rows.now))) result
        (W.taken sink.old) (W.taken sink.new) page.old page.new (W.faults sink.old)
        (W.faults sink.new) }
    ensures beside { W.beside_taken sink.new ≡ W.beside_taken sink.old }
{
    for row in rows {
        push_row(page, sink, row, properties)?;
    }
    Ok(())
}

fn push_row<W: Sink, const N: usize>(
    page: &mut Page<N>,
    sink: &mut W,
    row: &PlanRow,
    properties: &[Property],
) -> Result<(), Failed>
    requires wide { row_limit ≤ N }
    requires once { first_mentions properties.now ≡ properties.now }
    ensures pushes { Pushes (spelling (row_tree properties.now row.now)) result (W.taken sink.old)
        (W.taken sink.new) page.old page.new (W.faults sink.old) (W.faults sink.new) }
    ensures beside { W.beside_taken sink.new ≡ W.beside_taken sink.old }
{
    let len = row_len(row, properties);
    page.make_room(sink, len as usize)?;
    put_row(page, row, properties, len);
    Ok(())
}

// Puts the tag of `row`, which has `len` bytes.
fn put_row<const N: usize>(page: &mut Page<N>, row: &PlanRow, properties: &[Property], len: u64)
    requires counted { len ≡ length (spelling (row_tree properties.now row.now)) }
    requires short { len ≤ row_limit }
    requires room { length page.old + len ≤ N }
    ensures { page.new ≡ page.old ++ spelling (row_tree properties.now row.now) }
{
    let shared = row.row.row();
    page.put_head(Code(*b"mlit"), (len - HEAD_LEN) as u32);
    put_keys(page, row.member, shared.id);
    put_shown(page, &shared.item, properties);
}

fn put_keys<const N: usize>(page: &mut Page<N>, member: Option<u32>, id: u32)
    requires { length page.old + length (spellings (trees_of (keys member id))) ≤ N }
    ensures { page.new ≡ page.old ++ spellings (trees_of (keys member id)) }
{
    match member {
        Some(member) => {
            page.put_number(Code(*b"mcti"), member);
            page.put_number(Code(*b"miid"), id);
        }
        None => page.put_number(Code(*b"miid"), id),
    }
}

// Puts the tags of those properties that the item has.
fn put_shown<const N: usize>(page: &mut Page<N>, item: &Item, properties: &[Property])
    requires { length page.old + length (spellings (trees_of (shown item.now properties.now))) ≤ N }
    ensures { page.new ≡ page.old ++ spellings (trees_of (shown item.now properties.now)) }
{
    for property in properties {
        put_property(page, item, *property);
    }
}

fn put_property<const N: usize>(page: &mut Page<N>, item: &Item, property: Property)
    requires { length page.old + length (spellings (trees_of (shown item.now (property ∷ []))))
        ≤ N }
    ensures { page.new ≡ page.old ++ spellings (trees_of (shown item.now (property ∷ []))) }
{
    match item.get(property) {
        Some(value) => put_value(page, property, value),
        None => {}
    }
}

fn put_value<const N: usize>(page: &mut Page<N>, property: Property, value: &PropValue)
    requires fits { is_value_of property value.now ≡ true }
    requires room { length page.old + length (spelling (property_tag property value.now)) ≤ N }
    ensures { page.new ≡ page.old ++ spelling (property_tag property value.now) }
{
    match value {
        PropValue::Number(n) => put_typed(page, property.code(), property.kind(), *n),
        PropValue::Text(text) => put_leaf(page, property.code(), text.as_str().as_bytes()),
    }
}

// Puts the tag of a number of kind `kind`.
fn put_typed<const N: usize>(page: &mut Page<N>, of: Code, kind: Kind, n: u64)
    requires fits { n < numbers_of kind }
    requires room { length page.old + length (spelling (leaf of (number_leaf kind n))) ≤ N }
    ensures { page.new ≡ page.old ++ spelling (leaf of (number_leaf kind n)) }
{
    match kind {
        Kind::U8 => put_leaf(page, of, &(n as u8).to_be_bytes()),
        Kind::U16 => put_leaf(page, of, &(n as u16).to_be_bytes()),
        Kind::U32 | Kind::Date => put_leaf(page, of, &(n as u32).to_be_bytes()),
        _ => put_leaf(page, of, &n.to_be_bytes()),
    }
}

// Puts a head and the payload.
fn put_leaf<const N: usize>(page: &mut Page<N>, of: Code, payload: &[u8])
    requires short { length payload.now ≤ text_limit }
    requires room { length page.old + length payload.now + 8 ≤ N }
    ensures { page.new ≡ page.old ++ framed of payload.now }
{
    page.put_head(of, payload.len() as u32);
    page.put(payload);
}
