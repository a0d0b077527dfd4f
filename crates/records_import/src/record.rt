// Edits, read from records.

ghost use Rattle.std.specs.Prelude.{◌≡◌, ◌≢◌, ◌+◌, drop, length, get_or, [], true, false, Some, None, Ok, Err, IfOk, MatchResult, option_copied, option_map};
ghost use Rattle.csv.specs.Records.{fields_of};
ghost use Rattle.item_model.specs.declared.changes.Edit.TheVariants as an_edit;
ghost use Rattle.records_import.specs.Records.{action_of, name_in, name_text, IsLeftmost, RecordAnswers};
ghost use Rattle.records_import.specs.Walk.{Walked, edit_from, member_edit, no_values};

use crate::action::Action;
use crate::batch::MOST_RECORDS;
use crate::header::{Column, FIRST_COLUMNS};
use crate::refusal::RecordError;
use crate::table::{cell, width};
use crate::values::{CellError, Values, read_id};
use csv::ByteRecord;
use dmap_tags::Text;
use item_model::{Edit, Item, PropValue, Property, RecordWhy, Row, SharedRow};
use std::alloc::{AllocError, Global};

/// Returns the edit of the record. `row` is its number, from 1.
pub fn read_record(
    alloc: Global,
    row: u64,
    columns: &[Column],
    cells: &ByteRecord,
) -> Result<Edit, RecordError>
    ensures { MatchResult result
        (λ edit. RecordAnswers columns.now row (fields_of cells.now) (Ok edit))
        (λ e. e ≢ RecordError.Memory
        → RecordAnswers columns.now row (fields_of cells.now) (Err e)) }
{
    if row > MOST_RECORDS as u64 {
        return Err(RecordError::TooMany { row });
    }
    if width(cells) != columns.len() + FIRST_COLUMNS {
        return Err(RecordError::Length { row });
    }
    let action = read_action(row, cells)?;
    let id = match read_id(cell(cells, 2), action.least_id()) {
        Ok(id) => id,
        Err(why) => return Err(field(row, 3, why)),
    };
    let values = read_cells(alloc, row, action, columns, cells)?;
    match edit_from(alloc, action, id, values)? {
        Some(edit) => Ok(edit),
        None => Err(field(row, columns.len() as u64 + 4, RecordWhy::Missing)),
    }
}

fn field(row: u64, column: u64, why: RecordWhy) -> RecordError
    ensures { result ≡ RecordError.Field row column why }
{
    RecordError::Field { row, column, why }
}

/// Returns the action of a record, by its first two cells.
fn read_action(row: u64, cells: &ByteRecord) -> Result<Action, RecordError>
    ensures { result ≡ action_of row (get_or (fields_of cells.now) 0 [])
        (get_or (fields_of cells.now) 1 []) }
{
    let kind = cell(cells, 1);
    let action = if cell(cells, 0) == b"put".as_slice() {
        Action::put_of_kind(kind)
    } else if cell(cells, 0) == b"drop".as_slice() {
        Action::drop_of_kind(kind)
    } else {
        return Err(field(row, 1, RecordWhy::Op));
    };
    match action {
        Some(action) => Ok(action),
        None => Err(field(row, 2, RecordWhy::Kind)),
    }
}

/// Applies the cells of the further columns, from left to right.
fn read_cells(
    alloc: Global,
    row: u64,
    action: Action,
    columns: &[Column],
    cells: &ByteRecord,
) -> Result<Values, RecordError>
    requires { length (fields_of cells.now) ≡ length columns.now + 3 }
    ensures { MatchResult result
        (λ values. Walked action columns.now (drop 3 (fields_of cells.now)) no_values values)
        (λ e. e ≢ RecordError.Memory
        → IsLeftmost action row 4 columns.now (drop 3 (fields_of cells.now)) e) }
{
    let mut values = Values::new(alloc);
    for (place, column) in columns.iter().enumerate() {
        match values.take(alloc, action, *column, cell(cells, place + FIRST_COLUMNS)) {
            Ok(()) => {}
            Err(CellError::Memory) => return Err(RecordError::Memory),
            Err(CellError::Refused(why)) => return Err(field(row, place as u64 + 4, why)),
        }
    }
    Ok(values)
}

/// Returns the edit with these values, or `None` if the action lacks one of them.
fn edit_from(
    alloc: Global,
    action: Action,
    id: u32,
    values: Values,
) -> Result<Option<Edit>, AllocError>
    ensures { IfOk result (λ edit. edit ≡ edit_from action id values) }
{
    match action {
        Action::PutItem => put_item(alloc, id, values.into_item()),
        Action::DropItem => Ok(Some(Edit::DropItem { id })),
        Action::PutList => put_list(alloc, id, values.into_item()),
        Action::PutRule => put_rule(alloc, id, values),
        Action::DropList => Ok(Some(Edit::DropList { list: id })),
        Action::PutMember => {
            let (list, entry) = values.into_ids();
            Ok(member_edit(id, list, entry))
        }
        Action::DropMember => {
            let (list, _) = values.into_ids();
            Ok(drop_member(id, list))
        }
    }
}

fn put_item(alloc: Global, id: u32, item: Item) -> Result<Option<Edit>, AllocError>
    ensures { IfOk result (λ edit. edit
        ≡ Some (an_edit.PutItem (record { id = id; item = item }))) }
{
    let row = SharedRow::new(alloc, Row { id, item })?;
    Ok(Some(Edit::PutItem { row }))
}

fn put_list(alloc: Global, list: u32, item: Item) -> Result<Option<Edit>, AllocError>
    ensures { IfOk result (λ edit. edit ≡ Some (an_edit.PutList list (name_in item))) }
{
    let name = name_in(alloc, &item)?;
    Ok(Some(Edit::PutList { list, name }))
}

fn put_rule(alloc: Global, list: u32, values: Values) -> Result<Option<Edit>, AllocError>
    ensures { IfOk result (λ edit. edit ≡ edit_from Action.PutRule list values) }
{
    let Values { item, rule, .. } = values;
    let Some(rule) = rule else {
        return Ok(None);
    };
    let name = name_in(alloc, &item)?;
    Ok(Some(Edit::PutRule { list, name, rule }))
}

fn member_edit(member: u32, list: Option<u32>, entry: Option<u32>) -> Option<Edit>
    ensures { result ≡ member_edit member list entry }
{
    let list = list?;
    let item = entry?;
    Some(Edit::PutMember { list, member, item })
}

fn drop_member(member: u32, list: Option<u32>) -> Option<Edit>
    ensures { result ≡ option_map (λ list. an_edit.DropMember list member) list }
{
    let list = list?;
    Some(Edit::DropMember { list, member })
}

/// Returns the name among an item's properties, or an empty text.
fn name_in(alloc: Global, item: &Item) -> Result<Text, AllocError>
    ensures { IfOk result (λ name. name ≡ name_in item.now) }
{
    Text::of(alloc, text_in(item.get(Property::Minm)))
}

// Returns the text of a value, which is empty if the value is none.
fn text_in(value: Option<&PropValue>) -> &str
    ensures { result.now ≡ name_text (option_copied value.entry) }
{
    match value {
        Some(PropValue::Text(text)) => text.as_str(),
        _ => "",
    }
}
