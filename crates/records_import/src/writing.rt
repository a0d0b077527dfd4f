//! Writes batches of edits as records.

ghost use Rattle.std.specs.Prelude.{◌≡◌, ◌++◌, ◌∷◌, [], IfOk, Ok, OnOk, IsUtf8, List, Some, ℕ, codes, decimal, if◌then◌else◌, map, option_copied, string_bytes};
ghost use Rattle.csv.specs.Records.{AllText, fields_of};
ghost use Rattle.csv.specs.Writing.{default_writer, row_text};
ghost use Rattle.item_model.specs.Proper.{IsProper};
ghost use Rattle.item_model.specs.QuerySeen.{tree_of};
ghost use Rattle.item_model.specs.Valid.{IsValid};
ghost use Rattle.records_import.specs.Actions.{is_item, is_list, is_name, is_rule};
ghost use Rattle.records_import.specs.Records.{BatchReads};
ghost use Rattle.records_import.specs.Table.{Cells, table_of, table_text};
ghost use Rattle.records_import.specs.Writing.{HasCells, HasWritten};
ghost use Rattle.records_import.specs.Written.{IsReadable, ReadsOnlyAs, column_name, property_cell, value_cell, written_cell, written_columns, written_id, written_kind, written_op, written_rows};
ghost use Rattle.song_query.specs.Printing.{printed};

use crate::header::Column;
use crate::table_text::{table_writer, write_row, written_text};
use csv::{ByteRecord, Writer};
use dmap_tags::Bytes;
use item_model::{Batch, Edit, Item, PROPERTIES, PropValue, Property, Query};
use song_query::print;
use std::alloc::{AllocError, Global};

/// Returns a batch as comma separated records, which read back as the batch. The header names all columns, even for a
/// batch without edits. Numbers are in plain decimal, and a rule is the shortest text of its query.
pub fn write_batch(alloc: Global, batch: &Batch) -> Result<Bytes, AllocError>
    requires { IsReadable batch.now }
    ensures text { IfOk result (λ b. b ≡ table_text (written_rows batch.now)) }
    ensures reads_back { IfOk result (λ b. BatchReads (table_of b) (Ok batch.now)) }
    ensures only { IfOk result (λ b. ReadsOnlyAs (table_of b) batch.now) }
{
    let mut writer = table_writer(alloc);
    write_edits(alloc, &mut writer, batch)?;
    Ok(Bytes::from(written_text(writer)?))
}

/// Writes the header and a record for each edit. After an error the writer must not be used again.
fn write_edits(alloc: Global, writer: &mut Writer<Vec<u8>>, batch: &Batch) -> Result<(), AllocError>
    requires { IsReadable batch.now }
    ensures written { HasWritten (λ v. Some v.items) writer.old []
        → OnOk result (HasWritten (λ v. Some v.items) writer.new
        (table_text (written_rows batch.now))) }
    ensures reads_back { OnOk result
        (BatchReads (table_of (table_text (written_rows batch.now))) (Ok batch.now)) }
{
    let columns = written_columns(alloc)?;
    write_header(alloc, writer, columns.as_slice())?;
    for edit in batch.edits.as_slice() {
        write_edit(alloc, writer, columns.as_slice(), edit)?;
    }
    Ok(())
}

fn write_header(
    alloc: Global,
    writer: &mut Writer<Vec<u8>>,
    columns: &[Column],
) -> Result<(), AllocError>
    ensures { (text : List ℕ) → HasWritten (λ v. Some v.items) writer.old text
        → OnOk result (HasWritten (λ v. Some v.items) writer.new (text ++ row_text default_writer (codes "op" ∷ codes "kind" ∷ codes "id" ∷ map column_name columns.now))) }
{
    let header = header_row(alloc, columns)?;
    write_row(writer, &header)
}

/// Writes the record of an edit.
fn write_edit(
    alloc: Global,
    writer: &mut Writer<Vec<u8>>,
    columns: &[Column],
    edit: &Edit,
) -> Result<(), AllocError>
    requires { IsValid edit.now }
    ensures written { (text : List ℕ) → HasWritten (λ v. Some v.items) writer.old text
        → OnOk result (HasWritten (λ v. Some v.items) writer.new (text ++ row_text default_writer (written_op edit.now ∷ written_kind edit.now ∷ decimal (written_id edit.now) ∷ map (written_cell edit.now) columns.now))) }
    ensures utf8 { OnOk result (AllText (map (written_cell edit.now) columns.now)) }
{
    let row = edit_row(alloc, columns, edit)?;
    write_row(writer, &row)
}

/// Returns the columns after the first three, in the order in which they are written.
fn written_columns(alloc: Global) -> Result<Vec<Column>, AllocError>
    ensures { IfOk result (λ columns. columns.items ≡ written_columns) }
{
    let mut columns = property_columns(alloc, &PROPERTIES)?;
    columns.push(Column::Query)?;
    columns.push(Column::List)?;
    columns.push(Column::Item)?;
    Ok(columns)
}

fn property_columns(alloc: Global, properties: &[Property]) -> Result<Vec<Column>, AllocError>
    ensures { IfOk result (λ columns. columns.items ≡ map (λ p. Column.Property p) properties.now) }
{
    let mut columns = Vec::new(alloc);
    for property in properties {
        columns.push(Column::Property(*property))?;
    }
    Ok(columns)
}

fn header_row(alloc: Global, columns: &[Column]) -> Result<ByteRecord, AllocError>
    ensures { IfOk result (λ row. fields_of row
        ≡ codes "op" ∷ codes "kind" ∷ codes "id" ∷ map column_name columns.now) }
{
    let mut row = first_cells(alloc, "op", "kind", "id")?;
    for column in columns {
        push_cell(&mut row, name_of(*column))?;
    }
    Ok(row)
}

/// Returns the record of an edit.
fn edit_row(alloc: Global, columns: &[Column], edit: &Edit) -> Result<ByteRecord, AllocError>
    requires { IsValid edit.now }
    ensures cells { IfOk result (λ row. fields_of row
        ≡ written_op edit.now ∷ written_kind edit.now ∷ decimal (written_id edit.now) ∷ map
        (written_cell edit.now) columns.now) }
    ensures utf8 { OnOk result (AllText (map (written_cell edit.now) columns.now)) }
{
    let mut row = edit_cells(alloc, edit)?;
    for column in columns {
        push_cell_of(alloc, &mut row, edit, *column)?;
    }
    Ok(row)
}

/// Returns the first three cells of an edit's record.
fn edit_cells(alloc: Global, edit: &Edit) -> Result<ByteRecord, AllocError>
    ensures { IfOk result (λ row. HasCells row
        (written_op edit.now ∷ written_kind edit.now ∷ decimal (written_id edit.now) ∷ [])) }
{
    let id = id_of(edit).to_string(alloc)?;
    first_cells(alloc, op_of(edit), kind_of(edit), id.as_str())
}

/// Appends an edit's cell in a column.
fn push_cell_of(
    alloc: Global,
    row: &mut ByteRecord,
    edit: &Edit,
    column: Column,
) -> Result<(), AllocError>
    requires { IsValid edit.now }
    ensures cells { (cells : Cells) → HasCells row.old cells
        → OnOk result (HasCells row.new (cells ++ written_cell edit.now column ∷ [])) }
    ensures utf8 { OnOk result (IsUtf8 (written_cell edit.now column)) }
{
    let cell = cell_of(alloc, edit, column)?;
    push_cell(row, cell.as_str())
}

fn first_cells(alloc: Global, op: &str, kind: &str, id: &str) -> Result<ByteRecord, AllocError>
    ensures { IfOk result (λ row. HasCells row (op.now ∷ kind.now ∷ id.now ∷ [])) }
{
    let mut row = ByteRecord::new(alloc);
    push_cell(&mut row, op)?;
    push_cell(&mut row, kind)?;
    push_cell(&mut row, id)?;
    Ok(row)
}

fn push_cell(row: &mut ByteRecord, cell: &str) -> Result<(), AllocError>
    ensures { (cells : Cells) → HasCells row.old cells
        → OnOk result (HasCells row.new (cells ++ cell.now ∷ [])) }
{
    row.push_field(cell.as_bytes())
}

fn op_of(edit: &Edit) -> &'static str
    ensures { result.now ≡ written_op edit.now }
{
    match edit {
        Edit::PutItem { .. }
        | Edit::PutList { .. }
        | Edit::PutRule { .. }
        | Edit::PutMember { .. } => "put",
        Edit::DropItem { .. } | Edit::DropList { .. } | Edit::DropMember { .. } => "drop",
    }
}

fn kind_of(edit: &Edit) -> &'static str
    ensures { result.now ≡ written_kind edit.now }
{
    match edit {
        Edit::PutItem { .. } | Edit::DropItem { .. } => "item",
        Edit::PutList { .. } | Edit::DropList { .. } => "list",
        Edit::PutRule { .. } => "rule",
        Edit::PutMember { .. } | Edit::DropMember { .. } => "member",
    }
}

/// Returns the id of what is put or dropped.
fn id_of(edit: &Edit) -> u32
    ensures { result ≡ written_id edit.now }
{
    match edit {
        Edit::PutItem { row } => row.row().id,
        Edit::DropItem { id } => *id,
        Edit::PutList { list, .. } => *list,
        Edit::PutRule { list, .. } => *list,
        Edit::DropList { list } => *list,
        Edit::PutMember { member, .. } => *member,
        Edit::DropMember { member, .. } => *member,
    }
}

/// Returns an edit's cell in a column.
fn cell_of(alloc: Global, edit: &Edit, column: Column) -> Result<String, AllocError>
    requires { IsValid edit.now }
    ensures { IfOk result (λ cell. string_bytes cell ≡ written_cell edit.now column) }
{
    match edit {
        Edit::PutItem { row } => property_cell(alloc, &row.row().item, column),
        Edit::DropItem { .. } => Ok(String::new(alloc)),
        Edit::PutList { name, .. } => name_cell(alloc, name.as_str(), column),
        Edit::PutRule { name, rule, .. } => rule_cell(alloc, name.as_str(), rule, column),
        Edit::DropList { .. } => Ok(String::new(alloc)),
        Edit::PutMember { list, item, .. } => member_cell(alloc, *list, *item, column),
        Edit::DropMember { list, .. } => list_cell(alloc, *list, column),
    }
}

/// Returns a property of an item as a cell.
fn property_cell(alloc: Global, item: &Item, column: Column) -> Result<String, AllocError>
    ensures { IfOk result (λ cell. string_bytes cell ≡ property_cell item.now column) }
{
    match column {
        Column::Property(property) => value_cell(alloc, item.get(property)),
        Column::Query | Column::List | Column::Item => Ok(String::new(alloc)),
    }
}

fn value_cell(alloc: Global, value: Option<&PropValue>) -> Result<String, AllocError>
    ensures { IfOk result (λ cell. string_bytes cell ≡ value_cell (option_copied value.entry)) }
{
    match value {
        Some(PropValue::Number(n)) => n.to_string(alloc),
        Some(PropValue::Text(text)) => String::from_str(alloc, text.as_str()),
        None => Ok(String::new(alloc)),
    }
}

/// Returns a playlist's cell in a column: its name, or an empty cell.
fn name_cell(alloc: Global, name: &str, column: Column) -> Result<String, AllocError>
    ensures { IfOk result (λ cell. string_bytes cell ≡ (if is_name column then name.now else [])) }
{
    if column.is_same(Column::Property(Property::Minm)) {
        return String::from_str(alloc, name);
    }
    Ok(String::new(alloc))
}

/// Returns a smart playlist's cell in a column: its name, its rule, or an empty cell.
fn rule_cell(alloc: Global, name: &str, rule: &Query, column: Column) -> Result<String, AllocError>
    requires { IsProper rule.now }
    ensures { IfOk result (λ cell. string_bytes cell
        ≡ (if is_name column then name.now else if is_rule column then printed (tree_of rule.now)
        else [])) }
{
    if column.is_same(Column::Property(Property::Minm)) {
        return String::from_str(alloc, name);
    }
    if column.is_same(Column::Query) {
        let text = print(alloc, rule)?;
        return String::from_str(alloc, text.as_str());
    }
    Ok(String::new(alloc))
}

/// Returns the cell of a member that is put: its list, its item, or an empty cell.
fn member_cell(alloc: Global, list: u32, item: u32, column: Column) -> Result<String, AllocError>
    ensures { IfOk result (λ cell. string_bytes cell
        ≡ (if is_list column then decimal list else if is_item column then decimal item else [])) }
{
    if column.is_same(Column::List) {
        return list.to_string(alloc);
    }
    if column.is_same(Column::Item) {
        return item.to_string(alloc);
    }
    Ok(String::new(alloc))
}

/// Returns the cell of a member that is dropped: its list, or an empty cell.
fn list_cell(alloc: Global, list: u32, column: Column) -> Result<String, AllocError>
    ensures { IfOk result (λ cell. string_bytes cell
        ≡ (if is_list column then decimal list else [])) }
{
    if column.is_same(Column::List) {
        return list.to_string(alloc);
    }
    Ok(String::new(alloc))
}

fn name_of(column: Column) -> &'static str
    ensures { result.now ≡ column_name column }
{
    match column {
        Column::Property(property) => property.name(),
        Column::Query => "query",
        Column::List => "list",
        Column::Item => "item",
    }
}
