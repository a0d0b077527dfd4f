// The header of records: the content of each column.

ghost use Rattle.std.specs.Prelude.{◌≡◌, ◌≢◌, [], drop, Ok, Err, MatchResult};
ghost use Rattle.std.specs.List.{find};
ghost use Rattle.std.specs.Str.{bytes_eq};
ghost use Rattle.csv.specs.Records.{fields_of};
ghost use Rattle.item_model.specs.Properties.{property_name, property_named};
ghost use Rattle.records_import.specs.Columns.{column_named, columns_of, has_column, header_of, is_same_column, unless_known};

use crate::refusal::RecordError;
use crate::table::{cell, width};
use csv::ByteRecord;
use item_model::{PROPERTIES, Property};
use std::alloc::Global;

/// The number of columns before those whose names the header chooses.
pub const FIRST_COLUMNS: usize = 3;

/// The content of a further column.
#[derive(Clone, Copy, PartialEq, Eq)]
pub enum Column {
    Property(Property),
    Query,
    List,
    Item,
}

/// The columns after the first three, in order.
#[derive(Drop)]
pub struct Header {
    pub columns: Vec<Column>,
}

impl Column {
    /// Returns the column with the name.
    pub fn from_name(name: &[u8]) -> Option<Column>
        ensures { result ≡ column_named name.now }
    {
        if name == b"query".as_slice() {
            return Some(Column::Query);
        }
        if name == b"list".as_slice() {
            return Some(Column::List);
        }
        if name == b"item".as_slice() {
            return Some(Column::Item);
        }
        match property_named(name) {
            Some(property) => Some(Column::Property(property)),
            None => None,
        }
    }

    /// Returns whether both columns have the same content.
    pub fn is_same(self, other: Column) -> bool
        ensures { result ≡ is_same_column self other }
    {
        match self {
            Column::Property(p) => other.is_property(p),
            Column::Query => matches!(&other, Column::Query),
            Column::List => matches!(&other, Column::List),
            Column::Item => matches!(&other, Column::Item),
        }
    }

    fn is_property(self, property: Property) -> bool
        ensures { result ≡ is_same_column (Column.Property property) self }
    {
        match self {
            Column::Property(p) => property.rank() == p.rank(),
            _ => false,
        }
    }
}

/// Parses the header, the first row.
pub fn read_header(alloc: Global, cells: &ByteRecord) -> Result<Header, RecordError>
    ensures { MatchResult result
        (λ header. header_of (fields_of cells.now) ≡ Ok header.columns.items)
        (λ e. e ≢ RecordError.Memory → header_of (fields_of cells.now) ≡ Err e) }
{
    if cell(cells, 0) != b"op".as_slice() {
        return Err(RecordError::Header { column: 1 });
    }
    if cell(cells, 1) != b"kind".as_slice() {
        return Err(RecordError::Header { column: 2 });
    }
    if cell(cells, 2) != b"id".as_slice() {
        return Err(RecordError::Header { column: 3 });
    }
    let columns = further_columns(alloc, cells)?;
    Ok(Header { columns })
}

fn further_columns(alloc: Global, cells: &ByteRecord) -> Result<Vec<Column>, RecordError>
    ensures { MatchResult result
        (λ columns. columns_of 4 [] (drop 3 (fields_of cells.now)) ≡ Ok columns.items)
        (λ e. e ≢ RecordError.Memory → columns_of 4 [] (drop 3 (fields_of cells.now)) ≡ Err e) }
{
    let mut columns = Vec::new(alloc);
    'names: for place in FIRST_COLUMNS..width(cells) {
        match new_column(columns.as_slice(), cell(cells, place)) {
            Some(column) => columns.push(column)?,
            None => {
                return Err(RecordError::Header {
                    column: place as u64 + 1,
                });
            }
        }
    }
    Ok(columns)
}

/// Returns the column with the name, unless it is among `known`.
fn new_column(known: &[Column], name: &[u8]) -> Option<Column>
    ensures { result ≡ unless_known known.now (column_named name.now) }
{
    match Column::from_name(name) {
        Some(column) => {
            if is_among(column, known) {
                return None;
            }
            Some(column)
        }
        None => None,
    }
}

fn is_among(column: Column, columns: &[Column]) -> bool
    ensures { result ≡ has_column column columns.now }
{
    columns.iter().any(|other| column.is_same(*other))
}

#[tactic(auto, unfolding(item_model::specs::Properties::property_named))]
fn property_named(name: &[u8]) -> Option<Property>
    ensures { result ≡ property_named name.now }
{
    first_named(&PROPERTIES, name)
}

fn first_named(properties: &[Property], name: &[u8]) -> Option<Property>
    ensures { result ≡ find (λ p. bytes_eq (property_name p) name.now) properties.now }
{
    properties
        .iter()
        .copied()
        .find(|p| p.name().as_bytes() == name)
}
