// The values in the cells of a record.

ghost use Rattle.std.specs.Prelude.{◌≡◌, ◌≢◌, ◌<◌, ◌^◌, Some, None, Ok, Err, true, false, IfOk, MatchResult, option_map, if◌then◌else◌};
ghost use Rattle.std.specs.Str.{is_utf8};
ghost use Rattle.records_import.specs.Actions.{uses};
ghost use Rattle.records_import.specs.Number.{cell_number};
ghost use Rattle.records_import.specs.Records.{with_cell};
ghost use Rattle.records_import.specs.Values.{RuleFlaw, by_kind, id_in, is_empty, needed_id, number_from, property_flaw, property_in, text_in};
ghost use Rattle.records_import.specs.Rules.{RuleReads};
ghost use Rattle.records_import.specs.Walk.{CellTaken, ForCause, UsedTaken, no_values};

use crate::action::Action;
use crate::header::Column;
use crate::number::read_cell;
use crate::rule::read_rule;
use dmap_tags::{Kind, Text};
use item_model::{Item, ItemError, PropValue, Property, Query, QueryError, RecordWhy, TEXT_BYTES};
use std::alloc::{AllocError, Global};
use std::str::from_utf8;

/// Errors of a cell.
#[derive(Drop)]
pub enum CellError {
    Refused(RecordWhy),
    Memory,
}

impl From<AllocError> for CellError {
    ghost use Rattle.std.specs.Prelude.{◌≡◌};
    ghost use Rattle.records_import.specs.declared.values.CellError.TheVariants.{Memory};

    ghost from_gives = { λ _ e. e ≡ Memory };

    fn from(_error: AllocError) -> CellError {
        CellError::Memory
    }
}

impl From<RecordWhy> for CellError {
    ghost use Rattle.std.specs.Prelude.{◌≡◌};
    ghost use Rattle.records_import.specs.declared.values.CellError.TheVariants.{Refused};

    ghost from_gives = { λ why e. e ≡ Refused why };

    fn from(why: RecordWhy) -> CellError {
        CellError::Refused(why)
    }
}

/// The values for a record's edit from its cells so far.
#[derive(Drop)]
pub struct Values {
    pub item: Item,
    pub rule: Option<Query>,
    /// The id of a list.
    pub list: Option<u32>,
    /// The id of a member's item.
    pub entry: Option<u32>,
}

impl Values {
    pub fn new(alloc: Global) -> Values
        ensures { result ≡ no_values }
    {
        Values {
            item: Item::new(alloc),
            rule: None,
            list: None,
            entry: None,
        }
    }

    /// Applies a cell of a record with this action.
    pub fn take(
        &mut self,
        alloc: Global,
        action: Action,
        column: Column,
        cell: &[u8],
    ) -> Result<(), CellError>
        ensures { CellTaken action column cell.now self.old self.new result }
    {
        if action.uses(column) {
            return self.take_used(alloc, column, cell);
        }
        if !cell.is_empty() {
            return Err(CellError::Refused(RecordWhy::Extra));
        }
        Ok(())
    }

    /// Returns the item.
    pub fn into_item(self) -> Item
        ensures { result ≡ self.item }
    {
        self.item
    }

    /// Returns the ids of the list and of the member's item.
    pub fn into_ids(self) -> (Option<u32>, Option<u32>)
        ensures { result ≡ (self.list, self.entry) }
    {
        (self.list, self.entry)
    }

    fn take_used(&mut self, alloc: Global, column: Column, cell: &[u8]) -> Result<(), CellError>
        ensures { UsedTaken column cell.now self.old self.new result }
    {
        match column {
            Column::Property(property) => put_property(alloc, &mut self.item, property, cell),
            Column::Query => {
                self.rule = Some(rule_value(alloc, cell)?);
                Ok(())
            }
            Column::List => {
                self.list = Some(needed_id(cell, 2)?);
                Ok(())
            }
            Column::Item => {
                self.entry = Some(needed_id(cell, 1)?);
                Ok(())
            }
        }
    }
}

/// Sets the property in a cell, or nothing if the cell is empty.
fn put_property(
    alloc: Global,
    item: &mut Item,
    property: Property,
    cell: &[u8],
) -> Result<(), CellError>
    ensures { MatchResult result (λ _. (property_flaw property cell.now ≡ None)
        × (item.new ≡ with_cell (Column.Property property) cell.now item.old))
        (λ e. ForCause e (λ why. property_flaw property cell.now ≡ Some why)) }
{
    if cell.is_empty() {
        return Ok(());
    }
    let value = property_value(alloc, property, cell)?;
    match item.put(property, value) {
        Ok(()) => Ok(()),
        Err(ItemError::Range) => Err(CellError::Memory),
        Err(ItemError::Memory) => Err(CellError::Memory),
    }
}

/// Returns the value of a property in a cell that is not empty.
fn property_value(alloc: Global, property: Property, cell: &[u8]) -> Result<PropValue, CellError>
    ensures { MatchResult result (λ value. property_in property cell.now ≡ Ok value)
        (λ e. ForCause e (λ why. property_in property cell.now ≡ Err why)) }
{
    match property.kind() {
        Kind::Text => text_value(alloc, cell),
        _ => Ok(number_value(property, cell)?),
    }
}

fn text_value(alloc: Global, cell: &[u8]) -> Result<PropValue, CellError>
    ensures { MatchResult result (λ value. text_in cell.now ≡ Ok value)
        (λ e. ForCause e (λ why. text_in cell.now ≡ Err why)) }
{
    let Some(text) = text_of(cell) else {
        return Err(CellError::Refused(RecordWhy::Text));
    };
    if text.len() > TEXT_BYTES {
        return Err(CellError::Refused(RecordWhy::Text));
    }
    Ok(PropValue::Text(Text::of(alloc, text)?))
}

fn number_value(property: Property, cell: &[u8]) -> Result<PropValue, RecordWhy>
    ensures { result ≡ number_from property (cell_number cell.now) }
{
    let Some(number) = read_cell(cell) else {
        return Err(RecordWhy::Number);
    };
    let Ok(number) = u64::try_from(number) else {
        return Err(RecordWhy::Range);
    };
    let value = PropValue::Number(number);
    if !value.is_value_of(property) {
        return Err(RecordWhy::Range);
    }
    Ok(value)
}

/// Returns the bytes as a text, if they are UTF-8.
fn text_of(bytes: &[u8]) -> Option<&str>
    ensures { option_map (λ text. text.now) result
        ≡ (if is_utf8 bytes.now then Some bytes.now else None) }
{
    match from_utf8(bytes) {
        Ok(text) => Some(text),
        Err(_) => None,
    }
}

fn rule_value(alloc: Global, cell: &[u8]) -> Result<Query, CellError>
    ensures { MatchResult result (λ rule. RuleFlaw cell.now None × RuleReads cell.now (Ok rule))
        (λ e. ForCause e (λ why. RuleFlaw cell.now (Some why))) }
{
    if cell.is_empty() {
        return Err(CellError::Refused(RecordWhy::Missing));
    }
    let Some(text) = text_of(cell) else {
        return Err(CellError::Refused(RecordWhy::Text));
    };
    match read_rule(alloc, text) {
        Ok(rule) => Ok(rule),
        Err(QueryError::Memory) => Err(CellError::Memory),
        Err(error) => Err(CellError::Refused(RecordWhy::Query(error))),
    }
}

/// Returns the id in a cell that the record needs.
fn needed_id(cell: &[u8], least: u32) -> Result<u32, RecordWhy>
    ensures { result ≡ needed_id least cell.now }
{
    if cell.is_empty() {
        return Err(RecordWhy::Missing);
    }
    read_id(cell, least)
}

/// Returns the id in a cell, which is at least `least`.
pub fn read_id(cell: &[u8], least: u32) -> Result<u32, RecordWhy>
    ensures { result ≡ id_in least cell.now }
{
    let Some(number) = read_cell(cell) else {
        return Err(RecordWhy::Number);
    };
    let Ok(id) = u32::try_from(number) else {
        return Err(RecordWhy::Range);
    };
    if id < least {
        return Err(RecordWhy::Range);
    }
    Ok(id)
}
