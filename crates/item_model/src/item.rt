//! Items and rows.

ghost use Rattle.std.specs.Prelude.{◌≡◌, ◌↔◌, ◌<◌, [], OnOk, OnErr, IfOk, IfSome, MatchResult, option_copied, nat_lt, true, false, vec_len, vec_capacity};
ghost use Rattle.item_model.specs.Items.{is_item, is_value_of, numbers_of, is_text_of, value_of, with_value, AreTexts, IsText, Replaces, ComesIn};
ghost use Rattle.item_model.specs.Folds.{Serves, ServesIfAny, IsSoughtIfAny};

use crate::folds::{Sought, find_fold, fold_copies, fold_of, keep};
use crate::property::Property;
use dmap_tags::{Kind, Text};
use std::alloc::{AllocError, AllocFailed, Global};
use std::marker::Model;
use thiserror::Error;

/// The maximum length in bytes of the text of a property, or of the name of a list.
pub const TEXT_BYTES: usize = 255;

/// The value of a property.
#[derive(Debug, Drop)]
pub enum PropValue {
    Number(u64),
    Text(Text),
}

/// The properties that an item has, each with its value, and the folded texts that conditions compare.
#[derive(Debug)]
pub struct Item {
    entries: Vec<(Property, PropValue)>,
    // The folded texts, except those that lowering the text's ASCII letters yields.
    folds: Vec<(Property, Text)>,
}

impl Drop for Item {
    fn drop(self) {
        let Item {
            entries: _,
            folds: _,
        } = self;
    }
}

impl Model for Item {
    ghost use Rattle.std.specs.Prelude.{◌≡◌, List, true};
    ghost use Rattle.item_model.specs.declared.property.Property.{Property};
    ghost use Rattle.item_model.specs.declared.item.PropValue.{PropValue};

    ghost Value = { List (Property × PropValue) };

    ghost use Rattle.item_model.specs.Items.{AreTexts, is_item};
    ghost use Rattle.item_model.specs.Folds.{AreFolds};

    ghost view = { λ a. a.entries.items };

    ghost invariant = { λ a. (is_item a.entries.items ≡ true) × AreFolds a.entries.items a.folds.items × AreTexts a.entries.items };
}

/// An item with its id.
#[derive(Debug, Drop)]
pub struct Row {
    pub id: u32,
    pub item: Item,
}

/// Errors of `Item::put`.
#[derive(Debug, Drop, PartialEq, Eq, Error)]
pub enum ItemError {
    /// The value is not of the property's kind or range.
    #[error("range")]
    Range,
    #[error("memory")]
    Memory,
}

impl From<AllocError> for ItemError {
    ghost use Rattle.item_model.specs.declared.item.ItemError.TheVariants.{Memory};

    ghost from_gives = { λ _ e. e ≡ Memory };

    fn from(_error: AllocError) -> ItemError {
        ItemError::Memory
    }
}

impl<T: Drop> From<AllocFailed<T>> for ItemError {
    ghost use Rattle.item_model.specs.declared.item.ItemError.TheVariants.{Memory};

    ghost from_gives = { λ _ e. e ≡ Memory };

    fn from(_error: AllocFailed<T>) -> ItemError {
        ItemError::Memory
    }
}

impl PropValue {
    /// Returns whether the value is of the property's kind and range.
    pub fn is_value_of(&self, property: Property) -> bool
        ensures { result ≡ is_value_of property self.now }
    {
        match self {
            PropValue::Number(n) => is_number_of(property.kind(), *n),
            PropValue::Text(text) => is_text_of(property.kind(), text.as_str()),
        }
    }

    // Returns the folded text that an item stores with the value.
    fn fold(&self, alloc: Global) -> Result<Option<Text>, AllocError>
        ensures serves { IfOk result (λ kept. Serves kept self.now) }
        ensures text { IsText self.now }
    {
        match self {
            PropValue::Number(_) => Ok(None),
            PropValue::Text(text) => fold_of(alloc, text.as_str()),
        }
    }

    /// Returns a copy of the value.
    pub fn copy(&self) -> Result<PropValue, AllocError>
        ensures { IfOk result (λ v. v ≡ self.now) }
    {
        match self {
            PropValue::Number(n) => Ok(PropValue::Number(*n)),
            PropValue::Text(text) => Ok(PropValue::Text(text.copy()?)),
        }
    }
}

fn is_number_of(kind: Kind, n: u64) -> bool
    ensures { result ≡ nat_lt n (numbers_of kind) }
{
    match kind {
        Kind::U8 => n <= u64::from(u8::MAX),
        Kind::U16 => n <= u64::from(u16::MAX),
        Kind::U32 | Kind::Date => n <= u64::from(u32::MAX),
        Kind::U64 => true,
        _ => false,
    }
}

fn is_text_of(kind: Kind, text: &str) -> bool
    ensures { result ≡ is_text_of kind text.now }
{
    match kind {
        Kind::Text => 0 < text.len() && text.len() <= TEXT_BYTES,
        _ => false,
    }
}

impl Item {
    /// Returns an item without properties. Does not allocate.
    pub fn new(alloc: Global) -> Item
        ensures { result ≡ [] }
    {
        Item {
            entries: Vec::new(alloc),
            folds: Vec::new(alloc),
        }
    }

    /// Returns the value of the property.
    pub fn get(&self, property: Property) -> Option<&PropValue>
        ensures value { option_copied result ≡ value_of property self.now }
        ensures fits { IfSome result (λ v. is_value_of property v.now ≡ true) }
    {
        find_value(self.entries.as_slice(), property)
    }

    /// Returns the value that a condition compares. Does not allocate.
    pub fn sought(&self, property: Property) -> Option<Sought<'_>>
        ensures { IsSoughtIfAny (value_of property self.now) result }
    {
        match find_value(self.entries.as_slice(), property)? {
            PropValue::Number(n) => Some(Sought::Number(*n)),
            PropValue::Text(text) => match find_fold(self.folds.as_slice(), property) {
                Some(fold) => Some(Sought::Text(fold.as_str())),
                None => Some(Sought::Text(text.as_str())),
            },
        }
    }

    /// Returns the property's folded text if the item stores it: if lowering the ASCII letters of the text itself
    /// folds it, the item stores none.
    pub fn kept_fold(&self, property: Property) -> Option<&str>
        ensures { ServesIfAny (option_copied result) (value_of property self.now) }
    {
        match find_fold(self.folds.as_slice(), property) {
            Some(fold) => Some(fold.as_str()),
            None => None,
        }
    }

    /// Sets the property. Returns `Range` if the value is not of the property's kind and range, and `Memory` if an
    /// allocation fails. If it fails, the item is unchanged.
    pub fn put(&mut self, property: Property, value: PropValue) -> Result<(), ItemError>
        ensures put { OnOk result (self.new ≡ with_value property value self.old) }
        ensures range { (result ≡ Err ItemError.Range) ↔ (is_value_of property value ≡ false) }
        ensures unchanged { OnErr result (self.new ≡ self.old) }
    {
        if !value.is_value_of(property) {
            return Err(ItemError::Range);
        }
        let fold = value.fold(*self.entries.allocator())?;
        self.entries.reserve(1)?;
        keep(&mut self.folds, property, fold)?;
        set(&mut self.entries, property, value);
        Ok(())
    }

    /// Ensures what every item has: its properties are in order, each once, with a value of its kind and range, and its
    /// texts are UTF-8. The body is empty.
    pub fn is_whole(&self)
        ensures item { is_item self.now ≡ true }
        ensures texts { AreTexts self.now }
    {
        let _ = &self.entries;
    }

    /// Frees spare capacity.
    pub(crate) fn shrink(&mut self)
        ensures { self.new ≡ self.old }
    {
        self.entries.shrink_to_fit();
        self.folds.shrink_to_fit();
    }

    /// Returns a copy of the item.
    pub fn copy(&self) -> Result<Item, AllocError>
        ensures { IfOk result (λ item. item ≡ self.now) }
    {
        let alloc = *self.entries.allocator();
        let entries = copies(alloc, self.entries.as_slice())?;
        let folds = fold_copies(alloc, self.folds.as_slice())?;
        Ok(Item { entries, folds })
    }
}

impl Row {
    /// Returns a copy of the row.
    pub fn copy(&self) -> Result<Row, AllocError>
        ensures { IfOk result (λ row. row ≡ self.now) }
    {
        Ok(Row {
            id: self.id,
            item: self.item.copy()?,
        })
    }
}

fn find_value(entries: &[(Property, PropValue)], property: Property) -> Option<&PropValue>
    ensures { option_copied result ≡ value_of property entries.now }
{
    for entry in entries {
        if entry.0.rank() == property.rank() {
            return Some(&entry.1);
        }
    }
    None
}

// Returns the index of the property's entry, or as `Err` the index at which to insert it.
fn place_of(entries: &[(Property, PropValue)], property: Property) -> Result<usize, usize>
    ensures { MatchResult result (Replaces property entries.now) (ComesIn property entries.now) }
{
    for (i, entry) in entries.iter().enumerate() {
        let rank = entry.0.rank();
        if rank == property.rank() {
            return Ok(i);
        }
        if property.rank() < rank {
            return Err(i);
        }
    }
    Err(entries.len())
}

// Requires capacity for one more entry.
fn set(entries: &mut Vec<(Property, PropValue)>, property: Property, value: PropValue)
    requires { vec_len entries.old < vec_capacity entries.old }
    ensures { entries.new.items ≡ with_value property value entries.old.items }
{
    match place_of(entries.as_slice(), property) {
        Ok(place) => entries[place] = (property, value),
        Err(place) => {
            let _ = entries.insert(place, (property, value));
        }
    }
}

fn copies(
    alloc: Global,
    entries: &[(Property, PropValue)],
) -> Result<Vec<(Property, PropValue)>, AllocError>
    ensures { IfOk result (λ v. v.items ≡ entries.now) }
{
    let mut copies = Vec::with_capacity(alloc, entries.len())?;
    for entry in entries {
        copies.push((entry.0, entry.1.copy()?))?;
    }
    Ok(copies)
}
