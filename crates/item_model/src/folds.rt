//! Folded texts, which conditions compare.

ghost use Rattle.std.specs.Prelude.{◌≡◌, ◌<◌, ℕ, Option, None, Some, map, filter, not, if◌then◌else◌, OnOk, OnErr, IfOk, option_copied, string_bytes, vec_len, vec_capacity, ◌≤◌};
ghost use Rattle.item_model.specs.declared.property.Property.{Property};
ghost use Rattle.item_model.specs.Properties.{is_same};
ghost use Rattle.item_model.specs.Folding.{folded};
ghost use Rattle.item_model.specs.Folds.{kept_for, IsKeptFor};

use crate::property::Property;
use caseless::default_case_fold_str;
use dmap_tags::Text;
use std::alloc::{AllocError, Global};

/// The value of a property that a condition compares.
#[derive(Clone, Copy)]
pub enum Sought<'a> {
    Number(u64),
    /// A text that equals the property's folded text after its ASCII letters are lowered.
    Text(&'a str),
}

/// Returns the text folded by Unicode's full default case folding, as conditions compare it.
#[tactic(auto, unfolding(crate::specs::Folding::folded))]
pub fn folded(alloc: Global, text: &str) -> Result<String, AllocError>
    ensures { IfOk result (λ b. string_bytes b ≡ folded text.now) }
{
    default_case_fold_str(alloc, text)
}

// Returns the folded text to store with `text`, or `None` if lowering the ASCII letters of `text` folds it.
pub(crate) fn fold_of(alloc: Global, text: &str) -> Result<Option<Text>, AllocError>
    ensures { IfOk result (IsKeptFor text.now) }
{
    if text.is_ascii() {
        return Ok(None);
    }
    let folded = folded(alloc, text)?;
    if folded.as_str().eq_ignore_ascii_case(text) {
        return Ok(None);
    }
    Ok(Some(Text::of(alloc, folded.as_str())?))
}

// Returns the folded texts, in order.
pub(crate) fn folds_of(alloc: Global, texts: &[Text]) -> Result<Vec<Text>, AllocError>
    ensures { IfOk result (λ v. v.items ≡ map folded texts.now) }
{
    let mut folds = Vec::with_capacity(alloc, texts.len())?;
    for text in texts {
        let folded = folded(alloc, text.as_str())?;
        folds.push(Text::of(alloc, folded.as_str())?)?;
    }
    Ok(folds)
}

pub(crate) fn find_fold(folds: &[(Property, Text)], property: Property) -> Option<&Text>
    ensures { option_copied result ≡ kept_for property folds.now }
{
    for fold in folds {
        if fold.0.rank() == property.rank() {
            return Some(&fold.1);
        }
    }
    None
}

// Stores the folded text of the property, or removes it if `fold` is `None`.
pub(crate) fn keep(
    folds: &mut Vec<(Property, Text)>,
    property: Property,
    fold: Option<Text>,
) -> Result<(), AllocError>
    ensures kept { OnOk result ((q : Property)
        → kept_for q folds.new.items
        ≡ (if is_same property q then fold else kept_for q folds.old.items)) }
    ensures unchanged { OnErr result (folds.new.items ≡ folds.old.items) }
{
    let Some(fold) = fold else {
        forget(folds, property);
        return Ok(());
    };
    folds.reserve(1)?;
    forget(folds, property);
    folds.push_reserved((property, fold));
    Ok(())
}

fn forget(folds: &mut Vec<(Property, Text)>, property: Property)
    ensures others { folds.new.items
        ≡ filter (λ fold. not (is_same fold.0 property)) folds.old.items }
    ensures len { vec_len folds.new ≤ vec_len folds.old }
    ensures capacity { vec_capacity folds.new ≡ vec_capacity folds.old }
{
    folds.retain(|fold| fold.0.rank() != property.rank());
}

pub(crate) fn fold_copies(
    alloc: Global,
    folds: &[(Property, Text)],
) -> Result<Vec<(Property, Text)>, AllocError>
    ensures { IfOk result (λ v. v.items ≡ folds.now) }
{
    let mut copies = Vec::with_capacity(alloc, folds.len())?;
    for fold in folds {
        copies.push((fold.0, fold.1.copy()?))?;
    }
    Ok(copies)
}
