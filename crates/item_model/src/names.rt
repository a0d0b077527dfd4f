//! The texts of the `meta` parameter.

ghost use Rattle.std.specs.Prelude.{◌≡◌, ◌+◌, ◌++◌, ◌<◌, ◌∷◌, ◌↔◌, ℕ, List, Some, None, OnOk, IfOk, IfSome, option_copied, count_by, ◌==◌, not, nat_le, length, string_bytes};
ghost use Rattle.item_model.specs.Properties.{property_named};
ghost use Rattle.item_model.specs.Limits.{names_limit};
ghost use Rattle.item_model.specs.Names.{meta_of, asked_by, meta_text, names_text, named, parts, parts_behind, with_known};

use crate::properties::Properties;
use crate::property::{Property, property_of_name};
use crate::request::{META_NAMES, Meta};
use crate::shown::mentions;
use dmap_tags::Text;
use std::alloc::{AllocError, AllocFailed, Global};
use thiserror::Error;

/// Errors of `Meta::read`.
#[derive(Debug, Drop, PartialEq, Eq, Error)]
pub enum MetaError {
    /// The text has more than 256 names, known or not.
    #[error("too many names")]
    TooMany,
    #[error("memory")]
    Memory,
}

impl From<AllocError> for MetaError {
    ghost use Rattle.item_model.specs.declared.names.MetaError.TheVariants.{Memory};

    ghost from_gives = { λ _ e. e ≡ Memory };

    fn from(_error: AllocError) -> MetaError {
        MetaError::Memory
    }
}

impl Meta {
    /// Parses a `meta` parameter: the empty text, `all`, or names with commas between them (DAAP).
    pub fn read(alloc: Global, text: &str) -> Result<Meta, MetaError>
        ensures read { IfOk result (λ meta. meta_of text.now ≡ Some meta) }
        ensures too_many { (result ≡ Err MetaError.TooMany) ↔ (meta_of text.now ≡ None) }
    {
        if has_too_many(text.as_bytes()) {
            return Err(MetaError::TooMany);
        }
        Ok(read_asked(alloc, text)?)
    }

    /// Returns a text that requests these properties. If no property is named, it is a single comma.
    pub fn print(&self, alloc: Global) -> Result<Text, AllocError>
        ensures printed { IfOk result (λ text. text ≡ meta_text self.now) }
        ensures reads_back { IfOk result (λ printed. (text : List ℕ) → meta_of text ≡ Some self.now
            → meta_of printed ≡ Some self.now) }
    {
        match self {
            Meta::Default => Text::of(alloc, ""),
            Meta::All => Text::of(alloc, "all"),
            Meta::Names(properties) => print_names(alloc, properties.as_slice()),
        }
    }
}

fn has_too_many(text: &[u8]) -> bool
    ensures { result ≡ not (nat_le (length (parts text.now)) names_limit) }
{
    META_NAMES <= commas(text)
}

fn read_asked(alloc: Global, text: &str) -> Result<Meta, AllocError>
    ensures { IfOk result (λ meta. meta ≡ asked_by text.now) }
{
    if text.is_empty() {
        return Ok(Meta::Default);
    }
    if text == "all" {
        return Ok(Meta::All);
    }
    Ok(Meta::Names(read_names(alloc, text.as_bytes())?))
}

fn commas(text: &[u8]) -> usize
    ensures { result ≡ count_by (λ byte. byte == 44) text.now }
{
    text.iter().filter(|byte| **byte == b',').count()
}

fn read_names(alloc: Global, text: &[u8]) -> Result<Properties, AllocError>
    ensures { IfOk result (λ properties. properties ≡ named (parts text.now)) }
{
    let mut properties = Properties::new(alloc);
    let mut rest = Some(text);
    while let Some(names) = rest {
        let (name, behind) = first_part(names);
        push_name(&mut properties, name)?;
        rest = behind;
    }
    Ok(properties)
}

/// Returns the part before the first comma, and the text after that comma if there is one.
pub fn first_part(text: &[u8]) -> (&[u8], Option<&[u8]>)
    ensures parts { parts text.now ≡ result.0.now ∷ parts_behind (option_copied result.1) }
    ensures shorter { IfSome result.1 (λ rest. length rest.now < length text.now) }
{
    for (i, byte) in text.iter().enumerate() {
        if *byte == b',' {
            let (part, _) = text.split_at(i);
            let (_, rest) = text.split_at(i + 1);
            return (part, Some(rest));
        }
    }
    (text, None)
}

fn push_name(properties: &mut Properties, name: &[u8]) -> Result<(), AllocError>
    ensures { OnOk result (properties.new ≡ with_known properties.old (property_named name.now)) }
{
    let Some(property) = property_of_name(name) else {
        return Ok(());
    };
    if mentions(properties.as_slice(), property) {
        return Ok(());
    }
    properties.push(property)
}

fn print_names(alloc: Global, properties: &[Property]) -> Result<Text, AllocError>
    ensures { IfOk result (λ text. text ≡ names_text properties.now) }
{
    let [first, others @ ..] = properties else {
        return Text::of(alloc, ",");
    };
    let mut text = String::from_str(alloc, first.name())?;
    for property in others {
        text.push_str(",")?;
        text.push_str(property.name())?;
    }
    Text::of(alloc, text.as_str())
}
