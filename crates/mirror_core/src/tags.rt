//! Single tags of a listing.

ghost use Rattle.std.specs.Prelude.{◌≡◌, option_copied};
ghost use Rattle.std.specs.List.{list_any};
ghost use Rattle.dmap_tags.specs.Codes.{is_code};
ghost use Rattle.mirror_core.specs.Bodies.{is_listings};
ghost use Rattle.mirror_core.specs.Reading.{number_in, mark_in, members_in, row_key, are_rows, are_keys, row_of, key_of};

use dmap_tags::{Code, Tag, Value};
use item_model::Target;
use share_history::key_code;

/// The codes of a listing's members.
const LISTING_CODES: [Code; 7] = [
    Code(*b"mstt"),
    Code(*b"muty"),
    Code(*b"musr"),
    Code(*b"mtco"),
    Code(*b"mrco"),
    Code(*b"mlcl"),
    Code(*b"mudl"),
];

// Returns whether the tag has one of the codes of a listing's members.
pub(crate) fn is_listings(tag: &Tag) -> bool
    ensures { result ≡ is_listings tag.now }
{
    is_one_of(tag.code, &LISTING_CODES)
}

fn is_one_of(code: Code, codes: &[Code]) -> bool
    ensures { result ≡ list_any (λ c. is_code c code) codes.now }
{
    for of in codes {
        if *of == code {
            return true;
        }
    }
    false
}

pub(crate) fn number_in(of: Code, tag: &Tag) -> Option<u32>
    ensures { result ≡ number_in of tag.now }
{
    match &tag.value {
        Value::U32(n) => { if tag.code == of { Some(*n) } else { None } }
        _ => None,
    }
}

// Returns whether the tag announces a delta; `None` if it is not such a tag.
pub(crate) fn mark_in(tag: &Tag) -> Option<bool>
    ensures { result ≡ mark_in tag.now }
{
    match &tag.value {
        Value::U8(n) => {
            if tag.code != Code(*b"muty") {
                return None;
            }
            match *n {
                0 => Some(false),
                1 => Some(true),
                _ => None,
            }
        }
        _ => None,
    }
}

#[tactic(auto, using(crate::proofs::TagFacts::listed_again))]
pub(crate) fn members_in(of: Code, tag: &Tag) -> Option<&[Tag]>
    ensures { option_copied result ≡ members_in of tag.now }
{
    match &tag.value {
        Value::List(members) => {
            if tag.code == of {
                Some(members.as_slice())
            } else {
                None
            }
        }
        _ => None,
    }
}

// Returns the key at the start of a row.
pub(crate) fn row_key(target: Target, tag: &Tag) -> Option<u32>
    ensures { result ≡ row_key target tag.now }
{
    match &tag.value {
        Value::List(members) => {
            if tag.code != Code(*b"mlit") {
                return None;
            }
            match members.as_slice() {
                [key, ..] => number_in(key_code(target), key),
                [] => None,
            }
        }
        _ => None,
    }
}

pub(crate) fn are_rows(target: Target, tags: &[Tag]) -> bool
    ensures { result ≡ are_rows target tags.now }
{
    for tag in tags {
        if row_key(target, tag).is_none() {
            return false;
        }
    }
    true
}

pub(crate) fn are_keys(target: Target, tags: &[Tag]) -> bool
    ensures { result ≡ are_keys target tags.now }
{
    for tag in tags {
        if number_in(key_code(target), tag).is_none() {
            return false;
        }
    }
    true
}

// Returns the key of a tag that is a row.
pub(crate) fn key_of_row(target: Target, tag: &Tag) -> u32
    ensures { (result, tag.now) ≡ row_of target tag.now }
{
    row_key(target, tag).unwrap_or(0)
}

/// Returns the key that the tag of a deleted row states, or 0 if it states none.
pub fn key_of(target: Target, tag: &Tag) -> u32
    ensures { result ≡ key_of target tag.now }
{
    number_in(key_code(target), tag).unwrap_or(0)
}
