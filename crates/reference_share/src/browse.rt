//! Browse listings.

ghost use Rattle.std.specs.Prelude.{◌≡◌, ◌<◌, ◌^◌, ◌∷◌, [], IfOk, OnOk, map, fold, filter, length, option_copied};
ghost use Rattle.std.specs.Ordering.{nat_cmp};
ghost use Rattle.std.specs.Cmp.Lexicographic.{slice_cmp};
ghost use Rattle.std.specs.BTreeSet.{insert_key};
ghost use Rattle.item_model.specs.Items.{value_of};
ghost use Rattle.share_history.specs.Histories.{batches, revision, all_edits};
ghost use Rattle.share_history.specs.BrowseListings.{browsed, text_in, is_filled, browse_values, value_tag, browse_body};
ghost use Rattle.share_history.specs.RowSeen.{text_at};

use crate::databases::whole_body;
use crate::revisions::revision;
use crate::selection::rows;
use dmap_tags::{Code, Tag, Tags, Text, Value};
use item_model::{Browse, Entry, PropValue, Query, Row, Target};
use share_history::{browse_code, browsed};
use std::alloc::{AllocError, Global};
use std::collections::BTreeSet;

fn text_of(row: &Row, browse: Browse) -> &str
    ensures { result.now ≡ text_in (value_of (browsed browse) row.now.item) }
{
    match row.item.get(browsed(browse)) {
        Some(PropValue::Text(text)) => text.as_str(),
        _ => "",
    }
}

fn is_filled(text: &str) -> bool
    ensures { result ≡ is_filled text.now }
{
    !text.is_empty()
}

// Inserts the text unless it is empty.
fn put_text<'a>(texts: &mut BTreeSet<&'a str>, text: &'a str) -> Result<(), AllocError>
    ensures { OnOk result (map text_at texts.new.keys
        ≡ fold (insert_key (slice_cmp nat_cmp)) (map text_at texts.old.keys)
        (filter is_filled (text.now ∷ []))) }
{
    if is_filled(text) {
        texts.insert(text)?;
    }
    Ok(())
}

/// Returns the values of a property, each once, in the order of their bytes.
#[tactic(auto, using(crate::proofs::TextFacts::texts_left))]
pub fn browse_values<'a>(
    alloc: Global,
    history: &'a [Entry],
    browse: Browse,
    query: Option<&Query>,
) -> Result<BTreeSet<&'a str>, AllocError>
    ensures { IfOk result (λ texts. map text_at texts.keys
        ≡ browse_values (all_edits history.now) browse (option_copied query.entry)) }
{
    let found = rows(alloc, history, Target::Items, query)?;
    let mut texts = BTreeSet::new(alloc);
    for row in &found {
        put_text(&mut texts, text_of(row.1, browse))?;
    }
    Ok(texts)
}

fn value_tag(alloc: Global, text: &str) -> Result<Tag, AllocError>
    ensures { IfOk result (λ tag. tag ≡ value_tag text.now) }
{
    Ok(Tag {
        code: Code(*b"mlit"),
        value: Value::Text(Text::of(alloc, text)?),
    })
}

fn value_tags(alloc: Global, texts: &BTreeSet<&str>) -> Result<Tags, AllocError>
    ensures { IfOk result (λ tags. tags ≡ map value_tag (map text_at texts.now.keys)) }
{
    let mut tags = Tags::new(alloc);
    for text in texts {
        tags.push(value_tag(alloc, text)?)?;
    }
    Ok(tags)
}

/// Returns the body of a browse listing.
pub fn browse_body(
    alloc: Global,
    history: &[Entry],
    browse: Browse,
    query: Option<&Query>,
) -> Result<Tag, AllocError>
    requires revision { revision (batches history.now) < 2 ^ 32 }
    requires edits { length (all_edits history.now) < 2 ^ 32 }
    ensures { IfOk result (λ tag. tag
        ≡ browse_body history.now browse (option_copied query.entry)) }
{
    let texts = browse_values(alloc, history, browse, query)?;
    let entries = value_tags(alloc, &texts)?;
    let of = Code(*b"abro");
    whole_body(alloc, of, browse_code(browse), revision(history), entries)
}
