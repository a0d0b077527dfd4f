//! Browse listings: the values of a property. The index has those of the whole library. With a query, they are read
//! from the rows of the items that match.

ghost use Rattle.std.specs.Prelude.{◌≡◌, ◌≤◌, ◌+◌, ◌++◌, ◌∷◌, [], ℕ, List, Option, Some, None, map, fold, filter, length, option_copied, option_map, IfOk, IfSome, OnOk};
ghost use Rattle.std.specs.Ordering.{nat_cmp};
ghost use Rattle.std.specs.Cmp.Lexicographic.{slice_cmp};
ghost use Rattle.std.specs.BTreeSet.{insert_key};
ghost use Rattle.item_model.specs.declared.changes.Edit.{Edit};
ghost use Rattle.item_model.specs.declared.changes.Entry.{Entry};
ghost use Rattle.item_model.specs.declared.request.Target.TheVariants.{Items};
ghost use Rattle.item_store.specs.Stands.{StandsFor};
ghost use Rattle.share_history.specs.BrowseListings.{browse_body, browse_values, value_tag, is_filled, sorted_texts};
ghost use Rattle.share_history.specs.Histories.{all_edits, edits};
ghost use Rattle.share_history.specs.RowSeen.{text_at};
ghost use Rattle.share_history.specs.Rows.{is_selected};
ghost use Rattle.share_listings.specs.Answers.{AreCandidates, looked_at};
ghost use Rattle.share_replies.specs.Replies.{Tagged};
ghost use Rattle.share_core.specs.Contents.{IsContent};
ghost use Rattle.share_core.specs.Held.{AreHeld};
ghost use Rattle.share_core.specs.Ticks.{starts, value_ticks};
ghost use Rattle.share_core.specs.ValuesAt.{values_at};

use crate::answer::ReplyContent;
use crate::listings::candidates;
use crate::stores::Stores;
use crate::tags::whole;
use crate::texts::{is_filled, text_of};
use dmap_tags::{Code, Tag, Tags, Text, Value};
use item_model::{Browse, Query};
use item_store::ItemStore;
use share_history::browse_code;
use song_query::{Steps, matches};
use std::alloc::{AllocError, Global};
use std::collections::BTreeSet;
use std::sync::ledger::Ledger;

/// Returns the listing of the values that a property has in the items that match `query`; without a query, in all
/// items.
pub(crate) fn browse<L: Ledger>(
    alloc: Global,
    stores: &Stores,
    by: Browse,
    query: Option<&Query>,
    steps: &mut Steps<L>,
) -> Result<ReplyContent, AllocError>
    requires held { (h : List Entry) × AreHeld h stores.now }
    ensures content { IfOk result (λ content. (h : List Entry) → AreHeld h stores.now
        → IsContent (200, Tagged (browse_body h by (option_copied query.entry))) content) }
    ensures cost { (h : List Entry) → AreHeld h stores.now
        → steps.new ≤ steps.old + value_ticks (all_edits h) (option_copied query.entry) }
{
    let entries = entries(alloc, stores, by, query, steps)?;
    let revision = stores.items.revision();
    whole(alloc, Code(*b"abro"), browse_code(by), revision, entries)
}

fn entries<L: Ledger>(
    alloc: Global,
    stores: &Stores,
    by: Browse,
    query: Option<&Query>,
    steps: &mut Steps<L>,
) -> Result<Tags, AllocError>
    ensures tags { IfOk result (λ tags. (h : List Entry) → AreHeld h stores.now
        → tags ≡ map value_tag (browse_values (all_edits h) by (option_copied query.entry))) }
    ensures cost { (h : List Entry) → AreHeld h stores.now
        → steps.new ≤ steps.old + value_ticks (all_edits h) (option_copied query.entry) }
{
    match query {
        Some(query) => asked_entries(alloc, stores, by, query, steps),
        None => all_entries(alloc, stores, by),
    }
}

fn all_entries(alloc: Global, stores: &Stores, by: Browse) -> Result<Tags, AllocError>
    ensures { IfOk result (λ tags. (h : List Entry) → AreHeld h stores.now
        → tags ≡ map value_tag (browse_values (all_edits h) by None)) }
{
    let texts = stores.index.values(by)?;
    text_tags(alloc, texts.as_slice())
}

#[tactic(auto, using(share_history::proofs::FoldFacts::shown_next))]
fn text_tags(alloc: Global, texts: &[Text]) -> Result<Tags, AllocError>
    ensures { IfOk result (λ tags. tags ≡ map value_tag texts.now) }
{
    let mut tags = Tags::new(alloc);
    for text in texts {
        push_value(&mut tags, alloc, text.as_str())?;
    }
    Ok(tags)
}

fn push_value(tags: &mut Tags, alloc: Global, text: &str) -> Result<(), AllocError>
    ensures { OnOk result (tags.new ≡ tags.old ++ value_tag text.now ∷ []) }
{
    tags.push(value_tag(alloc, text)?)
}

fn value_tag(alloc: Global, text: &str) -> Result<Tag, AllocError>
    ensures { IfOk result (λ tag. tag ≡ value_tag text.now) }
{
    Ok(Tag {
        code: Code(*b"mlit"),
        value: Value::Text(Text::of(alloc, text)?),
    })
}

fn asked_entries<L: Ledger>(
    alloc: Global,
    stores: &Stores,
    by: Browse,
    query: &Query,
    steps: &mut Steps<L>,
) -> Result<Tags, AllocError>
    ensures tags { IfOk result (λ tags. (h : List Entry) → AreHeld h stores.now
        → tags ≡ map value_tag (browse_values (all_edits h) by (Some query.now))) }
    ensures cost { (h : List Entry) → AreHeld h stores.now
        → steps.new ≤ steps.old + value_ticks (all_edits h) (Some query.now) }
{
    let ids = ids_to_look_at(stores, query)?;
    let texts = asked_texts(alloc, &stores.items, ids.as_slice(), by, query, steps)?;
    set_tags(alloc, &texts)
}

fn set_tags(alloc: Global, texts: &BTreeSet<&str>) -> Result<Tags, AllocError>
    ensures { IfOk result (λ tags. tags ≡ map value_tag (map text_at texts.now.keys)) }
{
    let mut tags = Tags::new(alloc);
    for text in texts {
        push_value(&mut tags, alloc, text)?;
    }
    Ok(tags)
}

// Returns the candidates of the query if the index has some; otherwise the ids of all items.
fn ids_to_look_at(stores: &Stores, query: &Query) -> Result<Vec<u32>, AllocError>
    ensures start { IfOk result (λ ids. (h : List Entry) → AreHeld h stores.now
        → AreCandidates (all_edits h) (Some query.now) ids.items) }
    ensures few { IfOk result (λ ids. (h : List Entry) → AreHeld h stores.now
        → length ids.items ≡ value_ticks (all_edits h) (Some query.now)) }
{
    match candidates(stores, Some(query))? {
        Some(ids) => Ok(ids),
        None => stores.items.ids(),
    }
}

// Returns the texts of the items `ids` that exist and match the query.
#[tactic(auto, using(crate::proofs::ValuesAt::values_left))]
fn asked_texts<'a, L: Ledger>(
    alloc: Global,
    items: &'a ItemStore,
    ids: &[u32],
    by: Browse,
    query: &Query,
    steps: &mut Steps<L>,
) -> Result<BTreeSet<&'a str>, AllocError>
    ensures texts { IfOk result (λ texts. (bs : List (List Edit)) → StandsFor bs items.now
        → map text_at texts.keys ≡ sorted_texts (filter is_filled (values_at (edits bs) by query.now ids.now))) }
    ensures cost { steps.new ≤ steps.old + length ids.now }
{
    let mut texts = BTreeSet::new(alloc);
    for id in ids {
        put_asked(&mut texts, items, *id, by, query, steps)?;
    }
    Ok(texts)
}

fn put_asked<'a, L: Ledger>(
    texts: &mut BTreeSet<&'a str>,
    items: &'a ItemStore,
    id: u32,
    by: Browse,
    query: &Query,
    steps: &mut Steps<L>,
) -> Result<(), AllocError>
    ensures texts { OnOk result ((bs : List (List Edit)) → StandsFor bs items.now
        → map text_at texts.new.keys ≡ fold (insert_key (slice_cmp nat_cmp)) (map text_at texts.old.keys) (filter is_filled (values_at (edits bs) by query.now (id ∷ [])))) }
    ensures cost { steps.new ≤ steps.old + 1 }
{
    match items.get(id) {
        Some(row) if matches(query, row, steps) => put_text(texts, text_of(row, by)),
        _ => Ok(()),
    }
}

// Adds a text unless it is empty or already in the set.
fn put_text<'a>(texts: &mut BTreeSet<&'a str>, text: &'a str) -> Result<(), AllocError>
    ensures { OnOk result (map text_at texts.new.keys
        ≡ fold (insert_key (slice_cmp nat_cmp)) (map text_at texts.old.keys)
        (filter is_filled (text.now ∷ []))) }
{
    if is_filled(text) {
        texts.insert(text)?;
    }
    Ok(())
}
