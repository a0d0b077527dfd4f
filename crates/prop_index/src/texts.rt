//! Ids by text.

ghost use Rattle.std.specs.Prelude.{◌≡◌, ◌==◌, ◌||◌, ◌&&◌, not, ℕ, List, [], true, false, None, OnOk, OnErr, IfOk, map, string_bytes};
ghost use Rattle.std.specs.BTreeMap.{get_by_text, keys, IsOrdered};
ghost use Rattle.std.specs.String.{string_cmp};
ghost use Rattle.share_history.specs.Keyed.{AreAscending};
ghost use Rattle.share_history.specs.BrowseListings.{is_filled};
ghost use Rattle.prop_index.specs.IdSets.{has, is_nil, is_unused};

use dmap_tags::Text;
use item_model::Texts;
use std::alloc::{AllocError, Global};
use std::collections::{BTreeMap, BTreeSet};

/// The ids that stand under each text. A look-up costs by the length of the text, a logarithm and its answer.
#[derive(Drop)]
pub(crate) struct TextIds {
    ids: BTreeMap<String, BTreeSet<u32>>,
    ghost used: { (text : List ℕ) → is_unused (get_by_text ids text) ≡ false },
}

impl TextIds {
    ghost use Rattle.prop_index.specs.Ids.{ids_under, IsSame, Puts, Takes, Settles};

    pub(crate) fn new(alloc: Global) -> TextIds
        ensures { (text : List ℕ) → ids_under result text ≡ [] }
    {
        TextIds {
            ids: BTreeMap::new(alloc),
        }
    }

    /// Puts the id under the text, unless that is empty. An `Err` changes nothing.
    pub(crate) fn put(&mut self, alloc: Global, text: &str, id: u32) -> Result<(), AllocError>
        ensures ok { OnOk result (Puts text.now id self.old self.new) }
        ensures err { OnErr result (IsSame self.old self.new) }
    {
        if !is_filled(text) {
            return Ok(());
        }
        match self.ids.get_mut(text) {
            Some(ids) => add(ids, id),
            None => self.put_first(alloc, text, id),
        }
    }

    // Puts the first id under a text.
    fn put_first(&mut self, alloc: Global, text: &str, id: u32) -> Result<(), AllocError>
        requires filled { is_filled text.now ≡ true }
        requires free { get_by_text self.old.ids text.now ≡ None }
        ensures ok { OnOk result (Puts text.now id self.old self.new) }
        ensures err { OnErr result (IsSame self.old self.new) }
    {
        let mut ids = BTreeSet::new(alloc);
        add(&mut ids, id)?;
        self.ids.insert(String::from_str(alloc, text)?, ids)?;
        Ok(())
    }

    /// Takes the id away from under the text, without memory.
    pub(crate) fn take(&mut self, text: &str, id: u32)
        ensures { Takes text.now id self.old self.new }
    {
        let Some(ids) = self.ids.get_mut(text) else {
            return;
        };
        if is_last(ids, id) {
            self.ids.remove(text);
        }
    }

    /// Takes the id away from under a text that it is no longer found by, without memory.
    pub(crate) fn settle(&mut self, kept: &str, gone: &str, id: u32)
        ensures { Settles kept.now gone.now id self.old self.new }
    {
        if kept != gone {
            self.take(gone, id);
        }
    }

    /// The ids under the text, ascending.
    pub(crate) fn ids(&self, alloc: Global, text: &str) -> Result<Vec<u32>, AllocError>
        ensures ids { IfOk result (λ ids. ids.items ≡ ids_under self.now text.now) }
        ensures ascending { AreAscending (ids_under self.now text.now) }
    {
        match self.ids.get(text) {
            Some(ids) => collected(alloc, ids),
            None => Ok(Vec::new(alloc)),
        }
    }

    /// The texts under which ids stand, in the order of their bytes.
    pub(crate) fn texts(&self, alloc: Global) -> Result<Texts, AllocError>
        ensures texts { IfOk result (λ texts. texts ≡ map string_bytes (keys self.now.ids)) }
        ensures ascending { IsOrdered string_cmp self.now.ids }
    {
        let mut texts = Texts::new(alloc);
        for text in self.ids.keys() {
            texts.push(Text::of(alloc, text.as_str())?)?;
        }
        Ok(texts)
    }
}

fn is_filled(text: &str) -> bool
    ensures { result ≡ is_filled text.now }
{
    !text.is_empty()
}

// Adds an id. An `Err` changes nothing.
fn add(ids: &mut BTreeSet<u32>, id: u32) -> Result<(), AllocError>
    ensures ok { OnOk result ((q : ℕ) → has q ids.new.keys ≡ (has q ids.old.keys || (q == id))) }
    ensures err { OnErr result (ids.new.keys ≡ ids.old.keys) }
    ensures some { OnOk result (is_nil ids.new.keys ≡ false) }
    ensures none_lost { is_nil ids.old.keys ≡ false → is_nil ids.new.keys ≡ false }
{
    ids.insert(id)?;
    Ok(())
}

// Takes an id away, and answers whether none is left.
fn is_last(ids: &mut BTreeSet<u32>, id: u32) -> bool
    ensures taken { (q : ℕ) → has q ids.new.keys ≡ (has q ids.old.keys && not (q == id)) }
    ensures none { result ≡ is_nil ids.new.keys }
{
    ids.remove(&id);
    ids.is_empty()
}

fn collected(alloc: Global, ids: &BTreeSet<u32>) -> Result<Vec<u32>, AllocError>
    ensures all { IfOk result (λ all. all.items ≡ ids.now.keys) }
    ensures ascending { AreAscending ids.now.keys }
{
    let mut all = Vec::with_capacity(alloc, ids.len())?;
    for id in ids {
        all.push(*id)?;
    }
    Ok(all)
}
