//! Opens a share with one batch.

ghost use Rattle.std.specs.Prelude.{◌≡◌, ◌<◌, IfOk};
ghost use Rattle.item_model.specs.Valid.{AreValid};
ghost use Rattle.item_store.specs.Stands.{StandsFor};
ghost use Rattle.playlist_store.specs.Stands as lists_stand;
ghost use Rattle.share_history.specs.Histories.{opening, batches};
ghost use Rattle.share_commands.specs.Openings.{HasOpened};

use edit_log::EditLog;
use item_model::{Batch, Edit, Entries, Entry};
use item_store::ItemStore;
use playlist_store::PlaylistStore;
use share_history::FIRST_REVISION;
use song_query::Steps;
use std::alloc::{AllocError, Global};
use std::marker::Brand;
use std::sync::ledger::{Blank, Ledger};

/// The delta window of the stores, in revisions: the least that they allow, because the share is listed once.
const KEEP: u32 = 1;

/// An open share: its history, and the items and lists after it.
#[derive(Drop)]
pub struct Opened {
    pub history: Entries,
    pub items: ItemStore,
    pub lists: PlaylistStore,
}

/// Opens a share with `batch`. An empty batch is not an entry of its history.
pub fn open(alloc: Global, batch: Batch) -> Result<Opened, AllocError>
    requires { AreValid batch }
    ensures { IfOk result (HasOpened batch) }
{
    let items = items_of(alloc, batch.edits.as_slice())?;
    let lists = lists_of(alloc, batch.edits.as_slice(), &items)?;
    let history = history_of(alloc, batch)?;
    Ok(Opened {
        history,
        items,
        lists,
    })
}

/// Returns the items of a share that is opened with `edits`.
fn items_of(alloc: Global, edits: &[Edit]) -> Result<ItemStore, AllocError>
    requires { AreValid edits.now }
    ensures stands { IfOk result (StandsFor (batches (opening edits.now))) }
    ensures keep { IfOk result (λ store. store.keep ≡ 1) }
{
    let mut store = ItemStore::open(alloc, KEEP);
    if !edits.is_empty() {
        store.apply(edits, FIRST_REVISION + 1)?;
    }
    Ok(store)
}

/// Returns its lists. The count of query evaluations is dropped.
fn lists_of(alloc: Global, edits: &[Edit], items: &ItemStore) -> Result<PlaylistStore, AllocError>
    requires valid { AreValid edits.now }
    requires items { StandsFor (batches (opening edits.now)) items.now }
    ensures stands { IfOk result (lists_stand.StandsFor (batches (opening edits.now))) }
    ensures keep { IfOk result (λ store. store.keep ≡ 1) }
{
    lists_by::<Brand>(Blank::new(1), alloc, edits, items)
}

fn lists_by<L: Ledger>(
    blank: Blank,
    alloc: Global,
    edits: &[Edit],
    items: &ItemStore,
) -> Result<PlaylistStore, AllocError>
    requires name { blank.name ≡ L.name }
    requires parts { blank.parts ≡ L.parts }
    requires any { 0 < blank.parts }
    requires valid { AreValid edits.now }
    requires items { StandsFor (batches (opening edits.now)) items.now }
    ensures stands { IfOk result (lists_stand.StandsFor (batches (opening edits.now))) }
    ensures keep { IfOk result (λ store. store.keep ≡ 1) }
{
    let mut store = PlaylistStore::open(alloc, KEEP);
    if edits.len() < 1 {
        return Ok(store);
    }
    let mut steps = Steps::<L>::open(blank);
    store.apply(edits, FIRST_REVISION + 1, items, &mut steps)?;
    Ok(store)
}

/// Returns the history of a share that is opened with `batch`.
fn history_of(alloc: Global, batch: Batch) -> Result<Entries, AllocError>
    ensures { IfOk result (λ history. history ≡ opening batch) }
{
    let mut log = EditLog::new(alloc);
    if !batch.edits.as_slice().is_empty() {
        log.reserve(1)?;
        log.append(Entry::Edits { by: 0, batch });
    }
    Ok(Entries::of(log.into_entries()))
}
