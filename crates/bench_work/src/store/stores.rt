//! The stores of a share.

ghost use Rattle.std.specs.Prelude.{◌≡◌, ◌+◌, length, IfOk, OnOk};
ghost use Rattle.item_model.specs.Valid.{AreValid};
ghost use Rattle.share_listings.specs.Answers.{HaveEdits};

use anyhow::{bail, ensure};
use item_model::{Edit, Look, Meta, Range, Target};
use item_store::ItemStore;
use listing_plan::MAX_ROWS;
use playlist_store::PlaylistStore;
use share_listings::listing;
use song_query::Steps;
use std::alloc::Global;
use std::sync::ledger::Ledger;

/// The size of the delta window, in revisions.
pub const KEEP: u32 = 16;

/// A store of items and one of lists that applied the same batches.
#[derive(Drop)]
pub struct Stores {
    pub items: ItemStore,
    pub lists: PlaylistStore,
    /// The number of edits in these batches.
    pub edits: usize,
}

/// Returns stores that applied no batch.
#[tactic(auto, using(share_listings::proofs::Samples::none_in_both))]
pub fn no_stores(alloc: Global) -> Stores
    ensures { HaveEdits result.edits result.items result.lists }
{
    Stores {
        items: ItemStore::open(alloc, KEEP),
        lists: PlaylistStore::open(alloc, KEEP),
        edits: 0,
    }
}

fn edits_with(edits: usize, batch: &[Edit]) -> anyhow::Result<usize>
    ensures { IfOk result (λ sum. sum ≡ edits + length batch.now) }
{
    match edits.checked_add(batch.len()) {
        Some(sum) => Ok(sum),
        None => bail!("too many edits"),
    }
}

/// Applies a batch to both stores.
pub fn apply_next<L: Ledger>(
    stores: &mut Stores,
    batch: &[Edit],
    steps: &mut Steps<L>,
) -> anyhow::Result<()>
    requires few { HaveEdits stores.old.edits stores.old.items stores.old.lists }
    requires valid { AreValid batch.now }
    ensures { OnOk result (HaveEdits stores.new.edits stores.new.items stores.new.lists) }
{
    let Some(revision) = stores.items.revision().checked_add(1) else {
        bail!("too many batches");
    };
    let edits = edits_with(stores.edits, batch)?;
    stores.items.apply(batch, revision)?;
    stores.lists.apply(batch, revision, &stores.items, steps)?;
    stores.edits = edits;
    Ok(())
}

/// Returns how many bytes the delta of a list has, from the least base on.
#[tactic(auto, using(share_listings::proofs::Samples::still_few_in_both))]
pub fn delta_len<L: Ledger>(
    alloc: Global,
    stores: &Stores,
    list: u32,
    steps: &mut Steps<L>,
) -> anyhow::Result<u64>
    requires { HaveEdits stores.now.edits stores.now.items stores.now.lists }
{
    ensure!(stores.edits <= MAX_ROWS, "too many edits");
    let look = Look {
        query: None,
        meta: Meta::Default,
        base: stores.items.floor(),
        range: Range::All,
    };
    let target = Target::Container(list);
    let plan = listing(
        alloc,
        &stores.items,
        &stores.lists,
        target,
        look,
        None,
        steps,
    )?;
    Ok(plan.body_len())
}
