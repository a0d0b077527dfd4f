//! A share of many songs and a thousand lists, which is edited and then asked for deltas.

ghost use Rattle.std.specs.Prelude.{◌≡◌, ◌<◌, IfOk, OnOk};
ghost use Rattle.share_listings.specs.Answers.{HaveEdits};

use crate::store::edits::{FIRST_LIST, Kind, LISTS, Series};
use crate::store::stores::{KEEP, Stores, apply_next, delta_len, no_stores};
use song_query::Steps;
use std::alloc::Global;
use std::sync::ledger::{Blank, Ledger};

/// The number of edits in each of the first batches.
const AT_ONCE: u32 = 1000;
/// The number of edits in each of the last batches before a step.
const FEW: u32 = 10;

/// Returns the revision after `batches` batches of `size` edits of `kind`.
pub fn revision_after<L: Ledger>(
    blank: Blank,
    alloc: Global,
    songs: u32,
    kind: Kind,
    batches: u32,
    size: u32,
) -> anyhow::Result<u64>
    requires name { blank.name ≡ L.name }
    requires parts { blank.parts ≡ L.parts }
    requires any { 0 < blank.parts }
{
    let mut steps = Steps::<L>::open(blank);
    let mut stores = settled(alloc, songs, &mut steps)?;
    let mut series = Series::new(kind, songs, songs.saturating_mul(2));
    edited(alloc, &mut stores, &mut series, batches, size, &mut steps)?;
    Ok(u64::from(stores.items.revision()))
}

/// Returns how many bytes the deltas of all lists have, planned `times` times.
pub fn deltas_len<L: Ledger>(
    blank: Blank,
    alloc: Global,
    songs: u32,
    times: u32,
) -> anyhow::Result<u64>
    requires name { blank.name ≡ L.name }
    requires parts { blank.parts ≡ L.parts }
    requires any { 0 < blank.parts }
{
    let mut steps = Steps::<L>::open(blank);
    let stores = settled(alloc, songs, &mut steps)?;
    bytes_of_deltas(alloc, &stores, times, &mut steps)
}

/// The same, of stores that are made.
fn bytes_of_deltas<L: Ledger>(
    alloc: Global,
    stores: &Stores,
    times: u32,
    steps: &mut Steps<L>,
) -> anyhow::Result<u64>
    requires { HaveEdits stores.now.edits stores.now.items stores.now.lists }
{
    let mut bytes = 0u64;
    for _ in 0..times {
        for list in 0..LISTS {
            let more = delta_len(alloc, stores, FIRST_LIST + list, steps)?;
            bytes = bytes.saturating_add(more);
        }
    }
    Ok(bytes)
}

/// Applies the next `batches` batches of `series`, of `size` edits each.
fn edited<L: Ledger>(
    alloc: Global,
    stores: &mut Stores,
    series: &mut Series,
    batches: u32,
    size: u32,
    steps: &mut Steps<L>,
) -> anyhow::Result<()>
    requires { HaveEdits stores.old.edits stores.old.items stores.old.lists }
    ensures { OnOk result (HaveEdits stores.new.edits stores.new.items stores.new.lists) }
{
    for _ in 0..batches {
        let batch = series.batch(alloc, size)?;
        apply_next(stores, batch.as_slice(), steps)?;
    }
    Ok(())
}

/// Returns the stores of a share of `songs` songs, each a member of a plain list.
fn settled<L: Ledger>(alloc: Global, songs: u32, steps: &mut Steps<L>) -> anyhow::Result<Stores>
    ensures { IfOk result (λ s. HaveEdits s.edits s.items s.lists) }
{
    let mut stores = no_stores(alloc);
    settle(alloc, songs, &mut stores, steps)?;
    Ok(stores)
}

/// Applies the batches of a share of `songs` songs. Small ones come last, so that only they are in the delta window: one
/// half of them puts members, and the other half songs.
fn settle<L: Ledger>(
    alloc: Global,
    songs: u32,
    stores: &mut Stores,
    steps: &mut Steps<L>,
) -> anyhow::Result<()>
    requires { HaveEdits stores.old.edits stores.old.items stores.old.lists }
    ensures { OnOk result (HaveEdits stores.new.edits stores.new.items stores.new.lists) }
{
    let size = songs.clamp(1, AT_ONCE);
    let batches = songs / size;
    let mut lists = Series::new(Kind::Lists, songs, 0);
    let mut put_songs = Series::new(Kind::Songs, songs, 0);
    let mut members = Series::new(Kind::Members, songs, 0);
    edited(alloc, stores, &mut lists, 1, LISTS, steps)?;
    edited(alloc, stores, &mut put_songs, batches, size, steps)?;
    edited(alloc, stores, &mut members, batches, size, steps)?;
    edited(alloc, stores, &mut members, KEEP, FEW, steps)?;
    edited(alloc, stores, &mut put_songs, KEEP / 2, FEW, steps)
}
