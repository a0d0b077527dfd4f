//! A relay's library.

ghost use Rattle.std.specs.Prelude.{◌≡◌, [], ℕ, None, Some, Err, IfOk, OnOk, OnErr, All, fold, length, map};
ghost use Rattle.item_model.specs.Valid.{AreValid};
ghost use Rattle.share_history.specs.Keyed.{IsAscending};
ghost use Rattle.share_history.specs.Mirror.{Held, mirror_after};
ghost use Rattle.mirror_core.specs.Bodies.{IsRow};
ghost use Rattle.mirror_core.specs.Reading.{listing_of};
ghost use Rattle.mirror_core.specs.ToldSeen.{told_of};
ghost use Rattle.relayed_rows.specs.Libraries.{IsLibrary};
ghost use Rattle.relayed_rows.specs.Differences.{gone_ids, new_rows, difference, drops_and_puts};
ghost use Rattle.relayed_rows.specs.Relays.{relaying_at, first_unread};
ghost use Rattle.relayed_rows.specs.Changes.{rows_in, dropped_ids, made, AreSound};

use crate::changes::{Changes, Rows, changes};
use crate::edits::{dropped_ids, drops_and_puts, fresh_rows, new_rows};
use crate::puts::{put_fresh, put_over, take_out};
use crate::untaken::Untaken;
use item_model::{Batch, Target};
use mirror_core::ToldRef;
use std::alloc::{AllocError, Global};
use std::collections::BTreeMap;
use std::marker::Model;

/// The library in the listings of a share, one after another, and the revision of the last one. The rows are shared
/// with the batches that put them, so that each text is in memory once.
pub struct Relay {
    alloc: Global,
    revision: u32,
    rows: Rows,
}

impl Drop for Relay {
    fn drop(self) {
        let Relay {
            alloc: _,
            revision: _,
            rows: _,
        } = self;
    }
}

impl Model for Relay {
    ghost use Rattle.relayed_rows.specs.Relays.{Relaying};

    ghost Value = { Relaying };

    ghost view = { λ a. record { revision = a.revision; library = a.rows.entries } };

    ghost use Rattle.relayed_rows.specs.Libraries.{IsLibrary};

    ghost invariant = { λ a. IsLibrary a.rows.entries };
}

/// What a listing changed in a relay's library.
#[derive(Drop)]
pub struct Change {
    /// The edits from the library before to the one after. Empty if the two are equal.
    pub batch: Batch,
    /// How many of the edits put a row.
    pub puts: u32,
    /// How many of the edits drop one.
    pub drops: u32,
}

impl Relay {
    /// Returns a relay that holds nothing. Does not allocate.
    pub fn new(alloc: Global) -> Relay
        ensures { result ≡ record { revision = 0; library = [] } }
    {
        Relay {
            alloc,
            revision: 0,
            rows: BTreeMap::new(alloc),
        }
    }

    /// Returns the revision of the last listing, 0 before the first.
    pub fn base(&self) -> u32
        ensures { result ≡ self.now.revision }
    {
        self.revision
    }

    /// Applies a listing, and returns the batch of edits from the library before to the one after. The cost grows
    /// with the listing: a delta does not visit held rows that do not change.
    ///
    /// # Errors
    ///
    /// Returns `Row` if a listed tag states no row, and `Memory` if allocation fails. The relay is then unchanged.
    pub fn take(&mut self, told: ToldRef<'_>) -> Result<Change, Untaken>
        ensures taken { OnOk result ((held : Held) → IsAscending held.rows
            → self.old ≡ relaying_at held
            → All (IsRow Target.Items) (listing_of Target.Items (told_of told.entry)).rows
            → self.new ≡ relaying_at (mirror_after held (listing_of Target.Items (told_of told.entry)))) }
        ensures changed { IfOk result
            (λ change. change.batch ≡ difference self.old.library self.new.library) }
        ensures counted { IfOk result
            (λ change. (change.drops ≡ length (gone_ids self.old.library self.new.library))
            × (change.puts ≡ length (new_rows self.old.library self.new.library))) }
        ensures valid { IfOk result (λ change. AreValid change.batch) }
        ensures read { OnOk result (first_unread (listing_of Target.Items (told_of told.entry))
            ≡ None) }
        ensures unread { (index : ℕ) → (result ≡ Err (Untaken.Row index))
            → first_unread (listing_of Target.Items (told_of told.entry)) ≡ Some index }
        ensures library { IsLibrary self.new.library }
        ensures unchanged { OnErr result (self.new ≡ self.old) }
    {
        let changes = match changes(self.alloc, &self.rows, told) {
            Ok(changes) => changes,
            Err(error) => return Err(error),
        };
        let change = match make(self.alloc, &mut self.rows, &changes) {
            Ok(change) => change,
            Err(_) => return Err(Untaken::Memory),
        };
        self.revision = told.revision;
        Ok(change)
    }
}

// Makes the changes to held rows. After an `Err` they are as before.
fn make(alloc: Global, held: &mut Rows, changes: &Changes) -> Result<Change, AllocError>
    requires { AreSound held.old.entries changes.now.entries }
    ensures made { OnOk result (held.new.entries ≡ made held.old.entries changes.now.entries) }
    ensures batch { IfOk result (λ change. change.batch
        ≡ drops_and_puts (dropped_ids held.old.entries changes.now.entries)
        (new_rows held.old.entries (rows_in changes.now.entries))) }
    ensures counted { IfOk result
        (λ change. (change.drops ≡ length (dropped_ids held.old.entries changes.now.entries))
        × (change.puts ≡ length (new_rows held.old.entries (rows_in changes.now.entries)))) }
    ensures unchanged { OnErr result (held.new.entries ≡ held.old.entries) }
{
    let ids = dropped_ids(alloc, held, changes)?;
    let rows = new_rows(alloc, held, changes)?;
    let fresh = fresh_rows(alloc, held, rows.as_slice())?;
    let edits = drops_and_puts(alloc, ids.as_slice(), rows.as_slice())?;
    put_fresh(held, fresh.as_slice())?;
    let change = Change {
        batch: Batch { edits },
        puts: rows.len() as u32,
        drops: ids.len() as u32,
    };
    put_over(held, rows);
    take_out(held, ids.as_slice());
    Ok(change)
}
