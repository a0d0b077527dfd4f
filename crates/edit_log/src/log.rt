ghost use Rattle.std.specs.Prelude.{◌≡◌, ◌≤◌, ◌<◌, ◌+◌, ◌^◌, ◌++◌, ◌∷◌, [], length, OnOk, OnErr, IsOk, slice_get, option_copied};
ghost use Rattle.share_history.specs.Histories.{batches, revision};

use item_model::Entry;
use share_history::{FIRST_REVISION, revision_after};
use std::alloc::{AllocError, Global};
use std::marker::Model;

/// The entries of a history, oldest first, with spare capacity.
pub struct EditLog {
    entries: Vec<Entry>,
    revision: u32,
}

impl Drop for EditLog {
    fn drop(self) {
        let EditLog {
            entries: _,
            revision: _,
        } = self;
    }
}

impl Model for EditLog {
    ghost use Rattle.std.specs.Prelude.{◌≡◌, ◌-◌, vec_len, vec_capacity};
    ghost use Rattle.std.specs.Coded.{codes};
    ghost use Rattle.item_model.specs.QueryCells.{query_coded};
    ghost use Rattle.share_history.specs.Histories.{batches, revision as revision_of};
    ghost use Rattle.edit_log.specs.Log.{Log};

    ghost Value = { Log };

    ghost coded = { Prim.hlevel (codes, query_coded) };

    ghost view = { λ a. record { entries = a.entries.items; spare = vec_capacity a.entries - vec_len a.entries } };

    ghost invariant = { λ a. a.revision ≡ revision_of (batches a.entries.items) };
}

impl EditLog {
    /// Returns a log without entries. Does not allocate.
    pub fn new(alloc: Global) -> EditLog
        ensures { result.entries ≡ [] }
    {
        EditLog {
            entries: Vec::new(alloc),
            revision: FIRST_REVISION,
        }
    }

    /// Reserves capacity for `entries` more. Spare capacity never shrinks.
    /// Returns `AllocError` if allocation fails; the log is then unchanged.
    pub fn reserve(&mut self, entries: u64) -> Result<(), AllocError>
        ensures list { self.new.entries ≡ self.old.entries }
        ensures room { OnOk result (entries ≤ self.new.spare) }
        ensures kept { self.old.spare ≤ self.new.spare }
        ensures had_room { entries ≤ self.old.spare → IsOk result }
        ensures unchanged { OnErr result (self.new ≡ self.old) }
    {
        self.entries.reserve(entries as usize)
    }

    /// Appends `entry`. Does not allocate.
    #[tactic(auto, using(crate::proofs::LogFacts::revision_more))]
    pub fn append(&mut self, entry: Entry)
        requires room { 1 ≤ self.old.spare }
        requires few { revision (batches (self.old.entries ++ entry ∷ [])) < 2 ^ 32 }
        ensures list { self.new.entries ≡ self.old.entries ++ entry ∷ [] }
        ensures room { self.old.spare ≤ self.new.spare + 1 }
    {
        self.revision = revision_after(self.revision, &entry);
        self.entries.push_reserved(entry);
    }

    /// Returns the number of entries.
    pub fn len(&self) -> u64
        ensures count { result ≡ length self.now.entries }
        ensures small { result < 2 ^ 63 }
    {
        self.entries.len() as u64
    }

    /// Returns how many entries can be appended without a further `reserve`.
    pub fn spare(&self) -> u64
        ensures { result ≡ self.now.spare }
    {
        (self.entries.capacity() - self.entries.len()) as u64
    }

    /// Returns the revision after all entries.
    pub fn revision(&self) -> u32
        ensures { result ≡ revision (batches self.now.entries) }
    {
        self.revision
    }

    /// Returns entry `n`, counted from 0, or `None` past the last.
    pub fn entry(&self, n: u64) -> Option<&Entry>
        ensures { option_copied result ≡ slice_get self.now.entries n }
    {
        self.entries.get(n as usize)
    }

    /// Returns the entries as a vector. Does not allocate.
    pub fn into_entries(self) -> Vec<Entry>
        ensures { result.items ≡ self.entries }
    {
        let EditLog {
            entries,
            revision: _,
        } = self;
        entries
    }
}
