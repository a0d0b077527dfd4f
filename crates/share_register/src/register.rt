ghost use Rattle.std.specs.Prelude.{◌≡◌, ◌≤◌, ◌<◌, ◌+◌, ◌++◌, ◌∷◌, [], ℕ, true, false, length, count_by, is_some, IfOk, IfSome, IfErr, OnOk, OnErr, IsOk, slice_get, option_copied};
ghost use Rattle.share_history.specs.Histories.{all_edits, batches, opening, revision};
ghost use Rattle.share_history.specs.Keyed.{at};
ghost use Rattle.share_history.specs.Limits.{is_below_entry_limit, has_room_for, is_limited};
ghost use Rattle.share_history.specs.Marks.{marks_after, until_login};
ghost use Rattle.share_history.specs.Numbers.{most_edits};
ghost use Rattle.share_history.specs.Sessions.{is_live, is_stopped, next_session};

use edit_log::EditLog;
use item_model::{Batch, Entry};
use share_history::{LIVE_SESSIONS, MAX_EDITS, MAX_ENTRIES};
use std::alloc::{AllocError, Global};
use std::collections::BTreeMap;
use std::marker::Model;

// Appends `first` to an empty log, unless it has no edits. Returns how many entries count for the limit, 0 or 1.
fn begin(log: &mut EditLog, first: Batch) -> u32
    requires empty { log.old.entries ≡ [] }
    requires room { 2 ≤ log.old.spare }
    ensures history { log.new.entries ≡ opening first }
    ensures room { 1 ≤ log.new.spare }
    ensures limited { result ≡ count_by is_limited log.new.entries }
{
    if first.edits.as_slice().is_empty() {
        return 0;
    }
    log.append(Entry::Edits {
        by: 0,
        batch: first,
    });
    1
}

/// The history of a share, the last-answered lengths of its live sessions, and counts.
pub struct Register {
    log: EditLog,
    limited_entries: u32,
    edits: u32,
    logins: u32,
    is_stopped: bool,
    marks: BTreeMap<u32, u64>,
}

impl Drop for Register {
    fn drop(self) {
        let Register {
            log: _,
            limited_entries: _,
            edits: _,
            logins: _,
            is_stopped: _,
            marks: _,
        } = self;
    }
}

impl Model for Register {
    ghost use Rattle.std.specs.Coded.{codes};
    ghost use Rattle.item_model.specs.QueryCells.{query_coded};
    ghost use Rattle.share_register.specs.Registers.{Register};
    ghost use Rattle.share_register.specs.Counts.{IsSound};

    ghost Value = { Register };

    ghost coded = { Prim.hlevel (codes, query_coded) };

    ghost view = { λ a. record { history = a.log.entries; marks = a.marks.entries; spare = a.log.spare } };

    ghost invariant = { λ a. IsSound a.log.entries a.limited_entries a.edits a.logins a.is_stopped a.marks.entries a.log.spare };
}

impl Register {
    /// Returns a register whose history is `first` by handle 0, or empty if `first` has no edits.
    /// Returns `AllocError` if allocation fails.
    pub fn open(alloc: Global, first: Batch) -> Result<Register, AllocError>
        requires few { length first ≤ most_edits }
        ensures history { IfOk result (λ r. r.history ≡ opening first) }
        ensures marks { IfOk result (λ r. r.marks ≡ []) }
    {
        let mut log = EditLog::new(alloc);
        log.reserve(2)?;
        let edits = first.edits.as_slice().len();
        let limited_entries = begin(&mut log, first);
        Ok(Register {
            log,
            limited_entries,
            edits: edits as u32,
            logins: 0,
            is_stopped: false,
            marks: BTreeMap::new(alloc),
        })
    }

    /// Reserves capacity for one entry of edits, besides the logouts and the stop.
    /// Returns `AllocError` if allocation fails.
    pub fn reserve(&mut self) -> Result<(), AllocError>
        ensures history { self.new.history ≡ self.old.history }
        ensures marks { self.new.marks ≡ self.old.marks }
        ensures room { OnOk result (length self.new.marks + 2 ≤ self.new.spare) }
    {
        self.log.reserve(self.marks.len() as u64 + 2)
    }

    /// Logs a new session in and returns its id. The session of 64 logins before ends.
    /// Returns `AllocError` if allocation fails; history and last-answered lengths are then unchanged.
    pub fn login(&mut self, by: u32) -> Result<u32, AllocError>
        requires going { is_stopped self.old.history ≡ false }
        requires below { is_below_entry_limit self.old.history ≡ true }
        ensures id { IfOk result (λ id. id ≡ next_session self.old.history) }
        ensures history { OnOk result
            (self.new.history ≡ self.old.history ++ Entry.Login by (next_session self.old.history)
            ∷ []) }
        ensures marks { OnOk result (self.new.marks
            ≡ marks_after self.new.history (next_session self.old.history) self.old.marks) }
        ensures unchanged { OnErr result ((self.new.history ≡ self.old.history)
            × (self.new.marks ≡ self.old.marks)) }
    {
        let id = self.logins + 1;
        let point = self.log.len() + 1;
        self.log.reserve(self.marks.len() as u64 + 3)?;
        self.marks.insert(id, point)?;
        self.marks.remove(&id.saturating_sub(LIVE_SESSIONS));
        self.log.append(Entry::Login { by, id });
        self.logins = id;
        self.limited_entries += 1;
        Ok(id)
    }

    /// Logs the live session `id` out. Does not allocate.
    pub fn logout(&mut self, by: u32, id: u32)
        requires going { is_stopped self.old.history ≡ false }
        requires live { is_live self.old.history id ≡ true }
        ensures history { self.new.history ≡ self.old.history ++ Entry.Logout by id ∷ [] }
        ensures marks { self.new.marks ≡ marks_after self.new.history id self.old.marks }
    {
        self.marks.remove(&id);
        self.log.append(Entry::Logout { by, id });
    }

    /// Appends a batch in capacity reserved before. No last-answered length changes.
    pub fn edit(&mut self, by: u32, batch: Batch)
        requires going { is_stopped self.old.history ≡ false }
        requires below { is_below_entry_limit self.old.history ≡ true }
        requires few { has_room_for self.old.history (length batch) ≡ true }
        requires room { length self.old.marks + 2 ≤ self.old.spare }
        ensures history { self.new.history ≡ self.old.history ++ Entry.Edits by batch ∷ [] }
        ensures marks { self.new.marks ≡ self.old.marks }
    {
        let count = batch.edits.as_slice().len();
        self.log.append(Entry::Edits { by, batch });
        self.edits += count as u32;
        self.limited_entries += 1;
    }

    /// Stops the share. Does not allocate. No last-answered length changes.
    pub fn stop(&mut self, by: u32)
        requires { is_stopped self.old.history ≡ false }
        ensures history { self.new.history ≡ self.old.history ++ Entry.Stop by ∷ [] }
        ensures marks { self.new.marks ≡ self.old.marks }
    {
        self.log.append(Entry::Stop { by });
        self.is_stopped = true;
    }

    /// Sets the last-answered length of session `id` to the history's length if the session is live. Does not
    /// allocate.
    pub fn touch(&mut self, id: u32)
        ensures history { self.new.history ≡ self.old.history }
        ensures marks { self.new.marks ≡ marks_after self.old.history id self.old.marks }
        ensures room { self.new.spare ≡ self.old.spare }
    {
        let point = self.log.len();
        if self.marks.contains_key(&id) {
            let Ok(_) = self.marks.insert(id, point) else {
                unreachable!()
            };
        }
    }

    /// Returns entry `n`, counted from 0, or `None` past the last.
    pub fn entry(&self, n: u64) -> Option<&Entry>
        ensures { option_copied result ≡ slice_get self.now.history n }
    {
        self.log.entry(n)
    }

    /// Returns the number of entries.
    pub fn len(&self) -> u64
        ensures count { result ≡ length self.now.history }
        ensures small { result < 9223372036854775808 }
    {
        self.log.len()
    }

    /// Returns the revision of the history.
    pub fn revision(&self) -> u32
        ensures { result ≡ revision (batches self.now.history) }
    {
        self.log.revision()
    }

    /// Returns whether the share was stopped.
    pub fn is_stopped(&self) -> bool
        ensures { result ≡ is_stopped self.now.history }
    {
        self.is_stopped
    }

    /// Returns the number of entries of edits and of logins.
    pub fn limited_entries(&self) -> u32
        ensures { result ≡ count_by is_limited self.now.history }
    {
        self.limited_entries
    }

    /// Returns the number of edits in all batches.
    pub fn edits(&self) -> u32
        ensures { result ≡ length (all_edits self.now.history) }
    {
        self.edits
    }

    /// Returns whether one more login or batch is within the limit on entries.
    pub fn is_below_entry_limit(&self) -> bool
        ensures { result ≡ is_below_entry_limit self.now.history }
    {
        (self.limited_entries as usize) < MAX_ENTRIES
    }

    /// Returns whether `count` more edits are within the limit on edits.
    pub fn has_room_for(&self, count: usize) -> bool
        requires { count ≤ most_edits }
        ensures { result ≡ has_room_for self.now.history count }
    {
        self.edits as usize + count <= MAX_EDITS
    }

    /// Returns the last-answered length of session `id`, or `None` if it is not live. It lies between the length at
    /// the session's login and the present one.
    pub fn seen(&self, id: u32) -> Option<u64>
        ensures mark { result ≡ at id self.now.marks }
        ensures live { is_some result ≡ is_live self.now.history id }
        ensures since { IfSome result (λ p. length (until_login id self.now.history) ≤ p) }
        ensures until { IfSome result (λ p. p ≤ length self.now.history) }
    {
        self.marks.get(&id).copied()
    }

    /// Returns the entries, oldest first. Does not allocate.
    pub fn into_history(self) -> Vec<Entry>
        ensures { result.items ≡ self.history }
    {
        let Register {
            log,
            limited_entries: _,
            edits: _,
            logins: _,
            is_stopped: _,
            marks: _,
        } = self;
        log.into_entries()
    }
}
