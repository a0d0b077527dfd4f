//! The share.

ghost use Rattle.std.specs.Prelude.{◌≡◌, ◌≢◌, ◌↔◌, ◌≤◌, ◌<◌, ◌+◌, ◌++◌, [], ◌∷◌, ℕ, nat_le, All, List, true, false, Ok, Err, length, is_some, unwrap_or, option_copied, slice_get, IfOk, IfSome, OnOk, OnErr, IsOk};
ghost use Rattle.item_model.specs.declared.changes.Entry.TheVariants as entry;
ghost use Rattle.item_model.specs.Limits.{text_limit};
ghost use Rattle.item_model.specs.Valid.{AreValid};
ghost use Rattle.share_asks.specs.Valid.{IsValidWant};
ghost use Rattle.share_asks.specs.declared.ask.Want.TheVariants as want;
ghost use Rattle.share_history.specs.Histories.{batches, edits, opening, revision};
ghost use Rattle.share_history.specs.Keyed.{at};
ghost use Rattle.share_history.specs.Limits.{has_few_lists, is_below_entry_limit, has_room_for, takes_batch};
ghost use Rattle.share_history.specs.Marks.{until_login};
ghost use Rattle.share_history.specs.Numbers.{most_edits};
ghost use Rattle.share_history.specs.Sessions.{is_live, is_stopped};
ghost use Rattle.share_history.specs.Whole.{IsWhole};
ghost use Rattle.playlist_store.specs.Tests.{tests_of};
ghost use Rattle.share_history.specs.Histories.{all_edits};
ghost use Rattle.share_replies.specs.Replies.{Body, Nothing, lacks_session, needed, refusal, success};
ghost use Rattle.share_core.specs.Opened.{LeaveFewLists, LeaveManyLists, if_filled, opened_with};
ghost use Rattle.share_core.specs.Contents.{IsContent};
ghost use Rattle.share_core.specs.Told.{IsAnswer};
ghost use Rattle.share_core.specs.Steps.{IsRead, HasGrown, IsBetween, IsMarked};
ghost use Rattle.share_core.specs.Wants.{is_free, is_read};
ghost use Rattle.share_core.specs.Ticks.{want_ticks};

use crate::answer::{Answer, Reply, ReplyContent};
use crate::browse::browse;
use crate::containers::{containers, databases};
use crate::contents::nothing;
use crate::faults::{fault, records};
use crate::listings::rows;
use crate::replies::{end, enter, log_in, log_out, next_session, read};
use crate::settings::Settings;
use crate::small::{codes, login_reply, revision_reply, server_info};
use crate::stores::Stores;
use crate::whole::rows_are_whole;
use dmap_tags::Text;
use item_model::{Batch, Edits, Entry};
use records_import::RecordError;
use share_asks::{Ask, Want};
use share_history::{MAX_EDITS, MAX_LISTS};
use share_lock::Recorded;
use share_register::Register;
use song_query::Steps;
use std::alloc::{AllocError, Global};
use std::marker::{Brand, Model};
use std::sync::ledger::{Blank, Ledger};
use thiserror::Error;

/// The errors of `open` and `open_batches`.
#[derive(Debug, Drop, PartialEq, Eq, Error)]
pub enum OpenError {
    /// The batches have more than 262,144 edits.
    #[error("too many edits")]
    Edits,
    /// One of the batches leaves more than 1,024 lists besides container 1.
    #[error("too many lists")]
    Lists,
    #[error("memory")]
    Memory,
}

impl From<AllocError> for OpenError {
    ghost use Rattle.share_core.specs.declared.share.OpenError.TheVariants.{Memory};

    ghost from_gives = { λ _ e. e ≡ Memory };

    fn from(_error: AllocError) -> OpenError {
        OpenError::Memory
    }
}

/// A share of items and lists, with its history. Its settings never change.
pub struct Share {
    alloc: Global,
    settings: Settings,
    register: Register,
    stores: Stores,
}

impl Drop for Share {
    fn drop(self) {
        let Share {
            alloc: _,
            settings: _,
            register: _,
            stores: _,
        } = self;
    }
}

impl Model for Share {
    ghost use Rattle.std.specs.Coded.{codes};
    ghost use Rattle.item_model.specs.QueryCells.{query_coded};
    ghost use Rattle.share_replies.specs.Answers.{Shared};
    ghost use Rattle.share_core.specs.Held.{IsSound};

    ghost Value = { Shared };

    ghost coded = { Prim.hlevel (codes, query_coded) };

    ghost view = { λ a. record { settings = a.settings; history = a.register.history; marks = a.register.marks } };

    ghost invariant = { λ a. IsSound a.settings a.register.history a.stores };
}

impl Share {
    /// Opens a share whose history begins with the batch `first`, if it has edits. `keep` is the number of revisions
    /// in the delta window.
    ///
    /// # Errors
    ///
    /// Returns `Lists` if the batch leaves more than 1,024 lists, and `Memory` if an allocation fails.
    pub fn open(alloc: Global, name: &str, keep: u32, first: Batch) -> Result<Share, OpenError>
        requires name { length name.now ≤ text_limit }
        requires some { 1 ≤ keep }
        requires window { keep ≤ 65536 }
        requires few { length first ≤ most_edits }
        requires valid { AreValid first }
        ensures opened { IfOk result
            (λ s. s ≡ record {
              settings = record { name = name.now; keep = keep };
              history = opening
                  first;
              marks = [];
            }) }
        ensures fits { OnOk result (has_few_lists [] first ≡ true) }
        ensures lists { result ≡ Err OpenError.Lists → has_few_lists [] first ≡ false }
        ensures edits { result ≢ Err OpenError.Edits }
    {
        let batches = if_filled(alloc, first)?;
        Share::open_batches(alloc, name, keep, batches)
    }

    /// Opens a share whose history begins with an entry for each of the batches, in order. Each of them has edits.
    ///
    /// # Errors
    ///
    /// Returns `Edits` if the batches have more than 262,144 edits, which is checked first; `Lists` if one of them
    /// leaves more than 1,024 lists; `Memory` if an allocation fails.
    pub fn open_batches(
        alloc: Global,
        name: &str,
        keep: u32,
        batches: Vec<Batch>,
    ) -> Result<Share, OpenError>
        requires name { length name.now ≤ text_limit }
        requires some { 1 ≤ keep }
        requires window { keep ≤ 65536 }
        requires filled { All (λ batch. batch ≢ []) batches.items }
        requires valid { All AreValid batches.items }
        ensures opened { IfOk result
            (λ s. s ≡ record {
              settings = record { name = name.now; keep = keep };
              history
                  = opened_with batches.items;
              marks = [];
            }) }
        ensures edits { result ≡ Err OpenError.Edits ↔ (most_edits < length (edits batches.items)) }
        ensures fits { OnOk result (LeaveFewLists batches.items) }
        ensures lists { result ≡ Err OpenError.Lists → LeaveManyLists batches.items }
    {
        if !have_few_edits(batches.as_slice()) {
            return Err(OpenError::Edits);
        }
        let share = Share::empty(alloc, name, keep)?;
        begun::<Brand>(Blank::new(1), share, batches)
    }

    // Returns a share without history.
    fn empty(alloc: Global, name: &str, keep: u32) -> Result<Share, AllocError>
        requires name { length name.now ≤ text_limit }
        requires some { 1 ≤ keep }
        requires window { keep ≤ 65536 }
        ensures { IfOk result (λ s. s
            ≡ record {
              settings = record { name = name.now; keep = keep };
              history = [];
              marks = [];
            }) }
    {
        let name = Text::of(alloc, name)?;
        let none = Batch {
            edits: Edits::new(alloc),
        };
        Ok(Share {
            alloc,
            settings: Settings::new(name, keep),
            register: Register::open(alloc, none)?,
            stores: Stores::open(alloc, keep),
        })
    }

    /// Answers `ask` for handle `by`, and appends at most one entry. Increases `steps` by one for each evaluation of
    /// a query or a rule at an item.
    ///
    /// # Errors
    ///
    /// Returns `AllocError` if an allocation fails. The share is then unchanged: the stores that applied a batch before
    /// the allocation failed undo it.
    pub fn answer<L: Ledger>(
        &mut self,
        by: u32,
        ask: &Ask,
        steps: &mut Steps<L>,
    ) -> Result<Answer, AllocError>
        requires valid { IsValidWant ask.now.want }
        ensures answered { IfOk result (IsAnswer self.old self.new by ask.now.want) }
        ensures unchanged { OnErr result (self.new ≡ self.old) }
        // A logout and the stop always have capacity.
        ensures free { is_stopped self.old.history ≡ false → is_free ask.now.want ≡ true
            → IsOk result }
        ensures marked { IfOk result (IsMarked self.old.history) }
        ensures cost { steps.new ≤ steps.old
            + want_ticks self.old.settings.keep self.old.history ask.now.want }
    {
        // The order of `refusal`, except that `content_for` answers a malformed request, and after the session. A
        // malformed request names no session, so it never gets 403, and the first refusal stays the same.
        if self.register.is_stopped() {
            return Ok(Answer::Reply(self.read(nothing(503), 0)));
        }
        if self.lacks_session(&ask.want) {
            return Ok(Answer::Reply(self.read(nothing(403), 0)));
        }
        self.serve(by, &ask.want, steps)
    }

    /// Returns what the share was opened with.
    pub fn settings(&self) -> &Settings
        ensures { result.now ≡ self.now.settings }
    {
        &self.settings
    }

    /// Returns the history length.
    pub fn len(&self) -> u64
        ensures { result ≡ length self.now.history }
    {
        self.register.len()
    }

    /// Returns entry `n` of the history, counted from 0.
    pub fn entry(&self, n: u64) -> Option<&Entry>
        ensures { option_copied result ≡ slice_get self.now.history n }
    {
        self.register.entry(n)
    }

    /// Returns the revision of the library.
    pub fn revision(&self) -> u32
        ensures { result ≡ revision (batches self.now.history) }
    {
        self.register.revision()
    }

    /// Returns the last-answered length of session `id`, if it is live.
    pub fn seen(&self, id: u32) -> Option<u64>
        ensures mark { result ≡ at id self.now.marks }
        ensures live { is_some result ≡ is_live self.now.history id }
        ensures since { IfSome result (λ p. length (until_login id self.now.history) ≤ p) }
        ensures until { IfSome result (λ p. p ≤ length self.now.history) }
    {
        self.register.seen(id)
    }

    /// Returns whether the share was stopped.
    pub fn is_stopped(&self) -> bool
        ensures { result ≡ is_stopped self.now.history }
    {
        self.register.is_stopped()
    }

    /// Returns the entries, oldest first. Does not allocate. The history keeps all limits, and its rows are whole.
    pub fn into_history(self) -> Vec<Entry>
        ensures history { result.items ≡ self.history }
        ensures whole { IsWhole result.items }
    {
        let Share {
            alloc: _,
            settings: _,
            register,
            stores: _,
        } = self;
        register.into_history()
    }

    // Returns a reply that adds no entry.
    fn read(&mut self, content: ReplyContent, session: u32) -> Reply
        ensures read { (told : ℕ × Body) → IsContent told content
            → IsRead told session self.old self.new result }
        ensures marked { IsBetween self.old.history result }
    {
        read(&mut self.register, content, session)
    }

    // Returns whether the operation needs a session that is not live.
    fn lacks_session(&self, want: &Want) -> bool
        ensures { result ≡ lacks_session self.now.history want.now }
    {
        match session_in(want) {
            Some(session) => self.register.seen(session).is_none(),
            None => false,
        }
    }

    fn serve<L: Ledger>(
        &mut self,
        by: u32,
        want: &Want,
        steps: &mut Steps<L>,
    ) -> Result<Answer, AllocError>
        requires valid { IsValidWant want.now }
        requires going { is_stopped self.old.history ≡ false }
        requires live { lacks_session self.old.history want.now ≡ false }
        ensures answered { IfOk result (IsAnswer self.old self.new by want.now) }
        ensures unchanged { OnErr result (self.new ≡ self.old) }
        ensures marked { IfOk result (IsMarked self.old.history) }
        ensures free { is_free want.now ≡ true → IsOk result }
        ensures cost { steps.new ≤ steps.old
            + want_ticks self.old.settings.keep self.old.history want.now }
    {
        match want {
            Want::Login => self.login(by),
            Want::Logout { session } => Ok(self.logout(by, *session)),
            Want::Update { session, revision } => self.update(by, *session, *revision),
            Want::Edit { body: Ok(batch) } => self.edit(by, batch, steps),
            Want::Edit { body: Err(error) } => self.refuse_records(by, error),
            Want::Stop => Ok(self.stop(by)),
            _ => self.look_up(by, want, steps),
        }
    }

    fn login(&mut self, by: u32) -> Result<Answer, AllocError>
        requires going { is_stopped self.old.history ≡ false }
        ensures answered { IfOk result (IsAnswer self.old self.new by want.Login) }
        ensures unchanged { OnErr result (self.new ≡ self.old) }
        ensures marked { IfOk result (IsMarked self.old.history) }
    {
        if !self.register.is_below_entry_limit() {
            return Ok(Answer::Reply(self.read(nothing(507), 0)));
        }
        let id = next_session(&self.register);
        let content = login_reply(self.alloc, id)?;
        let reply = log_in(&mut self.register, by, content, id)?;
        Ok(Answer::Reply(reply))
    }

    fn logout(&mut self, by: u32, session: u32) -> Answer
        requires going { is_stopped self.old.history ≡ false }
        requires live { is_live self.old.history session ≡ true }
        ensures answered { IsAnswer self.old self.new by (want.Logout session) result }
        ensures marked { IsMarked self.old.history result }
    {
        Answer::Reply(log_out(&mut self.register, by, session, nothing(204)))
    }

    fn update(&mut self, by: u32, session: u32, number: u32) -> Result<Answer, AllocError>
        requires going { is_stopped self.old.history ≡ false }
        requires live { is_live self.old.history session ≡ true }
        ensures answered { IfOk result
            (IsAnswer self.old self.new by (want.Update session number)) }
        ensures unchanged { OnErr result (self.new ≡ self.old) }
        ensures marked { IfOk result (IsMarked self.old.history) }
    {
        let revision = self.register.revision();
        if number == revision {
            let point = self.register.len();
            return Ok(Answer::Wait { revision, point });
        }
        let content = revision_reply(self.alloc, revision)?;
        Ok(Answer::Reply(self.read(content, session)))
    }

    fn refuse_records(&mut self, by: u32, error: &RecordError) -> Result<Answer, AllocError>
        requires going { is_stopped self.old.history ≡ false }
        ensures answered { IfOk result (IsAnswer self.old self.new by (want.Edit (Err error.now))) }
        ensures unchanged { OnErr result (self.new ≡ self.old) }
        ensures marked { IfOk result (IsMarked self.old.history) }
    {
        let content = records(self.alloc, error)?;
        Ok(Answer::Reply(self.read(content, 0)))
    }

    fn stop(&mut self, by: u32) -> Answer
        requires going { is_stopped self.old.history ≡ false }
        ensures answered { IsAnswer self.old self.new by want.Stop result }
        ensures marked { IsMarked self.old.history result }
    {
        Answer::Reply(end(&mut self.register, by, nothing(204)))
    }

    fn edit<L: Ledger>(
        &mut self,
        by: u32,
        batch: &Batch,
        steps: &mut Steps<L>,
    ) -> Result<Answer, AllocError>
        requires going { is_stopped self.old.history ≡ false }
        requires valid { AreValid batch.now }
        ensures answered { IfOk result (IsAnswer self.old self.new by (want.Edit (Ok batch.now))) }
        ensures unchanged { OnErr result (self.new ≡ self.old) }
        ensures marked { IfOk result (IsMarked self.old.history) }
        ensures cost { steps.new ≤ steps.old + tests_of
            (all_edits self.old.history ++ batch.now) batch.now }
    {
        let count = count_of(batch);
        if count == 0 {
            return Ok(Answer::Reply(self.read(nothing(204), 0)));
        }
        let takes = self.takes(batch)?;
        if !takes {
            return Ok(Answer::Reply(self.read(nothing(507), 0)));
        }
        let revision = self.register.revision();
        let next = revision + 1;
        let content = revision_reply(self.alloc, next)?;
        let reply = self.add(by, batch, content, steps)?;
        Ok(Answer::Reply(reply))
    }

    // Returns whether a batch with edits keeps all limits.
    fn takes(&self, batch: &Batch) -> Result<bool, AllocError>
        ensures { IfOk result (λ takes. takes ≡ takes_batch self.now.history batch.now) }
    {
        let edits = batch.edits.as_slice();
        if !self.register.is_below_entry_limit() || edits.len() > MAX_EDITS {
            return Ok(false);
        }
        if !self.register.has_room_for(edits.len()) {
            return Ok(false);
        }
        Ok(self.stores.lists.count_after(edits)? <= MAX_LISTS)
    }

    // Appends a batch that the share is opened with.
    fn begin<L: Ledger>(&mut self, batch: Batch, steps: &mut Steps<L>) -> Result<(), OpenError>
        requires going { is_stopped self.old.history ≡ false }
        requires valid { AreValid batch }
        requires below { is_below_entry_limit self.old.history ≡ true }
        requires room { has_room_for self.old.history (length batch) ≡ true }
        ensures grown { OnOk result (self.new
            ≡ record {
              settings = self.old.settings;
              history = self.old.history
                  ++ entry.Edits 0 batch ∷ [];
              marks = self.old.marks;
            }) }
        ensures fits { OnOk result (has_few_lists self.old.history batch ≡ true) }
        ensures lists { result ≡ Err OpenError.Lists
            → has_few_lists self.old.history batch ≡ false }
        ensures edits { result ≢ Err OpenError.Edits }
    {
        let edits = batch.edits.as_slice();
        if self.stores.lists.count_after(edits)? > MAX_LISTS {
            return Err(OpenError::Lists);
        }
        rows_are_whole(edits);
        let next = self.register.revision() + 1;
        self.register.reserve()?;
        self.stores.apply(self.alloc, edits, next, steps)?;
        self.register.edit(0, batch);
        Ok(())
    }

    // Appends a batch that keeps all limits. The history's capacity is reserved before the stores apply the batch, so
    // nothing can fail after them.
    fn add<L: Ledger>(
        &mut self,
        by: u32,
        batch: &Batch,
        content: ReplyContent,
        steps: &mut Steps<L>,
    ) -> Result<Reply, AllocError>
        requires going { is_stopped self.old.history ≡ false }
        requires valid { AreValid batch.now }
        requires takes { takes_batch self.old.history batch.now ≡ true }
        ensures grown { IfOk result (λ reply. (told : ℕ × Body) → IsContent told content
            → HasGrown told 0 (entry.Edits by batch.now) self.old self.new reply) }
        ensures unchanged { OnErr result (self.new ≡ self.old) }
        ensures marked { IfOk result (IsBetween self.old.history) }
        ensures cost { steps.new ≤ steps.old + tests_of
            (all_edits self.old.history ++ batch.now) batch.now }
    {
        let own = batch.copy()?;
        let next = self.register.revision() + 1;
        self.register.reserve()?;
        let edits = batch.edits.as_slice();
        rows_are_whole(edits);
        self.stores.apply(self.alloc, edits, next, steps)?;
        Ok(enter(&mut self.register, by, own, content))
    }

    fn look_up<L: Ledger>(
        &mut self,
        by: u32,
        want: &Want,
        steps: &mut Steps<L>,
    ) -> Result<Answer, AllocError>
        requires read { is_read want.now ≡ true }
        requires going { is_stopped self.old.history ≡ false }
        requires live { lacks_session self.old.history want.now ≡ false }
        ensures answered { IfOk result (IsAnswer self.old self.new by want.now) }
        ensures unchanged { OnErr result (self.new ≡ self.old) }
        ensures marked { IfOk result (IsMarked self.old.history) }
        ensures cost { steps.new ≤ steps.old
            + want_ticks self.old.settings.keep self.old.history want.now }
    {
        let content = self.content_for(want, steps)?;
        let session = session_in(want).unwrap_or(0);
        Ok(Answer::Reply(self.read(content, session)))
    }

    // Returns the reply to an operation that changes nothing.
    fn content_for<L: Ledger>(
        &self,
        want: &Want,
        steps: &mut Steps<L>,
    ) -> Result<ReplyContent, AllocError>
        requires read { is_read want.now ≡ true }
        requires going { is_stopped self.now.history ≡ false }
        requires live { lacks_session self.now.history want.now ≡ false }
        ensures content { IfOk result
            (λ content. IsContent (unwrap_or (refusal self.now.history want.now)
            (success self.now.settings self.now.history want.now)) content) }
        ensures cost { steps.new ≤ steps.old
            + want_ticks self.now.settings.keep self.now.history want.now }
    {
        let name = self.settings.name();
        match want {
            Want::ServerInfo => server_info(self.alloc, name),
            Want::Codes => codes(self.alloc),
            Want::Databases { .. } => databases(self.alloc, name, &self.stores),
            Want::Rows { target, look, .. } => {
                rows(self.alloc, &self.stores, *target, look, steps)
            }
            Want::Lists { .. } => containers(self.alloc, name, &self.stores),
            Want::Values {
                browse: by,
                query,
                ..
            } => { browse(self.alloc, &self.stores, *by, query.as_ref(), steps) }
            Want::Bad(error) => fault(self.alloc, error),
            _ => unreachable!(),
        }
    }
}

fn count_of(batch: &Batch) -> usize
    ensures { result ≡ length batch.now }
{
    batch.edits.as_slice().len()
}

// Returns the session that the operation needs.
fn session_in(want: &Want) -> Option<u32>
    ensures { result ≡ needed want.now }
{
    match want {
        Want::Logout { session }
        | Want::Update { session, .. }
        | Want::Databases { session }
        | Want::Rows { session, .. }
        | Want::Lists { session }
        | Want::Values { session, .. } => Some(*session),
        _ => None,
    }
}

// Returns the batch, if it has edits.
fn if_filled(alloc: Global, batch: Batch) -> Result<Vec<Batch>, AllocError>
    ensures { IfOk result (λ batches. batches.items ≡ if_filled batch) }
{
    let mut batches = Vec::new(alloc);
    if count_of(&batch) > 0 {
        batches.push(batch)?;
    }
    Ok(batches)
}

// Returns whether the batches have at most as many edits as a share takes.
#[tactic(auto, using(crate::proofs::Opening::edits_left))]
fn have_few_edits(batches: &[Batch]) -> bool
    ensures { result ≡ nat_le (length (edits batches.now)) most_edits }
{
    let mut left = MAX_EDITS;
    for batch in batches {
        let count = count_of(batch);
        if count > left {
            return false;
        }
        left -= count;
    }
    true
}

// Returns the share `empty` with `batches` appended.
fn begun<L: Ledger>(blank: Blank, empty: Share, batches: Vec<Batch>) -> Result<Share, OpenError>
    requires name { blank.name ≡ L.name }
    requires parts { blank.parts ≡ L.parts }
    requires any { 0 < blank.parts }
    requires empty { empty.history ≡ [] }
    requires filled { All (λ batch. batch ≢ []) batches.items }
    requires valid { All AreValid batches.items }
    requires few { length (edits batches.items) ≤ most_edits }
    ensures opened { IfOk result
        (λ s. s ≡ record {
          settings = empty.settings;
          history = opened_with batches.items;
          marks
              = empty.marks;
        }) }
    ensures fits { OnOk result (LeaveFewLists batches.items) }
    ensures lists { result ≡ Err OpenError.Lists → LeaveManyLists batches.items }
    ensures edits { result ≢ Err OpenError.Edits }
{
    let mut share = empty;
    let mut steps = Steps::<L>::open(blank);
    begin_all(&mut share, batches, &mut steps)?;
    Ok(share)
}

// Appends the batches that a share is opened with.
fn begin_all<L: Ledger>(
    share: &mut Share,
    batches: Vec<Batch>,
    steps: &mut Steps<L>,
) -> Result<(), OpenError>
    requires empty { share.old.history ≡ [] }
    requires filled { All (λ batch. batch ≢ []) batches.items }
    requires valid { All AreValid batches.items }
    requires few { length (edits batches.items) ≤ most_edits }
    ensures opened { OnOk result
        (share.new ≡ record {
          settings = share.old.settings;
          history = opened_with batches.items;
          marks = share.old.marks;
        }) }
    ensures fits { OnOk result (LeaveFewLists batches.items) }
    ensures lists { result ≡ Err OpenError.Lists → LeaveManyLists batches.items }
    ensures edits { result ≢ Err OpenError.Edits }
{
    for batch in batches {
        share.begin(batch, steps)?;
    }
    Ok(())
}

impl Recorded for Share {
    ghost use Rattle.std.specs.Prelude.{[]};
    ghost use Rattle.share_replies.specs.Laws.{maker};

    type Entry = Entry;

    type Settings = Settings;

    ghost entries = { λ share. share.history };

    ghost by = { maker };

    ghost settings = { λ share. share.settings };

    ghost unset = { record { name = []; keep = 0 } };

    fn recorded(&self) -> u64 {
        self.register.len()
    }
}
