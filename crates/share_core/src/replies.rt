//! Replies at a length of the history, and the last-answered lengths that they set.

ghost use Rattle.std.specs.Prelude.{◌≡◌, ◌≤◌, ◌+◌, ◌++◌, ◌∷◌, [], true, false, length, IfOk, OnOk, OnErr};
ghost use Rattle.item_model.specs.declared.changes.Entry.TheVariants as entry;
ghost use Rattle.share_history.specs.Limits.{is_below_entry_limit, has_room_for};
ghost use Rattle.share_history.specs.Marks.{marks_after, until_login};
ghost use Rattle.share_history.specs.Sessions.{is_live, is_stopped, next_session};
ghost use Rattle.share_replies.specs.Answers.{mark_of};
ghost use Rattle.share_core.specs.Steps.{IsBetween};

use crate::answer::{Reply, ReplyContent};
use item_model::Batch;
use share_history::FIRST_REVISION;
use share_register::Register;
use std::alloc::AllocError;

/// Returns the last-answered length of the session, 0 if it has none.
fn mark_of(register: &Register, session: u32) -> u64
    ensures mark { result ≡ mark_of register.now.marks session }
    ensures until { result ≤ length register.now.history }
    ensures since { is_live register.now.history session ≡ true
        → length (until_login session register.now.history) ≤ result }
{
    match register.seen(session) {
        Some(mark) => mark,
        None => 0,
    }
}

/// Returns a reply that adds no entry. Sets the last-answered length of its session.
pub(crate) fn read(register: &mut Register, content: ReplyContent, session: u32) -> Reply
    ensures history { register.new.history ≡ register.old.history }
    ensures marks { register.new.marks
        ≡ marks_after register.old.history session register.old.marks }
    ensures reply { result ≡ record {
      content = content;
      point = length register.old.history;
      session = session;
      seen = mark_of register.old.marks session;
      added = false;
    } }
    ensures marked { IsBetween register.old.history result }
{
    let seen = mark_of(register, session);
    register.touch(session);
    Reply {
        content,
        point: register.len(),
        session,
        seen,
        added: false,
    }
}

/// Returns a reply after the entry that it added. `seen` is the session's last-answered length before.
fn reply_with_entry(register: &Register, content: ReplyContent, session: u32, seen: u64) -> Reply
    ensures { result ≡ record {
      content = content;
      point = length register.now.history;
      session
          = session;
      seen = seen;
      added = true;
    } }
{
    Reply {
        content,
        point: register.len(),
        session,
        seen,
        added: true,
    }
}

/// Returns the id of the next login: one more than the number of logins. `limited_entries` counts batches and logins,
/// and the revision counts the batches.
#[tactic(auto, using(crate::proofs::LimitedEntries::limited_are))]
pub(crate) fn next_session(register: &Register) -> u32
    requires { is_below_entry_limit register.now.history ≡ true }
    ensures { result ≡ next_session register.now.history }
{
    let batches = register.revision() - FIRST_REVISION;
    register.limited_entries() - batches + 1
}

/// Appends the login of session `id`, and returns the reply.
pub(crate) fn log_in(
    register: &mut Register,
    by: u32,
    content: ReplyContent,
    id: u32,
) -> Result<Reply, AllocError>
    requires going { is_stopped register.old.history ≡ false }
    requires below { is_below_entry_limit register.old.history ≡ true }
    requires next { id ≡ next_session register.old.history }
    ensures history { OnOk result
        (register.new.history ≡ register.old.history ++ entry.Login by id ∷ []) }
    ensures marks { OnOk result (register.new.marks
        ≡ marks_after register.new.history id register.old.marks) }
    ensures reply { IfOk result (λ reply. reply
        ≡ record {
          content = content;
          point = length register.new.history;
          session = id;
          seen
              = mark_of register.old.marks id;
          added = true;
        }) }
    ensures marked { IfOk result (IsBetween register.old.history) }
    ensures same_history { OnErr result (register.new.history ≡ register.old.history) }
    ensures same_marks { OnErr result (register.new.marks ≡ register.old.marks) }
{
    let seen = mark_of(register, id);
    register.login(by)?;
    Ok(reply_with_entry(register, content, id, seen))
}

/// Appends the logout of a live session, and returns the reply. Does not allocate.
pub(crate) fn log_out(register: &mut Register, by: u32, id: u32, content: ReplyContent) -> Reply
    requires going { is_stopped register.old.history ≡ false }
    requires live { is_live register.old.history id ≡ true }
    ensures history { register.new.history ≡ register.old.history ++ entry.Logout by id ∷ [] }
    ensures marks { register.new.marks ≡ marks_after register.new.history id register.old.marks }
    ensures reply { result ≡ record {
      content = content;
      point = length register.new.history;
      session = id;
      seen = mark_of register.old.marks id;
      added = true;
    } }
    ensures marked { IsBetween register.old.history result }
{
    let seen = mark_of(register, id);
    register.logout(by, id);
    reply_with_entry(register, content, id, seen)
}

/// Appends the stop, and returns the reply. Does not allocate.
pub(crate) fn end(register: &mut Register, by: u32, content: ReplyContent) -> Reply
    requires going { is_stopped register.old.history ≡ false }
    ensures history { register.new.history ≡ register.old.history ++ entry.Stop by ∷ [] }
    ensures marks { register.new.marks ≡ marks_after register.new.history 0 register.old.marks }
    ensures reply { result ≡ record {
      content = content;
      point = length register.new.history;
      session = 0;
      seen = mark_of register.old.marks 0;
      added = true;
    } }
    ensures marked { IsBetween register.old.history result }
{
    let seen = mark_of(register, 0);
    register.stop(by);
    register.touch(0);
    reply_with_entry(register, content, 0, seen)
}

/// Appends a batch in capacity that the caller reserved, and returns the reply.
pub(crate) fn enter(register: &mut Register, by: u32, batch: Batch, content: ReplyContent) -> Reply
    requires going { is_stopped register.old.history ≡ false }
    requires below { is_below_entry_limit register.old.history ≡ true }
    requires few { has_room_for register.old.history (length batch) ≡ true }
    requires room { length register.old.marks + 2 ≤ register.old.spare }
    ensures history { register.new.history ≡ register.old.history ++ entry.Edits by batch ∷ [] }
    ensures marks { register.new.marks ≡ marks_after register.new.history 0 register.old.marks }
    ensures reply { result ≡ record {
      content = content;
      point = length register.new.history;
      session = 0;
      seen = mark_of register.old.marks 0;
      added = true;
    } }
    ensures marked { IsBetween register.old.history result }
{
    let seen = mark_of(register, 0);
    register.edit(by, batch);
    register.touch(0);
    reply_with_entry(register, content, 0, seen)
}
