//! Pushes an edit or a stop to a share.

ghost use Rattle.std.specs.Prelude.{◌≡◌, Some, None, option_copied, IfOk, IfErr, MatchResult};
ghost use Rattle.code_table.specs.Standard.{standard_rows};
ghost use Rattle.http_client.specs.Replies.{Reply};
ghost use Rattle.mirror_client.specs.Exchanges.{Exchanged};
ghost use Rattle.mirror_client.specs.Points.{Point, start_of};
ghost use Rattle.mirror_client.specs.Pushes.{IsEdited, IsPushed, IsStopped, UnexpectedEdit, UnexpectedPush, push_text};
ghost use Rattle.mirror_client.specs.Stopping.{CountsErrors, Stops};

use crate::exchanging::exchange;
use crate::fetching::reply_number;
use crate::incoming::Incoming;
use crate::refusal::FollowError;
use code_table::CodeTable;
use dmap_tags::{Bytes, Code};
use http_client::post;
use outside_net::Link;
use std::alloc::Global;

/// The outcome of an edit or a stop.
#[derive(Drop)]
pub enum Pushed {
    /// The edit was applied, and made this revision.
    Revision(u32),
    /// The edit had no records.
    Unchanged,
    Stopped,
    /// Nothing was changed. `text` is the share's reason: for records that it refuses, which one.
    Refused { status: u16, text: Bytes },
}

/// Sends records as an edit, unchanged; a stop if there is no body.
pub fn push_link<K: Link>(
    alloc: Global,
    link: &mut K,
    host: &str,
    body: Option<&[u8]>,
) -> Result<Pushed, FollowError>
    ensures pushed { IfOk result (λ pushed. (answer : Reply) × (there : Point)
        × Exchanged (push_text (option_copied body.entry) host.now)
        (start_of K.Link link.old) there answer
        × (there.taken ≡ K.taken link.new) × IsPushed (option_copied body.entry) answer pushed) }
    ensures stops { IfErr result (λ e. Stops (push_text (option_copied body.entry) host.now)
        (UnexpectedPush (option_copied body.entry))
        (start_of K.Link link.old) (K.taken link.new) e) }
    ensures count { CountsErrors K.Link link.old link.new result }
{
    match body {
        Some(records) => push_edit(alloc, link, host, records),
        None => push_stop(alloc, link, host),
    }
}

#[tactic(auto, using(crate::proofs::ExchangeFacts::unwritten), unfolding(crate::specs::Pushes::push_text))]
fn push_edit<K: Link>(
    alloc: Global,
    link: &mut K,
    host: &str,
    records: &[u8],
) -> Result<Pushed, FollowError>
    ensures pushed { IfOk result (λ pushed. (answer : Reply) × (there : Point)
        × Exchanged (push_text (Some records.now) host.now) (start_of K.Link link.old) there answer
        × (there.taken ≡ K.taken link.new) × IsEdited answer pushed) }
    ensures stops { IfErr result (λ e. Stops (push_text (Some records.now) host.now) UnexpectedEdit
        (start_of K.Link link.old) (K.taken link.new) e) }
    ensures count { CountsErrors K.Link link.old link.new result }
{
    let request = post(alloc, "/edit", host, records)?;
    let table = CodeTable::standard(alloc)?;
    let mut incoming = Incoming::new(alloc);
    match exchange(alloc, link, &mut incoming, request.as_slice()) {
        Ok((status, text)) => match edit_outcome(
            alloc,
            &table,
            incoming.used_count(),
            status,
            text,
        ) {
            Ok(pushed) => Ok(pushed),
            Err(error) => Err(error),
        },
        Err(error) => Err(error),
    }
}

#[tactic(auto, using(crate::proofs::ExchangeFacts::unwritten), unfolding(crate::specs::Pushes::push_text))]
fn push_stop<K: Link>(alloc: Global, link: &mut K, host: &str) -> Result<Pushed, FollowError>
    ensures pushed { IfOk result (λ pushed. (answer : Reply) × (there : Point)
        × Exchanged (push_text None host.now) (start_of K.Link link.old) there answer
        × (there.taken ≡ K.taken link.new) × IsStopped answer pushed) }
    ensures stops { IfErr result (λ e. Stops (push_text None host.now) (UnexpectedPush None)
        (start_of K.Link link.old) (K.taken link.new) e) }
    ensures count { CountsErrors K.Link link.old link.new result }
{
    let request = post(alloc, "/stop", host, b"")?;
    let mut incoming = Incoming::new(alloc);
    match exchange(alloc, link, &mut incoming, request.as_slice()) {
        Ok((status, text)) => Ok(stop_outcome(status, text)),
        Err(error) => Err(error),
    }
}

// Returns the outcome of an edit by its answer, which ends at byte `used`.
fn edit_outcome(
    alloc: Global,
    table: &CodeTable,
    used: u64,
    status: u16,
    text: Bytes,
) -> Result<Pushed, FollowError>
    requires { table.now ≡ standard_rows }
    ensures { MatchResult result (λ pushed. IsEdited (status, text) pushed)
        (λ e. UnexpectedEdit used (status, text) e) }
{
    match status {
        200 => pushed_revision(alloc, table, used, &text),
        204 => Ok(Pushed::Unchanged),
        _ => Ok(Pushed::Refused { status, text }),
    }
}

// Returns the revision in a success.
fn pushed_revision(
    alloc: Global,
    table: &CodeTable,
    used: u64,
    text: &Bytes,
) -> Result<Pushed, FollowError>
    requires { table.now ≡ standard_rows }
    ensures { MatchResult result (λ pushed. IsEdited (200, text.now) pushed)
        (λ e. UnexpectedEdit used (200, text.now) e) }
{
    match reply_number(alloc, table, Code(*b"musr"), used, 200, text) {
        Ok(n) => Ok(Pushed::Revision(n)),
        Err(error) => Err(error),
    }
}

// Returns the outcome of a stop by its answer.
fn stop_outcome(status: u16, text: Bytes) -> Pushed
    ensures { IsStopped (status, text) result }
{
    match status {
        204 => Pushed::Stopped,
        _ => Pushed::Refused { status, text },
    }
}
