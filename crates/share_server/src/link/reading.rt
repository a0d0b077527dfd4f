//! Reads requests off a connection.

ghost use Rattle.std.specs.Prelude.{◌≡◌, ◌≢◌, ◌≤◌, ◌<◌, ℕ, List, [], None, Some, false, length, Option, IfOk, IfErr, MatchResult};
ghost use Rattle.http_front.specs.Readable.{IsReadableWant};
ghost use Rattle.share_asks.specs.Valid.{IsValidWant};
ghost use Rattle.share_asks.specs.declared.ask.Ask.{Ask as AskSeen};
ghost use Rattle.share_asks.specs.declared.ask.Role.{Role as RoleSeen};
ghost use Rattle.share_lock.specs.Passes.{lock_id, known, IsReady};
ghost use Rattle.share_server.specs.Losses.{is_loss, is_loss_if, is_loss_in};
ghost use Rattle.share_server.specs.Kept.{KeepsEdits};
ghost use Rattle.share_server.specs.Serving.{CountsEnd};
ghost use Rattle.share_server.specs.Written.{CountsMaybe, IsNoError};
ghost use Rattle.share_server.specs.Progress.{EndsInput};
ghost use Rattle.share_server.specs.Steps.{ServingSeen, serving_of, progress_of, AfterRequests, IsExchange, AfterBytes, IsStep, IsFeed, AfterReads, IsPump};

use crate::link::ending::end_on_head_error;
use crate::link::exchanging::{LinkContext, exchange};
use crate::report::{LinkEnd, Served};
use edit_keeping::Keeps;
use http_front::HeadReader;
use outside_net::{Failed, Link};
use share_asks::Ask;
use share_core::Share;
use share_lock::Pass;
use std::sync::Wait;
use std::time::Clock;

// The most bytes of one read.
const PIECE: usize = 8_192;

/// What was read off a connection, and what was served on it.
#[derive(Drop)]
pub(crate) struct LinkProgress {
    pub reader: HeadReader,
    pub served: Vec<Served>,
}

/// Reads once, and serves the requests that are then complete. Returns the end of the connection, if it ended.
pub(crate) fn pump<K: Link, F: Keeps, R: Wait + Clock>(
    context: &LinkContext<'_, R>,
    pass: &mut Pass<Share>,
    link: &mut K,
    keeper: &mut F,
    progress: &mut LinkProgress,
    consumed: &mut u64,
) -> Option<LinkEnd>
    requires ready { IsReady (lock_id context.now.lock.now) pass.old }
    requires idle { progress.old.reader.ready ≡ None }
    requires going { F.is_lost keeper.old ≡ false }
    ensures ready { IsReady (lock_id context.now.lock.now) pass.new }
    ensures keeping { KeepsEdits F.Keeps keeper.old keeper.new (known pass.old) (known pass.new)
        (is_loss_if result) }
    ensures idle { result ≡ None → progress.new.reader.ready ≡ None }
    ensures pumps { (role : RoleSeen) (start : ServingSeen)
        → AfterReads role context.now.limit start (progress_of K.Link (known pass.old) link.old progress.old)
        consumed.old
        → IsPump role context.now.limit start (progress_of K.Link (known pass.new) link.new progress.new)
        consumed.new result }
    ensures count { CountsMaybe (K.faults link.old) (K.faults link.new) result }
{
    let mut room = [0; PIECE];
    let n = match link.read(&mut room) {
        Ok(n) => n,
        Err(Failed) => return Some(LinkEnd::LinkFault),
    };
    if n == 0 {
        return Some(end_of_input(progress, *consumed));
    }
    *consumed = consumed.saturating_add(n as u64);
    let (piece, _) = room.split_at(n);
    feed(context, pass, link, keeper, progress, piece)
}

// Returns the end of an input of `consumed` bytes.
fn end_of_input(progress: &LinkProgress, consumed: u64) -> LinkEnd
    ensures end { progress.now.reader.error ≡ None → EndsInput progress.now.reader consumed result }
    ensures no_error { IsNoError (Some result) }
    ensures goes_on { is_loss result ≡ false }
{
    if progress.reader.between() {
        LinkEnd::Closed
    } else {
        LinkEnd::Cut { at: consumed }
    }
}

// Serves the requests that are complete in a chunk.
fn feed<K: Link, F: Keeps, R: Wait + Clock>(
    context: &LinkContext<'_, R>,
    pass: &mut Pass<Share>,
    link: &mut K,
    keeper: &mut F,
    progress: &mut LinkProgress,
    piece: &[u8],
) -> Option<LinkEnd>
    requires ready { IsReady (lock_id context.now.lock.now) pass.old }
    requires idle { progress.old.reader.ready ≡ None }
    requires going { F.is_lost keeper.old ≡ false }
    ensures ready { IsReady (lock_id context.now.lock.now) pass.new }
    ensures keeping { KeepsEdits F.Keeps keeper.old keeper.new (known pass.old) (known pass.new)
        (is_loss_if result) }
    ensures idle { result ≡ None → progress.new.reader.ready ≡ None }
    ensures feeds { (role : RoleSeen) (bytes : List ℕ) (start : ServingSeen)
        → AfterBytes role bytes context.now.limit start (progress_of K.Link (known pass.old) link.old progress.old)
        → IsFeed role bytes piece.now context.now.limit start
        (progress_of K.Link (known pass.new) link.new progress.new) result }
    ensures beside { K.beside_taken link.new ≡ K.beside_taken link.old }
    ensures count { CountsMaybe (K.faults link.old) (K.faults link.new) result }
{
    let mut done = 0;
    while done < piece.len() {
        let (_, rest) = piece.split_at(done);
        match step(context, pass, link, keeper, progress, rest) {
            Ok(taken) => done += taken,
            Err(end) => return Some(end),
        }
    }
    None
}

// Reads to the end of the next request, and serves it if it is complete. Returns the number of bytes read, or the end
// of the connection as an error.
fn step<K: Link, F: Keeps, R: Wait + Clock>(
    context: &LinkContext<'_, R>,
    pass: &mut Pass<Share>,
    link: &mut K,
    keeper: &mut F,
    progress: &mut LinkProgress,
    piece: &[u8],
) -> Result<usize, LinkEnd>
    requires ready { IsReady (lock_id context.now.lock.now) pass.old }
    requires idle { progress.old.reader.ready ≡ None }
    requires some { piece.now ≢ [] }
    requires going { F.is_lost keeper.old ≡ false }
    ensures ready { IsReady (lock_id context.now.lock.now) pass.new }
    ensures keeping { KeepsEdits F.Keeps keeper.old keeper.new (known pass.old) (known pass.new)
        (is_loss_in result) }
    ensures idle { IfOk result (λ _. progress.new.reader.ready ≡ None) }
    ensures moves { IfOk result (λ n. 0 < n) }
    ensures within { IfOk result (λ n. n ≤ length piece.now) }
    ensures steps { (role : RoleSeen) (bytes : List ℕ) (start : ServingSeen)
        → AfterBytes role bytes context.now.limit start (progress_of K.Link (known pass.old) link.old progress.old)
        → IsStep role bytes piece.now context.now.limit start
        (progress_of K.Link (known pass.new) link.new progress.new) result }
    ensures beside { K.beside_taken link.new ≡ K.beside_taken link.old }
    ensures count { MatchResult result (λ _. K.faults link.new ≡ K.faults link.old)
        (λ e. CountsEnd (K.faults link.old) (K.faults link.new) e) }
{
    let taken = match progress.reader.feed(piece) {
        Ok(taken) => taken,
        Err(error) => return Err(end_on_head_error(context.alloc, link, error)),
    };
    let Some(ask) = progress.reader.next() else {
        return Ok(taken);
    };
    match serve_ask(context, pass, link, keeper, &mut progress.served, ask) {
        None => Ok(taken),
        Some(end) => Err(end),
    }
}

// Serves a request that was read.
fn serve_ask<K: Link, F: Keeps, R: Wait + Clock>(
    context: &LinkContext<'_, R>,
    pass: &mut Pass<Share>,
    link: &mut K,
    keeper: &mut F,
    served: &mut Vec<Served>,
    ask: Ask,
) -> Option<LinkEnd>
    requires ready { IsReady (lock_id context.now.lock.now) pass.old }
    requires valid { IsValidWant ask.want }
    requires readable { IsReadableWant ask.want }
    requires going { F.is_lost keeper.old ≡ false }
    ensures ready { IsReady (lock_id context.now.lock.now) pass.new }
    ensures keeping { KeepsEdits F.Keeps keeper.old keeper.new (known pass.old) (known pass.new)
        (is_loss_if result) }
    ensures exchanges { (start : ServingSeen) (asks : List AskSeen)
        → AfterRequests context.now.limit start (serving_of K.Link (known pass.old) link.old) asks served.old.items
        → IsExchange context.now.limit start (serving_of K.Link (known pass.new) link.new)
        asks ask served.new.items result }
    ensures beside { K.beside_taken link.new ≡ K.beside_taken link.old }
    ensures count { CountsMaybe (K.faults link.old) (K.faults link.new) result }
{
    let end = exchange(context, pass, link, keeper, served, &ask);
    // A call drops the request, so that the end of this function drops nothing.
    drop(ask);
    end
}
