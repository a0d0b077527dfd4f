//! One request and its reply.

ghost use Rattle.std.specs.Prelude.{◌≡◌, ◌<◌, List, Option, false, vec_len, vec_capacity};
ghost use Rattle.http_front.specs.Readable.{IsReadableWant};
ghost use Rattle.share_asks.specs.Valid.{IsValidWant};
ghost use Rattle.share_asks.specs.declared.ask.Ask.{Ask as AskSeen};
ghost use Rattle.share_lock.specs.Passes.{lock_id, known, IsReady};
ghost use Rattle.share_server.specs.Passes.{Pass as PassSeen};
ghost use Rattle.share_server.specs.Replies.{end_behind};
ghost use Rattle.share_server.specs.Answering.{IsAnswered};
ghost use Rattle.share_server.specs.Losses.{is_loss_if};
ghost use Rattle.share_server.specs.Kept.{KeepsEdits};
ghost use Rattle.share_server.specs.Written.{CountsMaybe, IsNoError, IsWritableReply};
ghost use Rattle.share_server.specs.Steps.{ServingSeen, serving_of, AfterRequests, IsExchange};

use crate::link::ending::end_out_of_memory;
use crate::link::writing::reply;
use crate::report::{LinkEnd, Served};
use crate::turns::{Answered, Unanswered, answer_request};
use edit_keeping::Keeps;
use outside_net::Link;
use share_asks::Ask;
use share_core::Share;
use share_lock::{Bell, Pass, ShareLock};
use std::alloc::Global;
use std::sync::Wait;
use std::time::Clock;

/// The constants of serving one connection, for at most `limit` requests.
#[derive(Drop)]
pub(crate) struct LinkContext<'a, R> {
    pub rt: &'a R,
    pub alloc: Global,
    pub lock: &'a ShareLock<Share>,
    pub bell: &'a Bell,
    pub limit: u32,
}

/// Answers a request, and writes the reply. Reserves capacity for its report first, so that what was answered is
/// reported. A peer that left while its update was pending is an error of the connection; a lost edit is an error of
/// the keeper's file.
pub(crate) fn exchange<K: Link, F: Keeps, R: Wait + Clock>(
    context: &LinkContext<'_, R>,
    pass: &mut Pass<Share>,
    link: &mut K,
    keeper: &mut F,
    served: &mut Vec<Served>,
    ask: &Ask,
) -> Option<LinkEnd>
    requires ready { IsReady (lock_id context.now.lock.now) pass.old }
    requires valid { IsValidWant ask.now.want }
    requires readable { IsReadableWant ask.now.want }
    requires going { F.is_lost keeper.old ≡ false }
    ensures ready { IsReady (lock_id context.now.lock.now) pass.new }
    ensures keeping { KeepsEdits F.Keeps keeper.old keeper.new (known pass.old) (known pass.new)
        (is_loss_if result) }
    ensures exchanges { (start : ServingSeen) (asks : List AskSeen)
        → AfterRequests context.now.limit start (serving_of K.Link (known pass.old) link.old) asks served.old.items
        → IsExchange context.now.limit start (serving_of K.Link (known pass.new) link.new)
        asks ask.now served.new.items result }
    ensures beside { K.beside_taken link.new ≡ K.beside_taken link.old }
    ensures count { CountsMaybe (K.faults link.old) (K.faults link.new) result }
{
    if served.reserve(1).is_err() {
        return Some(end_out_of_memory(link));
    }
    match answer_request(
        context.rt,
        context.alloc,
        context.lock,
        context.bell,
        pass,
        link,
        keeper,
        ask,
    ) {
        Ok(answered) => tell(context, link, served, ask, answered),
        Err(Unanswered::Gone) => Some(LinkEnd::LinkFault),
        Err(Unanswered::Lost) => Some(LinkEnd::FileFault),
    }
}

// Reports an answered request, in capacity that the caller reserved, and writes the reply.
fn tell<K: Link, R>(
    context: &LinkContext<'_, R>,
    link: &mut K,
    served: &mut Vec<Served>,
    ask: &Ask,
    answered: Answered,
) -> Option<LinkEnd>
    requires room { vec_len served.old < vec_capacity served.old }
    requires writable { IsWritableReply answered.said }
    ensures exchanges { (start : ServingSeen) (before after : PassSeen) (asks : List AskSeen)
        → AfterRequests context.now.limit start (serving_of K.Link before link.old) asks served.old.items
        → IsAnswered before after ask.now answered
        → IsExchange context.now.limit start (serving_of K.Link after link.new) asks ask.now served.new.items result }
    ensures goes_on { is_loss_if result ≡ false }
    ensures beside { K.beside_taken link.new ≡ K.beside_taken link.old }
    ensures count { CountsMaybe (K.faults link.old) (K.faults link.new) result }
{
    let Answered {
        served: request,
        said,
        stopped,
        ..
    } = answered;
    served.push_reserved(request);
    let due = end_behind(context.limit, served.len(), ask.close, stopped);
    reply(context.alloc, link, said, request.added, due)
}

// Returns how the connection ends after the `n`-th reply, if it does.
fn end_behind(limit: u32, n: usize, close: bool, stopped: bool) -> Option<LinkEnd>
    ensures end { result ≡ end_behind limit n close stopped }
    ensures no_error { IsNoError result }
    ensures goes_on { is_loss_if result ≡ false }
{
    if stopped {
        return Some(LinkEnd::Stopped);
    }
    if n == limit as usize {
        return Some(LinkEnd::Spent);
    }
    if close {
        return Some(LinkEnd::Closed);
    }
    None
}
