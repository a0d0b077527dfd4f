//! Gives one answer on one connection.

ghost use Rattle.std.specs.Prelude.{◌≡◌, ◌<◌, List, true, false, None, is_some, IfOk, OnOk, OnErr};
ghost use Rattle.http_front.specs.ReplyHeads.{HasReason};
ghost use Rattle.item_model.specs.declared.changes.Entry.{Entry};
ghost use Rattle.listing_plan.specs.Plans.{IsWritable};
ghost use Rattle.share_replay.specs.Connections.{asked_on};
ghost use Rattle.share_replay.specs.Moments.{AnswersOn, BreaksOn, moment_of};
ghost use Rattle.share_replay.specs.Outputs.{CountsErrors, WritesAll, WritesPrefix};
ghost use Rattle.share_replay.specs.Turns.{due_on, left_on, most_requests, refused_with, reply_turn};

use crate::asking::{Output, next_output};
use crate::connection::Connection;
use crate::ends::End;
use crate::replay_error::ReplayError;
use crate::telling::{tell_end, tell_reply};
use listing_plan::Plan;
use outside_net::Sink;
use share_asks::BodyForm;
use share_core::{ReplyContent, Share};
use std::alloc::{AllocError, Global};

/// Gives the next answer on connection `number`, if there is one. Returns whether there was.
pub(crate) fn answer_on<W: Sink>(
    alloc: Global,
    number: u32,
    connection: &mut Connection,
    share: &mut Share,
    sink: &mut W,
) -> Result<bool, ReplayError>
    ensures answered { IfOk result (λ was. was ≡ true → AnswersOn share.old.settings number
        (moment_of W.Sink share.old connection.old sink.old)
        (moment_of W.Sink share.new connection.new sink.new)) }
    ensures left { IfOk result (λ was. was ≡ false
        → (due_on share.old.settings share.old.history connection.old ≡ None)
        × (share.new.history ≡ share.old.history) × (connection.new ≡ connection.old)
        × (W.taken sink.new ≡ W.taken sink.old)) }
    ensures fewer { IfOk result (λ was. was ≡ true
        → left_on connection.new < left_on connection.old) }
    ensures part { OnErr result (BreaksOn share.old.settings number
        (moment_of W.Sink share.old connection.old sink.old)
        (moment_of W.Sink share.new connection.new sink.new)) }
    ensures settings { share.new.settings ≡ share.old.settings }
    ensures count { CountsErrors W.Sink sink.old sink.new result }
{
    match next_output(number, connection, share) {
        Ok(Output::Reply { content, close }) => {
            reply_on(alloc, number, connection, &content, share, close, sink)
        }
        Ok(Output::Refusal { status }) => refuse_on(alloc, number, connection, status, sink),
        Ok(Output::Nothing) => Ok(false),
        Err(AllocError) => Err(ReplayError::Memory),
    }
}

// Writes a reply to the next request, and how the connection ends after it, if it ends. Returns `true`.
fn reply_on<W: Sink>(
    alloc: Global,
    number: u32,
    connection: &mut Connection,
    content: &ReplyContent,
    share: &Share,
    close: bool,
    sink: &mut W,
) -> Result<bool, ReplayError>
    requires reason { HasReason content.now.status }
    requires writable { IsWritable content.now.plan }
    requires asked { is_some (asked_on connection.old) ≡ true }
    requires few { connection.old.served < most_requests }
    ensures was { IfOk result (λ was. was ≡ true) }
    ensures connection { OnOk result (connection.new
        ≡ (reply_turn number share.now.history connection.old content.now close).connection) }
    ensures written { OnOk result (WritesAll W.Sink sink.old sink.new
        (reply_turn number share.now.history connection.old content.now close).written) }
    ensures part { OnErr result (WritesPrefix W.Sink sink.old sink.new
        (reply_turn number share.now.history connection.old content.now close).written) }
    ensures fewer { OnOk result (left_on connection.new < left_on connection.old) }
    ensures count { CountsErrors W.Sink sink.old sink.new result }
{
    let last = connection.last_by(share, close);
    match tell_reply(
        alloc,
        number,
        content.status,
        content.form,
        &content.plan,
        last.is_some(),
        sink,
    ) {
        Ok(()) => {}
        Err(error) => return Err(error),
    }
    match connection.count(last) {
        Ok(end) => match tell_end(alloc, number, end, sink) {
            Ok(()) => Ok(true),
            Err(error) => Err(error),
        },
        Err(AllocError) => Err(ReplayError::Memory),
    }
}

// Writes the refusal, and that the connection ends. Returns `true`.
fn refuse_on<W: Sink>(
    alloc: Global,
    number: u32,
    connection: &mut Connection,
    status: u16,
    sink: &mut W,
) -> Result<bool, ReplayError>
    requires reason { HasReason status }
    requires going { connection.old.is_ended ≡ false }
    requires few { connection.old.served < most_requests }
    ensures was { IfOk result (λ was. was ≡ true) }
    ensures connection { OnOk result (connection.new ≡ record connection.old { is_ended = true }) }
    ensures written { OnOk result ((h : List Entry) → WritesAll W.Sink sink.old sink.new
        (refused_with number h connection.old status).written) }
    ensures part { OnErr result ((h : List Entry) → WritesPrefix W.Sink sink.old sink.new
        (refused_with number h connection.old status).written) }
    ensures fewer { OnOk result (left_on connection.new < left_on connection.old) }
    ensures count { CountsErrors W.Sink sink.old sink.new result }
{
    match tell_reply(
        alloc,
        number,
        status,
        BodyForm::NoBody,
        &Plan::Empty,
        true,
        sink,
    ) {
        Ok(()) => {}
        Err(error) => return Err(error),
    }
    connection.end();
    match tell_end(alloc, number, Some(End::Refused { status }), sink) {
        Ok(()) => Ok(true),
        Err(error) => Err(error),
    }
}
