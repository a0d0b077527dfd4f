//! Plays a line of a script, and gives all answers that it makes possible.

ghost use Rattle.std.specs.Prelude.{◌≡◌, ◌≤◌, ◌<◌, true, false, length, is_some, Some, None, IfOk, OnOk, OnErr};
ghost use Rattle.share_replay.specs.Machine.{after_all_answers, after_answer, after_answer_at, after_line, connection_at, due_at, first_due, left_at, most_connections, most_left, turn_place};
ghost use Rattle.share_replay.specs.Moments.{AnswersSlot, BreaksAnswers, BreaksAt, BreaksFirst, BreaksLine, BreaksSlot, MovesMachine, moment_of};
ghost use Rattle.share_replay.specs.Outputs.{CountsErrors};

use crate::answering::answer_on;
use crate::connection::Connection;
use crate::delivery::Delivery;
use crate::reaching::{place_of, reach};
use crate::replay_error::ReplayError;
use outside_net::Sink;
use share_core::Share;
use std::alloc::Global;

/// Plays one line, and has the share answer until none of its connections can be answered.
pub(crate) fn play<W: Sink>(
    alloc: Global,
    line: &Delivery,
    connections: &mut [Option<Connection>],
    share: &mut Share,
    sink: &mut W,
) -> Result<(), ReplayError>
    requires few { length connections.old ≤ most_connections }
    ensures played { OnOk result (MovesMachine (λ d. after_line share.old.settings d line.now)
        (moment_of W.Sink share.old connections.old sink.old)
        (moment_of W.Sink share.new connections.new sink.new)) }
    ensures part { OnErr result (BreaksLine share.old.settings line.now
        (moment_of W.Sink share.old connections.old sink.old)
        (moment_of W.Sink share.new connections.new sink.new)) }
    ensures settings { share.new.settings ≡ share.old.settings }
    ensures count { CountsErrors W.Sink sink.old sink.new result }
{
    match reach(alloc, line, connections, sink) {
        Ok(()) => settle(alloc, place_of(line), connections, share, sink),
        Err(error) => Err(error),
    }
}

// Has the share answer until none of its connections can be answered.
fn settle<W: Sink>(
    alloc: Global,
    place: usize,
    connections: &mut [Option<Connection>],
    share: &mut Share,
    sink: &mut W,
) -> Result<(), ReplayError>
    requires few { length connections.old ≤ most_connections }
    ensures settled { OnOk result (MovesMachine (after_all_answers share.old.settings place)
        (moment_of W.Sink share.old connections.old sink.old)
        (moment_of W.Sink share.new connections.new sink.new)) }
    ensures part { OnErr result (BreaksAnswers share.old.settings place
        (moment_of W.Sink share.old connections.old sink.old)
        (moment_of W.Sink share.new connections.new sink.new)) }
    ensures settings { share.new.settings ≡ share.old.settings }
    ensures count { CountsErrors W.Sink sink.old sink.new result }
{
    let mut is_due = true;
    while is_due {
        match answer_one(alloc, place, connections, share, sink) {
            Ok(was) => is_due = was,
            Err(error) => return Err(error),
        }
    }
    Ok(())
}

// Gives one answer: on the connection at `place` if it has one, otherwise on the first connection that has.
fn answer_one<W: Sink>(
    alloc: Global,
    place: usize,
    connections: &mut [Option<Connection>],
    share: &mut Share,
    sink: &mut W,
) -> Result<bool, ReplayError>
    requires few { length connections.old ≤ most_connections }
    ensures stepped { IfOk result (λ was. was ≡ true
        → MovesMachine (after_answer share.old.settings place)
        (moment_of W.Sink share.old connections.old sink.old)
        (moment_of W.Sink share.new connections.new sink.new)) }
    ensures rests { IfOk result (λ was. was ≡ false
        → (turn_place share.old.settings share.old.history place connections.old ≡ None)
        × (share.new.history ≡ share.old.history) × (connections.new ≡ connections.old)
        × (W.taken sink.new ≡ W.taken sink.old)) }
    ensures fewer { IfOk result (λ was. was ≡ true
        → most_left connections.new < most_left connections.old) }
    ensures part { OnErr result (BreaksAnswers share.old.settings place
        (moment_of W.Sink share.old connections.old sink.old)
        (moment_of W.Sink share.new connections.new sink.new)) }
    ensures settings { share.new.settings ≡ share.old.settings }
    ensures size { length connections.new ≡ length connections.old }
    ensures count { CountsErrors W.Sink sink.old sink.new result }
{
    match answer_at(alloc, place, connections, share, sink) {
        Ok(true) => Ok(true),
        Ok(false) => answer_first(alloc, connections, share, sink),
        Err(error) => Err(error),
    }
}

// Gives one answer, on the first connection that has one.
fn answer_first<W: Sink>(
    alloc: Global,
    connections: &mut [Option<Connection>],
    share: &mut Share,
    sink: &mut W,
) -> Result<bool, ReplayError>
    requires few { length connections.old ≤ most_connections }
    ensures stepped { IfOk result (λ was. was ≡ true
        → MovesMachine (after_answer_at share.old.settings
        (first_due share.old.settings share.old.history 0 connections.old))
        (moment_of W.Sink share.old connections.old sink.old)
        (moment_of W.Sink share.new connections.new sink.new)) }
    ensures rests { IfOk result (λ was. was ≡ false
        → (first_due share.old.settings share.old.history 0 connections.old ≡ None)
        × (share.new.history ≡ share.old.history) × (connections.new ≡ connections.old)
        × (W.taken sink.new ≡ W.taken sink.old)) }
    ensures fewer { IfOk result (λ was. was ≡ true
        → most_left connections.new < most_left connections.old) }
    ensures part { OnErr result (BreaksFirst share.old.settings
        (moment_of W.Sink share.old connections.old sink.old)
        (moment_of W.Sink share.new connections.new sink.new)) }
    ensures settings { share.new.settings ≡ share.old.settings }
    ensures size { length connections.new ≡ length connections.old }
    ensures count { CountsErrors W.Sink sink.old sink.new result }
{
    for other in 0..connections.len() {
        match answer_at(alloc, other, connections, share, sink) {
            Ok(true) => return Ok(true),
            Ok(false) => {}
            Err(error) => return Err(error),
        }
    }
    Ok(false)
}

// Gives the next answer on the connection at `place`, if there is one.
fn answer_at<W: Sink>(
    alloc: Global,
    place: usize,
    connections: &mut [Option<Connection>],
    share: &mut Share,
    sink: &mut W,
) -> Result<bool, ReplayError>
    requires few { length connections.old ≤ most_connections }
    ensures due { IfOk result (λ was. is_some
        (due_at share.old.settings share.old.history (connection_at connections.old place)) ≡ was) }
    ensures stepped { IfOk result (λ was. was ≡ true
        → MovesMachine (after_answer_at share.old.settings (Some place))
        (moment_of W.Sink share.old connections.old sink.old)
        (moment_of W.Sink share.new connections.new sink.new)) }
    ensures rests { IfOk result (λ was. was ≡ false
        → (share.new.history ≡ share.old.history) × (connections.new ≡ connections.old)
        × (W.taken sink.new ≡ W.taken sink.old)) }
    ensures fewer { IfOk result (λ was. was ≡ true
        → most_left connections.new < most_left connections.old) }
    ensures part { OnErr result (BreaksAt share.old.settings place
        (moment_of W.Sink share.old connections.old sink.old)
        (moment_of W.Sink share.new connections.new sink.new)) }
    ensures settings { share.new.settings ≡ share.old.settings }
    ensures size { length connections.new ≡ length connections.old }
    ensures count { CountsErrors W.Sink sink.old sink.new result }
{
    if place >= connections.len() {
        return Ok(false);
    }
    answer_one_of(
        alloc,
        place as u32 + 1,
        &mut connections[place],
        share,
        sink,
    )
}

fn answer_one_of<W: Sink>(
    alloc: Global,
    number: u32,
    slot: &mut Option<Connection>,
    share: &mut Share,
    sink: &mut W,
) -> Result<bool, ReplayError>
    ensures answered { IfOk result (λ was. was ≡ true → AnswersSlot share.old.settings number
        (moment_of W.Sink share.old slot.old sink.old)
        (moment_of W.Sink share.new slot.new sink.new)) }
    ensures left { IfOk result (λ was. was ≡ false
        → (due_at share.old.settings share.old.history slot.old ≡ None)
        × (share.new.history ≡ share.old.history) × (slot.new ≡ slot.old)
        × (W.taken sink.new ≡ W.taken sink.old)) }
    ensures fewer { IfOk result (λ was. was ≡ true → left_at slot.new < left_at slot.old) }
    ensures part { OnErr result (BreaksSlot share.old.settings number
        (moment_of W.Sink share.old slot.old sink.old)
        (moment_of W.Sink share.new slot.new sink.new)) }
    ensures settings { share.new.settings ≡ share.old.settings }
    ensures count { CountsErrors W.Sink sink.old sink.new result }
{
    match slot {
        Some(connection) => answer_on(alloc, number, connection, share, sink),
        None => Ok(false),
    }
}
