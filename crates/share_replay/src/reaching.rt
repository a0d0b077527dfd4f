//! The effect of a line of a script on its connection.

ghost use Rattle.std.specs.Prelude.{◌≡◌, IfOk, OnOk, OnErr, Some, option_map};
ghost use Rattle.share_replay.specs.Connections.{gets};
ghost use Rattle.share_replay.specs.Ends.{end_line};
ghost use Rattle.share_replay.specs.Machine.{connection_at, connections_after, end_at_once, line_place, nobody, slot_after, told_at_once};
ghost use Rattle.share_replay.specs.Outputs.{CountsErrors, WritesAll, WritesPrefix};
ghost use Rattle.share_replay.specs.declared.delivery.Delivery.TheVariants.{Close};

use crate::connection::Connection;
use crate::delivery::Delivery;
use crate::replay_error::ReplayError;
use crate::telling::tell_end;
use outside_net::Sink;
use std::alloc::{AllocError, Global};

/// The most connections.
const MOST_CONNECTIONS: usize = 64;

/// Returns the list of all connections, none of them open.
pub(crate) fn nobody(alloc: Global) -> Result<Vec<Option<Connection>>, AllocError>
    ensures { IfOk result (λ cs. cs.items ≡ nobody) }
{
    let mut connections = Vec::new(alloc);
    for place in 0..MOST_CONNECTIONS {
        connections.push(None)?;
    }
    Ok(connections)
}

/// Returns the index of a line's connection.
pub(crate) fn place_of(line: &Delivery) -> usize
    ensures { result ≡ line_place line.now }
{
    match line {
        Delivery::Open { number, .. }
        | Delivery::Text { number, .. }
        | Delivery::Close { number } => number.saturating_sub(1) as usize,
    }
}

/// Changes the connection of a line as the line says. Writes how it ends, if it ends at once.
pub(crate) fn reach<W: Sink>(
    alloc: Global,
    line: &Delivery,
    connections: &mut [Option<Connection>],
    sink: &mut W,
) -> Result<(), ReplayError>
    ensures reached { OnOk result (connections.new ≡ connections_after line.now connections.old) }
    ensures told { OnOk result (WritesAll W.Sink sink.old sink.new
        (end_at_once line.now (connection_at connections.old (line_place line.now)))) }
    ensures part { OnErr result (WritesPrefix W.Sink sink.old sink.new
        (end_at_once line.now (connection_at connections.old (line_place line.now)))) }
    ensures count { CountsErrors W.Sink sink.old sink.new result }
{
    let place = place_of(line);
    if place >= connections.len() {
        return Ok(());
    }
    reach_one(alloc, line, &mut connections[place], sink)
}

fn reach_one<W: Sink>(
    alloc: Global,
    line: &Delivery,
    slot: &mut Option<Connection>,
    sink: &mut W,
) -> Result<(), ReplayError>
    ensures reached { OnOk result (slot.new ≡ slot_after line.now slot.old) }
    ensures told { OnOk result (
        WritesAll W.Sink sink.old sink.new (end_at_once line.now slot.old)) }
    ensures part { OnErr result (
        WritesPrefix W.Sink sink.old sink.new (end_at_once line.now slot.old)) }
    ensures count { CountsErrors W.Sink sink.old sink.new result }
{
    match line {
        Delivery::Open { role, .. } => match Connection::open(alloc, *role) {
            Ok(connection) => {
                put(slot, connection);
                Ok(())
            }
            Err(AllocError) => Err(ReplayError::Memory),
        },
        Delivery::Text { bytes, .. } => match deliver_to(slot, bytes.as_slice()) {
            Ok(()) => Ok(()),
            Err(AllocError) => Err(ReplayError::Memory),
        },
        Delivery::Close { number } => close_one(alloc, *number, slot, sink),
    }
}

fn put(slot: &mut Option<Connection>, connection: Connection)
    ensures { slot.new ≡ Some connection }
{
    *slot = Some(connection);
}

fn deliver_to(slot: &mut Option<Connection>, bytes: &[u8]) -> Result<(), AllocError>
    ensures { OnOk result (slot.new ≡ option_map (gets bytes.now) slot.old) }
{
    match slot {
        Some(connection) => connection.deliver(bytes),
        None => Ok(()),
    }
}

fn close_one<W: Sink>(
    alloc: Global,
    number: u32,
    slot: &mut Option<Connection>,
    sink: &mut W,
) -> Result<(), ReplayError>
    ensures reached { OnOk result (slot.new ≡ slot_after (Close number) slot.old) }
    ensures told { OnOk result (WritesAll W.Sink sink.old sink.new
        (end_line number (told_at_once (Close number) slot.old))) }
    ensures part { OnErr result (WritesPrefix W.Sink sink.old sink.new
        (end_line number (told_at_once (Close number) slot.old))) }
    ensures count { CountsErrors W.Sink sink.old sink.new result }
{
    match slot {
        Some(connection) => {
            let end = connection.close();
            tell_end(alloc, number, end, sink)
        }
        None => Ok(()),
    }
}
