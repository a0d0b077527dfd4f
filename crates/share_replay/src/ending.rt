//! Ends of connections at the end of a script.

ghost use Rattle.std.specs.Prelude.{◌≡◌, ◌≤◌, length, option_copied, OnOk, OnErr};
ghost use Rattle.std.specs.Option.{option_and_then};
ghost use Rattle.share_replay.specs.Connections.{last_end};
ghost use Rattle.share_replay.specs.Machine.{last_lines};
ghost use Rattle.share_replay.specs.Outputs.{CountsErrors, WritesAll, WritesPrefix};

use crate::connection::Connection;
use crate::ends::End;
use crate::replay_error::ReplayError;
use crate::telling::tell_end;
use outside_net::Sink;
use std::alloc::Global;

/// Writes for each connection that has not ended how it ends, in order of number.
pub(crate) fn tell_last_ends<W: Sink>(
    alloc: Global,
    connections: &[Option<Connection>],
    sink: &mut W,
) -> Result<(), ReplayError>
    requires few { length connections.now ≤ 64 }
    ensures told { OnOk result (WritesAll W.Sink sink.old sink.new (last_lines 1 connections.now)) }
    ensures part { OnErr result (
        WritesPrefix W.Sink sink.old sink.new (last_lines 1 connections.now)) }
    ensures count { CountsErrors W.Sink sink.old sink.new result }
{
    let mut number = 0;
    for slot in connections {
        number += 1;
        match tell_end(alloc, number, last_end_of(slot.as_ref()), sink) {
            Ok(()) => {}
            Err(error) => return Err(error),
        }
    }
    Ok(())
}

fn last_end_of(connection: Option<&Connection>) -> Option<End>
    ensures { result ≡ option_and_then last_end (option_copied connection.entry) }
{
    match connection {
        Some(connection) => connection.last_end(),
        None => None,
    }
}
