//! Plays a script.

ghost use Rattle.std.specs.Prelude.{◌≡◌, OnOk, OnErr};
ghost use Rattle.share_replay.specs.Machine.{replay_bytes, replay_history};
ghost use Rattle.share_replay.specs.Moments.{BreaksScript};
ghost use Rattle.share_replay.specs.Outputs.{CountsErrors, WritesAll, WritesPrefix};

use crate::ending::tell_last_ends;
use crate::playing::play;
use crate::reaching::nobody;
use crate::replay_error::ReplayError;
use crate::script::Script;
use outside_net::Sink;
use share_core::Share;
use std::alloc::Global;

/// Plays `script` to `share`, and writes the answers to `sink`.
///
/// Each line reaches one connection. Then the share answers until no connection can be answered, that connection
/// first. At the end of the script a line is written for each connection that has not ended. After an `Err` the share
/// has the history after some of these answers, and the sink a prefix of their output. The bytes of a connection are
/// kept until the end of the replay.
pub fn replay<W: Sink>(
    alloc: Global,
    script: &Script,
    share: &mut Share,
    sink: &mut W,
) -> Result<(), ReplayError>
    ensures history { OnOk result (share.new.history ≡ replay_history share.old script.now) }
    ensures written { OnOk result (
        WritesAll W.Sink sink.old sink.new (replay_bytes share.old script.now)) }
    ensures part { OnErr result (
        BreaksScript W.Sink script.now share.old share.new sink.old sink.new) }
    ensures front { OnErr result (
        WritesPrefix W.Sink sink.old sink.new (replay_bytes share.old script.now)) }
    ensures settings { share.new.settings ≡ share.old.settings }
    ensures count { CountsErrors W.Sink sink.old sink.new result }
{
    let mut connections = nobody(alloc)?;
    let lines = script.lines();
    for line in lines {
        match play(alloc, line, connections.as_mut_slice(), share, sink) {
            Ok(()) => {}
            Err(error) => return Err(error),
        }
    }
    tell_last_ends(alloc, connections.as_slice(), sink)
}
