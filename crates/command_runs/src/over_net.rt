//! Runs the commands over the network.

ghost use Rattle.std.specs.Prelude.{◌≡◌, Some, true};
ghost use Rattle.daapshare_words.specs.declared.command.Command.TheVariants.{Net as OverNet};
ghost use Rattle.command_core.specs.Seen.{files_of, input_of, net_of, output_of, seen_of, run_of};
ghost use Rattle.daapshare_words.specs.Relay.{AreRelayWords};
ghost use Rattle.daapshare_words.specs.Serve.{AreServeWords};
ghost use Rattle.daapshare_words.specs.Words.{IsNetRanged};
ghost use Rattle.relay_command.specs.Terms.{MayRelay};
ghost use Rattle.serve_command.specs.Terms.{MayServe};
ghost use Rattle.command_runs.specs.Table.{leaves_files, relaying_of, serving_of, IsRunOverNet};

use crate::local::target_of;
use crate::outcome::{Outcome, with_links, without_links};
use daapshare_words::{NetCommand, RelayWords, ServeWords};
use link_commands::{edit_share, follow_share};
use outside_net::{Files, Net, Sink, Source};
use relay_command::{Relaying, relay};
use serve_command::{Serving, serve};
use std::alloc::Global;
use std::sync::Wait;
use std::thread::Threads;
use std::time::Clock;

/// Runs a command over the network.
pub fn run_net<R: Threads + Wait + Clock + Sync, I: Source, W: Sink, F: Files, N: Net>(
    rt: &R,
    alloc: Global,
    command: NetCommand,
    input: &mut I,
    output: &mut W,
    files: &mut F,
    net: &mut N,
) -> Outcome
    requires { IsNetRanged command }
    ensures answered { IsRunOverNet command
        (run_of
        (seen_of (input_of I.Source input.old)
        (files_of F.Files files.old)
        (net_of N.Net net.old))
        (seen_of (input_of I.Source input.new)
        (files_of F.Files files.new)
        (net_of N.Net net.new))
        (output_of W.Sink output.old)
        (output_of W.Sink output.new))
        result }
    ensures files { leaves_files (Some (OverNet command)) ≡ true → files.new ≡ files.old }
    ensures open_stays { N.open_count net.new ≡ N.open_count net.old }
{
    match command {
        NetCommand::Serve(words) => {
            with_links(serve(rt, alloc, &serving_of(words), input, output, files, net))
        }
        NetCommand::Edit(words) => {
            let ended = edit_share(alloc, words.place.as_str(), words.stop, input, output, net);
            without_links(alloc, ended)
        }
        NetCommand::Follow(words) => {
            let ended = follow_share(
                alloc,
                words.place.as_str(),
                words.rounds,
                words.query.as_ref(),
                words.meta.as_ref(),
                target_of(words.list),
                output,
                net,
            );
            without_links(alloc, ended)
        }
        NetCommand::Relay(words) => with_links(relay(rt, alloc, &relaying_of(words), output, net)),
    }
}

/// Returns the settings of `serve` for its arguments.
fn serving_of(words: ServeWords) -> Serving
    requires { AreServeWords words }
    ensures asked { result ≡ serving_of words }
    ensures may { MayServe result }
{
    Serving {
        listen: words.listen,
        edit: words.edit,
        name: words.name,
        keep: words.keep,
        workers: words.workers,
        editors: words.editors,
        file: words.file,
    }
}

/// Returns the settings of `relay` for its arguments.
fn relaying_of(words: RelayWords) -> Relaying
    requires { AreRelayWords words }
    ensures asked { result ≡ relaying_of words }
    ensures may { MayRelay result }
{
    Relaying {
        upstream: words.upstream,
        listen: words.listen,
        rounds: words.rounds,
        name: words.name,
        keep: words.keep,
        workers: words.workers,
    }
}
