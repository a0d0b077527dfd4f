//! A run of the program over any input, output, files and network.

ghost use Rattle.std.specs.Prelude.{◌≡◌, true};
ghost use Rattle.command_core.specs.Seen.{files_of, input_of, net_of, output_of, seen_of, run_of};
ghost use Rattle.daapshare_words.specs.Grammar.{texts_of};
ghost use Rattle.daapshare_words.specs.Words.{command_of};
ghost use Rattle.command_runs.specs.Table.{leaves_files, leaves_net, IsRun};

use crate::local::run_local;
use crate::outcome::{Outcome, without_links};
use crate::over_net::run_net;
use crate::usage::UsageFault;
use command_core::{Fault, out_of_memory, write_error};
use daapshare_words::{Command, WordsError, read_words};
use outside_net::{Files, Net, Sink, Source};
use std::alloc::Global;
use std::sync::Wait;
use std::thread::Threads;
use std::time::Clock;

/// Runs the command that the arguments `words` are. Only `serve` and `relay` start threads, and wait for them.
///
/// The statuses are:
///
/// - 0: the command succeeded;
/// - 2: the arguments are not a command's;
/// - 3: a query, names of properties, records, a container, tags, shown text, JSON, a script, a reply of content codes,
///   or an edit file is refused;
/// - 4, 5: the input, or the output, failed;
/// - 6: the network failed;
/// - 7: a peer did not answer as it should;
/// - 8: a number passed its limit;
/// - 9: out of memory;
/// - 10: a file call failed.
///
/// Each except 0 and 5 has its line on the output.
pub fn run<R: Threads + Wait + Clock + Sync, I: Source, W: Sink, F: Files, N: Net>(
    rt: &R,
    alloc: Global,
    words: &[&str],
    input: &mut I,
    output: &mut W,
    files: &mut F,
    net: &mut N,
) -> Outcome
    ensures answered { IsRun (command_of (texts_of words.now))
        (run_of
        (seen_of (input_of I.Source input.old)
        (files_of F.Files files.old)
        (net_of N.Net net.old))
        (seen_of (input_of I.Source input.new)
        (files_of F.Files files.new)
        (net_of N.Net net.new))
        (output_of W.Sink output.old)
        (output_of W.Sink output.new))
        result }

    // Only `serve` with a file changes files, and only the commands over the network use that.
    ensures files { leaves_files (command_of (texts_of words.now)) ≡ true → files.new ≡ files.old }
    ensures net { leaves_net (command_of (texts_of words.now)) ≡ true → net.new ≡ net.old }

    // Each listener and each connection was closed, however the run ended.
    ensures open_stays { N.open_count net.new ≡ N.open_count net.old }
{
    match read_words(alloc, words) {
        Ok(Command::Local(command)) => without_links(
            alloc,
            run_local(alloc, &command, input, output),
        ),
        Ok(Command::Net(command)) => { run_net(rt, alloc, command, input, output, files, net) }
        Err(WordsError::Usage) => {
            without_links(
                alloc,
                write_error(alloc, output, &Fault::Own(UsageFault::NoCommand)),
            )
        }
        Err(WordsError::Memory) => without_links(alloc, out_of_memory(output, None)),
    }
}
