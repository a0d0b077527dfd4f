//! The command `serve`.

ghost use Rattle.std.specs.Prelude.{◌≡◌, None};
ghost use Rattle.command_core.specs.Seen.{input_of, files_of, net_of, output_of, seen_of, run_of};
ghost use Rattle.serve_command.specs.Outcomes.{outcome_of};
ghost use Rattle.serve_command.specs.Runs.{ServeEnds};
ghost use Rattle.serve_command.specs.Terms.{MayServe};

use crate::fault::input_fault;
use crate::places::open_addresses;
use crate::records::serve_records;
use crate::terms::Serving;
use crate::unserved::{no_share, refuse};
use command_core::{read_records, write_error};
use outside_net::{Files, Net, Sink, Source};
use share_crew::Outcome;
use std::alloc::Global;
use std::sync::Wait;
use std::thread::Threads;
use std::time::Clock;

/// Serves a share that begins with the batches of its file, if it has one, and then the records of the input, until it
/// is stopped or no further connection comes. Each edit is kept in the file before it is answered.
pub fn serve<I: Source, W: Sink, F: Files, N: Net, R: Threads + Wait + Clock + Sync>(
    rt: &R,
    alloc: Global,
    serving: &Serving,
    input: &mut I,
    output: &mut W,
    files: &mut F,
    net: &mut N,
) -> Outcome
    requires { MayServe serving.now }
    ensures ends { ServeEnds serving.now (run_of
        (seen_of (input_of I.Source input.old)
        (files_of F.Files files.old)
        (net_of N.Net net.old))
        (seen_of (input_of I.Source input.new)
        (files_of F.Files files.new)
        (net_of N.Net net.new))
        (output_of W.Sink output.old)
        (output_of W.Sink output.new))
        (outcome_of result) }
    ensures alone { serving.now.file ≡ None → files.new ≡ files.old }
    ensures open_stays { N.open_count net.new ≡ N.open_count net.old }
{
    match open_addresses(net, serving) {
        Ok(listeners) => match read_records(alloc, input) {
            Ok(first) => serve_records(rt, alloc, serving, output, files, net, listeners, first),
            Err(fault) => refuse(alloc, output, net, listeners, &input_fault(fault)),
        },
        Err(stop) => no_share(alloc, write_error(alloc, output, &stop).status),
    }
}
