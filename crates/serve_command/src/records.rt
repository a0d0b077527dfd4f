//! Serves a share that begins with the batches of its file, if it has one, and then the records of the input.

ghost use Rattle.std.specs.Prelude.{◌≡◌, ◌≤◌, ◌-◌, None, length, false, All};
ghost use Rattle.item_model.specs.Valid.{AreValid};
ghost use Rattle.records_import.specs.Limits.{most_records};
ghost use Rattle.records_import.specs.Written.{IsReadable};
ghost use Rattle.command_core.specs.Seen.{InputSeen, NetSeen, files_of, net_of, output_of, seen_of, run_of};
ghost use Rattle.command_core.specs.ReadRecords.{HasReadAs};
ghost use Rattle.edit_file.specs.Files.{HasBatches, faults_of, is_broken, place_of};
ghost use Rattle.share_history.specs.Histories.{batches};
ghost use Rattle.share_replies.specs.Laws.{maker};
ghost use Rattle.serve_command.specs.KeptFiles.{IsKeptIn};
ghost use Rattle.serve_command.specs.Outcomes.{outcome_of};
ghost use Rattle.serve_command.specs.Places.{HasAddresses, MayServeWith, count_of};
ghost use Rattle.serve_command.specs.Runs.{ServeEnds, ShareEnds};
ghost use Rattle.serve_command.specs.Terms.{settings_of};

use crate::fault::open_fault;
use crate::placed::{NamedFile, Placed};
use crate::places::Listeners;
use crate::shares::serve_share;
use crate::terms::Serving;
use crate::unserved::refuse;
use edit_file::EditFile;
use edit_keeping::Unkept;
use item_model::Batch;
use kept_library::{KeptLibrary, close_file, open_library};
use outside_net::{Disk, Files, Net, Sink};
use share_core::Share;
use share_crew::Outcome;
use std::alloc::Global;
use std::marker::{Brand, PhantomData};
use std::sync::Wait;
use std::thread::Threads;
use std::time::Clock;

/// Serves a share that begins with the batches of its file, if it has one, and then `first`.
pub(crate) fn serve_records<W: Sink, F: Files, N: Net, R: Threads + Wait + Clock + Sync>(
    rt: &R,
    alloc: Global,
    serving: &Serving,
    output: &mut W,
    files: &mut F,
    net: &mut N,
    listeners: Listeners<N::D>,
    first: Batch,
) -> Outcome
    requires may { MayServeWith serving.now listeners }
    requires valid { AreValid first }
    requires few { length first ≤ most_records }
    requires readable { IsReadable first }
    ensures ends { (before after : InputSeen) (start : NetSeen) → HasReadAs first before after
        → HasAddresses N.D.Listener serving.now start (net_of N.Net net.old) listeners
        → ServeEnds serving.now (run_of
        (seen_of before (files_of F.Files files.old) start)
        (seen_of after (files_of F.Files files.new) (net_of N.Net net.new))
        (output_of W.Sink output.old)
        (output_of W.Sink output.new))
        (outcome_of result) }
    ensures alone { serving.now.file ≡ None → files.new ≡ files.old }
    ensures closes { N.open_count net.new ≡ N.open_count net.old - count_of listeners }
{
    match &serving.file {
        None => match Share::open(alloc, serving.name.as_str(), serving.keep, first) {
            Ok(share) => serve_share(rt, alloc, serving, output, net, listeners, share, Unkept).0,
            Err(error) => refuse(alloc, output, net, listeners, &open_fault(error)),
        },
        Some(path) => match open_library(
            alloc,
            files,
            path.as_str(),
            serving.name.as_str(),
            serving.keep,
            first,
        ) {
            Ok(KeptLibrary { share, file }) => {
                let (outcome, file) = serve_kept::<Brand, W, N, F::D, R>(
                    rt, alloc, serving, output, net, listeners, share, file,
                );
                let _ = close_file(files, file);
                outcome
            }
            Err(stop) => refuse(alloc, output, net, listeners, &stop),
        },
    }
}

// Serves a share whose edits a file keeps. Returns the file.
fn serve_kept<P: Placed, W: Sink, N: Net, D: Disk + Drop, R: Threads + Wait + Clock + Sync>(
    rt: &R,
    alloc: Global,
    serving: &Serving,
    output: &mut W,
    net: &mut N,
    listeners: Listeners<N::D>,
    share: Share,
    file: EditFile<D>,
) -> (Outcome, EditFile<D>)
    requires may { MayServeWith serving.now listeners }
    requires one { serving.now.editors ≡ 1 }
    requires opening { All (λ e. maker e ≡ 0) share.history }
    requires settings { share.settings ≡ settings_of serving.now }
    requires keeps { HasBatches D.Disk.own file (batches share.history) }
    requires sound { is_broken D.Disk.own file ≡ false }
    requires place { place_of D.Disk.own file ≡ P.place }
    ensures ends { (start : NetSeen)
        → HasAddresses N.D.Listener serving.now start (net_of N.Net net.old) listeners
        → ShareEnds serving.now share.history
        (IsKeptIn D.Disk.own P.place (faults_of D.Disk.own file) result.1)
        start (net_of N.Net net.new)
        (output_of W.Sink output.old)
        (output_of W.Sink output.new) (outcome_of result.0) }
    ensures closes { N.open_count net.new ≡ N.open_count net.old - count_of listeners }
{
    let keeper = NamedFile {
        file,
        of: PhantomData::<P>,
    };
    let (outcome, keeper) = serve_share(rt, alloc, serving, output, net, listeners, share, keeper);
    let NamedFile { file, of: _ } = keeper;
    (outcome, file)
}
