//! `serve_command`: a share whose edits a file keeps. The file is opened again, and each call on it fails in turn.

ghost use Rattle.std.specs.Prelude.{IfOk};
ghost use Rattle.serve_command.specs.Terms.{MayServe};

use crate::shares::{EDITOR, listener};
use dmap_tags::Text;
use outside_net::{
    Files, MemDisk, MemFiles, MemListener, MemNet, MemSink, MemSource, Net, Sink, Source,
};
use serve_command::{Outcome, Serving, serve};
use std::alloc::{AllocError, Global};
use std::process::Abort;
use std::sync::Wait;
use std::test::Fail;
use std::thread::Threads;
use std::time::Clock;

/// Returns files with two disks. The call with the number `failing` on the first one fails (0: none).
fn new_files(alloc: Global, failing: u64) -> Result<MemFiles, AllocError> {
    let mut disks = Vec::new(alloc);
    for number in [failing, 0] {
        disks.push(MemDisk::new(alloc, b"", 4_000, 90, 4_000, &[number])?)?;
    }
    MemFiles::with_disks(alloc, disks, 9)
}

/// Returns a network with a listener for players without connections, and one for editors, with a connection if
/// `edits`.
fn net_of(alloc: Global, edits: bool) -> Result<MemNet, AllocError> {
    let mut net = MemNet::with_room(alloc, &[], 4, 8)?;
    net.add_listener(MemListener::new(alloc, &[], 4)?)?;
    let editors = if edits {
        listener(alloc, EDITOR, 0)?
    } else {
        MemListener::new(alloc, &[], 4)?
    };
    net.add_listener(editors)?;
    Ok(net)
}

/// Returns the settings of a share with the default name, a file, and one worker at each address.
fn terms(alloc: Global) -> Result<Serving, AllocError>
    ensures { IfOk result MayServe }
{
    Ok(Serving {
        listen: Text::of(alloc, "here:3689")?,
        edit: Text::of(alloc, "here:3690")?,
        name: Text::of(alloc, "daapshare")?,
        keep: 256,
        workers: 1,
        editors: 1,
        file: Some(Text::of(alloc, "edits")?),
    })
}

// Without clauses, so that other proofs do not unfold the specification of the command.
fn served<I: Source, W: Sink, F: Files, N: Net, R: Threads + Wait + Clock + Sync>(
    rt: &R,
    alloc: Global,
    input: &mut I,
    output: &mut W,
    files: &mut F,
    net: &mut N,
) -> Result<Outcome, AllocError> {
    let terms = terms(alloc)?;
    Ok(serve(rt, alloc, &terms, input, output, files, net))
}

/// What a run left: its status, its output, and the replies on its one connection, if it had one.
#[derive(Drop)]
struct Ran {
    status: u8,
    output: Vec<u8>,
    replied: Vec<u8>,
}

/// Serves a share without records, and with a file.
fn run<R: Threads + Wait + Clock + Sync>(
    rt: &R,
    alloc: Global,
    files: &mut MemFiles,
    edits: bool,
) -> Result<Ran, AllocError> {
    let mut net = net_of(alloc, edits)?;
    let mut input = MemSource::new(alloc, b"", 4096, &[])?;
    let mut output = MemSink::new(alloc, 4096, 4096, &[])?;
    let outcome = served(rt, alloc, &mut input, &mut output, files, &mut net)?;
    Ok(Ran {
        status: outcome.status,
        output: output.into_taken(),
        replied: Vec::from_slice(alloc, replied(&net))?,
    })
}

fn replied(net: &MemNet) -> &[u8] {
    match net.written() {
        Some([returned]) => returned.bytes.as_slice(),
        _ => b"",
    }
}

/// The replies to the edit, which made revision 3, and to the stop.
const REPLIES: &[u8] =
    b"HTTP/1.1 200 OK\r\nContent-Type: application/x-dmap-tagged\r\nContent-Length: 32\r\n\r\n\
mupd\0\0\0\x18mstt\0\0\0\x04\0\0\0\xc8musr\0\0\0\x04\0\0\0\x03\
HTTP/1.1 204 No Content\r\nConnection: close\r\n\r\n";

/// The output of a share without connections, whose file has the edit of these tests.
const WITH: &[u8] = b"serving daapshare at revision 3\nended at revision 3, links 0, requests 0\n";

#[test]
fn a_share_is_served_again_with_its_edits(rt: HostRuntime) -> Result<(), Fail> {
    let alloc = rt.alloc();
    let mut files = new_files(alloc, 0)?;
    let first = run(&rt, alloc, &mut files, true)?;
    assert_eq!(rt; first.status, 0);
    assert_eq!(rt;
        first.output.as_slice(),
        b"serving daapshare at revision 2\nended at revision 3, links 1, requests 2\n".as_slice()
    );
    assert_eq!(rt; first.replied.as_slice(), REPLIES);
    let again = run(&rt, alloc, &mut files, false)?;
    assert_eq!(rt; again.status, 0);
    assert_eq!(rt; again.output.as_slice(), WITH);
    Ok(())
}

/// The output of a share without connections, whose file has no edit.
const WITHOUT: &[u8] =
    b"serving daapshare at revision 2\nended at revision 2, links 0, requests 0\n";

const UNOPENED: &[u8] = b"file failed\n";

/// The output of a share whose only edit was lost: its requests got no reply.
const LOST: &[u8] =
    b"serving daapshare at revision 2\nended at revision 3, links 1, requests 0\nfile failed\n";

/// The first and the last number of the calls of which one fails, the output, and the possible outputs of a share that
/// then opens the file. The first eight calls make the file, which then has no edit. The other four keep the edit, which
/// it then has or not.
type Fault = (u64, u64, &'static [u8], &'static [&'static [u8]]);

const FAULTS: [Fault; 2] = [
    (1, 8, UNOPENED, &[WITHOUT]),
    (9, 12, LOST, &[WITHOUT, WITH]),
];

/// Returns whether the output and the status are as expected if the call `number` fails, without a reply, and whether
/// the file then opens, with one of the outputs `opened`.
fn fails_at<R: Threads + Wait + Clock + Sync>(
    rt: &R,
    alloc: Global,
    number: u64,
    output: &[u8],
    opened: &[&[u8]],
) -> Result<bool, AllocError> {
    let mut files = new_files(alloc, number)?;
    let ran = run(rt, alloc, &mut files, true)?;
    let again = run(rt, alloc, &mut files, false)?;
    let failed = ran.status == 10 && ran.output.as_slice() == output && ran.replied.is_empty();
    Ok(failed && again.status == 0 && opened.contains(&again.output.as_slice()))
}

fn all_fail<R: Threads + Wait + Clock + Sync + Abort>(
    rt: &R,
    alloc: Global,
    faults: &[Fault],
) -> Result<(), Fail> {
    for (first, last, output, opened) in faults {
        for number in *first..=*last {
            assert!(rt; fails_at(rt, alloc, number, output, opened)?, "at {number}");
        }
    }
    Ok(())
}

#[test]
fn each_call_that_fails_ends_the_share(rt: HostRuntime) -> Result<(), Fail> {
    all_fail(&rt, rt.alloc(), &FAULTS)
}

#[test]
fn a_file_that_is_not_opened_serves_nobody(rt: HostRuntime) -> Result<(), Fail> {
    let ran = run(&rt, rt.alloc(), &mut MemFiles::new(), false)?;
    assert_eq!(rt; ran.status, 10);
    assert_eq!(rt; ran.output.as_slice(), b"file failed\n".as_slice());
    Ok(())
}
