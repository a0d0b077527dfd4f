//! Runs of the program that meet on connections in memory: what the network of one reads is what the other wrote.
//!
//! A test knows before what a client will write. A share reads this, and then the client reads what the share replied.
//! The two met if the client wrote what the share had read.

ghost use Rattle.std.specs.Prelude.{◌<◌, IfOk};
ghost use Rattle.outside_net.specs.MemListener.{IsNew as is_new_listener};
ghost use Rattle.outside_net.specs.MemLink.{IsNew};

use crate::known::{TWO_ROUNDS, replies};
use crate::nets::{Ran, has_told, net_of, output};
use crate::runs::status_of;
use outside_net::{MemLink, MemListener, MemNet, MemSink, MemSource};
use std::alloc::{AllocError, Global};
use std::process::Abort;
use std::sync::Wait;
use std::test::Fail;
use std::thread::Threads;
use std::time::Clock;

const SONGS: &[u8] = b"op,kind,id,dmap.itemname\nput,item,7,A\nput,item,8,B\nput,item,9,C\n";

/// One song stays as it was, one gets another name, one is dropped, and one is new.
const CHANGE: &[u8] =
    b"op,kind,id,dmap.itemname\nput,item,7,A\nput,item,8,D\ndrop,item,9,\nput,item,10,E\n";

/// What `follow` writes of the songs and the change, for two rounds.
const AROUND: &[u8] = b"revision 3 full put 3 drop 0 rows 3\n\
revision 4 delta put 2 drop 1 rows 3\n\
mlcl list\n  mlit list\n    miid u32 7\n    minm text \"A\"\n  mlit list\n    miid u32 8\n    minm text \"D\"\n  mlit list\n    miid u32 10\n    minm text \"E\"\n";

/// What `follow` writes of the changed songs, for one round.
const AFTER: &[u8] = b"revision 4 full put 3 drop 0 rows 3\n\
mlcl list\n  mlit list\n    miid u32 7\n    minm text \"A\"\n  mlit list\n    miid u32 8\n    minm text \"D\"\n  mlit list\n    miid u32 10\n    minm text \"E\"\n";

/// What `follow` writes if its connection fails behind the first round.
const FAILED: &[u8] = b"revision 3 full put 3 drop 0 rows 3\nnetwork failed\n";

const FOLLOW: [&str; 3] = ["follow", "here:3689", "2"];

const FOLLOW_ONCE: [&str; 3] = ["follow", "here:3689", "1"];

/// The requests of `follow` for one round, in the second session of a share.
const SECOND: &[u8] =
    b"GET /content-codes HTTP/1.1\r\nHost: here:3689\r\nClient-DAAP-Version: 3.0\r\n\r\nGET /login HTTP/1.1\r\nHost: here:3689\r\nClient-DAAP-Version: 3.0\r\n\r\nGET /databases/1/items?session-id=2 HTTP/1.1\r\nHost: here:3689\r\nClient-DAAP-Version: 3.0\r\n\r\nGET /logout?session-id=2 HTTP/1.1\r\nHost: here:3689\r\nClient-DAAP-Version: 3.0\r\n\r\n";

/// The requests of a player that waits until the songs are changed.
const UNTIL_CHANGED: &[u8] =
    b"GET /login HTTP/1.1\r\n\r\nGET /update?session-id=1&revision-number=3 HTTP/1.1\r\n\r\n";

/// Returns a connection whose input is `bytes`, of which a read returns at most `per_read`.
fn link(alloc: Global, bytes: &[u8], per_read: usize) -> Result<MemLink, AllocError>
    requires { 0 < per_read }
    ensures { IfOk result IsNew }
{
    let source = MemSource::new(alloc, bytes, per_read, &[])?;
    Ok(MemLink::new(source, MemSink::new(alloc, 1_048_576, 4096, &[])?))
}

/// Returns a listener with two connections, one after the other.
fn listener(alloc: Global, first: &[u8], second: &[u8]) -> Result<MemListener, AllocError>
    ensures { IfOk result is_new_listener }
{
    let mut listener = MemListener::new(alloc, &[], 4)?;
    listener.add(link(alloc, first, 4096)?)?;
    listener.add(link(alloc, second, 4096)?)?;
    Ok(listener)
}

/// Runs the program with the arguments `words` over `net`.
fn run<R: Threads + Wait + Clock + Sync>(
    rt: &R,
    alloc: Global,
    words: &[&str],
    records: &[u8],
    mut net: MemNet,
) -> Result<Ran, AllocError> {
    let mut output = output(alloc)?;
    let status = status_of(rt, alloc, &mut net, words, records, &mut output);
    Ok(Ran {
        status: status.unwrap_or(9),
        output: output.into_taken(),
        net,
    })
}

/// Runs a client whose connection has `input` to be read.
fn run_client<R: Threads + Wait + Clock + Sync>(
    rt: &R,
    alloc: Global,
    words: &[&str],
    records: &[u8],
    input: &[u8],
) -> Result<Ran, AllocError> {
    let mut net = MemNet::with_room(alloc, &[], 2, 2)?;
    net.add_link(link(alloc, input, 4096)?)?;
    run(rt, alloc, words, records, net)
}

/// Serves the songs to two players, one after the other, and meanwhile to two editors.
fn run_share<R: Threads + Wait + Clock + Sync>(
    rt: &R,
    alloc: Global,
    waiting: &[u8],
    player: &[u8],
    idle: &[u8],
    editor: &[u8],
) -> Result<Ran, AllocError> {
    let mut net = MemNet::with_room(alloc, &[], 2, 4)?;
    net.add_listener(listener(alloc, waiting, player)?)?;
    net.add_listener(listener(alloc, idle, editor)?)?;
    let words = [
        "serve",
        "here:3689",
        "here:3690",
        "--workers=1",
        "--editors=1",
    ];
    run(rt, alloc, &words, SONGS, net)
}

/// Returns what was written on the connection that was closed after `earlier` others. A share closes those of two players
/// and then those of two editors.
fn written(ran: &Ran, earlier: usize) -> &[u8] {
    let Some(links) = ran.net.written() else {
        return b"";
    };
    match links.get(earlier) {
        Some(link) => link.bytes.as_slice(),
        None => b"",
    }
}

/// Returns `bytes` without the last `count`.
fn without_last(bytes: &[u8], count: usize) -> &[u8] {
    let (front, _) = bytes.split_at(bytes.len().saturating_sub(count));
    front
}

/// Returns what `edit` writes for `change`.
fn edit_of<R: Threads + Wait + Clock + Sync>(
    rt: &R,
    alloc: Global,
    change: &[u8],
) -> Result<Vec<u8>, AllocError> {
    let ran = run_client(rt, alloc, &["edit", "here:3690"], change, b"")?;
    Vec::from_slice(alloc, written(&ran, 0))
}

/// Checks that a run of `edit` for `change` met `share` as its second editor, and that it wrote revision 4.
fn is_acknowledged<R: Threads + Wait + Clock + Sync + Abort>(
    rt: &R,
    alloc: Global,
    share: &Ran,
    change: &[u8],
    edit: &[u8],
) -> Result<(), Fail> {
    assert_eq!(rt; share.status, 0);
    let ran = run_client(rt, alloc, &["edit", "here:3690"], change, written(share, 3))?;
    assert_eq!(rt; written(&ran, 0), edit);
    has_told(rt, &ran, 0, b"revision 4\n")
}

/// Serves a player with the requests `sent`, and an editor that sends `edit` after another one. The higher `tries`, the
/// more that one requests, and the later the edit comes.
fn serve_beside<R: Threads + Wait + Clock + Sync>(
    rt: &R,
    alloc: Global,
    sent: &[u8],
    edit: &[u8],
    tries: usize,
) -> Result<Ran, AllocError> {
    let first = "GET / HTTP/1.1\r\n\r\n".repeat(alloc, tries.saturating_mul(100))?;
    run_share(rt, alloc, b"", sent, first.as_bytes(), edit)
}

/// A run of `follow` and one of `serve`, which may have met.
#[derive(Drop)]
struct Meeting {
    mirror: Ran,
    share: Ran,
}

/// Serves a mirror with the requests `sent`. The last `lost` bytes of the replies do not reach it.
fn meet<R: Threads + Wait + Clock + Sync>(
    rt: &R,
    alloc: Global,
    sent: &[u8],
    lost: usize,
    edit: &[u8],
    tries: usize,
) -> Result<Meeting, AllocError> {
    let share = serve_beside(rt, alloc, sent, edit, tries)?;
    let input = without_last(written(&share, 1), lost);
    let mirror = run_client(rt, alloc, &FOLLOW, b"", input)?;
    Ok(Meeting { mirror, share })
}

// Nothing makes an edit wait for the first listing of a mirror. If it comes before, the runs do not meet.
fn meet_at_last<R: Threads + Wait + Clock + Sync>(
    rt: &R,
    alloc: Global,
    sent: &[u8],
    lost: usize,
    edit: &[u8],
) -> Result<Meeting, AllocError> {
    for tries in 1..100 {
        let meeting = meet(rt, alloc, sent, lost, edit, tries)?;
        if written(&meeting.mirror, 0) == sent {
            return Ok(meeting);
        }
    }
    meet(rt, alloc, sent, lost, edit, 100)
}

#[test]
fn follow_shows_a_share_before_and_after_an_edit(rt: HostRuntime) -> Result<(), Fail> {
    let alloc = rt.alloc();
    let edit = edit_of(&rt, alloc, CHANGE)?;
    let met = meet_at_last(&rt, alloc, TWO_ROUNDS, 0, edit.as_slice())?;
    assert_eq!(rt; written(&met.mirror, 0), TWO_ROUNDS);
    is_acknowledged(&rt, alloc, &met.share, CHANGE, edit.as_slice())?;
    has_told(&rt, &met.mirror, 0, AROUND)
}

#[test]
fn follow_shows_what_edit_acknowledged(rt: HostRuntime) -> Result<(), Fail> {
    let alloc = rt.alloc();
    let edit = edit_of(&rt, alloc, CHANGE)?;
    let share = run_share(&rt, alloc, UNTIL_CHANGED, SECOND, b"", edit.as_slice())?;
    is_acknowledged(&rt, alloc, &share, CHANGE, edit.as_slice())?;
    let mirror = run_client(&rt, alloc, &FOLLOW_ONCE, b"", written(&share, 1))?;
    assert_eq!(rt; written(&mirror, 0), SECOND);
    has_told(&rt, &mirror, 0, AFTER)
}

/// Returns what `follow` writes to a share with the replies `names`.
fn requests_for<R: Threads + Wait + Clock + Sync>(
    rt: &R,
    alloc: Global,
    names: &str,
) -> Result<Vec<u8>, AllocError> {
    let ran = run_client(rt, alloc, &FOLLOW, b"", replies(alloc, names)?.as_slice())?;
    Vec::from_slice(alloc, written(&ran, 0))
}

/// Returns what `follow` writes if the connection ends inside its second round, after `count` bytes of input.
fn ended_at(alloc: Global, count: usize) -> Result<String, AllocError> {
    format!(in alloc; "revision 3 full put 3 drop 0 rows 3\npeer: ended at {count}\n")
}

/// Serves a mirror with the requests `sent`, of which the last is an update. Its last 60 bytes do not reach the share.
fn serve_in_part<R: Threads + Wait + Clock + Sync>(
    rt: &R,
    alloc: Global,
    sent: &[u8],
) -> Result<Ran, AllocError> {
    run_share(rt, alloc, b"", without_last(sent, 60), b"", b"")
}

#[test]
fn a_connection_that_lost_a_request_ends_the_lines(rt: HostRuntime) -> Result<(), Fail> {
    let alloc = rt.alloc();
    let sent = requests_for(&rt, alloc, "codes login item")?;
    let share = serve_in_part(&rt, alloc, sent.as_slice())?;
    let mirror = run_client(&rt, alloc, &FOLLOW, b"", written(&share, 1))?;
    assert_eq!(rt; written(&mirror, 0), sent.as_slice());
    let text = ended_at(alloc, written(&share, 1).len())?;
    has_told(&rt, &mirror, 7, text.as_bytes())
}

// Each of the first three requests takes two writes, and the eighth write fails.
#[test]
fn a_connection_that_fails_ends_the_lines(rt: HostRuntime) -> Result<(), Fail> {
    let alloc = rt.alloc();
    let sent = requests_for(&rt, alloc, "codes login item")?;
    let share = serve_in_part(&rt, alloc, sent.as_slice())?;
    let net = net_of(alloc, written(&share, 1), 8)?;
    let mirror = run(&rt, alloc, &FOLLOW, b"", net)?;
    assert!(rt; written(&mirror, 0).starts_with(without_last(sent.as_slice(), 60)));
    has_told(&rt, &mirror, 6, FAILED)
}

#[test]
fn a_connection_that_lost_the_end_of_a_delta_ends_the_lines(rt: HostRuntime) -> Result<(), Fail> {
    let alloc = rt.alloc();
    let edit = edit_of(&rt, alloc, CHANGE)?;
    let sent = requests_for(&rt, alloc, "codes login item revision")?;
    let met = meet_at_last(&rt, alloc, sent.as_slice(), 1, edit.as_slice())?;
    assert_eq!(rt; written(&met.mirror, 0), sent.as_slice());
    let text = ended_at(alloc, written(&met.share, 1).len().saturating_sub(1))?;
    has_told(&rt, &met.mirror, 7, text.as_bytes())
}
