//! `serve_command`: shares that are served over networks in memory.

ghost use Rattle.std.specs.Prelude.{IfOk};
ghost use Rattle.outside_net.specs.MemListener.{IsNew as is_new_listener};
ghost use Rattle.outside_net.specs.MemLink.{IsNew};
ghost use Rattle.serve_command.specs.Terms.{MayServe};

use dmap_tags::Text;
use outside_net::{MemFiles, MemLink, MemListener, MemNet, MemSink, MemSource, Net, Sink, Source};
use serve_command::{LinkReports, Outcome, Serving, serve};
use std::alloc::{AllocError, Global};
use std::sync::Wait;
use std::test::Fail;
use std::thread::Threads;
use std::time::Clock;

const SONGS: &[u8] =
    b"op,kind,id,dmap.itemname,daap.songartist,daap.songalbum,com.apple.itunes.mediakind\n\
put,item,1,Hey,Ann,One,1\n\
put,item,2,it's late,Bob,,1\n";

/// A login, and the listing of the songs that have an album.
const PLAYER: &[u8] = b"GET /login HTTP/1.1\r\n\r\n\
GET /databases/1/items?session-id=1&query=(('com.apple.itunes.mediakind:1','com.apple.itunes.mediakind:32')+'daap.songalbum!:') HTTP/1.1\r\n\r\n";

/// One edit, and the stop.
pub(crate) const EDITOR: &[u8] = b"POST /edit HTTP/1.1\r\nContent-Length: 38\r\n\r\n\
op,kind,id,dmap.itemname\nput,item,9,Z\n\
POST /stop HTTP/1.1\r\n\r\n";

/// Returns the settings of a share with the default name, and one worker at each address.
fn terms(alloc: Global) -> Result<Serving, AllocError>
    ensures { IfOk result MayServe }
{
    Ok(Serving {
        listen: Text::of(alloc, "here:3689")?,
        edit: Text::of(alloc, "here:3690")?,
        name: Text::of(alloc, "daapshare")?,
        keep: 256,
        workers: 1,
        editors: 1,
        file: None,
    })
}

/// Returns a connection whose input is `bytes`.
fn link(alloc: Global, bytes: &[u8]) -> Result<MemLink, AllocError>
    ensures { IfOk result IsNew }
{
    let source = MemSource::new(alloc, bytes, 4096, &[])?;
    Ok(MemLink::new(source, MemSink::new(alloc, 65536, 4096, &[])?))
}

/// Returns a listener with such a connection. Its call of `accept` with the number `failed_wait` fails (0: none).
pub(crate) fn listener(
    alloc: Global,
    bytes: &[u8],
    failed_wait: u64,
) -> Result<MemListener, AllocError>
    ensures { IfOk result is_new_listener }
{
    let mut listener = MemListener::new(alloc, &[failed_wait], 4)?;
    listener.add(link(alloc, bytes)?)?;
    Ok(listener)
}

/// Returns a network with a listener with a player, of whose calls one fails, and one with an editor.
fn net_of(alloc: Global, failed_wait: u64) -> Result<MemNet, AllocError> {
    let mut net = MemNet::with_room(alloc, &[], 4, 8)?;
    net.add_listener(listener(alloc, PLAYER, failed_wait)?)?;
    net.add_listener(listener(alloc, EDITOR, 0)?)?;
    Ok(net)
}

// Without clauses, so that other proofs do not unfold the specification of the command.
fn served<I: Source, W: Sink, N: Net, R: Threads + Wait + Clock + Sync>(
    rt: &R,
    alloc: Global,
    input: &mut I,
    output: &mut W,
    net: &mut N,
) -> Result<Outcome, AllocError> {
    let terms = terms(alloc)?;
    Ok(serve(rt, alloc, &terms, input, output, &mut MemFiles::new(), net))
}

fn requests_in(links: &LinkReports) -> usize {
    let mut count: usize = 0;
    for worker in links.as_slice() {
        for link in worker {
            count = count.saturating_add(link.served.as_slice().len());
        }
    }
    count
}

/// What a run left: its status, its output, and the numbers of entries in the history of its share, of requests, and of
/// workers whose connections are reported.
#[derive(Drop)]
struct Ran {
    status: u8,
    output: Vec<u8>,
    entries: Option<usize>,
    requests: usize,
    workers: usize,
}

fn left(outcome: Outcome, output: MemSink) -> Ran {
    let entries = match &outcome.history {
        Some(entries) => Some(entries.as_slice().len()),
        None => None,
    };
    let requests = requests_in(&outcome.links);
    Ran {
        status: outcome.status,
        output: output.into_taken(),
        entries,
        requests,
        workers: outcome.links.into_vec().len(),
    }
}

/// Serves the share of `records` over `net`.
fn run<R: Threads + Wait + Clock + Sync>(
    rt: &R,
    alloc: Global,
    records: &[u8],
    net: &mut MemNet,
) -> Result<Ran, AllocError> {
    let mut input = MemSource::new(alloc, records, 4096, &[])?;
    let mut output = MemSink::new(alloc, 4096, 4096, &[])?;
    let outcome = served(rt, alloc, &mut input, &mut output, net)?;
    Ok(left(outcome, output))
}

/// Returns whether one listener was opened at each of two addresses.
fn has_two_listeners(net: &MemNet) -> bool {
    matches!(net.asked(), Some([players, editors]) if players.listeners() == 1 && editors.listeners() == 1)
}

fn lines_of(alloc: Global, requests: usize) -> Result<String, AllocError> {
    format!(in alloc;
        "serving daapshare at revision 3\nended at revision 4, links 2, requests {requests}\n"
    )
}

#[test]
fn a_player_and_an_editor_are_served(rt: HostRuntime) -> Result<(), Fail> {
    let alloc = rt.alloc();
    let mut net = net_of(alloc, 0)?;
    let ran = run(&rt, alloc, SONGS, &mut net)?;
    assert_eq!(rt; ran.status, 0);
    let lines = lines_of(alloc, ran.requests)?;
    assert_eq!(rt; ran.output.as_slice(), lines.as_bytes());
    assert_eq!(rt; ran.workers, 2);
    assert!(rt; ran.entries.unwrap_or(0) >= 3);
    assert!(rt; has_two_listeners(&net));
    Ok(())
}

#[test]
fn a_listener_that_fails_ends_its_worker_alone(rt: HostRuntime) -> Result<(), Fail> {
    let alloc = rt.alloc();
    let mut net = net_of(alloc, 1)?;
    let ran = run(&rt, alloc, SONGS, &mut net)?;
    assert_eq!(rt; ran.status, 6);
    assert_eq!(rt;
        ran.output.as_slice(),
        b"serving daapshare at revision 3\nended at revision 4, links 1, requests 2\nnetwork failed\n".as_slice()
    );
    Ok(())
}
