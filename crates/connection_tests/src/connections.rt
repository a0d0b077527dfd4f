//! `share_server`: connections in memory, each of a new share.

ghost use Rattle.std.specs.Prelude.{IfOk};
ghost use Rattle.share_lock.specs.Passes.{lock_id, IsReady};

use crate::shares;
use edit_keeping::Unkept;
use outside_net::{MemLink, MemSink, MemSource};
use share_asks::{Ask, BodyForm, Role, Want};
use share_core::Share;
use share_lock::{Bell, Pass, ShareLock};
use share_server::{Answered, LinkEnd, LinkReport, answer_request, serve_link};
use std::alloc::{AllocError, Global};
use std::process::Abort;
use std::sync::Wait;
use std::test::Fail;
use std::time::{Clock, Duration};

/// An editor's connection: what comes over it, and which of its writes and probes fail.
#[derive(Drop)]
pub struct Trial<'a> {
    budget: u32,
    input: &'a [u8],
    failing: &'a [u64],
    failing_probes: &'a [u64],
}

pub fn edits<'a>(input: &'a str) -> Trial<'a> {
    Trial {
        budget: 100,
        input: input.as_bytes(),
        failing: &[],
        failing_probes: &[],
    }
}

/// Opens a share without items, for two lock handles.
pub fn opened(alloc: Global) -> Result<(ShareLock<Share>, Pass<Share>), AllocError>
    ensures { IfOk result (λ r. IsReady (lock_id r.0) r.1) }
{
    let share = shares::opened(alloc)?;
    ShareLock::open(alloc, share, 2)
}

/// Returns the connection. It comes in chunks of 20 bytes.
pub fn coming(alloc: Global, trial: &Trial<'_>) -> Result<MemLink, AllocError> {
    let input = MemSource::new(alloc, trial.input, 20, &[])?;
    let output = MemSink::new(alloc, 10_000, 50, trial.failing)?;
    MemLink::with_failing_probes(alloc, input, output, trial.failing_probes)
}

/// Serves a connection of a new share. Returns its report.
pub fn serve_new<R: Wait + Clock>(
    rt: &R,
    alloc: Global,
    link: &mut MemLink,
    role: Role,
    budget: u32,
) -> Result<LinkReport, AllocError> {
    let (lock, mut pass) = opened(alloc)?;
    Ok(serve_link(
        rt,
        alloc,
        &lock,
        &Bell::new(),
        &mut pass,
        link,
        role,
        budget,
    ))
}

/// Serves the connection. Returns its report and what it took.
fn tried<R: Wait + Clock>(
    rt: &R,
    alloc: Global,
    trial: &Trial<'_>,
) -> Result<(LinkReport, MemLink), AllocError> {
    let mut link = coming(alloc, trial)?;
    let report = serve_new(rt, alloc, &mut link, Role::Edit, trial.budget)?;
    Ok((report, link))
}

pub fn has_statuses(report: &LinkReport, statuses: &[u16]) -> bool {
    report
        .served
        .as_slice()
        .iter()
        .map(|s| s.status)
        .eq(statuses.iter().copied())
}

/// Serves the connection, and compares how it ended, the status of each request and the bytes.
fn tells<R: Wait + Clock + Abort>(
    rt: &R,
    alloc: Global,
    trial: &Trial<'_>,
    end: LinkEnd,
    statuses: &[u16],
    written: &[u8],
) -> Result<(), AllocError> {
    let (report, link) = tried(rt, alloc, trial)?;
    assert!(rt; report.end == end);
    assert!(rt; has_statuses(&report, statuses));
    assert!(rt; link.taken() == written);
    Ok(())
}

pub const LOGIN: &str = "GET /login HTTP/1.1\r\n\r\n";

const LOGGED_IN: &[u8] =
    b"HTTP/1.1 200 OK\r\nContent-Type: application/x-dmap-tagged\r\nContent-Length: 32\r\n\r\nmlog\0\0\0\x18mstt\0\0\0\x04\0\0\0\xc8mlid\0\0\0\x04\0\0\0\x01";

const LAST_LOGGED_IN: &[u8] =
    b"HTTP/1.1 200 OK\r\nContent-Type: application/x-dmap-tagged\r\nContent-Length: 32\r\nConnection: close\r\n\r\nmlog\0\0\0\x18mstt\0\0\0\x04\0\0\0\xc8mlid\0\0\0\x04\0\0\0\x01";

#[test]
fn an_edit_is_read_back(rt: HostRuntime) -> Result<(), Fail> {
    let alloc = rt.alloc();
    let trial = edits(
        "GET /login HTTP/1.1\r\n\r\nPOST /edit HTTP/1.1\r\nContent-Length: 40\r\n\r\nop,kind,id,dmap.itemname\nput,item,7,Hey\nGET /databases/1/items?session-id=1&meta=dmap.itemid HTTP/1.1\r\n\r\n",
    );
    let (report, link) = tried(&rt, alloc, &trial)?;
    assert!(rt; report.end == LinkEnd::Closed && report.number == 0);
    let served = report.served.as_slice();
    assert!(rt; served.len() == 3);
    assert!(rt; served[0].added && served[0].point == 1 && served[0].session == 1);
    assert!(rt; served[1].added && served[1].point == 2 && served[1].status == 200);
    assert!(rt; !served[2].added && served[2].point == 2 && served[2].seen == 1);
    assert!(rt;
        link.taken()
            .ends_with(b"mlit\0\0\0\x0cmiid\0\0\0\x04\0\0\0\x07")
    );
    Ok(())
}

#[test]
fn a_budget_is_spent(rt: HostRuntime) -> Result<(), Fail> {
    let alloc = rt.alloc();
    let trial = Trial {
        budget: 1,
        ..edits("GET /login HTTP/1.1\r\n\r\nGET /login HTTP/1.1\r\n\r\n")
    };
    tells(&rt, alloc, &trial, LinkEnd::Spent, &[200], LAST_LOGGED_IN)?;
    Ok(())
}

#[test]
fn a_write_that_fails_leaves_a_prefix_of_the_replies(rt: HostRuntime) -> Result<(), Fail> {
    // A reply is written in three chunks: two of its head, of 50 bytes and of 30, and one of its body.
    let trial = Trial {
        failing: &[3],
        ..edits(LOGIN)
    };
    tells(
        &rt,
        rt.alloc(),
        &trial,
        LinkEnd::LinkFault,
        &[200],
        b"HTTP/1.1 200 OK\r\nContent-Type: application/x-dmap-tagged\r\nContent-Length: 32\r\n\r\n",
    )?;
    Ok(())
}

fn read_clock<C: Clock>(clock: &C) -> Result<Duration, AllocError> {
    match clock.monotonic() {
        Ok(time) => Ok(time),
        Err(_) => Err(AllocError),
    }
}

// Two probes are two waits of five seconds: between them no turn is taken.
#[test]
fn a_peer_that_went_ends_its_pending_update(rt: HostRuntime) -> Result<(), Fail> {
    let trial = Trial {
        failing_probes: &[2],
        ..edits(
            "GET /login HTTP/1.1\r\n\r\nGET /update?session-id=1&revision-number=2 HTTP/1.1\r\n\r\n",
        )
    };
    let begun = read_clock(&rt)?;
    tells(
        &rt,
        rt.alloc(),
        &trial,
        LinkEnd::LinkFault,
        &[200],
        LOGGED_IN,
    )?;
    let ended = read_clock(&rt)?;
    assert!(rt; ended.saturating_sub(begun) >= Duration::from_secs(10));
    Ok(())
}

/// Returns the answer of a new share to a login.
fn logged_in<R: Wait + Clock>(rt: &R, alloc: Global) -> Result<Answered, AllocError> {
    let mut link = coming(alloc, &edits(""))?;
    let (lock, mut pass) = opened(alloc)?;
    let ask = Ask {
        role: Role::Edit,
        close: false,
        want: Want::Login,
    };
    let bell = Bell::new();
    match answer_request(
        rt,
        alloc,
        &lock,
        &bell,
        &mut pass,
        &mut link,
        &mut Unkept,
        &ask,
    ) {
        Ok(answered) => Ok(answered),
        Err(_) => Err(AllocError),
    }
}

#[test]
fn a_request_is_told_with_what_is_to_be_written(rt: HostRuntime) -> Result<(), Fail> {
    let answered = logged_in(&rt, rt.alloc())?;
    assert!(rt; answered.served.added && answered.served.point == 1 && !answered.stopped);
    let Some(said) = answered.said else {
        return Err(Fail::from(AllocError));
    };
    assert!(rt; said.status == 200 && said.form == BodyForm::Dmap);
    Ok(())
}
