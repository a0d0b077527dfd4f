//! A worker to which as many connections come as it may serve and one more, and a connection with as many requests and
//! one more.
ghost use Rattle.std.specs.Prelude.{◌≡◌, ◌<◌, ◌≤◌, None, refl};

use crate::hiring::run_alone;
use outside_net::{Failed, Faulted, Link, Listener, Sink, Source};
use share_asks::Role;
use share_server::{LinkEnd, LinkReport};
use share_workers::WorkerEnd;
use std::test::Fail;

/// A request that is refused with 404.
const REQUEST: &[u8] = b"GET / HTTP/1.1\r\n\r\n";

/// A connection on which the same request comes again and again. Contracts know nothing of its bytes, and it does not
/// allocate.
#[derive(Drop)]
struct SameLink {
    coming: u32,
}

impl Faulted for SameLink {
    ghost faults = { λ _. 0 };
}

impl Source for SameLink {
    ghost left = { λ _. None };

    ghost beside_left = { λ _. None };

    fn read(&mut self, room: &mut [u8]) -> Result<usize, Failed> {
        let length = REQUEST.len();
        if self.coming == 0 || room.len() < length {
            return Ok(0);
        }
        self.coming -= 1;
        room[..length].copy_from_slice(REQUEST);
        Ok(length)
    }
}

impl Sink for SameLink {
    ghost taken = { λ _. None };

    ghost beside_taken = { λ _. None };

    fn write(&mut self, piece: &[u8]) -> Result<usize, Failed> {
        Ok(piece.len())
    }
}

impl Link for SameLink {
    fn probe(&mut self) -> Result<(), Failed> {
        Ok(())
    }

    ghost read_leaves_taken = { λ _. refl };

    ghost write_leaves_left = { λ _. refl };
}

/// A listener at which `coming` connections are to come, each with `requests` requests.
#[derive(Drop)]
struct SameListener {
    coming: u32,
    requests: u32,
}

impl Faulted for SameListener {
    ghost faults = { λ _. 0 };
}

impl Listener for SameListener {
    type L = SameLink;

    ghost coming = { λ _. None };

    ghost written = { λ _. None };

    fn accept(&mut self) -> Result<Option<SameLink>, Failed> {
        if self.coming == 0 {
            return Ok(None);
        }
        self.coming -= 1;
        Ok(Some(SameLink {
            coming: self.requests,
        }))
    }

    fn wake_acceptors(&mut self) {}

    fn done(&mut self, _link: SameLink) {}
}

/// Returns whether each connection ended as expected, after so many requests, each of which was refused with 404.
fn all_have_ended(reports: &[LinkReport], end: LinkEnd, requests: usize) -> bool {
    reports
        .iter()
        .all(|report| has_ended(report, end, requests))
}

fn has_ended(report: &LinkReport, end: LinkEnd, requests: usize) -> bool {
    let served = report.served.as_slice();
    report.end == end && served.len() == requests && served.iter().all(|s| s.status == 404)
}

#[test]
fn no_worker_serves_a_65537th_link(rt: HostRuntime) -> Result<(), Fail> {
    let listener = SameListener {
        coming: 65_537,
        requests: 0,
    };
    let worker = run_alone(&rt, rt.alloc(), Role::Listen, listener)?;
    assert!(rt; worker.end == WorkerEnd::Spent);
    assert_eq!(rt; worker.reports.len(), 65_536);
    assert!(rt; all_have_ended(worker.reports.as_slice(), LinkEnd::Closed, 0));
    assert!(rt; worker.listener.coming == 1);
    Ok(())
}

#[test]
fn no_connection_has_a_65537th_request(rt: HostRuntime) -> Result<(), Fail> {
    let listener = SameListener {
        coming: 1,
        requests: 65_537,
    };
    let worker = run_alone(&rt, rt.alloc(), Role::Listen, listener)?;
    assert!(rt; worker.end == WorkerEnd::NoMoreLinks);
    assert_eq!(rt; worker.reports.len(), 1);
    assert!(rt; all_have_ended(worker.reports.as_slice(), LinkEnd::Spent, 65_536));
    Ok(())
}
