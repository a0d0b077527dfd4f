//! One worker: it serves connection after connection, and ends.
ghost use Rattle.std.specs.Prelude.{◌≡◌, ◌<◌, [], IfOk};
ghost use Rattle.outside_net.specs.MemLink.{IsNew};

use crate::hiring::{INFO, TWO_INFOS, run_alone};
use outside_net::{MemLink, MemListener, MemSink, MemSource, Returned};
use share_asks::Role;
use share_server::{LinkEnd, LinkReport};
use share_workers::{Worker, WorkerEnd};
use std::alloc::{AllocError, Global};
use std::sync::Wait;
use std::test::Fail;
use std::time::Clock;

fn link(alloc: Global, input: &str) -> Result<MemLink, AllocError>
    ensures { IfOk result IsNew }
{
    let source = MemSource::new(alloc, input.as_bytes(), 4096, &[])?;
    Ok(MemLink::new(source, MemSink::new(alloc, 4096, 4096, &[])?))
}

// Without clauses, so that other proofs do not unfold a listener.
fn new_listener(alloc: Global, failing: &[u64]) -> Result<MemListener, AllocError> {
    MemListener::new(alloc, failing, 8)
}

fn add_link(alloc: Global, listener: &mut MemListener, input: &str) -> Result<(), AllocError> {
    let link = link(alloc, input)?;
    listener.add(link)
}

/// Returns a listener at which connections with `inputs` come. Its waits with the numbers `failing` fail.
fn listener(alloc: Global, inputs: &[&str], failing: &[u64]) -> Result<MemListener, AllocError> {
    let mut listener = new_listener(alloc, failing)?;
    for input in inputs {
        add_link(alloc, &mut listener, *input)?;
    }
    Ok(listener)
}

/// Returns a worker that has served connections with `inputs`, at a listener whose waits `failing` fail.
fn served_in_turn<R: Wait + Clock>(
    rt: &R,
    alloc: Global,
    inputs: &[&str],
    failing: &[u64],
) -> Result<Worker<MemListener>, AllocError> {
    run_alone(rt, alloc, Role::Edit, listener(alloc, inputs, failing)?)
}

fn is_ended(report: &LinkReport, end: LinkEnd) -> bool {
    report.end == end
}

/// Returns whether three connections were served, of which the second ended inside a request.
fn has_served_three(reports: &[LinkReport]) -> bool {
    match reports {
        [whole, cut, two] => {
            is_ended(whole, LinkEnd::Closed)
                && is_ended(cut, LinkEnd::Cut { at: 5 })
                && two.served.as_slice().len() == 2
        }
        _ => false,
    }
}

/// Returns whether three connections were returned without an error, and nothing was written on the second.
fn has_returned_three(written: &[Returned]) -> bool {
    match written {
        [_, cut, _] => cut.bytes.is_empty() && !written.iter().any(|link| link.faulted),
        _ => false,
    }
}

#[test]
fn a_worker_serves_link_after_link(rt: HostRuntime) -> Result<(), Fail> {
    let worker = served_in_turn(&rt, rt.alloc(), &[INFO, "GET /", TWO_INFOS], &[])?;
    assert!(rt; worker.end == WorkerEnd::NoMoreLinks);
    assert!(rt; has_served_three(worker.reports.as_slice()));
    assert!(rt; has_returned_three(worker.listener.written().unwrap_or(&[])));
    Ok(())
}

#[test]
fn a_failed_wait_ends_a_worker(rt: HostRuntime) -> Result<(), Fail> {
    let worker = served_in_turn(&rt, rt.alloc(), &[INFO, INFO], &[2])?;
    assert!(rt; worker.end == WorkerEnd::AcceptFault && worker.reports.len() == 1);
    Ok(())
}
