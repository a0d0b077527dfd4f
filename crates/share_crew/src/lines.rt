//! The last line of a share, with the numbers of connections and requests.

ghost use Rattle.std.specs.Prelude.{◌≡◌, ◌<◌, ◌^◌, map, length, IfOk};
ghost use Rattle.share_workers.specs.Works.{all_served};
ghost use Rattle.share_crew.specs.Lines.{ended_line, links_in, requests_in};

use fault_lines::push_number;
use share_server::LinkReport;
use std::alloc::{AllocError, Global};

/// Returns the line that is written after all workers have ended.
///
/// # Errors
///
/// Returns `AllocError` if an allocation fails.
pub fn ended_line_of(
    alloc: Global,
    revision: u32,
    workers: &[Vec<LinkReport>],
) -> Result<Vec<u8>, AllocError>
    requires links { links_in (map (λ l. l.items) workers.now) < 2 ^ 64 }
    requires requests { requests_in (map (λ l. l.items) workers.now) < 2 ^ 64 }
    ensures { IfOk result (λ line. line.items
        ≡ ended_line revision (map (λ l. l.items) workers.now)) }
{
    let mut line = Vec::new(alloc);
    push_number(&mut line, b"ended at revision ", u64::from(revision))?;
    push_number(&mut line, b", links ", links_in(workers))?;
    push_number(&mut line, b", requests ", requests_in(workers))?;
    line.push(b'\n')?;
    Ok(line)
}

// Returns how many connections all workers served.
fn links_in(workers: &[Vec<LinkReport>]) -> u64
    requires { links_in (map (λ l. l.items) workers.now) < 2 ^ 64 }
    ensures { result ≡ links_in (map (λ l. l.items) workers.now) }
{
    let mut count = 0;
    for links in workers {
        count += links.len() as u64;
    }
    count
}

// Returns how many requests were served on all connections.
fn requests_in(workers: &[Vec<LinkReport>]) -> u64
    requires { requests_in (map (λ l. l.items) workers.now) < 2 ^ 64 }
    ensures { result ≡ requests_in (map (λ l. l.items) workers.now) }
{
    let mut count = 0;
    for links in workers {
        count += requests_of(links.as_slice());
    }
    count
}

// Returns how many requests were served on the connections of a worker.
fn requests_of(links: &[LinkReport]) -> u64
    requires { length (all_served links.now) < 2 ^ 64 }
    ensures { result ≡ length (all_served links.now) }
{
    let mut count = 0;
    for link in links {
        count += link.served.as_slice().len() as u64;
    }
    count
}
