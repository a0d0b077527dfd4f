//! Lines on standard error about connections. What a client sent is escaped.
use crate::tcp::address::Address;
use std::io::Eprint;
use std::net::SocketAddr;
use std::time::{Clock, Instant};

// The most bytes of a request's first line that are written.
const LINE_BYTES: usize = 80;

/// What the log knows of a connection. The numbers of bytes stay at their maximum.
#[derive(Drop)]
pub(super) struct LinkLog {
    peer: SocketAddr,
    start: Option<Instant>,
    read: u64,
    written: u64,
    // The first bytes that came after the last reply.
    line: [u8; LINE_BYTES],
    line_len: usize,
}

impl LinkLog {
    /// Writes that a connection was accepted.
    pub(super) fn begin<R: Eprint + Clock>(rt: &R, peer: SocketAddr, address: &Address) -> LinkLog {
        let free = address.free_workers();
        let _written = eprintln!(rt;
            "daapshare: {peer} connected to {}, {free} of {} workers are free",
            address.place, address.number
        );
        LinkLog {
            peer,
            start: Instant::now(rt).ok(),
            read: 0,
            written: 0,
            line: [0; LINE_BYTES],
            line_len: 0,
        }
    }

    /// Notes bytes that came.
    pub(super) fn note_read(&mut self, bytes: &[u8]) {
        self.read = self.read.saturating_add(bytes.len() as u64);
        for byte in bytes {
            let Some(slot) = self.line.get_mut(self.line_len) else {
                return;
            };
            *slot = *byte;
            self.line_len = self.line_len.saturating_add(1);
        }
    }

    /// Notes that the first `n` bytes of `piece` were written. The first ones after a request begin its reply, so its
    /// line is written then.
    pub(super) fn note_written<R: Eprint>(&mut self, rt: &R, piece: &[u8], n: usize) {
        if self.line_len > 0 {
            if let (Some(head), Some(status)) = (self.line.get(..self.line_len), piece.get(9..12)) {
                report_request(rt, self.peer, head, status);
            }
            self.line_len = 0;
        }
        self.written = self.written.saturating_add(n as u64);
    }

    /// Writes that the connection is closed, by an error or without one.
    pub(super) fn end<R: Eprint + Clock>(&self, rt: &R, is_faulted: bool) {
        let tenths = match self.start.and_then(|start| start.elapsed(rt).ok()) {
            Some(spent) => spent.as_millis() / 100,
            None => 0,
        };
        let how = if is_faulted { "cut off" } else { "closed" };
        let (seconds, tenth) = (tenths / 10, tenths % 10);
        let _written = eprintln!(rt;
            "daapshare: {} {how} after {seconds}.{tenth} s, {} bytes read, {} written",
            self.peer, self.read, self.written
        );
    }
}

// Writes the first line of a request, and the status of its reply.
fn report_request<R: Eprint>(rt: &R, peer: SocketAddr, head: &[u8], status: &[u8]) {
    let is_end = |byte: &u8| matches!(*byte, b'\r' | b'\n');
    let end = head.iter().position(is_end).unwrap_or(head.len());
    if let Some(line) = head.get(..end) {
        let (line, status) = (line.escape_ascii(), status.escape_ascii());
        let _written = eprintln!(rt; "daapshare: {peer} \"{line}\" {status}");
    }
}

/// Writes that all workers of an address are busy while a connection waits, once until one is free.
pub(super) fn report_crowd<R: Eprint>(rt: &R, address: &Address) {
    if address.begin_report() {
        let (place, number) = (address.place, address.number);
        let _written = eprintln!(rt;
            "daapshare: a connection waits at {place}: all workers ({number}) are busy"
        );
    }
}
