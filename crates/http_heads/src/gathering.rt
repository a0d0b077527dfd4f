//! Messages gathered from bytes.

ghost use Rattle.std.specs.Prelude.{◌≡◌, ◌≤◌, ◌<◌, ◌+◌, ◌⊎◌, [], ◌++◌, length, take, false, true, Some, None, Ok, Err, IfOk, IfErr, IfSome, IsNone, ◌↔◌, MatchOption, MatchResult};
ghost use Rattle.http_heads.specs.Frames.{IsFramed};
ghost use Rattle.http_heads.specs.Gathering.{Gathered, kept, is_whole, IsIdle, IsAt, Takes, TakesSome, IsStopped, phase_behind, limit_of};
ghost use Rattle.http_heads.specs.Heads.{Tells};
ghost use Rattle.http_heads.specs.Limits.{head_limit};
ghost use Rattle.http_heads.specs.Messages.{HasHead};
ghost use Rattle.http_heads.specs.Scanning.{start, after};

use crate::buffer::Buffer;
use crate::heads::read_head;
use crate::kind::Kind;
use crate::limits::{HEAD_BYTES, LINES};
use crate::refusal::HeadError;
use crate::replies::read_reply_head;
use crate::scanning::Scan;
use std::alloc::Global;
use std::marker::Model;

/// How much of a message has come.
#[derive(Clone, Copy, PartialEq, Eq)]
pub enum Phase {
    /// A part of its head; `scan` searches for the end.
    Frame { scan: Scan },
    /// Its head, which states that the body has `told` bytes, and a part of the body.
    Body { told: usize },
    Whole,
}

/// Gathers messages of one kind, one after another. Each byte of a head is scanned once for the head's end.
pub struct Gatherer {
    kind: Kind,
    head: Buffer,
    body: Buffer,
    phase: Phase,
}

impl Drop for Gatherer {
    fn drop(self) {
        let Gatherer {
            kind: _,
            head: _,
            body: _,
            phase: _,
        } = self;
    }
}

impl Model for Gatherer {
    ghost use Rattle.http_heads.specs.Gathering.{Gathered};

    ghost Value = { Gathered };

    ghost view = { λ a. record { kind = a.kind; message = record { head = a.head; body = a.body }; phase = a.phase } };
}

impl Gatherer {
    /// Returns a gatherer without bytes.
    pub fn new(alloc: Global, kind: Kind) -> Gatherer
        ensures kind { result.kind ≡ kind }
        ensures idle { IsIdle result }
    {
        Gatherer {
            kind,
            head: Buffer::new(alloc),
            body: Buffer::new(alloc),
            phase: Phase::Frame { scan: Scan::new() },
        }
    }

    /// Takes bytes of `piece` up to the end of the message, or all of them, and returns how many. After an error
    /// only the buffered bytes are specified: `refused_len` counts them, and `clear` discards them.
    /// Returns an error if no message can begin with the bytes so far, and `Memory` if allocation fails.
    pub fn take(&mut self, piece: &[u8]) -> Result<usize, HeadError>
        requires at { IsAt self.old }
        requires open { is_whole self.old.phase ≡ false }
        ensures kind { self.new.kind ≡ self.old.kind }
        ensures takes { Takes self.old piece.now self.new result }
    {
        match self.phase {
            Phase::Frame { scan } => self.take_head(scan, piece),
            Phase::Body { told } => self.take_body(told, piece),
            Phase::Whole => Ok(0),
        }
    }

    /// Returns the head and the body of the message if it is complete.
    pub fn message(&self) -> Option<(&[u8], &[u8])>
        ensures none { IsNone result ↔ (is_whole self.now.phase ≡ false) }
        ensures parts { IfSome result (λ m. (m.0.now ≡ self.now.message.head)
            × (m.1.now ≡ self.now.message.body)) }
    {
        match self.phase {
            Phase::Whole => Some((self.head.as_slice(), self.body.as_slice())),
            Phase::Frame { scan: _ } | Phase::Body { told: _ } => None,
        }
    }

    /// Returns how many bytes are buffered.
    pub fn len(&self) -> usize
        requires { IsAt self.now }
        ensures len { result ≡ length (kept self.now) }
        ensures few { result ≤ head_limit + limit_of self.now.kind }
    {
        self.head.len() + self.body.len()
    }

    /// Returns how many bytes are buffered after an error: those up to the one that shows it.
    pub fn refused_len(&self) -> usize
        requires { length (kept self.now) ≤ head_limit }
        ensures { result ≡ length (kept self.now) }
    {
        self.head.len() + self.body.len()
    }

    /// Discards all buffered bytes.
    pub fn clear(&mut self)
        ensures kind { self.new.kind ≡ self.old.kind }
        ensures idle { IsIdle self.new }
    {
        self.head.clear();
        self.body.clear();
        self.phase = Phase::Frame { scan: Scan::new() };
    }

    /// Returns the body without copying it, and discards the rest. Does not allocate.
    pub fn body(&mut self) -> Vec<u8>
        ensures body { result.items ≡ self.old.message.body }
        ensures kind { self.new.kind ≡ self.old.kind }
        ensures idle { IsIdle self.new }
    {
        let body = self.body.take_out();
        self.clear();
        body
    }

    // Takes bytes of the head up to its end, and then bytes of the body.
    fn take_head(&mut self, scan: Scan, piece: &[u8]) -> Result<usize, HeadError>
        requires at { IsAt self.old }
        requires phase { self.old.phase ≡ Phase.Frame scan }
        ensures kind { self.new.kind ≡ self.old.kind }
        ensures takes { Takes self.old piece.now self.new result }
    {
        let room = HEAD_BYTES - self.head.len();
        let (sought, _) = piece.split_at(room.min(piece.len()));
        let mut scan = scan;
        match scan.find_end(sought) {
            Some(n) => self.end_head(scan.full, n, piece),
            None => self.go_on(scan, sought),
        }
    }

    // Takes bytes within which the head does not end.
    fn go_on(&mut self, scan: Scan, sought: &[u8]) -> Result<usize, HeadError>
        requires room { length self.old.message.head + length sought.now ≤ head_limit }
        requires goes { after start (self.old.message.head ++ sought.now) ≡ Some scan }
        requires body { self.old.message.body ≡ [] }
        ensures kind { self.new.kind ≡ self.old.kind }
        ensures all { IfOk result (λ n. (n ≡ length sought.now)
            × (length (kept self.new) < head_limit)) }
        ensures takes { Takes self.old sought.now self.new result }
    {
        self.head.extend(sought)?;
        if self.head.len() == HEAD_BYTES {
            return Err(HeadError::HeadTooLarge);
        }
        self.phase = Phase::Frame { scan };
        Ok(sought.len())
    }

    // Takes the first `n` bytes, which end the head, and then bytes of the body.
    fn end_head(&mut self, lines: u64, n: usize, piece: &[u8]) -> Result<usize, HeadError>
        requires within { n ≤ length piece.now }
        requires framed { IsFramed (self.old.message.head ++ take n piece.now) lines }
        requires short { length (self.old.message.head ++ take n piece.now) ≤ head_limit }
        requires body { self.old.message.body ≡ [] }
        ensures kind { self.new.kind ≡ self.old.kind }
        ensures takes { Takes self.old piece.now self.new result }
    {
        let (front, rest) = piece.split_at(n);
        self.head.extend(front)?;
        let told = told_by(self.kind, self.head.as_slice(), lines)?;
        Ok(n + self.take_body(told, rest)?)
    }

    // Takes bytes of the body, up to its end.
    fn take_body(&mut self, told: usize, piece: &[u8]) -> Result<usize, HeadError>
        requires head { HasHead self.old.kind self.old.message.head told }
        requires within { length self.old.message.body ≤ told }
        ensures same { (self.new.kind ≡ self.old.kind)
            × (self.new.message.head ≡ self.old.message.head) }
        ensures takes { MatchResult result (λ n. TakesSome self.old piece.now self.new n)
            (λ e. e ≡ HeadError.Memory) }
    {
        let missing = (told - self.body.len()).min(piece.len());
        let (front, _) = piece.split_at(missing);
        self.body.extend(front)?;
        self.phase = phase_behind(told, self.body.len());
        Ok(missing)
    }
}

fn phase_behind(told: usize, len: usize) -> Phase
    ensures { result ≡ phase_behind told len }
{
    if len < told {
        Phase::Body { told }
    } else {
        Phase::Whole
    }
}

// Returns the length of the body after a framed head with `lines` full lines.
fn told_by(kind: Kind, framed: &[u8], lines: u64) -> Result<usize, HeadError>
    ensures { Tells kind framed.now lines result }
{
    match kind {
        Kind::Request => told_by_request(framed, lines),
        Kind::Reply => told_by_reply(framed),
    }
}

fn told_by_request(framed: &[u8], lines: u64) -> Result<usize, HeadError>
    ensures { Tells Kind.Request framed.now lines result }
{
    if lines > LINES {
        return Err(HeadError::HeadTooLarge);
    }
    match read_head(framed) {
        Ok(head) => Ok(head.len),
        Err(error) => Err(error),
    }
}

fn told_by_reply(framed: &[u8]) -> Result<usize, HeadError>
    ensures { Tells Kind.Reply framed.now 0 result }
{
    match read_reply_head(framed) {
        Some(head) => Ok(head.len),
        None => Err(HeadError::Head),
    }
}
