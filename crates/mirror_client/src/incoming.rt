//! Bytes that were read ahead of the responses that use them.

ghost use Rattle.std.specs.Prelude.{◌≡◌, ◌≢◌, ◌≤◌, ◌<◌, ◌+◌, ◌^◌, ℕ, List, [], length, drop, Option, IfOk, IfErr, MatchBool, MatchResult};
ghost use Rattle.std.specs.Io.KnownBytes.{Consumes, IsAtEnd, prepend_known};
ghost use Rattle.mirror_client.specs.Points.{Point};
ghost use Rattle.mirror_client.specs.Stopping.{CountsFault, NoReply};

use crate::refusal::FollowError;
use outside_net::{Failed, Source};
use std::alloc::Global;
use std::marker::Model;

// The most bytes of one read.
const PIECE: usize = 8_192;

/// The bytes that were read and not used by a response, and how many bytes responses have used.
pub(crate) struct Incoming {
    bytes: Vec<u8>,
    at: usize,
    used: u64,
}

impl Drop for Incoming {
    fn drop(self) {
        let Incoming {
            bytes: _,
            at: _,
            used: _,
        } = self;
    }
}

impl Model for Incoming {
    ghost use Rattle.std.specs.Prelude.{◌≤◌, drop, vec_len};
    ghost use Rattle.mirror_client.specs.Points.{ReadAhead};

    ghost Value = { ReadAhead };

    ghost view = { λ a. record { unused = drop a.at a.bytes.items; used = a.used } };

    ghost invariant = { λ a. (a.at ≤ vec_len a.bytes) × (vec_len a.bytes ≤ 8192) };
}

impl Incoming {
    pub(crate) fn new(alloc: Global) -> Incoming
        ensures { result ≡ record { unused = []; used = 0 } }
    {
        Incoming {
            bytes: Vec::new(alloc),
            at: 0,
            used: 0,
        }
    }

    pub(crate) fn unused_bytes(&self) -> &[u8]
        ensures bytes { result.now ≡ self.now.unused }
        ensures few { length result.now ≤ 8192 }
    {
        let (_, unused) = self.bytes.as_slice().split_at(self.at);
        unused
    }

    pub(crate) fn used_count(&self) -> u64
        ensures { result ≡ self.now.used }
    {
        self.used
    }

    /// Drops the first `n` unused bytes, which a response used.
    pub(crate) fn skip(&mut self, n: usize)
        requires { n ≤ length self.old.unused }
        ensures { self.new ≡ record self.old { unused = drop n self.old.unused } }
    {
        self.at += n;
    }

    /// Counts a complete response of `n` bytes.
    pub(crate) fn count(&mut self, n: u64)
        requires { self.old.used + n < 2 ^ 64 }
        ensures { self.new ≡ record self.old { used = self.old.used + n } }
    {
        self.used += n;
    }

    /// Reads more bytes if none is unused. Returns whether there are any then.
    pub(crate) fn refill<I: Source>(&mut self, source: &mut I) -> Result<bool, FollowError>
        ensures read { IfOk result (λ _. (owed : Option (List ℕ)) (kept : List ℕ)
            → Consumes owed (prepend_known self.old.unused (I.left source.old)) kept
            → Consumes owed (prepend_known self.new.unused (I.left source.new)) kept) }
        ensures some { IfOk result (λ some. MatchBool some (self.new.unused ≢ [])
            ((self.new.unused ≡ []) × IsAtEnd (I.left source.new))) }
        ensures cause { IfErr result (λ e. (p : Point) → NoReply p e) }
        ensures used { self.new.used ≡ self.old.used }
        ensures beside { I.beside_left source.new ≡ I.beside_left source.old }
        ensures count { MatchResult result (λ _. I.faults source.new ≡ I.faults source.old)
            (λ e. CountsFault (I.faults source.old) (I.faults source.new) e) }
    {
        if !self.unused_bytes().is_empty() {
            return Ok(true);
        }
        let mut piece = [0; PIECE];
        let n = match source.read(&mut piece) {
            Ok(n) => n,
            Err(Failed) => return Err(FollowError::LinkFault),
        };
        self.bytes.clear();
        self.at = 0;
        self.bytes.extend_from_slice(&piece[..n])?;
        Ok(n > 0)
    }
}
