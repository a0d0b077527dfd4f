//! A page of bytes, which goes to a sink when it is full.

ghost use Rattle.std.specs.Prelude.{◌≡◌, ◌≤◌, ◌+◌, ◌-◌, ◌++◌, [], length, take, OnOk};
ghost use Rattle.std.specs.Int.{w32, to_be_bytes};
ghost use Rattle.dmap_tags.specs.Codes.{code_bytes};
ghost use Rattle.dmap_tags.specs.Spelling.{spelling};
ghost use Rattle.dmap_tags.specs.Tree.{leaf, U32};
ghost use Rattle.listing_plan.specs.Pages.{Pushes};

use dmap_tags::Code;
use outside_net::{Failed, Sink, put_all};
use std::marker::Model;

/// The size of the page of a long body, in bytes. Each page is one write to a connection.
pub(crate) const PAGE_BYTES: usize = 65_536;

/// The size of the page of a short body, in bytes. It is smaller because a page is cleared before it is filled.
pub(crate) const SHORT_PAGE_BYTES: usize = 8_192;

/// How many bytes a copy of a constant size takes. Such a copy needs no call and does not branch on the length.
const COPY_BYTES: usize = 64;

/// Bytes that were pushed and that the sink does not have yet: at most `N`.
#[derive(Drop)]
pub(crate) struct Page<const N: usize> {
    room: [u8; N],
    len: usize,
}

impl<const N: usize> Model for Page<N> {
    ghost use Rattle.std.specs.Prelude.{ℕ, List, take, ◌≤◌};

    ghost Value = { List ℕ };

    ghost view = { λ a. take a.len a.room };

    ghost invariant = { λ a. a.len ≤ N };
}

impl<const N: usize> Page<N> {
    pub(crate) fn new() -> Page<N>
        ensures { result ≡ [] }
    {
        Page {
            room: [0; N],
            len: 0,
        }
    }

    fn as_slice(&self) -> &[u8]
        ensures { result.now ≡ self.now }
    {
        let (bytes, _) = self.room.split_at(self.len);
        bytes
    }

    // How many more bytes fit on the page.
    fn left(&self) -> usize
        ensures { result + length self.now ≡ N }
    {
        N - self.len
    }

    // Puts bytes that fit on the page.
    #[tactic(auto, using(crate::proofs::Moves::filled))]
    pub(crate) fn put(&mut self, bytes: &[u8])
        requires { length self.old + length bytes.now ≤ N }
        ensures put { self.new ≡ self.old ++ bytes.now }
    {
        let end = self.len + bytes.len();
        let room = &mut self.room[..];
        room[self.len..end].copy_from_slice(bytes);
        self.len = end;
    }

    // Puts the first `len` of the bytes. If they are few, it copies a constant number of bytes, and what is put next
    // overwrites those that are too many.
    pub(crate) fn put_first(&mut self, bytes: &[u8], len: usize)
        requires within { len ≤ length bytes.now }
        requires room { length self.old + len ≤ N }
        ensures put { self.new ≡ self.old ++ take len bytes.now }
    {
        if len <= COPY_BYTES && COPY_BYTES <= bytes.len() && COPY_BYTES <= self.left() {
            self.put_few(bytes, len);
            return;
        }
        let (first, _) = bytes.split_at(len);
        self.put(first);
    }

    fn put_few(&mut self, bytes: &[u8], len: usize)
        requires few { len ≤ COPY_BYTES }
        requires bytes { COPY_BYTES ≤ length bytes.now }
        requires room { length self.old + COPY_BYTES ≤ N }
        ensures put { self.new ≡ self.old ++ take len bytes.now }
    {
        let (copied, _) = bytes.split_at(COPY_BYTES);
        let room = &mut self.room[..];
        room[self.len..self.len + COPY_BYTES].copy_from_slice(copied);
        self.len += len;
    }

    // Puts a code and the length of the payload that follows.
    pub(crate) fn put_head(&mut self, of: Code, len: u32)
        requires { length self.old + 8 ≤ N }
        ensures put { self.new ≡ self.old ++ (code_bytes of ++ to_be_bytes w32 len) }
        ensures longer { length self.new ≡ length self.old + 8 }
    {
        self.put(&head(of, len));
    }

    // Puts a tag with a number.
    pub(crate) fn put_number(&mut self, of: Code, n: u32)
        requires { length self.old + 12 ≤ N }
        ensures put { self.new ≡ self.old ++ spelling (leaf of (U32 n)) }
        ensures longer { length self.new ≡ length self.old + 12 }
    {
        self.put_head(of, 4);
        self.put(&n.to_be_bytes());
    }

    // Writes the page to the sink and empties it.
    pub(crate) fn flush<W: Sink>(&mut self, sink: &mut W) -> Result<(), Failed>
        ensures pushes { Pushes [] result (W.taken sink.old) (W.taken sink.new) self.old self.new
            (W.faults sink.old) (W.faults sink.new) }
        ensures empty { OnOk result (self.new ≡ []) }
        ensures beside { W.beside_taken sink.new ≡ W.beside_taken sink.old }
    {
        put_all(sink, self.as_slice())?;
        self.len = 0;
        Ok(())
    }

    // Writes the page to the sink if `len` more bytes do not fit on it.
    pub(crate) fn make_room<W: Sink>(&mut self, sink: &mut W, len: usize) -> Result<(), Failed>
        requires { len ≤ N }
        ensures pushes { Pushes [] result (W.taken sink.old) (W.taken sink.new) self.old self.new
            (W.faults sink.old) (W.faults sink.new) }
        ensures room { OnOk result (length self.new + len ≤ N) }
        ensures beside { W.beside_taken sink.new ≡ W.beside_taken sink.old }
    {
        if len <= self.left() {
            return Ok(());
        }
        self.flush(sink)
    }
}

// A code, and then a length.
fn head(of: Code, len: u32) -> [u8; 8]
    ensures { result ≡ code_bytes of ++ to_be_bytes w32 len }
{
    let [a, b, c, d] = of.0;
    let [e, f, g, h] = len.to_be_bytes();
    [a, b, c, d, e, f, g, h]
}
