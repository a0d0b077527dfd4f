//! What was read and counted of an input of tags, as its bytes come.

ghost use Rattle.std.specs.Prelude.{◌≡◌, ◌+◌, ◌<◌, ◌≤◌, ◌^◌, ◌++◌, [], ℕ, List, length, take, true, IfOk, IfErr};
ghost use Rattle.dmap_stream.specs.Reader.{ready};
ghost use Rattle.tag_commands.specs.TopTags.{tags_limit};
ghost use Rattle.tag_commands.specs.Counting.{HasCountedEvents, IsCounted, IsShown, StopsAt, EndsCounted};

use crate::tags_fault::{TagsFault, tags_fault};
use crate::tops::Tops;
use code_table::CodeTable;
use command_core::Fault;
use dmap_stream::{DmapReader, Event, Limits, StreamError};
use std::alloc::{AllocError, Global};

/// The maximum number of bytes of the input.
pub const TAGS_LIMIT: u64 = 4_294_967_296;

/// The maximum payload of a top tag, in bytes.
pub const TAG_LIMIT: u32 = 1_073_741_824;

/// The maximum number of bytes of one read.
pub const PIECE: usize = 65_536;

/// What was read and counted so far.
#[derive(Drop)]
pub struct Counter {
    pub reader: DmapReader,
    pub tops: Tops,
    pub bytes: u64,
}

impl Counter {
    /// Returns a counter that was given no byte.
    pub fn new(alloc: Global) -> Result<Counter, AllocError>
        ensures { IfOk result (λ counter. IsCounted [] counter) }
    {
        let table = CodeTable::standard(alloc)?;
        Ok(Counter {
            reader: DmapReader::new(alloc, &table, Limits { top: TAG_LIMIT })?,
            tops: Tops::new(),
            bytes: 0,
        })
    }

    /// Counts the tags of further bytes, up to the limit of the input.
    pub fn take(&mut self, piece: &[u8]) -> Result<(), Fault<TagsFault>>
        requires { (fed : List ℕ) × IsCounted fed self.old × (length fed ≤ tags_limit) }
        ensures took { (fed : List ℕ) → IsCounted fed self.old
            → IfOk result (λ _. IsCounted (fed ++ piece.now) self.new
            × (length (fed ++ piece.now) ≤ tags_limit)) }
        ensures stopped { (fed : List ℕ) → IsCounted fed self.old
            → IfErr result (λ fault. StopsAt (fed ++ piece.now) fault) }
    {
        let (front, behind) = self.up_to_limit(piece);
        match self.feed(front) {
            Ok(()) if behind.is_empty() => Ok(()),
            Ok(()) => Err(Fault::Own(TagsFault::TooLong)),
            Err(error) => Err(tags_fault(error)),
        }
    }

    /// Returns the bytes of `piece` up to the limit of the input, and those past it.
    pub fn up_to_limit<'a>(&self, piece: &'a [u8]) -> (&'a [u8], &'a [u8])
        requires { self.now.bytes ≤ tags_limit }
        ensures split { piece.now ≡ result.0.now ++ result.1.now }
        ensures within { self.now.bytes + length result.0.now ≤ tags_limit }
        ensures full { 0 < length result.1.now → self.now.bytes + length result.0.now ≡ tags_limit }
    {
        let room = (TAGS_LIMIT - self.bytes) as usize;
        piece.split_at(piece.len().min(room))
    }

    /// Feeds all bytes to the reader, and counts their events.
    pub fn feed(&mut self, piece: &[u8]) -> Result<(), StreamError>
        requires { (fed : List ℕ) × IsCounted fed self.old
            × (length fed + length piece.now < 2 ^ 63) }
        ensures fed { (fed : List ℕ) → IsCounted fed self.old
            → IfOk result (λ _. IsCounted (fed ++ piece.now) self.new) }
        ensures stopped { (fed : List ℕ) → IsCounted fed self.old
            → IfErr result (λ error. IsShown (fed ++ piece.now) error) }
    {
        let mut rest = piece;
        // until a list opens, any tag may be the last in its list
        let mut list_end = usize::MAX;
        while !rest.is_empty() {
            let taken = match self.step(rest, &mut list_end) {
                Ok(taken) => taken,
                Err(error) => return Err(error),
            };
            let (_, behind) = rest.split_at(taken);
            rest = behind;
        }
        self.count_ready();
        self.bytes += piece.len() as u64;
        Ok(())
    }

    /// Feeds bytes up to an event and counts it, and counts what is ready after it if a list may end there. Returns the
    /// number of bytes taken. `list_end` is the number of bytes after the list that was opened last: before them no list
    /// ends.
    #[inline(always)]
    fn step(&mut self, piece: &[u8], list_end: &mut usize) -> Result<usize, StreamError>
        requires { (fed : List ℕ) × HasCountedEvents fed self.old
            × (length fed + length piece.now < 2 ^ 63) }
        ensures took { IfOk result (λ n. n ≤ length piece.now) }
        ensures takes { ready self.old.reader ≡ [] → 0 < length piece.now
            → IfOk result (λ n. 0 < n) }
        ensures hands_out { IfOk result (λ n. n ≡ 0 → ready self.new.reader ≡ []) }
        ensures counted { (fed : List ℕ) → HasCountedEvents fed self.old
            → IfOk result (λ n. HasCountedEvents (fed ++ take n piece.now) self.new) }
        ensures stopped { (fed : List ℕ) → HasCountedEvents fed self.old
            → IfErr result (λ error. IsShown (fed ++ piece.now) error) }
        ensures bytes { self.new.bytes ≡ self.old.bytes }
    {
        let taken = match self.reader.feed(piece) {
            Ok(taken) => taken,
            Err(error) => return Err(error),
        };
        let left = piece.len() - taken;
        if let Some(len) = self.count_next() {
            *list_end = left.saturating_sub(len);
        }
        let may_end = taken == 0 || left <= *list_end;
        self.count_more(may_end);
        Ok(taken)
    }

    /// Counts the next event, if one is ready. Returns the length of the list that it opens.
    #[inline(always)]
    fn count_next(&mut self) -> Option<usize>
        requires { (fed : List ℕ) × HasCountedEvents fed self.old × (length fed < 2 ^ 63) }
        ensures counted { (fed : List ℕ) → HasCountedEvents fed self.old
            → HasCountedEvents fed self.new }
        ensures bytes { self.new.bytes ≡ self.old.bytes }
    {
        match self.reader.next() {
            Some(event) => {
                let opened = opened_len(&event);
                self.tops.count(event);
                opened
            }
            None => None,
        }
    }

    /// Counts all events that are ready, if there may be one.
    #[inline(always)]
    fn count_more(&mut self, may_be_ready: bool)
        requires { (fed : List ℕ) × HasCountedEvents fed self.old × (length fed < 2 ^ 63) }
        ensures counted { (fed : List ℕ) → HasCountedEvents fed self.old
            → HasCountedEvents fed self.new }
        ensures quiet { may_be_ready ≡ true → ready self.new.reader ≡ [] }
        ensures bytes { self.new.bytes ≡ self.old.bytes }
    {
        if may_be_ready {
            self.count_ready();
        }
    }

    /// Counts all events that are ready.
    #[inline(always)]
    fn count_ready(&mut self)
        requires { (fed : List ℕ) × HasCountedEvents fed self.old × (length fed < 2 ^ 63) }
        ensures counted { (fed : List ℕ) → HasCountedEvents fed self.old
            → HasCountedEvents fed self.new }
        ensures quiet { ready self.new.reader ≡ [] }
        ensures bytes { self.new.bytes ≡ self.old.bytes }
    {
        while let Some(event) = self.reader.next() {
            self.tops.count(event);
        }
    }

    /// Ends the bytes. Returns the number of their top tags.
    pub fn end(self) -> Result<u64, StreamError>
        ensures { (fed : List ℕ) → IsCounted fed self → EndsCounted fed result }
    {
        let ended = self.tops.ended;
        match self.reader.finish() {
            Ok(()) => Ok(ended),
            Err(error) => Err(error),
        }
    }
}

/// Returns the length of the list that `event` opens.
#[inline(always)]
fn opened_len(event: &Event) -> Option<usize> {
    match event {
        Event::Open { len, .. } => Some(*len as usize),
        _ => None,
    }
}
