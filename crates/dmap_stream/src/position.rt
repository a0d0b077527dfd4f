//! The state of a reader between two calls.

ghost use Rattle.std.specs.Prelude.{◌≡◌, ◌+◌, ◌^◌, ◌<◌, ◌≤◌, ◌∷◌, [], ◌++◌, length, true, false, not, List, ℕ, None, IfOk, MatchResult};
ghost use Rattle.code_table.specs.declared.row.CodeRow.{CodeRow};
ghost use Rattle.dmap_tags.specs.Kinds.{is_list};
ghost use Rattle.dmap_stream.specs.Walk.{behind, is_empty, closes, open_after, is_short, at_head, behind_head, at_payload, at_body, walk_from};
ghost use Rattle.dmap_stream.specs.Reading.{ready_at, resumed, is_due, bytes_kept, bytes_taken, Moves, Takes, HandsOut, is_between};

use crate::buffer::Buffer;
use crate::containers::{Container, Containers};
use crate::event::Event;
use crate::head::{head_of, is_list};
use crate::refusal::StreamError;
use code_table::CodeTable;
use dmap_tags::{Code, Kind, Value, leaf};
use std::alloc::Global;

/// The number of bytes of a chunk that were taken.
type Taken = Result<usize, StreamError>;

/// What the reader takes next.
#[derive(Clone, Copy)]
pub enum Phase {
    /// The eight bytes of a head.
    Head,
    /// The payload of a tag that is not a list.
    Payload { code: Code, kind: Kind, len: u32 },
}

/// The last place that was reached, and what has come since.
#[derive(Drop)]
pub struct Position {
    /// The place's offset.
    pub start: u64,
    /// The lists around the place. Those that end at it are not yet closed.
    pub around: Containers,
    pub phase: Phase,
    /// The bytes of the head, or of the payload, so far.
    pub part: Buffer,
    /// The list's opening or the value that led to the place, until it is returned.
    pub ready: Option<Event>,
}

impl Position {
    /// Returns the position before the first byte.
    pub fn new(alloc: Global) -> Position
        ensures { result
            ≡ record { start = 0; around = []; phase = Phase.Head; part = []; ready = None } }
    {
        Position {
            start: 0,
            around: Containers::new(alloc),
            phase: Phase::Head,
            part: Buffer::new(alloc),
            ready: None,
        }
    }

    /// Returns whether an event is ready.
    #[inline(always)]
    pub fn is_ready(&self) -> bool
        ensures { result ≡ not (is_empty (ready_at self.now)) }
    {
        self.ready.is_some() || self.around.ends_at(self.start)
    }

    /// Takes bytes up to the one that makes an event ready, or all, and returns how many.
    #[inline(always)]
    pub fn take(&mut self, alloc: Global, table: &CodeTable, top: u32, piece: &[u8]) -> Taken
        requires quiet { ready_at self.old ≡ [] }
        requires due { is_due self.old ≡ true }
        requires counted { bytes_taken self.old + length piece.now < 2 ^ 64 }
        ensures takes { Takes table.now top
            (resumed table.now top self.old) piece.now self.new result }
        ensures count { IfOk result (λ n. bytes_taken self.new ≡ bytes_taken self.old + n) }
    {
        let phase = self.phase;
        match phase {
            Phase::Head if self.part.is_empty() && piece.len() >= 8 => {
                self.read_head(alloc, table, top, piece)
            }
            Phase::Head => self.gather_head(alloc, table, top, piece),
            Phase::Payload { code, kind, len } => {
                self.gather_payload(alloc, code, kind, len, piece)
            }
        }
    }

    /// Reads a head that is whole in the chunk.
    #[inline(always)]
    fn read_head(&mut self, alloc: Global, table: &CodeTable, top: u32, piece: &[u8]) -> Taken
        requires quiet { ready_at self.old ≡ [] }
        requires head { self.old.phase ≡ Phase.Head }
        requires empty { self.old.part ≡ [] }
        requires there { 8 ≤ length piece.now }
        requires counted { self.old.start + length piece.now < 2 ^ 64 }
        ensures takes { Takes table.now top
            (at_head (walk_from table.now top) table.now top self.old.start self.old.around)
            piece.now self.new result }
        ensures count { IfOk result (λ n. bytes_taken self.new ≡ self.old.start + n) }
    {
        let (head, rest) = piece.split_at(8);
        let (code, len) = head_of(head);
        let more = self.enter(alloc, table, top, code, len, rest)?;
        Ok(8 + more)
    }

    /// Takes bytes of a head that is split over several chunks.
    #[cold]
    #[inline(never)]
    fn gather_head(&mut self, alloc: Global, table: &CodeTable, top: u32, piece: &[u8]) -> Taken
        requires quiet { ready_at self.old ≡ [] }
        requires head { self.old.phase ≡ Phase.Head }
        requires due { length self.old.part < 8 }
        requires counted { self.old.start + length self.old.part + length piece.now < 2 ^ 64 }
        ensures takes { Takes table.now top
            (λ rest. at_head (walk_from table.now top) table.now top self.old.start self.old.around (self.old.part ++ rest))
            piece.now self.new result }
        ensures count { IfOk result (λ n. bytes_taken self.new
            ≡ self.old.start + length self.old.part + n) }
    {
        let taken = self.part.fill(8, piece)?;
        if self.part.len() < 8 {
            return Ok(taken);
        }
        let (code, len) = self.part.head();
        self.part.clear();
        let (_, rest) = piece.split_at(taken);
        let more = self.enter(alloc, table, top, code, len, rest)?;
        Ok(taken + more)
    }

    /// Continues after a whole head.
    #[inline(always)]
    fn enter(
        &mut self,
        alloc: Global,
        table: &CodeTable,
        top: u32,
        code: Code,
        len: u32,
        piece: &[u8],
    ) -> Taken
        requires quiet { ready_at self.old ≡ [] }
        requires head { self.old.phase ≡ Phase.Head }
        requires empty { self.old.part ≡ [] }
        requires counted { self.old.start + 8 + length piece.now < 2 ^ 64 }
        ensures takes { Takes table.now top
            (behind_head (walk_from table.now top) table.now top self.old.start self.old.around code
            len) piece.now self.new result }
        ensures count { IfOk result (λ n. bytes_taken self.new ≡ self.old.start + 8 + n) }
    {
        if let Some(error) = self.around.fault(top, self.start, code, len) {
            return Err(error);
        }
        let kind = table.kind_of(self.around.parent(), code);
        if is_list(kind) {
            self.open_list(code, len)?;
            return Ok(0);
        }
        self.take_payload(alloc, code, kind, len, piece)
    }

    fn open_list(&mut self, code: Code, len: u32) -> Result<(), StreamError>
        requires quiet { ready_at self.old ≡ [] }
        requires head { self.old.phase ≡ Phase.Head }
        requires empty { self.old.part ≡ [] }
        requires counted { self.old.start + 8 < 2 ^ 64 }
        ensures moves { (rows : List CodeRow) (limit : ℕ)
            → Moves rows limit (at_body (walk_from rows limit) self.old.start self.old.around code Kind.List len) self.new result }
        ensures count { IfOk result (λ _. bytes_taken self.new ≡ self.old.start + 8) }
    {
        let end = self.start as u128 + 8 + len as u128;
        self.around.push(Container {
            code,
            at: self.start,
            end,
        })?;
        self.ready = Some(Event::Open {
            code,
            len,
            at: self.start,
        });
        let inside = self.start + 8;
        self.arrive(inside)
    }

    /// Takes bytes of the payload after a head: at once if all of it is in the chunk.
    #[inline(always)]
    fn take_payload(
        &mut self,
        alloc: Global,
        code: Code,
        kind: Kind,
        len: u32,
        piece: &[u8],
    ) -> Taken
        requires quiet { ready_at self.old ≡ [] }
        requires value { is_list kind ≡ false }
        requires head { self.old.phase ≡ Phase.Head }
        requires empty { self.old.part ≡ [] }
        requires counted { self.old.start + 8 + length piece.now < 2 ^ 64 }
        ensures takes { (rows : List CodeRow) (limit : ℕ)
            → Takes rows limit (at_payload (walk_from rows limit) self.old.start self.old.around code kind len) piece.now self.new result }
        ensures count { IfOk result (λ n. bytes_taken self.new ≡ self.old.start + 8 + n) }
    {
        if piece.len() < len as usize {
            self.phase = Phase::Payload { code, kind, len };
            return self.gather_payload(alloc, code, kind, len, piece);
        }
        let (payload, _) = piece.split_at(len as usize);
        let value = leaf(alloc, kind, payload)?;
        self.end_leaf(code, value, len)?;
        Ok(len as usize)
    }

    /// Takes bytes of a payload that is split over several chunks.
    #[cold]
    #[inline(never)]
    fn gather_payload(
        &mut self,
        alloc: Global,
        code: Code,
        kind: Kind,
        len: u32,
        piece: &[u8],
    ) -> Taken
        requires quiet { ready_at self.old ≡ [] }
        requires value { is_list kind ≡ false }
        requires payload { self.old.phase ≡ Phase.Payload code kind len }
        requires within { length self.old.part ≤ len }
        requires counted { self.old.start + 8 + length self.old.part + length piece.now < 2 ^ 64 }
        ensures takes { (rows : List CodeRow) (limit : ℕ)
            → Takes rows limit
            (λ rest. at_payload (walk_from rows limit) self.old.start self.old.around code kind len (self.old.part ++ rest))
            piece.now self.new result }
        ensures count { IfOk result (λ n. bytes_taken self.new
            ≡ self.old.start + 8 + length self.old.part + n) }
    {
        let taken = self.part.fill(len as usize, piece)?;
        if self.part.len() < len as usize {
            return Ok(taken);
        }
        let value = leaf(alloc, kind, self.part.as_slice())?;
        self.phase = Phase::Head;
        self.part.clear();
        self.end_leaf(code, value, len)?;
        Ok(taken)
    }

    /// Moves to the place after a leaf.
    #[inline(always)]
    fn end_leaf(&mut self, code: Code, value: Value, len: u32) -> Result<(), StreamError>
        requires head { self.old.phase ≡ Phase.Head }
        requires empty { self.old.part ≡ [] }
        requires counted { self.old.start + 8 + len < 2 ^ 64 }
        ensures moves { (rows : List CodeRow) (limit : ℕ)
            → Moves rows limit
            (λ rest. behind (Event.Leaf code value self.old.start ∷ []) (walk_from rows limit (self.old.start + 8 + len) self.old.around rest))
            self.new result }
        ensures count { IfOk result (λ _. bytes_taken self.new ≡ self.old.start + 8 + len) }
    {
        self.ready = Some(Event::Leaf {
            code,
            value,
            at: self.start,
        });
        let end = self.start + 8 + len as u64;
        self.arrive(end)
    }

    /// Moves to the next place.
    #[inline(always)]
    fn arrive(&mut self, at: u64) -> Result<(), StreamError>
        requires head { self.old.phase ≡ Phase.Head }
        requires empty { self.old.part ≡ [] }
        ensures after { self.new
            ≡ record {
              start = at;
              around = self.old.around;
              phase = Phase.Head;
              part = [];
              ready = self.old.ready;
            } }
        ensures short { MatchResult result
            (λ _. is_short at (open_after at self.old.around) ≡ false)
            (λ e. (is_short at (open_after at self.old.around) ≡ true)
            × (e ≡ StreamError.ShortHead at)) }
    {
        self.start = at;
        if self.around.is_short(at) {
            Err(StreamError::ShortHead { at })
        } else {
            Ok(())
        }
    }

    /// Returns the next event that is ready.
    #[inline(always)]
    pub fn next(&mut self) -> Option<Event>
        ensures { HandsOut self.old self.new result }
    {
        if self.ready.is_none() {
            return self.close();
        }
        self.ready.take()
    }

    fn close(&mut self) -> Option<Event>
        requires { self.old.ready ≡ None }
        ensures { HandsOut self.old self.new result }
    {
        match self.around.pop_ended(self.start) {
            Some(container) => Some(Event::Close {
                code: container.code,
                at: container.at,
            }),
            None => None,
        }
    }

    /// Returns whether no tag has begun that is not whole.
    pub fn is_between(&self) -> bool
        ensures { result ≡ is_between self.now }
    {
        let phase = self.phase;
        match phase {
            Phase::Head => self.around.all_end_at(self.start) && self.part.is_empty(),
            Phase::Payload { .. } => false,
        }
    }

    /// Returns the number of bytes of a leaf's payload that are kept until it is whole.
    pub fn kept(&self) -> u64
        ensures { result ≡ bytes_kept self.now }
    {
        let phase = self.phase;
        match phase {
            Phase::Head => 0,
            Phase::Payload { .. } => self.part.len() as u64,
        }
    }

    /// Returns the number of bytes taken.
    pub fn taken(&self) -> u64
        requires { bytes_taken self.now < 2 ^ 64 }
        ensures { result ≡ bytes_taken self.now }
    {
        let phase = self.phase;
        match phase {
            Phase::Head => self.start + self.part.len() as u64,
            Phase::Payload { .. } => self.start + 8 + self.part.len() as u64,
        }
    }
}
