//! The reader.

ghost use Rattle.std.specs.Prelude.{◌≡◌, ◌≢◌, ◌+◌, ◌<◌, ◌≤◌, ◌^◌, ℕ, List, [], ◌∷◌, ◌++◌, length, take, None, Some, IfOk, IfErr, IfSome, IfNone, MatchResult, option_to_list};
ghost use Rattle.dmap_stream.specs.declared.event.Event.{Event};
ghost use Rattle.dmap_stream.specs.Walk.{walk_of, between, inside};
ghost use Rattle.dmap_stream.specs.Reader.{ready, taken, kept, HasRead, Tells, EndInLeaf, fed_with, ended};

use crate::event::Event;
use crate::position::Position;
use crate::refusal::StreamError;
use code_table::CodeTable;
use std::alloc::{AllocError, Global};
use std::marker::Model;

/// What a reader accepts.
#[derive(Clone, Copy)]
pub struct Limits {
    /// The maximum payload length of a top tag.
    pub top: u32,
}

/// Reads tags out of bytes that come in chunks.
pub struct DmapReader {
    alloc: Global,
    table: CodeTable,
    limits: Limits,
    position: Position,
    error: Option<StreamError>,
}

impl Drop for DmapReader {
    fn drop(self) {
        let DmapReader {
            alloc: _,
            table: _,
            limits: _,
            position: _,
            error: _,
        } = self;
    }
}

impl Model for DmapReader {
    ghost use Rattle.dmap_stream.specs.Reader.{Reader, Goes};
    ghost use Rattle.std.specs.Coded.{codes};
    ghost use Rattle.dmap_tags.specs.Cells.{tree_coded};

    ghost Value = { Reader };

    ghost coded = { Prim.hlevel (codes, tree_coded) };

    ghost view = { λ a. record { rows = a.table; limit = a.limits.top; position = a.position; error = a.error } };

    ghost invariant = { λ a. Goes a.position a.error };
}

impl DmapReader {
    /// Returns a reader that was fed nothing. It knows the kinds of values by the table.
    pub fn new(alloc: Global, table: &CodeTable, limits: Limits) -> Result<DmapReader, AllocError>
        ensures table { IfOk result (λ r. (r.rows ≡ table.now) × (r.limit ≡ limits.top)) }
        ensures idle { IfOk result (λ r. (r.error ≡ None) × (ready r ≡ []) × (taken r ≡ 0)) }
        ensures begins { IfOk result (λ r. HasRead [] [] r) }
    {
        Ok(DmapReader {
            alloc,
            table: table.copy()?,
            limits,
            position: Position::new(alloc),
            error: None,
        })
    }

    /// Takes bytes up to the one that makes an event ready, or all, and returns how many. While an event is
    /// ready it takes none. After an error it returns that error again.
    #[inline]
    pub fn feed(&mut self, piece: &[u8]) -> Result<usize, StreamError>
        requires { self.old.error ≡ None → taken self.old + length piece.now < 2 ^ 64 }
        ensures same { (self.new.rows ≡ self.old.rows) × (self.new.limit ≡ self.old.limit) }
        ensures error { MatchResult result (λ _. self.new.error ≡ None)
            (λ e. self.new.error ≡ Some e) }
        ensures stays { self.old.error ≢ None → self.new ≡ self.old }
        ensures waits { ready self.old ≢ [] → self.new ≡ self.old }
        ensures took { IfOk result
            (λ n. (n ≤ length piece.now) × (n < length piece.now → ready self.new ≢ [])) }
        ensures count { IfOk result (λ n. taken self.new ≡ taken self.old + n) }
        ensures read { (fed : List ℕ) (handed : List Event) → HasRead fed handed self.old
            → HasRead (fed_with fed piece.now result) handed self.new }
        ensures tells { (fed : List ℕ) (handed : List Event) → HasRead fed handed self.old
            → Tells (fed_with fed piece.now result) handed self.new }
        ensures no_further { (fed : List ℕ) (handed : List Event) → HasRead fed handed self.old
            → IfOk result
            (λ n. (m : ℕ) → m < n → (walk_of self.old.rows self.old.limit (fed ++ take m piece.now)).events ≡ handed) }
    {
        if let Some(error) = &self.error {
            return Err(error.copy());
        }
        if self.position.is_ready() {
            return Ok(0);
        }
        match self
            .position
            .take(self.alloc, &self.table, self.limits.top, piece)
        {
            Ok(taken) => Ok(taken),
            Err(error) => {
                self.error = Some(error.copy());
                Err(error)
            }
        }
    }

    /// Returns the next event that is ready.
    #[inline]
    pub fn next(&mut self) -> Option<Event>
        ensures none { IfNone result ((ready self.old ≡ []) × (self.new ≡ self.old)) }
        ensures some { IfSome result (λ event. ready self.old ≡ event ∷ ready self.new) }
        ensures same { (self.new.rows ≡ self.old.rows) × (self.new.limit ≡ self.old.limit) }
        ensures error { self.new.error ≡ self.old.error }
        ensures count { taken self.new ≡ taken self.old }
        ensures read { (fed : List ℕ) (handed : List Event) → HasRead fed handed self.old
            → HasRead fed (handed ++ option_to_list result) self.new }
    {
        self.position.next()
    }

    /// Returns the number of bytes of a leaf's payload that the reader keeps until the leaf is whole: those that came
    /// since its head, whatever length the head states. It keeps none if no leaf is unfinished.
    pub fn held(&self) -> u64
        ensures value { result ≡ kept self.now }
        ensures came { (fed : List ℕ) (handed : List Event) → HasRead fed handed self.now
            → self.now.error ≡ None
            → 0 < result → EndInLeaf self.now.rows self.now.limit fed (handed ++ ready self.now) result }
    {
        self.position.kept()
    }

    /// Ends the bytes. Refuses them if they end inside a top tag.
    pub fn finish(self) -> Result<(), StreamError>
        ensures end { result ≡ ended self }
        ensures told { (fed : List ℕ) (handed : List Event) → HasRead fed handed self
            → self.error ≡ None
            → MatchResult result
            (λ _. (walk_of self.rows self.limit fed).ending ≡ between)
            (λ e. ((walk_of self.rows self.limit fed).ending ≡ inside)
            × (e ≡ StreamError.Truncated (length fed))) }
    {
        if let Some(error) = &self.error {
            return Err(error.copy());
        }
        if self.position.is_between() {
            Ok(())
        } else {
            Err(StreamError::Truncated {
                at: self.position.taken(),
            })
        }
    }
}
