//! The reader of requests.

ghost use Rattle.std.specs.Prelude.{◌≡◌, ◌≢◌, ◌<◌, ◌≤◌, ℕ, List, [], ◌++◌, length, take, false, None, Some, IfOk, IfSome, MatchResult, IsTrue, ◌↔◌, option_to_list};
ghost use Rattle.http_heads.specs.Gathering.{Gathered, IsAt, is_whole, kept};
ghost use Rattle.share_asks.specs.Valid.{IsValidWant};
ghost use Rattle.share_asks.specs.declared.ask.Ask.{Ask};
ghost use Rattle.http_front.specs.Readable.{IsReadableWant};
ghost use Rattle.http_front.specs.Readers.{HasRead, fed_with, Gathers, waiting};
ghost use Rattle.http_front.specs.Routes.{all_routes};

use crate::asks::read_ask;
use crate::routes::{Route, router};
use http_heads::{Gatherer, HeadError, Kind};
use matchit::Router;
use share_asks::{Ask, Role};
use std::alloc::{AllocError, Global};
use std::marker::Model;

/// Reads requests from bytes as they come.
pub struct HeadReader {
    alloc: Global,
    role: Role,
    router: Router<Route>,
    requests: Gatherer,
    ready: Option<Ask>,
    error: Option<HeadError>,
}

impl Drop for HeadReader {
    fn drop(self) {
        let HeadReader {
            alloc: _,
            role: _,
            router: _,
            requests: _,
            ready: _,
            error: _,
        } = self;
    }
}

impl Model for HeadReader {
    ghost use Rattle.std.specs.Coded.{codes};
    ghost use Rattle.item_model.specs.QueryCells.{query_coded};
    ghost use Rattle.http_heads.specs.Gathering.{kept};
    ghost use Rattle.http_front.specs.Readers.{Reader, Holds};

    ghost Value = { Reader };

    ghost coded = { Prim.hlevel (codes, query_coded) };

    ghost view = { λ a. record { role = a.role; kept = kept a.requests; ready = a.ready; error = a.error } };

    ghost invariant = { λ a. Holds a.router a.requests a.ready a.error };
}

impl HeadReader {
    /// Returns a reader without bytes.
    /// Returns `AllocError` if allocation fails.
    pub fn new(alloc: Global, role: Role) -> Result<HeadReader, AllocError>
        ensures role { IfOk result (λ r. r.role ≡ role) }
        ensures idle { IfOk result (λ r. (r.ready ≡ None) × (r.error ≡ None) × (r.kept ≡ [])) }
        ensures begins { IfOk result (λ r. HasRead [] [] r) }
    {
        Ok(HeadReader {
            alloc,
            role,
            router: router(alloc)?,
            requests: Gatherer::new(alloc, Kind::Request),
            ready: None,
            error: None,
        })
    }

    /// Takes bytes of `piece` up to the end of a request, or all of them, and returns how many. Takes none while
    /// `next` has a request to return.
    /// Returns an error if no request can begin with the bytes so far, and `Memory` if allocation fails. Every later
    /// call returns the same error.
    pub fn feed(&mut self, piece: &[u8]) -> Result<usize, HeadError>
        ensures role { self.new.role ≡ self.old.role }
        ensures error { MatchResult result (λ _. self.new.error ≡ None)
            (λ e. self.new.error ≡ Some e) }
        ensures stays { self.old.error ≢ None → self.new ≡ self.old }
        ensures waits { self.old.ready ≢ None → self.new ≡ self.old }
        ensures took { IfOk result
            (λ n. (n ≤ length piece.now) × (n < length piece.now → self.new.ready ≢ None)) }
        ensures moves { self.old.ready ≡ None → piece.now ≢ [] → IfOk result (λ n. 0 < n) }
        ensures alone { self.new.ready ≢ None → self.new.kept ≡ [] }
        ensures read { (fed : List ℕ) (handed : List Ask) → HasRead fed handed self.old
            → HasRead (fed_with fed piece.now result) handed self.new }
    {
        if let Some(error) = &self.error {
            return Err(error.copy());
        }
        if self.ready.is_some() {
            return Ok(0);
        }
        match gather(
            self.alloc,
            &self.router,
            self.role,
            &mut self.requests,
            piece,
        ) {
            Ok((taken, ready)) => {
                put(&mut self.ready, ready);
                Ok(taken)
            }
            Err(error) => {
                self.requests.clear();
                put(&mut self.error, Some(error.copy()));
                Err(error)
            }
        }
    }

    /// Returns the complete request, if there is one, and clears it.
    pub fn next(&mut self) -> Option<Ask>
        ensures result { result ≡ self.old.ready }
        ensures rest { self.new ≡ record self.old { ready = None } }
        ensures valid { IfSome result (λ ask. IsValidWant ask.want) }
        ensures readable { IfSome result (λ ask. IsReadableWant ask.want) }
        ensures read { (fed : List ℕ) (handed : List Ask) → HasRead fed handed self.old
            → HasRead fed (handed ++ option_to_list result) self.new }
    {
        self.ready.take()
    }

    /// Returns whether the bytes so far end between two requests.
    pub fn between(&self) -> bool
        ensures { IsTrue result ↔ ((self.now.kept ≡ []) × (self.now.error ≡ None)) }
    {
        self.requests.len() == 0 && self.error.is_none()
    }

    /// Returns how many bytes of an incomplete request are buffered.
    pub fn held(&self) -> u64
        ensures kept { result ≡ length self.now.kept }
        ensures few { result ≤ 4210688 }
    {
        self.requests.len() as u64
    }
}

// Takes bytes up to the end of a request, or all, and parses the request if it is complete.
fn gather(
    alloc: Global,
    router: &Router<Route>,
    role: Role,
    requests: &mut Gatherer,
    piece: &[u8],
) -> Result<(usize, Option<Ask>), HeadError>
    requires routes { router.now ≡ all_routes }
    requires kind { requests.old.kind ≡ Kind.Request }
    requires at { IsAt requests.old }
    requires partial { is_whole requests.old.phase ≡ false }
    ensures kind { requests.new.kind ≡ Kind.Request }
    ensures gathers { Gathers role requests.old piece.now requests.new result }
    ensures valid { IfOk result (λ r. IfSome r.1 (λ ask. IsValidWant ask.want)) }
    ensures readable { IfOk result (λ r. IfSome r.1 (λ ask. IsReadableWant ask.want)) }
{
    let taken = requests.take(piece)?;
    let Some((head, body)) = requests.message() else {
        return Ok((taken, None));
    };
    let ask = read_ask(alloc, router, role, head, body)?;
    requests.clear();
    Ok((taken, Some(ask)))
}

// Puts `new` in place of the value that was there.
fn put<T: Drop>(place: &mut Option<T>, new: Option<T>)
    ensures { place.new ≡ new }
{
    *place = new;
}
