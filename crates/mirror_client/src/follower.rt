//! A client after the login: the steps of following a share.

ghost use Rattle.std.specs.Prelude.{◌≡◌, ◌≤◌, ◌<◌, ◌+◌, ◌*◌, ◌^◌, [], ◌∷◌, Ok, IfOk, IfErr, OnErr, MatchResult};
ghost use Rattle.dmap_tags.specs.Codes.{code};
ghost use Rattle.share_asks.specs.Valid.{MayAsk};
ghost use Rattle.share_asks.specs.declared.ask.Want.TheVariants as want;
ghost use Rattle.code_table.specs.Reply.{table_of};
ghost use Rattle.mirror_core.specs.Bodies.{IsListing};
ghost use Rattle.share_history.specs.Listings.{Listing};
ghost use Rattle.http_client.specs.Replies.{Reply};
ghost use Rattle.http_client.specs.Requests.{request_text};
ghost use Rattle.mirror_client.specs.Exchanges.{Exchanged};
ghost use Rattle.mirror_client.specs.Points.{ReadAhead, point_of, start_of};
ghost use Rattle.mirror_client.specs.Steps.{Opened, TellsListing, TellsTable, UnexpectedEnd, UnexpectedListing, UnexpectedTable, applied_by, body_request, listing_request, logout_request, update_request, with_listings, FailsToOpen, IsNotTaken, IsNoTable};
ghost use Rattle.mirror_client.specs.Stopping.{CountsErrors, Stops};
ghost use Rattle.mirror_client.specs.Tellings.{Tells, TellsNumber, UnexpectedNumber, UnexpectedTag};

use crate::asking::{request_for, rows_request};
use crate::exchanging::exchange;
use crate::fetching::{fetch, fetch_number};
use crate::incoming::Incoming;
use crate::refusal::FollowError;
use code_table::{CodeError, CodeTable};
use dmap_tags::{Code, Tag, Text};
use item_model::{Look, Target};
use mirror_core::{Applied, Mirror, MirrorError};
use outside_net::Link;
use share_asks::Want;
use std::alloc::Global;
use std::marker::Model;

/// A client that has learned a share's table and is logged in. It keeps bytes that it read ahead, so every call needs
/// the connection that it was opened with.
pub struct Follower {
    alloc: Global,
    host: Text,
    session: u32,
    table: CodeTable,
    incoming: Incoming,
    calls: u32,
}

impl Drop for Follower {
    fn drop(self) {
        let Follower {
            alloc: _,
            host: _,
            session: _,
            table: _,
            incoming: _,
            calls: _,
        } = self;
    }
}

impl Model for Follower {
    ghost use Rattle.std.specs.Prelude.{◌≤◌, ◌+◌, ◌*◌, ◌^◌};
    ghost use Rattle.mirror_client.specs.Steps.{Following};

    ghost Value = { Following };

    ghost view = { λ a. record { host = a.host; known = record { session = a.session; rows = a.table }; ahead = a.incoming; calls = a.calls } };

    ghost invariant = { λ a. (a.calls ≤ 65536) × (a.incoming.used ≤ (a.calls + 2) * 2 ^ 31) };
}

impl Follower {
    /// Requests the table of content codes, and logs in.
    pub fn open<K: Link>(alloc: Global, link: &mut K, host: &str) -> Result<Follower, FollowError>
        ensures opened { IfOk result (λ f. Opened host.now (start_of K.Link link.old)
            (point_of K.Link link.new f.ahead) f.known × (f.host ≡ host.now) × (f.calls ≡ 0)) }
        ensures stops { IfErr result (λ e.
            FailsToOpen host.now (start_of K.Link link.old) (K.taken link.new) e) }
        ensures count { CountsErrors K.Link link.old link.new result }
    {
        let name = Text::of(alloc, host)?;
        let mut incoming = Incoming::new(alloc);
        let table = match learn_table(alloc, link, &mut incoming, host) {
            Ok(table) => table,
            Err(error) => return Err(error),
        };
        let session = match log_in(alloc, link, &mut incoming, &table, host) {
            Ok(session) => session,
            Err(error) => return Err(error),
        };
        Ok(Follower {
            alloc,
            host: name,
            session,
            table,
            incoming,
            calls: 0,
        })
    }

    /// Requests the mirror's listing with the revision that it holds, and applies it. After an `Err` the mirror is
    /// unchanged.
    #[tactic(auto, using(crate::proofs::ExchangeFacts::unwritten))]
    pub fn listing<K: Link>(
        &mut self,
        link: &mut K,
        mirror: &mut Mirror,
    ) -> Result<Applied, FollowError>
        requires few { self.old.calls < 65536 }
        requires asks { MayAsk mirror.old.query }
        ensures exchanged { IfOk result (λ applied. (answer : Reply) × (l : Listing)
            × Exchanged (listing_request self.old mirror.old)
            (point_of K.Link link.old self.old.ahead)
            (point_of K.Link link.new self.new.ahead) answer
            × TellsListing self.old.known.rows mirror.old answer l
            × (mirror.new ≡ with_listings mirror.old (l ∷ []))
            × (applied ≡ applied_by mirror.old.held l)) }
        ensures stops { IfErr result (λ e. Stops (listing_request self.old mirror.old)
            (UnexpectedListing self.old.known.rows mirror.old)
            (point_of K.Link link.old self.old.ahead) (K.taken link.new) e) }
        ensures unchanged { OnErr result (mirror.new ≡ mirror.old) }
        ensures stays { (self.new.host ≡ self.old.host) × (self.new.known ≡ self.old.known) }
        ensures calls { self.new.calls ≡ self.old.calls + 1 }
        ensures count { CountsErrors K.Link link.old link.new result }
    {
        self.calls += 1;
        let request = rows_request(self.alloc, self.session, mirror, self.host.as_str())?;
        fetch_listing(
            self.alloc,
            link,
            &mut self.incoming,
            &self.table,
            request.as_slice(),
            mirror,
        )
    }

    /// Requests the listing of `target` that `look` selects, and returns the tag of its body without reading it as a
    /// listing.
    ///
    /// # Errors
    ///
    /// Returns `Refused`, `BadReply` or `Ended` if the peer's answer is not a tag, `LinkFault` if the connection fails,
    /// and `Memory`.
    #[tactic(auto, using(crate::proofs::ExchangeFacts::unwritten))]
    pub fn body<K: Link>(
        &mut self,
        link: &mut K,
        target: Target,
        look: Look,
    ) -> Result<Tag, FollowError>
        requires few { self.old.calls < 65536 }
        requires asks { MayAsk look.query }
        ensures exchanged { IfOk result (λ tag. (answer : Reply)
            × Exchanged (body_request self.old target look)
            (point_of K.Link link.old self.old.ahead)
            (point_of K.Link link.new self.new.ahead) answer
            × Tells self.old.known.rows answer tag) }
        ensures stops { IfErr result (λ e. Stops (body_request self.old target look)
            (UnexpectedTag self.old.known.rows)
            (point_of K.Link link.old self.old.ahead) (K.taken link.new) e) }
        ensures stays { (self.new.host ≡ self.old.host) × (self.new.known ≡ self.old.known) }
        ensures calls { self.new.calls ≡ self.old.calls + 1 }
        ensures count { CountsErrors K.Link link.old link.new result }
    {
        self.calls += 1;
        let want = Want::Rows {
            session: self.session,
            target,
            look,
        };
        let request = request_for(self.alloc, want, self.host.as_str())?;
        fetch(
            self.alloc,
            link,
            &mut self.incoming,
            &self.table,
            request.as_slice(),
        )
    }

    /// Requests a revision other than `revision`, and returns it once the share responds.
    #[tactic(auto, using(crate::proofs::ExchangeFacts::unwritten))]
    pub fn wait<K: Link>(&mut self, link: &mut K, revision: u32) -> Result<u32, FollowError>
        requires few { self.old.calls < 65536 }
        ensures exchanged { IfOk result (λ told. (answer : Reply)
            × Exchanged (update_request self.old revision)
            (point_of K.Link link.old self.old.ahead)
            (point_of K.Link link.new self.new.ahead) answer
            × TellsNumber (code "musr") self.old.known.rows answer told) }
        ensures stops { IfErr result (λ e. Stops (update_request self.old revision)
            (UnexpectedNumber (code "musr") self.old.known.rows)
            (point_of K.Link link.old self.old.ahead) (K.taken link.new) e) }
        ensures stays { (self.new.host ≡ self.old.host) × (self.new.known ≡ self.old.known) }
        ensures calls { self.new.calls ≡ self.old.calls + 1 }
        ensures count { CountsErrors K.Link link.old link.new result }
    {
        self.calls += 1;
        let want = Want::Update {
            session: self.session,
            revision,
        };
        let request = request_for(self.alloc, want, self.host.as_str())?;
        fetch_number(
            self.alloc,
            link,
            &mut self.incoming,
            &self.table,
            Code(*b"musr"),
            request.as_slice(),
        )
    }

    /// Logs out.
    pub fn close<K: Link>(self, link: &mut K) -> Result<(), FollowError>
        ensures exchanged { IfOk result (λ _. (answer : Reply) × (ahead : ReadAhead)
            × Exchanged (logout_request self)
            (point_of K.Link link.old self.ahead) (point_of K.Link link.new ahead) answer
            × (answer.0 ≡ 204)) }
        ensures stops { IfErr result (λ e. Stops (logout_request self) UnexpectedEnd
            (point_of K.Link link.old self.ahead) (K.taken link.new) e) }
        ensures count { CountsErrors K.Link link.old link.new result }
    {
        let Follower {
            alloc,
            host,
            session,
            table: _,
            mut incoming,
            calls: _,
        } = self;
        log_out(alloc, link, &mut incoming, session, host.as_str())
    }
}

// Requests the table, and learns it.
#[tactic(auto, using(crate::proofs::ExchangeFacts::unwritten))]
fn learn_table<K: Link>(
    alloc: Global,
    link: &mut K,
    incoming: &mut Incoming,
    host: &str,
) -> Result<CodeTable, FollowError>
    requires few { incoming.old.used < 2 ^ 63 }
    ensures exchanged { IfOk result (λ table. (answer : Reply)
        × Exchanged (request_text want.Codes host.now)
        (point_of K.Link link.old incoming.old) (point_of K.Link link.new incoming.new) answer
        × TellsTable answer table) }
    ensures stops { IfErr result (λ e. Stops (request_text want.Codes host.now) UnexpectedTable
        (point_of K.Link link.old incoming.old) (K.taken link.new) e) }
    ensures grows { incoming.new.used ≤ incoming.old.used + 2 ^ 31 }
    ensures count { CountsErrors K.Link link.old link.new result }
{
    let request = request_for(alloc, Want::Codes, host)?;
    let table = CodeTable::standard(alloc)?;
    match fetch(alloc, link, incoming, &table, request.as_slice()) {
        Ok(tag) => table_from(alloc, &tag),
        Err(error) => Err(error),
    }
}

// Returns the table that a tag encodes.
fn table_from(alloc: Global, tag: &Tag) -> Result<CodeTable, FollowError>
    ensures { MatchResult result (λ table. table_of tag.now ≡ Ok table) (λ e. IsNoTable tag.now e) }
{
    match CodeTable::from_reply(alloc, tag) {
        Ok(table) => Ok(table),
        Err(CodeError::Memory) => Err(FollowError::Memory),
        Err(CodeError::NotReply) => Err(FollowError::Codes(CodeError::NotReply)),
        Err(CodeError::Entry { index }) => Err(FollowError::Codes(CodeError::Entry { index })),
        Err(CodeError::Repeated { index }) => {
            Err(FollowError::Codes(CodeError::Repeated { index }))
        }
    }
}

// Logs in, and returns the session.
#[tactic(auto, using(crate::proofs::ExchangeFacts::unwritten))]
fn log_in<K: Link>(
    alloc: Global,
    link: &mut K,
    incoming: &mut Incoming,
    table: &CodeTable,
    host: &str,
) -> Result<u32, FollowError>
    requires few { incoming.old.used < 2 ^ 63 }
    ensures exchanged { IfOk result (λ session. (answer : Reply)
        × Exchanged (request_text want.Login host.now)
        (point_of K.Link link.old incoming.old) (point_of K.Link link.new incoming.new) answer
        × TellsNumber (code "mlid") table.now answer session) }
    ensures stops { IfErr result (λ e. Stops (request_text want.Login host.now)
        (UnexpectedNumber (code "mlid") table.now)
        (point_of K.Link link.old incoming.old) (K.taken link.new) e) }
    ensures grows { incoming.new.used ≤ incoming.old.used + 2 ^ 31 }
    ensures count { CountsErrors K.Link link.old link.new result }
{
    let request = request_for(alloc, Want::Login, host)?;
    fetch_number(
        alloc,
        link,
        incoming,
        table,
        Code(*b"mlid"),
        request.as_slice(),
    )
}

// Requests a listing, and applies it to the mirror.
fn fetch_listing<K: Link>(
    alloc: Global,
    link: &mut K,
    incoming: &mut Incoming,
    table: &CodeTable,
    request: &[u8],
    mirror: &mut Mirror,
) -> Result<Applied, FollowError>
    requires few { incoming.old.used < 2 ^ 63 }
    ensures exchanged { IfOk result (λ applied. (answer : Reply) × (l : Listing)
        × Exchanged request.now
        (point_of K.Link link.old incoming.old) (point_of K.Link link.new incoming.new) answer
        × TellsListing table.now mirror.old answer l
        × (mirror.new ≡ with_listings mirror.old (l ∷ []))
        × (applied ≡ applied_by mirror.old.held l)) }
    ensures stops { IfErr result (λ e. Stops request.now (UnexpectedListing table.now mirror.old)
        (point_of K.Link link.old incoming.old) (K.taken link.new) e) }
    ensures unchanged { OnErr result (mirror.new ≡ mirror.old) }
    ensures grows { incoming.new.used ≤ incoming.old.used + 2 ^ 31 }
    ensures count { CountsErrors K.Link link.old link.new result }
{
    match fetch(alloc, link, incoming, table, request) {
        Ok(tag) => apply(mirror, &tag),
        Err(error) => Err(error),
    }
}

// Applies a listing to the mirror.
fn apply(mirror: &mut Mirror, tag: &Tag) -> Result<Applied, FollowError>
    ensures taken { IfOk result (λ applied. (l : Listing)
        × IsListing mirror.old.target mirror.old.held.revision l tag.now
        × (mirror.old.held.revision ≤ l.revision)
        × (mirror.new ≡ with_listings mirror.old (l ∷ []))
        × (applied ≡ applied_by mirror.old.held l)) }
    ensures refused { IfErr result (λ e. IsNotTaken mirror.old tag.now e) }
    ensures unchanged { OnErr result (mirror.new ≡ mirror.old) }
{
    match mirror.apply(tag) {
        Ok(applied) => Ok(applied),
        Err(MirrorError::Memory) => Err(FollowError::Memory),
        Err(MirrorError::NotListing { index }) => {
            Err(FollowError::Listing(MirrorError::NotListing { index }))
        }
        Err(MirrorError::Backwards { held, told }) => {
            Err(FollowError::Listing(MirrorError::Backwards { held, told }))
        }
    }
}

// Ends the session.
#[tactic(auto, using(crate::proofs::ExchangeFacts::unwritten))]
fn log_out<K: Link>(
    alloc: Global,
    link: &mut K,
    incoming: &mut Incoming,
    session: u32,
    host: &str,
) -> Result<(), FollowError>
    requires few { incoming.old.used < 2 ^ 63 }
    ensures exchanged { IfOk result (λ _. (answer : Reply)
        × Exchanged (request_text (want.Logout session) host.now)
        (point_of K.Link link.old incoming.old) (point_of K.Link link.new incoming.new) answer
        × (answer.0 ≡ 204)) }
    ensures stops { IfErr result (λ e. Stops (request_text (want.Logout session) host.now)
        UnexpectedEnd (point_of K.Link link.old incoming.old) (K.taken link.new) e) }
    ensures count { CountsErrors K.Link link.old link.new result }
{
    let request = request_for(alloc, Want::Logout { session }, host)?;
    exchange_end(alloc, link, incoming, request.as_slice())
}

// Sends the request that ends the session, and checks the status of the answer.
fn exchange_end<K: Link>(
    alloc: Global,
    link: &mut K,
    incoming: &mut Incoming,
    request: &[u8],
) -> Result<(), FollowError>
    requires few { incoming.old.used < 2 ^ 63 }
    ensures exchanged { IfOk result (λ _. (answer : Reply)
        × Exchanged request.now
        (point_of K.Link link.old incoming.old) (point_of K.Link link.new incoming.new) answer
        × (answer.0 ≡ 204)) }
    ensures stops { IfErr result (λ e. Stops request.now UnexpectedEnd
        (point_of K.Link link.old incoming.old) (K.taken link.new) e) }
    ensures count { CountsErrors K.Link link.old link.new result }
{
    match exchange(alloc, link, incoming, request) {
        Ok((204, _)) => Ok(()),
        Ok((status, _)) => Err(FollowError::Refused { status }),
        Err(error) => Err(error),
    }
}
