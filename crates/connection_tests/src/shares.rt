//! A share, and requests to it, one after another.

ghost use Rattle.std.specs.Prelude.{◌≡◌, ◌<◌, [], IfOk};
ghost use Rattle.share_asks.specs.Valid.{IsValidWant};

use http_front::HeadReader;
use item_model::{Batch, Edits};
use share_asks::{Ask, Role, Want};
use share_core::{Answer, Share};
use song_query::Steps;
use std::alloc::{AllocError, Global};
use std::marker::Brand;
use std::sync::ledger::{Blank, Ledger};

/// A request of a player, by its target, or of an editor, by target and body.
#[derive(Clone, Copy)]
pub(crate) enum Request {
    Get(&'static str),
    Post(&'static str, &'static str),
}

/// Opens a share without records.
pub(crate) fn opened(alloc: Global) -> Result<Share, AllocError>
    ensures { IfOk result (λ share. share.history ≡ []) }
{
    let first = Batch {
        edits: Edits::new(alloc),
    };
    match Share::open(alloc, "S", 16, first) {
        Ok(share) => Ok(share),
        Err(_) => Err(AllocError),
    }
}

/// Returns the status of the response to a player's request.
fn get(alloc: Global, share: &mut Share, target: &str) -> Result<u16, AllocError> {
    let text = format!(in alloc; "GET {target} HTTP/1.1\r\n\r\n")?;
    let ask = read(alloc, Role::Listen, text.as_bytes())?;
    answer(share, &ask)
}

/// Returns the status of the response to an editor's request.
pub(crate) fn post(
    alloc: Global,
    share: &mut Share,
    target: &str,
    body: &str,
) -> Result<u16, AllocError> {
    let length = body.len();
    let text = format!(in alloc;
        "POST {target} HTTP/1.1\r\nContent-Length: {length}\r\n\r\n{body}"
    )?;
    let ask = read(alloc, Role::Edit, text.as_bytes())?;
    answer(share, &ask)
}

/// Returns the status of the response to a request. A pending update has 0.
pub(crate) fn respond(
    alloc: Global,
    share: &mut Share,
    request: Request,
) -> Result<u16, AllocError> {
    match request {
        Request::Get(target) => get(alloc, share, target),
        Request::Post(target, body) => post(alloc, share, target, body),
    }
}

/// Logs in `count` times.
pub(crate) fn log_in(share: &mut Share, count: usize) -> Result<(), AllocError> {
    let ask = Ask {
        role: Role::Listen,
        close: false,
        want: Want::Login,
    };
    for _ in 0..count {
        answered::<Brand>(Blank::new(1), share, &ask)?;
    }
    Ok(())
}

fn read(alloc: Global, role: Role, request: &[u8]) -> Result<Ask, AllocError>
    ensures { IfOk result (λ ask. IsValidWant ask.want) }
{
    let mut reader = HeadReader::new(alloc, role)?;
    if reader.feed(request).is_err() {
        return Err(AllocError);
    }
    match reader.next() {
        Some(ask) => Ok(ask),
        None => Err(AllocError),
    }
}

fn answer(share: &mut Share, ask: &Ask) -> Result<u16, AllocError>
    requires { IsValidWant ask.now.want }
{
    match answered::<Brand>(Blank::new(1), share, ask)? {
        Answer::Reply(reply) => Ok(reply.content.status),
        Answer::Wait { .. } => Ok(0),
    }
}

fn answered<L: Ledger>(blank: Blank, share: &mut Share, ask: &Ask) -> Result<Answer, AllocError>
    requires name { blank.name ≡ L.name }
    requires parts { blank.parts ≡ L.parts }
    requires any { 0 < blank.parts }
    requires valid { IsValidWant ask.now.want }
{
    share.answer(9, ask, &mut Steps::<L>::open(blank))
}
