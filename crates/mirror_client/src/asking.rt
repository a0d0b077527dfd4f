//! Requests of a client that follows.

ghost use Rattle.std.specs.Prelude.{◌≡◌, IfOk};
ghost use Rattle.share_asks.specs.Valid.{MayAsk};
ghost use Rattle.http_client.specs.Requests.{CanSend, request_text};
ghost use Rattle.mirror_client.specs.Steps.{rows_want};

use dmap_tags::Bytes;
use http_client::request;
use mirror_core::Mirror;
use share_asks::{Ask, Role, Want};
use std::alloc::{AllocError, Global};

/// Returns the text of a request.
pub(crate) fn request_for(alloc: Global, want: Want, host: &str) -> Result<Bytes, AllocError>
    requires { CanSend want }
    ensures { IfOk result (λ bytes. bytes ≡ request_text want host.now) }
{
    let ask = Ask {
        role: Role::Listen,
        close: false,
        want,
    };
    request(alloc, &ask, host)
}

/// Returns the text of the request for the mirror's next listing.
pub(crate) fn rows_request(
    alloc: Global,
    session: u32,
    mirror: &Mirror,
    host: &str,
) -> Result<Bytes, AllocError>
    requires { MayAsk mirror.now.query }
    ensures { IfOk result (λ bytes. bytes ≡ request_text (rows_want session mirror.now) host.now) }
{
    let want = Want::Rows {
        session,
        target: mirror.target(),
        look: mirror.look()?,
    };
    request_for(alloc, want, host)
}
