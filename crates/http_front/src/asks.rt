//! Parsing one request.

ghost use Rattle.std.specs.Prelude.{◌≡◌, length, Ok, MatchResult};
ghost use Rattle.httparse.specs.Grammar.{RequestHead};
ghost use Rattle.http_heads.specs.Heads.{Answers, IsHead};
ghost use Rattle.http_front.specs.Asks.{Asks};
ghost use Rattle.http_front.specs.Routes.{all_routes};

use crate::routes::Route;
use crate::targets::path_and_query;
use crate::wants::{Request, read_want};
use http_heads::{HeadError, read_head};
use matchit::Router;
use share_asks::{Ask, Role};
use std::alloc::Global;

/// Returns the request with this head and body.
/// Returns `Memory` if allocation fails, and no other error.
pub fn read_ask(
    alloc: Global,
    router: &Router<Route>,
    role: Role,
    head: &[u8],
    body: &[u8],
) -> Result<Ask, HeadError>
    requires routes { router.now ≡ all_routes }
    requires head { Answers head.now (Ok (length body.now)) }
    ensures { MatchResult result (λ ask. (h : RequestHead) × IsHead head.now h
        × Asks role h body.now ask) (λ e. e ≡ HeadError.Memory) }
{
    let head = read_head(head)?;
    let (path, query) = path_and_query(head.target);
    let request = Request {
        method: head.method,
        path,
        query,
        body,
    };
    let want = read_want(alloc, router, role, &request)?;
    Ok(Ask {
        role,
        close: head.close,
        want,
    })
}
