//! The last-answered length of a session after each kind of answer.

use crate::shares::{Request, opened, respond};
use share_core::Share;
use std::alloc::{AllocError, Global};
use std::test::Fail;

const PUT: &str = "op,kind,id\nput,item,7\n";

/// Requests with their status, and the last-answered length of session 1 after each.
const MARKS: [(Request, u16, u64); 22] = [
    (Request::Get("/login"), 200, 1),
    (Request::Post("/edit", PUT), 200, 1),
    (Request::Get("/server-info"), 200, 1),
    (Request::Get("/content-codes"), 200, 1),
    (Request::Get("/databases?session-id=1"), 200, 2),
    (Request::Post("/edit", PUT), 200, 2),
    (Request::Get("/databases/1/items?session-id=1"), 200, 3),
    (Request::Post("/edit", "op,kind,id\n"), 204, 3),
    (Request::Post("/edit", PUT), 200, 3),
    (Request::Get("/databases/1/containers?session-id=1"), 200, 4),
    (Request::Post("/edit", PUT), 200, 4),
    (
        Request::Get("/databases/1/browse/albums?session-id=1"),
        200,
        5,
    ),
    (Request::Get("/login"), 200, 5),
    (
        Request::Get("/databases/1/items?session-id=1&delta=x"),
        400,
        5,
    ),
    (Request::Get("/update?session-id=1&revision-number=6"), 0, 5),
    (
        Request::Get("/databases/1/containers/7/items?session-id=1"),
        404,
        6,
    ),
    (Request::Get("/logout?session-id=2"), 204, 6),
    (Request::Get("/databases?session-id=2"), 403, 6),
    (Request::Post("/edit", "op,kind\n"), 400, 6),
    (
        Request::Get("/update?session-id=1&revision-number=5"),
        200,
        7,
    ),
    (Request::Post("/stop", ""), 204, 7),
    (Request::Get("/databases?session-id=1"), 503, 7),
];

/// Returns whether a request gets `status`, and session 1 then has the last-answered length `mark`.
fn marks(
    alloc: Global,
    share: &mut Share,
    request: Request,
    status: u16,
    mark: u64,
) -> Result<bool, AllocError> {
    let answered = respond(alloc, share, request)?;
    Ok(answered == status && share.seen(1) == Some(mark))
}

fn has_marks(
    alloc: Global,
    share: &mut Share,
    rows: &[(Request, u16, u64)],
) -> Result<bool, AllocError> {
    for (request, status, mark) in rows {
        if !marks(alloc, share, *request, *status, *mark)? {
            return Ok(false);
        }
    }
    Ok(true)
}

#[test]
fn an_answer_to_a_session_moves_its_mark(rt: HostRuntime) -> Result<(), Fail> {
    let mut share = opened(rt.alloc())?;
    assert!(rt; has_marks(rt.alloc(), &mut share, &MARKS)?);
    assert!(rt; share.seen(2).is_none());
    Ok(())
}
