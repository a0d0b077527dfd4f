//! The limits of a share's history, at each limit and one past it.

use crate::shares::{Request, log_in, opened, post, respond};
use share_core::Share;
use share_history::MAX_ENTRIES;
use std::alloc::{AllocError, Global};
use std::test::Fail;

const BAD: Request = Request::Post("/edit", "op,kind,id\nput,item,x\n");

const NO_RECORDS: Request = Request::Post("/edit", "op,kind,id\n");

const ONE_DROP: Request = Request::Post("/edit", "op,kind,id\ndrop,item,7\n");

const TWO_DROPS: Request = Request::Post("/edit", "op,kind,id\ndrop,item,7\ndrop,item,7\n");

const LOGIN: Request = Request::Get("/login");

const STOP: Request = Request::Post("/stop", "");

/// Returns whether the requests of `rows` get their statuses.
fn has_statuses(
    alloc: Global,
    share: &mut Share,
    rows: &[(Request, u16)],
) -> Result<bool, AllocError> {
    for (request, status) in rows {
        if respond(alloc, share, *request)? != *status {
            return Ok(false);
        }
    }
    Ok(true)
}

/// Returns records that drop the items from 1 to `last`.
fn drops(alloc: Global, last: u32) -> Result<String, AllocError> {
    let mut text = String::new(alloc);
    text.push_str("op,kind,id\n")?;
    for id in 1..=last {
        text.push_str(format!(in alloc; "drop,item,{id}\n")?.as_str())?;
    }
    Ok(text)
}

/// The history may have one more entry, and then no further one.
const LAST_PLACE: [(Request, u16); 10] = [
    (NO_RECORDS, 204),
    (ONE_DROP, 200),
    (ONE_DROP, 507),
    (LOGIN, 507),
    (BAD, 400),
    (NO_RECORDS, 204),
    (Request::Get("/logout?session-id=1048575"), 204),
    (LOGIN, 507),
    (STOP, 204),
    (LOGIN, 503),
];

#[test]
fn the_last_place_is_taken_once(rt: HostRuntime) -> Result<(), Fail> {
    let mut share = opened(rt.alloc())?;
    log_in(&mut share, MAX_ENTRIES - 1)?;
    assert!(rt; has_statuses(rt.alloc(), &mut share, &LAST_PLACE)?);
    assert!(rt; share.into_history().len() == MAX_ENTRIES + 2);
    Ok(())
}

/// The history may have one more edit, and then no further one.
const LAST_EDIT: [(Request, u16); 8] = [
    (TWO_DROPS, 507),
    (ONE_DROP, 200),
    (ONE_DROP, 507),
    (BAD, 400),
    (NO_RECORDS, 204),
    (LOGIN, 200),
    (Request::Get("/logout?session-id=1"), 204),
    (STOP, 204),
];

/// Sends as many edits as a history may have, less one.
fn fill(alloc: Global, share: &mut Share) -> Result<(), AllocError> {
    let most = drops(alloc, 65_536)?;
    let rest = drops(alloc, 65_535)?;
    for _ in 0..3u32 {
        post(alloc, share, "/edit", most.as_str())?;
    }
    post(alloc, share, "/edit", rest.as_str())?;
    Ok(())
}

#[test]
fn the_last_edit_is_taken_once(rt: HostRuntime) -> Result<(), Fail> {
    let mut share = opened(rt.alloc())?;
    fill(rt.alloc(), &mut share)?;
    assert!(rt; has_statuses(rt.alloc(), &mut share, &LAST_EDIT)?);
    Ok(())
}
