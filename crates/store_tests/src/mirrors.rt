//! `mirror_core`: listings that a mirror applies one after another, and some that it refuses.
//!
//! Results are compared as they are shown, by one helper: a proof of a test need not follow what a mirror stores.

use crate::listing_bodies::{Told, body};
use dmap_tags::Tag;
use item_model::{Look, Meta, Target};
use mirror_core::{Applied, Mirror, MirrorError};
use std::alloc::{AllocError, Global};
use std::process::Abort;
use std::test::Fail;

/// A delta before any listing, a full listing, an older one, and a delta.
const TOLD: [Told; 4] = [
    (
        true,
        4,
        [(7, "C"), (8, "D")],
        9,
        "Err(NotListing { index: Some(1) })",
    ),
    (
        false,
        3,
        [(7, "A"), (9, "B")],
        0,
        "Ok(Applied { revision: 3, delta: false, put: 2, dropped: 0, rows: 2 })",
    ),
    (
        false,
        2,
        [(7, "A"), (9, "B")],
        0,
        "Err(Backwards { held: 3, told: 2 })",
    ),
    (
        true,
        4,
        [(7, "C"), (8, "D")],
        9,
        "Ok(Applied { revision: 4, delta: true, put: 2, dropped: 1, rows: 2 })",
    ),
];

// Without clauses, so that other proofs do not unfold what a mirror stores.
fn apply(mirror: &mut Mirror, body: &Tag) -> Result<Applied, MirrorError> {
    mirror.apply(body)
}

fn next_look(mirror: &Mirror) -> Result<Look, AllocError> {
    mirror.look()
}

/// Applies a body, and returns the result as it is shown.
fn applied(alloc: Global, mirror: &mut Mirror, body: &Tag) -> Result<String, AllocError> {
    let answer = apply(mirror, body);
    format!(in alloc; "{answer:?}")
}

fn takes_in(rt: &impl Abort, alloc: Global, mirror: &mut Mirror, told: &Told) -> Result<(), Fail> {
    let body = body(alloc, told)?;
    let shown = applied(alloc, mirror, &body)?;
    assert_eq!(rt; shown.as_str(), told.4);
    Ok(())
}

/// Returns the next request of the mirror, as it is shown.
fn look(alloc: Global, mirror: &Mirror) -> Result<String, AllocError> {
    let look = next_look(mirror)?;
    format!(in alloc; "{look:?}")
}

/// Applies the bodies one after another, and compares the results.
fn take_in_all(
    rt: &impl Abort,
    alloc: Global,
    mirror: &mut Mirror,
    listings: &[Told],
) -> Result<(), Fail> {
    for told in listings {
        takes_in(rt, alloc, mirror, told)?;
    }
    Ok(())
}

/// Checks the next request of the mirror.
fn looks(rt: &impl Abort, alloc: Global, mirror: &Mirror) -> Result<(), Fail> {
    let look = look(alloc, mirror)?;
    assert_eq!(rt;
        look.as_str(),
        "Look { query: None, meta: All, base: 4, range: All }"
    );
    Ok(())
}

#[test]
fn bodies_are_taken_in_or_refused(rt: HostRuntime) -> Result<(), Fail> {
    let mut mirror = Mirror::new(rt.alloc(), Target::Items, None, Meta::All);
    take_in_all(&rt, rt.alloc(), &mut mirror, &TOLD)?;
    looks(&rt, rt.alloc(), &mirror)
}
