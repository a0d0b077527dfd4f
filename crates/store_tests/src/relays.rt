//! `relayed_rows`: a row that is read back, and listings that a relay applies, with the number of edits of each.

use crate::listing_bodies::{Told, body, row};
use dmap_tags::Tag;
use item_model::Target;
use mirror_core::{MirrorError, ToldRef, told_by};
use relayed_rows::{Change, Relay, Untaken, row_of};
use std::alloc::{AllocError, Global};
use std::process::Abort;
use std::test::Fail;

fn read(alloc: Global, tag: &Tag) -> Result<String, AllocError> {
    let row = row_of(alloc, tag)?;
    format!(in alloc; "{row:?}")
}

#[test]
fn a_row_reads_back(rt: HostRuntime) -> Result<(), Fail> {
    let row = row(rt.alloc(), 7, "A")?;
    let shown = read(rt.alloc(), &row)?;
    assert_eq!(rt;
        shown.as_str(),
        "Some(Row { id: 7, item: Item { entries: [(Minm, Text(Text { text: \"A\" }))], folds: [] } })"
    );
    Ok(())
}

const TOLD: [Told; 4] = [
    (false, 3, [(9, "B"), (7, "A")], 0, "2 puts, 0 drops"),
    (true, 3, [(7, "C"), (8, "D")], 9, "2 puts, 1 drops"),
    (false, 3, [(8, "D"), (0, "E")], 0, "Row { index: 1 }"),
    (false, 3, [(8, "D"), (8, "E")], 0, "1 puts, 1 drops"),
];

// Without clauses, so that other proofs do not unfold what a relay stores.
fn told(base: u32, body: &Tag) -> Result<ToldRef<'_>, MirrorError> {
    told_by(Target::Items, base, body)
}

fn take(relay: &mut Relay, told: ToldRef<'_>) -> Result<Change, Untaken> {
    relay.take(told)
}

fn taken(alloc: Global, relay: &mut Relay, body: &Tag) -> Result<String, AllocError> {
    let told = match told(relay.base(), body) {
        Ok(told) => told,
        Err(error) => return format!(in alloc; "{error:?}"),
    };
    match take(relay, told) {
        Ok(change) => format!(in alloc; "{} puts, {} drops", change.puts, change.drops),
        Err(error) => format!(in alloc; "{error:?}"),
    }
}

fn takes(rt: &impl Abort, alloc: Global, relay: &mut Relay, case: &Told) -> Result<(), Fail> {
    let body = body(alloc, case)?;
    let text = taken(alloc, relay, &body)?;
    assert_eq!(rt; text.as_str(), case.4);
    Ok(())
}

fn takes_all(
    rt: &impl Abort,
    alloc: Global,
    relay: &mut Relay,
    cases: &[Told],
) -> Result<(), Fail> {
    for case in cases {
        takes(rt, alloc, relay, case)?;
    }
    Ok(())
}

#[test]
fn listings_are_taken(rt: HostRuntime) -> Result<(), Fail> {
    let mut relay = Relay::new(rt.alloc());
    takes_all(&rt, rt.alloc(), &mut relay, &TOLD)?;
    assert_eq!(rt; relay.base(), 3);
    Ok(())
}
