//! `edit_log`: a log that grows.

use edit_log::EditLog;
use item_model::{Batch, Edit, Edits, Entry};
use std::alloc::{AllocError, Global};
use std::test::Fail;

fn drops_item(alloc: Global, id: u32) -> Result<Batch, AllocError> {
    let mut edits = Edits::new(alloc);
    edits.push(Edit::DropItem { id })?;
    Ok(Batch { edits })
}

// Without clauses, so that a test's proof does not unfold its calls.
fn grown(alloc: Global) -> Result<EditLog, AllocError> {
    let mut log = EditLog::new(alloc);
    log.reserve(3)?;
    if log.spare() >= 3 {
        log.append(Entry::Login { by: 4, id: 1 });
        log.append(Entry::Edits {
            by: 4,
            batch: drops_item(alloc, 9)?,
        });
    }
    Ok(log)
}

/// Shows an entry: its handle, and the batch or the session.
fn entry_shown(alloc: Global, entry: Option<&Entry>) -> Result<String, AllocError> {
    match entry {
        None => format!(in alloc; "none"),
        Some(Entry::Edits { by, batch }) => format!(in alloc; "edits {by} {batch:?}"),
        Some(Entry::Login { by, id }) => format!(in alloc; "login {by} {id}"),
        Some(Entry::Logout { by, id }) => format!(in alloc; "logout {by} {id}"),
        Some(Entry::Stop { by }) => format!(in alloc; "stop {by}"),
    }
}

/// Returns the length, the revision, whether there is spare capacity, and the first entries.
fn shown(alloc: Global, log: &EditLog) -> Result<String, AllocError> {
    let counts = (log.len(), log.revision(), log.spare() >= 1);
    let first = entry_shown(alloc, log.entry(0))?;
    let second = entry_shown(alloc, log.entry(1))?;
    let third = entry_shown(alloc, log.entry(2))?;
    format!(in alloc; "{counts:?}, {first}, {second}, {third}")
}

fn grown_shown(alloc: Global) -> Result<String, AllocError> {
    let log = grown(alloc)?;
    shown(alloc, &log)
}

#[test]
fn a_log_keeps_what_is_appended(rt: HostRuntime) -> Result<(), Fail> {
    assert_eq!(rt;
        grown_shown(rt.alloc())?.as_str(),
        "(2, 3, true), login 4 1, edits 4 Batch { edits: Edits { items: [DropItem { id: 9 }] } }, none"
    );
    Ok(())
}

/// Reserves capacity that is there already. Returns whether the spare capacity is as before.
fn reserves_nothing(alloc: Global) -> Result<bool, AllocError> {
    let mut log = EditLog::new(alloc);
    log.reserve(3)?;
    let spare = log.spare();
    log.reserve(spare)?;
    Ok(log.spare() == spare)
}

#[test]
fn capacity_that_is_there_is_enough(rt: HostRuntime) -> Result<(), Fail> {
    assert!(rt; reserves_nothing(rt.alloc())?);
    Ok(())
}
