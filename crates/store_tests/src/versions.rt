//! `key_versions`: versions of texts and of numbers, and one call of each function that allocates.

use key_versions::Versions;
use std::alloc::{AllocError, Global};
use std::process::Abort;
use std::test::Fail;

/// A key, a revision, a value, which is `None` if empty, and whether the key had a value before.
type PutRow = (u32, u32, &'static str, bool);

fn text(alloc: Global, word: &str) -> Result<Option<String>, AllocError> {
    if word.is_empty() {
        return Ok(None);
    }
    Ok(Some(String::from_str(alloc, word)?))
}

fn put(
    rt: &impl Abort,
    alloc: Global,
    held: &mut Versions<String>,
    rows: &[PutRow],
) -> Result<(), Fail> {
    for (key, revision, word, had) in rows {
        let was = held.put_value(*key, *revision, text(alloc, word)?)?;
        assert_eq!(rt; was, *had);
    }
    Ok(())
}

/// Returns the values of a key at `count` revisions from the first on, a dash for `None`.
fn values(
    alloc: Global,
    held: &Versions<String>,
    key: u32,
    first: u32,
    count: u32,
) -> Result<String, AllocError> {
    let mut values = String::new(alloc);
    for base in first..first.saturating_add(count) {
        match held.value_at(key, base) {
            Some(word) => values.push_str(word.as_str())?,
            None => values.push_str("-")?,
        }
    }
    Ok(values)
}

/// Returns the values of key 7 from revision 2 on and of key 2 from 3 on, and the keys.
fn shown(alloc: Global, held: &Versions<String>) -> Result<String, AllocError> {
    let seven = values(alloc, held, 7, 2, 5)?;
    let two = values(alloc, held, 2, 3, 3)?;
    let keys = held.keys()?;
    format!(in alloc; "{seven} {two} {:?}", keys.as_slice())
}

const PUTS: [PutRow; 6] = [
    (9, 3, "", false),
    (7, 3, "a", false),
    (7, 5, "b", true),
    (7, 5, "c", true),
    (7, 6, "", true),
    (2, 4, "d", false),
];

/// Checks the values after puts, and after versions are taken back twice.
fn look_up(rt: &impl Abort, alloc: Global, held: &mut Versions<String>) -> Result<(), Fail> {
    put(rt, alloc, held, &PUTS)?;
    assert!(rt; held.newest(7).is_none());
    assert_eq!(rt; shown(alloc, held)?.as_str(), "-aac- -dd [2]");
    held.take_back_all(&[7, 2, 9], 5);
    assert_eq!(rt; shown(alloc, held)?.as_str(), "-aaaa -dd [2, 7]");
    held.take_back(2, 4);
    assert_eq!(rt; shown(alloc, held)?.as_str(), "-aaaa --- [7]");
    Ok(())
}

#[test]
fn a_look_up_reads_what_stood_then(rt: HostRuntime) -> Result<(), Fail> {
    let mut held = Versions::new(rt.alloc());
    look_up(&rt, rt.alloc(), &mut held)
}

const NUMBERS: [(u32, u32, Option<u32>); 4] = [
    (4, 3, Some(6)),
    (4, 5, Some(6)),
    (4, 7, Some(8)),
    (5, 7, None),
];

fn with_numbers(
    alloc: Global,
    rows: &[(u32, u32, Option<u32>)],
) -> Result<Versions<u32>, AllocError> {
    let mut held = Versions::new(alloc);
    for (key, revision, number) in rows {
        held.put_number(*key, *revision, *number)?;
    }
    Ok(held)
}

fn are_numbered(rt: &impl Abort, held: &mut Versions<u32>) {
    assert_eq!(rt; held.value_at(4, 6).copied(), Some(6));
    assert!(rt; held.has_number(4, 6) && held.has_number(4, 8) && !held.has_number(4, 7));
    assert!(rt; !held.has_number(5, 6));
    held.prune(4, 7);
    assert!(rt; !held.has_number(4, 6));
}

#[test]
fn a_number_is_put_where_it_is_another(rt: HostRuntime) -> Result<(), Fail> {
    let mut held = with_numbers(rt.alloc(), &NUMBERS)?;
    are_numbered(&rt, &mut held);
    Ok(())
}
