//! `rehearsal`: a small rehearsal. `command_tests` has others.

use rehearsal::{Rehearsal, Rehearsed, rehearse};
use std::alloc::{AllocError, Global};
use std::test::Fail;

const FORGETFUL: &str = "revision 8
items 5
mirror 1 rows 5 full 1 delta 5
mirror 2 rows 4 full 2 delta 0
mirror 3 rows 1 full 1 delta 0
";

fn small_rehearsal(
    alloc: Global,
    batches: u32,
    size: u32,
    keep: u32,
) -> Result<Rehearsed, AllocError> {
    if !(1..=9).contains(&batches) || !(1..=9).contains(&size) || !(1..=256).contains(&keep) {
        return Err(AllocError);
    }
    let plan = Rehearsal {
        number: 1,
        batches,
        size,
        keep,
    };
    match rehearse(alloc, &plan) {
        Ok(done) => Ok(done),
        Err(_) => Err(AllocError),
    }
}

#[test]
fn a_base_that_is_not_kept_gets_the_whole(rt: HostRuntime) -> Result<(), Fail> {
    let done = small_rehearsal(rt.alloc(), 6, 1, 1)?;
    assert!(rt; done.summary.as_slice() == FORGETFUL.as_bytes());
    Ok(())
}
