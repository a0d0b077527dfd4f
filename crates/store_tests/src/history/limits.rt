//! The limit on lists.

use dmap_tags::Text;
use item_model::{Batch, Edit, Edits};
use reference_share::takes_batch;
use std::alloc::{AllocError, Global};
use std::test::Fail;

/// Returns a batch that puts `count` lists.
fn puts_lists(alloc: Global, count: u32) -> Result<Batch, AllocError> {
    let mut edits = Edits::new(alloc);
    for list in 2..count.saturating_add(2) {
        let name = Text::of(alloc, "")?;
        edits.push(Edit::PutList { list, name })?;
    }
    Ok(Batch { edits })
}

fn takes_lists(alloc: Global, count: u32) -> Result<bool, AllocError> {
    takes_batch(alloc, &[], &puts_lists(alloc, count)?)
}

#[test]
fn a_share_takes_1024_lists(rt: HostRuntime) -> Result<(), Fail> {
    let alloc = rt.alloc();
    assert!(rt; takes_lists(alloc, 1_024)?);
    assert!(rt; !takes_lists(alloc, 1_025)?);
    Ok(())
}
