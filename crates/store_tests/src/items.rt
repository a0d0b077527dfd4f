//! `item_store`: a store over three batches, and one call of each function that allocates.

use crate::stores::{after, undo};
use item_model::{PropValue, Property, SharedRow};
use item_store::ItemStore;
use std::alloc::{AllocError, Global};
use std::test::Fail;

/// Returns the ids that changed since `base`, a revision in the window.
fn changed(alloc: Global, store: &ItemStore, base: u32) -> Result<String, AllocError> {
    if base < store.floor() || store.revision() < base {
        return Err(AllocError);
    }
    let ids = store.changed_since(base)?;
    format!(in alloc; "{:?}", ids.as_slice())
}

/// Returns an item's id and name.
fn named(alloc: Global, shared: &SharedRow) -> Result<String, AllocError> {
    let row = shared.row();
    match row.item.get(Property::Minm) {
        Some(PropValue::Text(name)) => format!(in alloc; "{} {};", row.id, name.as_str()),
        _ => format!(in alloc; "{};", row.id),
    }
}

/// Returns all items in ascending order, and their number.
fn shown(alloc: Global, store: &ItemStore) -> Result<String, AllocError> {
    let mut text = String::new(alloc);
    let ids = store.ids()?;
    for id in ids.as_slice() {
        if let Some(shared) = store.shared(*id)? {
            text.push_str(named(alloc, &shared)?.as_str())?;
        }
    }
    text.push_str(format!(in alloc; "{}", store.count())?.as_str())?;
    Ok(text)
}

/// Returns the items, the least base, the revision and the ids that changed since `base`.
fn stands(alloc: Global, store: &ItemStore, base: u32) -> Result<String, AllocError> {
    let shown = shown(alloc, store)?;
    let changed = changed(alloc, store, base)?;
    format!(in alloc;
        "{shown} at {}-{} {changed}",
        store.floor(),
        store.revision()
    )
}

const ONE_AND_TWO: &str = "op,kind,id,dmap.itemname\nput,item,1,a\nput,item,2,b\n";

const NO_ONE: &str = "op,kind,id,dmap.itemname\ndrop,item,1,\nput,item,2,c\n";

const TWO_AND_THREE: &str = "op,kind,id,dmap.itemname\nput,item,2,d\nput,item,3,e\n";

const FIRST: [&str; 2] = [ONE_AND_TWO, NO_ONE];

fn after_three(alloc: Global) -> Result<String, AllocError> {
    let stores = after(alloc, &FIRST, TWO_AND_THREE)?;
    stands(alloc, &stores.items, 4)
}

fn undone(alloc: Global) -> Result<String, AllocError> {
    let mut stores = after(alloc, &FIRST, TWO_AND_THREE)?;
    undo(&mut stores);
    stands(alloc, &stores.items, 3)
}

#[test]
fn batches_are_taken_in_and_the_last_one_back(rt: HostRuntime) -> Result<(), Fail> {
    assert_eq!(rt;
        after_three(rt.alloc())?.as_str(),
        "2 d;3 e;2 at 2-5 [2, 3]"
    );
    assert_eq!(rt; undone(rt.alloc())?.as_str(), "2 c;1 at 2-4 [1, 2]");
    Ok(())
}
