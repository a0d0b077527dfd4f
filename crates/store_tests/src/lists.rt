//! `playlist_store`: lists over a few batches, and one call of each function that allocates.

ghost use Rattle.std.specs.Prelude.{◌≡◌, ◌≤◌, ◌==◌, false};
ghost use Rattle.share_history.specs.Numbers.{base_list};

use crate::batches::batch_of;
use crate::stores::{Stores, after};
use playlist_store::PlaylistStore;
use std::alloc::{AllocError, Global};
use std::test::Fail;

/// Returns the members of an existing list.
fn members(alloc: Global, stores: &Stores, list: u32) -> Result<String, AllocError>
    requires { (list == base_list) ≡ false }
{
    let mut text = String::new(alloc);
    if let Some(found) = stores.lists.members(list, &stores.items)? {
        for member in found.as_slice() {
            let shown = format!(in alloc; "{} {};", member.key, member.item)?;
            text.push_str(shown.as_str())?;
        }
    }
    Ok(text)
}

/// Returns the keys of a list touched after `base`, a revision in the window.
fn changed(alloc: Global, stores: &Stores, list: u32, base: u32) -> Result<String, AllocError>
    requires other { (list == base_list) ≡ false }
    requires keep { stores.now.items.keep ≡ stores.now.lists.keep }
{
    let is_known = stores.lists.floor() <= base && base <= stores.lists.revision();
    if !is_known || stores.items.revision() != stores.lists.revision() {
        return Err(AllocError);
    }
    let keys = stores.lists.changed_since(list, base, &stores.items)?;
    format!(in alloc; "{:?}", keys.as_slice())
}

/// Songs of kind 1, except the third, of kind 4.
const SONGS: &str =
    "op,kind,id,com.apple.itunes.mediakind\nput,item,1,1\nput,item,2,1\nput,item,3,4\nput,item,6,1\n";

/// A playlist of four members, one of an item that does not exist.
const MIX: &str =
    "op,kind,id,dmap.itemname,list,item\nput,list,2,Mix,,\nput,member,12,,2,1\nput,member,10,,2,1\nput,member,11,,2,6\nput,member,13,,2,99\n";

const NO_SONG_1: &str = "op,kind,id\ndrop,item,1\n";

const NO_LIST_2: &str = "op,kind,id\ndrop,list,2\n";

const KIND_1: &str =
    "op,kind,id,dmap.itemname,query\nput,rule,3,Rule,'com.apple.itunes.mediakind:1'\n";

/// The third song gets kind 1, and the second kind 4.
const TURNED: &str = "op,kind,id,com.apple.itunes.mediakind\nput,item,3,1\nput,item,2,4\n";

/// Returns the members of a list and the keys that changed in it since each of two bases.
fn since(alloc: Global, stores: &Stores, list: u32, bases: (u32, u32)) -> Result<String, AllocError>
    requires other { (list == base_list) ≡ false }
    requires keep { stores.now.items.keep ≡ stores.now.lists.keep }
{
    let members = members(alloc, stores, list)?;
    let first = changed(alloc, stores, list, bases.0)?;
    let second = changed(alloc, stores, list, bases.1)?;
    format!(in alloc; "{members} {first} {second}")
}

#[tactic(auto, using(crate::proofs::Few::same_window))]
fn since_after(
    alloc: Global,
    first: &[&'static str],
    last: &str,
    list: u32,
    bases: (u32, u32),
) -> Result<String, AllocError>
    requires { (list == base_list) ≡ false }
{
    let stores = after(alloc, first, last)?;
    since(alloc, &stores, list, bases)
}

const MIXED: [&str; 2] = [SONGS, MIX];

const RULED: [&str; 2] = [SONGS, KIND_1];

#[test]
fn lists_show_their_members_and_what_changed(rt: HostRuntime) -> Result<(), Fail> {
    let alloc = rt.alloc();
    assert_eq!(rt;
        since_after(alloc, &MIXED, NO_SONG_1, 2, (4, 3))?.as_str(),
        "11 6; [10, 12] [10, 11, 12, 13]"
    );
    assert_eq!(rt;
        since_after(alloc, &RULED, TURNED, 3, (4, 5))?.as_str(),
        "1 1;3 3;6 6; [2, 3] []"
    );
    Ok(())
}

/// Returns the lists, their number, and their number after a further batch.
fn counted(alloc: Global, lists: &PlaylistStore, records: &str) -> Result<String, AllocError> {
    let ids = lists.lists()?;
    let more = batch_of(alloc, records)?;
    let after = lists.count_after(more.edits.as_slice())?;
    format!(in alloc; "{:?} {} {after}", ids.as_slice(), lists.count())
}

fn counted_after(alloc: Global) -> Result<String, AllocError> {
    let stores = after(alloc, &MIXED, KIND_1)?;
    counted(alloc, &stores.lists, NO_LIST_2)
}

#[test]
fn lists_are_counted(rt: HostRuntime) -> Result<(), Fail> {
    assert_eq!(rt; counted_after(rt.alloc())?.as_str(), "[2, 3] 2 1");
    Ok(())
}
