//! Histories whose batches are read from records, and comparing their bodies.

ghost use Rattle.std.specs.Prelude.{◌<◌, ◌+◌, ◌^◌, length, IsTrue};
ghost use Rattle.share_history.specs.Histories.{batches, revision, all_edits};

use dmap_tags::{Tag, encode_into};
use item_model::{Entry, Query};
use records_import::read_batch;
use reference_share::{has_room_for, is_below_entry_limit};
use song_query::read;
use std::alloc::{AllocError, Global};
use std::test::Fail;

/// Six songs. Two of them have no album, and one no media kind.
pub(crate) const SIX_SONGS: &str = "\
op,kind,id,dmap.itemname,daap.songartist,daap.songalbum,com.apple.itunes.mediakind
put,item,1,Hey,Ann,One,1
put,item,2,it's late,Bob,,1
put,item,3,Talk,Cy,Pod,4
put,item,4,Move,Di,Film,32
put,item,5,Quiet,Ed,Two,
put,item,6,Late,ann,two,1
";

/// Songs or films, with an album.
pub(crate) const WITH_ALBUM: &str =
    "('com.apple.itunes.mediakind:1','com.apple.itunes.mediakind:32')+'daap.songalbum!:'";

pub(crate) const DROP_1: &str = "op,kind,id\ndrop,item,1\n";

/// Returns a history with a batch for each text of records.
pub(crate) fn history_of(alloc: Global, batches: &[&str]) -> Result<Vec<Entry>, Fail> {
    let mut history = Vec::new(alloc);
    for records in batches {
        let batch = read_batch(alloc, records.as_bytes())?;
        history.push(Entry::Edits { by: 0, batch })?;
    }
    Ok(history)
}

/// Returns the query in a text, or `None` for the empty text.
pub(crate) fn query_of(alloc: Global, text: &str) -> Result<Option<Query>, Fail> {
    if text.is_empty() {
        return Ok(None);
    }
    Ok(Some(read(alloc, text)?))
}

/// Returns whether a history is far below the limits of revisions and edits.
pub(crate) fn is_small(history: &[Entry]) -> bool
    ensures revision { IsTrue result → revision (batches history.now) < 2 ^ 32 }
    ensures edits { IsTrue result → length (all_edits history.now) + 1 < 2 ^ 32 }
{
    if !is_below_entry_limit(history) {
        return false;
    }
    has_room_for(history, 0)
}

pub(crate) fn bytes_of(alloc: Global, tag: Result<Tag, AllocError>) -> Result<Vec<u8>, Fail> {
    let mut out = Vec::new(alloc);
    encode_into(&tag?, &mut out)?;
    Ok(out)
}
