//! Bodies of browse listings, of databases and of containers, byte by byte.

use crate::history::histories::{SIX_SONGS, WITH_ALBUM, bytes_of, history_of, is_small, query_of};
use dmap_tags::{Tag, Text};
use item_model::{Browse, Entry};
use reference_share::{browse_body, browse_values, containers_body, databases_body, playlists};
use std::alloc::{AllocError, Global};
use std::test::Fail;

/// The artists of three of the six songs.
const ARTISTS: &[u8] =
    b"abro\0\0\0amstt\0\0\0\x04\0\0\0\xc8muty\0\0\0\x01\0musr\0\0\0\x04\0\0\0\x03mtco\0\0\0\x04\0\0\0\x03mrco\0\0\0\x04\0\0\0\x03abar\0\0\0 mlit\0\0\0\x03Annmlit\0\0\0\x02Dimlit\0\0\0\x03ann";

fn artists(alloc: Global, history: &[Entry], query: &str) -> Result<Vec<u8>, Fail> {
    if !is_small(history) {
        return Err(AllocError.into());
    }
    let query = query_of(alloc, query)?;
    let body = browse_body(alloc, history, Browse::Artists, query.as_ref());
    bytes_of(alloc, body)
}

#[test]
fn artists_are_listed_once_in_the_order_of_their_bytes(rt: HostRuntime) -> Result<(), Fail> {
    let alloc = rt.alloc();
    let history = history_of(alloc, &[SIX_SONGS])?;
    assert_eq!(rt;
        artists(alloc, history.as_slice(), WITH_ALBUM)?.as_slice(),
        ARTISTS
    );
    let albums = browse_values(alloc, history.as_slice(), Browse::Albums, None)?;
    assert_eq!(rt; albums.len(), 5);
    Ok(())
}

/// A smart playlist without a name, and a playlist of one song.
const TWO_LISTS: &str = "\
op,kind,id,dmap.itemname,query,list,item
put,rule,3,,'com.apple.itunes.mediakind:1',,
put,list,2,Mix,,,
put,member,10,,,2,4
";

/// The databases of a share named `S` with six songs and two lists.
const DATABASES: &[u8] =
    b"avdb\0\0\0vmstt\0\0\0\x04\0\0\0\xc8muty\0\0\0\x01\0musr\0\0\0\x04\0\0\0\x04mtco\0\0\0\x04\0\0\0\x01mrco\0\0\0\x04\0\0\0\x01mlcl\0\0\05mlit\0\0\0-miid\0\0\0\x04\0\0\0\x01minm\0\0\0\x01Smimc\0\0\0\x04\0\0\0\x06mctc\0\0\0\x04\0\0\0\x03";

/// Its containers: the base playlist, a playlist and a smart playlist without a name.
const CONTAINERS: &[u8] =
    b"aply\0\0\0\xcfmstt\0\0\0\x04\0\0\0\xc8muty\0\0\0\x01\0musr\0\0\0\x04\0\0\0\x04mtco\0\0\0\x04\0\0\0\x03mrco\0\0\0\x04\0\0\0\x03mlcl\0\0\0\x8emlit\0\0\0*miid\0\0\0\x04\0\0\0\x01minm\0\0\0\x01Sabpl\0\0\0\x01\x01mimc\0\0\0\x04\0\0\0\x06mlit\0\0\0#miid\0\0\0\x04\0\0\0\x02minm\0\0\0\x03Mixmimc\0\0\0\x04\0\0\0\x01mlit\0\0\0)miid\0\0\0\x04\0\0\0\x03minm\0\0\0\0aeSP\0\0\0\x01\x01mimc\0\0\0\x04\0\0\0\x03";

fn databases(alloc: Global, history: &[Entry]) -> Result<Tag, AllocError> {
    if !is_small(history) {
        return Err(AllocError);
    }
    databases_body(alloc, &Text::of(alloc, "S")?, history)
}

fn containers(alloc: Global, history: &[Entry]) -> Result<Tag, AllocError> {
    if !is_small(history) {
        return Err(AllocError);
    }
    containers_body(alloc, &Text::of(alloc, "S")?, history)
}

#[test]
fn containers_and_databases_have_their_bytes(rt: HostRuntime) -> Result<(), Fail> {
    let alloc = rt.alloc();
    let history = history_of(alloc, &[SIX_SONGS, TWO_LISTS])?;
    let history = history.as_slice();
    assert_eq!(rt;
        bytes_of(alloc, databases(alloc, history))?.as_slice(),
        DATABASES
    );
    assert_eq!(rt;
        bytes_of(alloc, containers(alloc, history))?.as_slice(),
        CONTAINERS
    );
    assert_eq!(rt; playlists(alloc, history)?.len(), 2);
    Ok(())
}
