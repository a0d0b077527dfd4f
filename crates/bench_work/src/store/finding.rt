//! Look-ups in an index of many songs.

use crate::store::song::{SONGS_EACH, artist, song};
use item_model::{Browse, Query};
use prop_index::PropIndex;
use song_query::read;
use std::alloc::Global;

/// The number of artists that are looked up.
const LOOK_UPS: u32 = 1000;

/// What is looked up in an index.
#[derive(Clone, Copy)]
pub enum Find {
    Nothing,
    /// The ids of a thousand artists.
    Ids,
    /// The candidates of a thousand queries.
    Candidates,
    /// All artists.
    Values,
}

/// An index, and artists to look up in it, by name and by query.
#[derive(Drop)]
pub struct LookUps {
    index: PropIndex,
    names: Vec<String>,
    queries: Vec<Query>,
}

/// Returns an index of the first songs.
fn index_of(alloc: Global, songs: u32) -> anyhow::Result<PropIndex> {
    let mut index = PropIndex::new(alloc);
    for id in 0..songs {
        add_song(alloc, &mut index, id)?;
    }
    Ok(index)
}

fn add_song(alloc: Global, index: &mut PropIndex, id: u32) -> anyhow::Result<()> {
    let song = song(alloc, id)?;
    index.apply(None, Some(&song))?;
    Ok(())
}

/// Returns an index of the first songs, and what is to be looked up in it.
fn look_ups(alloc: Global, songs: u32) -> anyhow::Result<LookUps> {
    let mut made = LookUps {
        index: index_of(alloc, songs)?,
        names: Vec::new(alloc),
        queries: Vec::new(alloc),
    };
    add_look_ups(alloc, &mut made, songs)?;
    Ok(made)
}

fn add_look_ups(alloc: Global, look_ups: &mut LookUps, songs: u32) -> anyhow::Result<()> {
    let artists = (songs / SONGS_EACH).max(1);
    for look_up in 0..LOOK_UPS {
        // Spread the names over the index.
        let name = artist(alloc, look_up * 7919 % artists)?;
        look_ups.queries.push(query_of(alloc, name.as_str())?)?;
        look_ups.names.push(name)?;
    }
    Ok(())
}

fn query_of(alloc: Global, name: &str) -> anyhow::Result<Query> {
    let text = format!(in alloc; "'daap.songartist:{name}'")?;
    Ok(read(alloc, text.as_str())?)
}

/// Makes an index of the first songs, and returns how many ids or texts are found in it.
pub fn found_in(alloc: Global, songs: u32, find: Find) -> anyhow::Result<u64> {
    let made = look_ups(alloc, songs)?;
    found_by(&made, find)
}

fn found_by(look_ups: &LookUps, find: Find) -> anyhow::Result<u64> {
    match find {
        Find::Nothing => Ok(look_ups.names.len() as u64),
        Find::Ids => ids_found(look_ups),
        Find::Candidates => candidates_found(look_ups),
        Find::Values => values_found(look_ups),
    }
}

/// Returns how many ids the index has under the names.
fn ids_found(look_ups: &LookUps) -> anyhow::Result<u64> {
    let mut found = 0u64;
    for name in &look_ups.names {
        let ids = look_ups.index.ids_of(Browse::Artists, name.as_str())?;
        found = found.saturating_add(ids.len() as u64);
    }
    Ok(found)
}

/// Returns how many candidates the queries have.
fn candidates_found(look_ups: &LookUps) -> anyhow::Result<u64> {
    let mut found = 0u64;
    for query in &look_ups.queries {
        if let Some(ids) = look_ups.index.candidates(query)? {
            found = found.saturating_add(ids.len() as u64);
        }
    }
    Ok(found)
}

/// Returns how many artists there are.
fn values_found(look_ups: &LookUps) -> anyhow::Result<u64> {
    let texts = look_ups.index.values(Browse::Artists)?;
    Ok(texts.as_slice().len() as u64)
}
