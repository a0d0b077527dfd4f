//! A query with wildcards, evaluated for many songs.

ghost use Rattle.std.specs.Prelude.{◌≡◌, ◌<◌};

use crate::store::song::{CYRILLIC, LATIN, song_in};
use item_model::{Query, Row};
use song_query::{Steps, matches, read};
use std::alloc::Global;
use std::sync::ledger::{Blank, Ledger};

/// The letters of the songs' names.
#[derive(Clone, Copy)]
pub enum Letters {
    Latin,
    Cyrillic,
}

/// Songs, and a query of their names, which has three wildcards and selects some.
#[derive(Drop)]
pub struct Searched {
    rows: Vec<Row>,
    query: &'static str,
}

/// Returns the first songs, with names in `letters`, and their query.
pub fn named_songs(alloc: Global, songs: u32, letters: Letters) -> anyhow::Result<Searched> {
    let (words, query) = match letters {
        Letters::Latin => (LATIN, "'dmap.itemname:*NUMBER*1*'"),
        Letters::Cyrillic => (CYRILLIC, "'dmap.itemname:*НОМЕР*1*'"),
    };
    let mut rows = Vec::new(alloc);
    for id in 0..songs {
        rows.push(song_in(alloc, id, id, words)?)?;
    }
    Ok(Searched { rows, query })
}

/// Returns how many of the songs the query selects. Evaluates it `times` times for each.
pub fn matched<L: Ledger>(
    blank: Blank,
    alloc: Global,
    searched: &Searched,
    times: u32,
) -> anyhow::Result<u64>
    requires name { blank.name ≡ L.name }
    requires parts { blank.parts ≡ L.parts }
    requires any { 0 < blank.parts }
{
    let mut steps = Steps::<L>::open(blank);
    let query = read(alloc, searched.query)?;
    let mut found = 0u64;
    for _ in 0..times {
        found = found.saturating_add(found_in(&searched.rows, &query, &mut steps));
    }
    Ok(found)
}

fn found_in<L: Ledger>(rows: &Vec<Row>, query: &Query, steps: &mut Steps<L>) -> u64 {
    let mut found = 0u64;
    for row in rows {
        if matches(query, row, steps) {
            found = found.saturating_add(1);
        }
    }
    found
}
