//! The requests, of a share of made-up songs.

ghost use Rattle.std.specs.Prelude.{◌≡◌, ◌≤◌, length, IfOk};
ghost use Rattle.item_model.specs.Valid.{AreValid};
ghost use Rattle.share_asks.specs.Valid.{IsValidWant, MayAsk};
ghost use Rattle.share_history.specs.Numbers.{most_edits};

use anyhow::ensure;
use item_model::{Batch, Look, Meta, Query, Range, Target};
use records_import::read_batch;
use share_asks::Want;
use song_query::read;
use std::alloc::{AllocError, Global};

/// How many songs have one artist.
const SONGS_EACH: u32 = 10;
/// How many songs are given another name.
const RENAMED: u32 = 10;

/// The range `0-9`.
const FIRST_TEN: Range = Range::Span { from: 0, to: 9 };

/// A request.
#[derive(Clone, Copy)]
pub enum Step {
    /// A song is put as it is.
    Edit,
    Login,
    /// The revision, for a client that knows an old one.
    Update,
    /// What changed since the last revision: nothing.
    Delta,
    /// What changed since the revision before: ten songs were given another name.
    Changes,
    /// The ten songs of an artist.
    Query,
    /// All songs.
    Full,
    /// The first ten songs.
    Tenth,
}

/// The request number `number` of a session, of a share of `songs` songs.
pub fn want(
    alloc: Global,
    step: Step,
    songs: u32,
    session: u32,
    revision: u32,
    number: u32,
) -> anyhow::Result<Want>
    ensures { IfOk result IsValidWant }
{
    match step {
        Step::Edit => put_again(alloc, songs, number),
        Step::Login => Ok(Want::Login),
        Step::Update => Ok(Want::Update {
            session,
            revision: 1,
        }),
        Step::Delta => Ok(rows(session, None, revision, Range::All)),
        Step::Changes => Ok(rows(session, None, revision.saturating_sub(1), Range::All)),
        Step::Full => Ok(rows(session, None, 0, Range::All)),
        Step::Tenth => Ok(rows(session, None, 0, FIRST_TEN)),
        Step::Query => {
            let artist = number % (songs / SONGS_EACH).max(1);
            let text = format!(in alloc; "'daap.songartist:Artist {artist}'")?;
            Ok(rows(session, Some(read(alloc, text.as_str())?), 0, Range::All))
        }
    }
}

/// An edit that puts one song as it is.
pub fn put_again(alloc: Global, songs: u32, number: u32) -> anyhow::Result<Want>
    ensures { IfOk result IsValidWant }
{
    let song = song_at(songs, number)?;
    Ok(Want::Edit {
        body: Ok(batch(alloc, "Song", song, 1, 1)?),
    })
}

/// An edit that gives ten songs from all over the library another name.
pub fn rename(alloc: Global, songs: u32) -> anyhow::Result<Want>
    ensures { IfOk result IsValidWant }
{
    Ok(Want::Edit {
        body: Ok(batch(alloc, "Tune", 0, songs / RENAMED, RENAMED)?),
    })
}

fn rows(session: u32, query: Option<Query>, base: u32, range: Range) -> Want
    requires { MayAsk query }
    ensures { IsValidWant result }
{
    Want::Rows {
        session,
        target: Target::Items,
        look: Look {
            query,
            meta: Meta::Default,
            base,
            range,
        },
    }
}

/// The first batch of a share of `songs` songs.
pub fn all_songs(alloc: Global, songs: u32) -> anyhow::Result<Batch>
    ensures valid { IfOk result (λ batch. AreValid batch) }
    ensures few { IfOk result (λ batch. length batch ≤ most_edits) }
{
    batch(alloc, "Song", 0, 1, songs)
}

/// The batch that puts `count` songs, the first one and then each `apart` songs later, with names that begin with a word.
fn batch(alloc: Global, word: &str, first: u32, apart: u32, count: u32) -> anyhow::Result<Batch>
    ensures valid { IfOk result (λ batch. AreValid batch) }
    ensures few { IfOk result (λ batch. length batch ≤ most_edits) }
{
    let mut records = String::from_str(alloc, "op,kind,id,dmap.itemname,daap.songartist\n")?;
    let mut song = first;
    for _ in 0..count {
        records.push_str(record(alloc, word, song)?.as_str())?;
        song = song.saturating_add(apart);
    }
    Ok(read_batch(alloc, records.as_bytes())?)
}

fn record(alloc: Global, word: &str, song: u32) -> Result<String, AllocError> {
    format!(in alloc;
        "put,item,{},{word} {song},Artist {}\n",
        song.saturating_add(1),
        song / SONGS_EACH
    )
}

fn song_at(songs: u32, number: u32) -> anyhow::Result<u32> {
    ensure!(songs > 0, "no songs");
    Ok(number % songs)
}
