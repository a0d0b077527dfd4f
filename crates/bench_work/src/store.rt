//! Plans, indexes and lists of many songs, and stores that are edited.

mod changing;
mod edits;
mod finding;
mod matching;
mod planning;
mod song;
mod stores;

use crate::store::changing::{deltas_len, revision_after};
use crate::store::edits::Kind;
use crate::store::finding::{Find, found_in};
use crate::store::matching::{Letters, matched, named_songs};
use crate::store::planning::{planned, rows, written};
use std::alloc::Global;
use std::marker::Brand;
use std::sync::ledger::Blank;

/// A step of the work that is measured.
#[derive(Clone, Copy)]
pub enum Step {
    /// A row for each song is made.
    Rows,
    /// A plan of them is made, and a sink in memory with space for its bytes.
    Plan,
    /// The plan is written to the sink.
    Write,
    /// An index of all songs is made, and this is looked up in it.
    Find(Find),
    /// The songs are made, with names in these letters, and a query with wildcards is evaluated for each, `times` times.
    Matches(Letters),
    /// A share of lists of the songs is edited.
    Edit(Kind),
    /// The deltas of its lists are planned.
    Deltas,
}

/// The steps, by name.
pub const STEPS: [(&str, Step); 13] = [
    ("rows", Step::Rows),
    ("plan", Step::Plan),
    ("write", Step::Write),
    ("index", Step::Find(Find::Nothing)),
    ("ids", Step::Find(Find::Ids)),
    ("candidates", Step::Find(Find::Candidates)),
    ("values", Step::Find(Find::Values)),
    ("matches", Step::Matches(Letters::Latin)),
    ("folded", Step::Matches(Letters::Cyrillic)),
    ("songs", Step::Edit(Kind::Songs)),
    ("members", Step::Edit(Kind::Members)),
    ("rules", Step::Edit(Kind::Rules)),
    ("deltas", Step::Deltas),
];

/// How much of a step is done.
#[derive(Clone, Copy)]
pub struct Load {
    pub songs: u32,
    /// How many batches are applied, or how often the deltas are planned or the query is evaluated.
    pub times: u32,
    /// The number of edits of a batch.
    pub size: u32,
}

/// Returns the step with this name.
pub fn step_named(word: &str) -> Option<Step> {
    for (name, step) in &STEPS {
        if *name == word {
            return Some(*step);
        }
    }
    None
}

/// Takes a step, and returns how many rows, bytes, ids, texts or revisions it led to.
pub fn taken(alloc: Global, step: Step, load: Load) -> anyhow::Result<u64> {
    let songs = load.songs;
    match step {
        Step::Rows => rows_made(alloc, songs),
        Step::Plan => plan_made(alloc, songs),
        Step::Write => plan_written(alloc, songs),
        Step::Find(find) => found_in(alloc, songs, find),
        Step::Matches(letters) => songs_matched(alloc, letters, load),
        Step::Edit(kind) => share_edited(alloc, kind, load),
        Step::Deltas => deltas_planned(alloc, load),
    }
}

fn rows_made(alloc: Global, songs: u32) -> anyhow::Result<u64> {
    Ok(rows(alloc, songs)?.len() as u64)
}

fn plan_made(alloc: Global, songs: u32) -> anyhow::Result<u64> {
    Ok(planned(alloc, songs)?.plan_len())
}

fn plan_written(alloc: Global, songs: u32) -> anyhow::Result<u64> {
    written(planned(alloc, songs)?)
}

fn songs_matched(alloc: Global, letters: Letters, load: Load) -> anyhow::Result<u64> {
    let searched = named_songs(alloc, load.songs, letters)?;
    matched::<Brand>(Blank::new(1), alloc, &searched, load.times)
}

fn share_edited(alloc: Global, kind: Kind, load: Load) -> anyhow::Result<u64> {
    let Load { songs, times, size } = load;
    revision_after::<Brand>(Blank::new(1), alloc, songs, kind, times, size)
}

fn deltas_planned(alloc: Global, load: Load) -> anyhow::Result<u64> {
    deltas_len::<Brand>(Blank::new(1), alloc, load.songs, load.times)
}
