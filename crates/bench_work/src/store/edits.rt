//! Batches of edits of a share of made-up songs.

ghost use Rattle.std.specs.Prelude.{◌≡◌, ◌≤◌, IfOk};
ghost use Rattle.item_model.specs.Valid.{AreValid, IsValid};

use crate::store::song::{LATIN, song_in, year};
use anyhow::ensure;
use dmap_tags::Text;
use item_model::{Edit, SharedRow};
use song_query::read;
use std::alloc::Global;

/// The number of lists: every second one is plain, and the others have a rule.
pub const LISTS: u32 = 1000;
/// The id of the first list.
pub const FIRST_LIST: u32 = 2;

/// What the edits of a series put.
#[derive(Clone, Copy)]
pub enum Kind {
    /// Plain lists and lists of the songs of a year, alternately.
    Lists,
    /// Songs from all over the library, each time with other properties.
    Songs,
    /// Further members of the plain lists, one list after the other.
    Members,
    /// Further lists, of all songs.
    Rules,
}

/// Edits of one kind, numbered.
#[derive(Clone, Copy)]
pub struct Series {
    kind: Kind,
    songs: u32,
    number: u32,
}

impl Series {
    /// Returns the edits of a share of `songs` songs, from `number` on.
    pub fn new(kind: Kind, songs: u32, number: u32) -> Series {
        Series {
            kind,
            songs,
            number,
        }
    }

    /// Returns the next `size` edits as a batch.
    pub fn batch(&mut self, alloc: Global, size: u32) -> anyhow::Result<Vec<Edit>>
        ensures { IfOk result (λ edits. AreValid edits.items) }
    {
        let mut edits = Vec::new(alloc);
        for _ in 0..size {
            edits.push(edit(alloc, self.kind, self.songs, self.number)?)?;
            self.number = self.number.saturating_add(1);
        }
        Ok(edits)
    }
}

fn edit(alloc: Global, kind: Kind, songs: u32, number: u32) -> anyhow::Result<Edit>
    ensures { IfOk result (λ edit. IsValid edit) }
{
    match kind {
        Kind::Lists if number % 2 == 0 => plain(alloc, number),
        Kind::Lists => of_year(alloc, number),
        Kind::Songs => put_song(alloc, songs, number),
        Kind::Members => put_member(songs, number),
        Kind::Rules => ruled(alloc, LISTS.saturating_add(number), "'dmap.itemkind:2'"),
    }
}

fn plain(alloc: Global, number: u32) -> anyhow::Result<Edit>
    ensures { IfOk result (λ edit. IsValid edit) }
{
    let list = number.saturating_add(FIRST_LIST);
    let name = Text::of(alloc, "Plain")?;
    Ok(Edit::PutList { list, name })
}

/// Returns a list of the songs of a year.
fn of_year(alloc: Global, number: u32) -> anyhow::Result<Edit>
    ensures { IfOk result (λ edit. IsValid edit) }
{
    let rule = format!(in alloc; "'daap.songyear:{}'", year(number / 2))?;
    ruled(alloc, number, rule.as_str())
}

fn ruled(alloc: Global, number: u32, rule: &str) -> anyhow::Result<Edit>
    ensures { IfOk result (λ edit. IsValid edit) }
{
    let list = number.saturating_add(FIRST_LIST);
    let name = Text::of(alloc, "Rule")?;
    let rule = read(alloc, rule)?;
    Ok(Edit::PutRule { list, name, rule })
}

fn put_song(alloc: Global, songs: u32, number: u32) -> anyhow::Result<Edit>
    ensures { IfOk result (λ edit. IsValid edit) }
{
    let id = id_at(songs, number)?;
    // The second time that a song is put, its year is one later.
    let row = song_in(alloc, id, number.saturating_add(number / songs), LATIN)?;
    Ok(Edit::PutItem {
        row: SharedRow::new(alloc, row)?,
    })
}

fn put_member(songs: u32, number: u32) -> anyhow::Result<Edit>
    ensures { IfOk result (λ edit. IsValid edit) }
{
    Ok(Edit::PutMember {
        list: plain_list(number),
        member: number.saturating_add(1),
        item: id_at(songs, number)?,
    })
}

/// Returns the plain lists in turn.
fn plain_list(number: u32) -> u32
    ensures { 2 ≤ result }
{
    FIRST_LIST + number % (LISTS / 2) * 2
}

/// Returns an id. Consecutive numbers get ids far apart.
fn id_at(songs: u32, number: u32) -> anyhow::Result<u32>
    ensures id { IfOk result (λ id. 1 ≤ id) }
    ensures songs { IfOk result (λ _. 1 ≤ songs) }
{
    ensure!(songs > 0, "no songs");
    Ok(number.wrapping_mul(7919) % songs + 1)
}
