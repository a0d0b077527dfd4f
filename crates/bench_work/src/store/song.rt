//! Made-up songs.

ghost use Rattle.std.specs.Prelude.{◌≡◌, IfOk};

use dmap_tags::Text;
use item_model::{Item, PropValue, Property, Row};
use std::alloc::{AllocError, Global};

/// The number of songs of each artist.
pub const SONGS_EACH: u32 = 10;

/// Returns the name of the artist `number`.
pub fn artist(alloc: Global, number: u32) -> Result<String, AllocError> {
    format!(in alloc; "Artist {number}")
}

/// The words that begin the texts of a song.
#[derive(Clone, Copy)]
pub struct Words {
    song: &'static str,
    artist: &'static str,
    album: &'static str,
    genre: &'static str,
}

/// Words of ASCII.
pub const LATIN: Words = Words {
    song: "Song number",
    artist: "Artist",
    album: "Album",
    genre: "Genre",
};

/// Words with capital letters beyond ASCII, whose texts an item keeps folded as well.
pub const CYRILLIC: Words = Words {
    song: "Песня Номер",
    artist: "Артист",
    album: "Альбом",
    genre: "Жанр",
};

/// Returns the song `id`: the six properties of the default projection, and its genre and year.
pub fn song(alloc: Global, id: u32) -> anyhow::Result<Row>
    ensures { IfOk result (λ row. row.id ≡ id) }
{
    song_in(alloc, id, id, LATIN)
}

/// Returns a song with the id `id` and the properties of the song `number`, whose texts begin with `words`.
pub fn song_in(alloc: Global, id: u32, number: u32, words: Words) -> anyhow::Result<Row>
    ensures { IfOk result (λ row. row.id ≡ id) }
{
    Ok(Row {
        id,
        item: item_of(alloc, number, words)?,
    })
}

// Without clauses, like what it calls, so that the proof of a song unfolds no call of `put`.
fn item_of(alloc: Global, number: u32, words: Words) -> anyhow::Result<Item> {
    let mut item = Item::new(alloc);
    put_texts(alloc, &mut item, number, words)?;
    put_numbers(&mut item, number)?;
    Ok(item)
}

fn put_texts(alloc: Global, item: &mut Item, number: u32, words: Words) -> anyhow::Result<()> {
    put_text(alloc, item, Property::Minm, words.song, number)?;
    put_text(
        alloc,
        item,
        Property::Asar,
        words.artist,
        number / SONGS_EACH,
    )?;
    put_text(alloc, item, Property::Asal, words.album, number / 12)?;
    put_text(alloc, item, Property::Asgn, words.genre, number % 20)
}

fn put_numbers(item: &mut Item, number: u32) -> anyhow::Result<()> {
    put_number(item, Property::Mikd, 2)?;
    put_number(item, Property::Asyr, year(number))?;
    put_number(item, Property::Astn, 1 + number % 12)?;
    put_number(item, Property::Astm, 60_000 + number % 300_000)
}

fn put_text(
    alloc: Global,
    item: &mut Item,
    property: Property,
    word: &str,
    number: u32,
) -> anyhow::Result<()> {
    let text = format!(in alloc; "{word} {number}")?;
    item.put(property, PropValue::Text(Text::of(alloc, text.as_str())?))?;
    Ok(())
}

fn put_number(item: &mut Item, property: Property, value: u32) -> anyhow::Result<()> {
    item.put(property, PropValue::Number(u64::from(value)))?;
    Ok(())
}

/// Returns the year of the song `number`: eighty years, one after another.
pub fn year(number: u32) -> u32 {
    1950 + number % 80
}
