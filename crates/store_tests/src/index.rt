//! `prop_index`: seven items with the queries that find them, an artist that begins with a blank, and changes in order.

use dmap_tags::Text;
use item_model::{Browse, Item, ItemError, PropValue, Property, Row, SharedRow, Texts};
use prop_index::{Change, PropIndex};
use song_query::read;
use std::alloc::{AllocError, Global};
use std::process::Abort;
use std::test::Fail;

/// An item's id, artist and album. An empty text is left out.
type Song = (u32, &'static str, &'static str);

fn put(alloc: Global, item: &mut Item, property: Property, text: &str) -> Result<(), ItemError> {
    if text.is_empty() {
        return Ok(());
    }
    item.put(property, PropValue::Text(Text::of(alloc, text)?))?;
    Ok(())
}

fn row(alloc: Global, song: &Song) -> Result<Row, ItemError> {
    let mut item = Item::new(alloc);
    put(alloc, &mut item, Property::Asar, song.1)?;
    put(alloc, &mut item, Property::Asal, song.2)?;
    Ok(Row { id: song.0, item })
}

fn add(alloc: Global, index: &mut PropIndex, songs: &[Song]) -> Result<(), Fail> {
    for song in songs {
        let row = row(alloc, song)?;
        index.apply(None, Some(&row))?;
    }
    Ok(())
}

fn indexed(alloc: Global, songs: &[Song]) -> Result<PropIndex, Fail> {
    let mut index = PropIndex::new(alloc);
    add(alloc, &mut index, songs)?;
    Ok(index)
}

/// Returns the items that may match the query in a text.
fn candidates(alloc: Global, index: &PropIndex, text: &str) -> Result<String, Fail> {
    let query = read(alloc, text)?;
    let found = index.candidates(&query)?;
    Ok(format!(in alloc; "{found:?}")?)
}

fn finds(
    rt: &impl Abort,
    alloc: Global,
    index: &PropIndex,
    rows: &[(&'static str, &'static str)],
) -> Result<(), Fail> {
    for (query, wanted) in rows {
        assert_eq!(rt;
            candidates(alloc, index, query)?.as_str(),
            *wanted,
            "at {query}"
        );
    }
    Ok(())
}

/// Returns the values of a property by which a library is browsed, each followed by a semicolon.
fn values(alloc: Global, index: &PropIndex, browse: Browse) -> Result<String, AllocError> {
    let values: Texts = index.values(browse)?;
    let mut text = String::new(alloc);
    for value in values.as_slice() {
        text.push_str(value.as_str())?;
        text.push_str(";")?;
    }
    Ok(text)
}

/// Returns the items with each of two texts.
fn ids(
    alloc: Global,
    index: &PropIndex,
    browse: Browse,
    first: &str,
    second: &str,
) -> Result<String, AllocError> {
    let first = index.ids_of(browse, first)?;
    let second = index.ids_of(browse, second)?;
    format!(in alloc; "{:?} {:?}", first.as_slice(), second.as_slice())
}

const SEVEN: [Song; 7] = [
    (1, "Ann", "One"),
    (2, "Bob", ""),
    (3, "Cy", "Pod"),
    (4, "Di", "Film"),
    (5, "Ed", "Two"),
    (6, "ann", "two"),
    (7, "gro\u{df}e", ""),
];

const FOUND: [(&str, &str); 8] = [
    ("'daap.songartist:ANN'", "Some([1, 6])"),
    ("'daap.songartist:nobody'", "Some([])"),
    (
        "('dmap.itemname:x' 'daap.songalbum:two' 'daap.songartist:ann')",
        "Some([5, 6])",
    ),
    ("'daap.songartist:A*'", "None"),
    ("'daap.songartist!:ann'", "None"),
    (
        "'daap.songartist:GROSSE*' 'daap.songartist:GROSSE'",
        "Some([7])",
    ),
    ("'dmap.itemname:Hey'", "None"),
    ("'daap.songartist:ann','daap.songartist:bob'", "None"),
];

#[test]
fn queries_that_need_a_text_have_candidates(rt: HostRuntime) -> Result<(), Fail> {
    let index = indexed(rt.alloc(), &SEVEN)?;
    finds(&rt, rt.alloc(), &index, &FOUND)
}

const BLANK_FIRST: [Song; 1] = [(8, " gro\u{df}", "")];

const BLANK_FOUND: [(&str, &str); 2] = [
    ("'daap.songartist: GROSS'", "Some([8])"),
    ("'daap.songartist:GROSS'", "Some([])"),
];

#[test]
fn a_blank_at_the_start_is_compared(rt: HostRuntime) -> Result<(), Fail> {
    let index = indexed(rt.alloc(), &BLANK_FIRST)?;
    finds(&rt, rt.alloc(), &index, &BLANK_FOUND)
}

/// Changes of items, each from an item to another with its id. One without an artist does not exist.
const TURNS: [(Song, Song); 4] = [
    ((6, "ann", "two"), (6, "Bob", "two")),
    ((6, "Bob", "two"), (6, "Zoe", "")),
    ((1, "Ann", "One"), (1, "", "")),
    ((7, "gro\u{df}e", ""), (7, "Zoe", "One")),
];

fn shared(alloc: Global, song: &Song) -> Result<Option<SharedRow>, ItemError> {
    if song.1.is_empty() {
        return Ok(None);
    }
    let row = row(alloc, song)?;
    Ok(Some(SharedRow::new(alloc, row)?))
}

fn changes(alloc: Global, turns: &[(Song, Song)]) -> Result<Vec<Change>, ItemError> {
    let mut changes = Vec::new(alloc);
    for (old, new) in turns {
        let old = shared(alloc, old)?;
        let new = shared(alloc, new)?;
        changes.push(Change { old, new })?;
    }
    Ok(changes)
}

fn are_changed(rt: &impl Abort, alloc: Global, index: &PropIndex) -> Result<(), Fail> {
    assert_eq!(rt;
        values(alloc, index, Browse::Artists)?.as_str(),
        "Bob;Cy;Di;Ed;Zoe;"
    );
    assert_eq!(rt;
        ids(alloc, index, Browse::Artists, "Bob", "Zoe")?.as_str(),
        "[2] [6, 7]"
    );
    Ok(())
}

fn change(rt: &impl Abort, alloc: Global, index: &mut PropIndex) -> Result<(), Fail> {
    let changes = changes(alloc, &TURNS)?;
    index.apply_all(changes.as_slice())?;
    are_changed(rt, alloc, index)
}

#[test]
fn changes_are_taken_in_in_order(rt: HostRuntime) -> Result<(), Fail> {
    let mut index = indexed(rt.alloc(), &SEVEN)?;
    change(&rt, rt.alloc(), &mut index)
}
