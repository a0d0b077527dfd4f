//! Listings of known histories: their bytes, rows and ranges.

use crate::history::histories::{
    DROP_1, SIX_SONGS, WITH_ALBUM, bytes_of, history_of, is_small, query_of,
};
use dmap_tags::Tag;
use item_model::{Entry, Look, Meta, Range, Target};
use reference_share::{
    delta_body, delta_listing, full_body, full_listing, library, listing_body, listing_for, rows,
    touched,
};
use std::alloc::{AllocError, Global};
use std::process::Abort;
use std::test::Fail;

const SONG_7: &str = "op,kind,id,dmap.itemname\nput,item,7,A\n";

/// Song 1 becomes a podcast.
const KIND_OF_1: &str = "\
op,kind,id,dmap.itemname,daap.songartist,daap.songalbum,com.apple.itunes.mediakind
put,item,1,Hey,Ann,One,4
";

/// A playlist of four members, one of an item that does not exist.
const MIX: &str = "\
op,kind,id,dmap.itemname,list,item
put,list,2,Mix,,
put,member,10,,2,1
put,member,11,,2,6
put,member,12,,2,1
put,member,13,,2,99
";

/// The function that lists a look.
#[derive(Clone, Copy)]
enum Asked {
    /// The response to a request, with a window of 16.
    Answer,
    Full,
    Delta,
}

fn look(alloc: Global, query: &str, base: u32) -> Result<Look, Fail> {
    Ok(Look {
        query: query_of(alloc, query)?,
        meta: Meta::Default,
        base,
        range: Range::All,
    })
}

fn body(
    alloc: Global,
    asked: Asked,
    history: &[Entry],
    target: Target,
    look: &Look,
) -> Result<Tag, AllocError> {
    if !is_small(history) {
        return Err(AllocError);
    }
    match asked {
        Asked::Answer => listing_body(alloc, 16, history, target, look),
        Asked::Full => full_body(alloc, history, target, look),
        Asked::Delta => delta_body(alloc, history, target, look, look.base),
    }
}

/// A look's query and base, the function that lists items by it, and the bytes of the body.
type Listed = (Asked, &'static str, u32, &'static [u8]);

/// Checks the bytes of listings after these batches.
fn have_bytes(
    rt: &impl Abort,
    alloc: Global,
    batches: &[&str],
    listings: &[Listed],
) -> Result<(), Fail> {
    let history = history_of(alloc, batches)?;
    for (asked, query, base, bytes) in listings {
        let look = look(alloc, query, *base)?;
        let tag = body(alloc, *asked, history.as_slice(), Target::Items, &look);
        assert_eq!(rt; bytes_of(alloc, tag)?.as_slice(), *bytes);
    }
    Ok(())
}

/// The listing of one item with id 7 and name `A`, at revision 3.
const ONE_ITEM: &[u8] =
    b"adbs\0\0\0^mstt\0\0\0\x04\0\0\0\xc8muty\0\0\0\x01\0musr\0\0\0\x04\0\0\0\x03mtco\0\0\0\x04\0\0\0\x01mrco\0\0\0\x04\0\0\0\x01mlcl\0\0\0\x1dmlit\0\0\0\x15miid\0\0\0\x04\0\0\0\x07minm\0\0\0\x01A";

const OF_ONE_ITEM: [Listed; 1] = [(Asked::Full, "", 3, ONE_ITEM)];

/// The delta since revision 3 of a query that item 1 does not match any more.
const LEFT_THE_QUERY: &[u8] =
    b"adbs\0\0\0Umstt\0\0\0\x04\0\0\0\xc8muty\0\0\0\x01\x01musr\0\0\0\x04\0\0\0\x04mtco\0\0\0\x04\0\0\0\0mrco\0\0\0\x04\0\0\0\0mlcl\0\0\0\0mudl\0\0\0\x0cmiid\0\0\0\x04\0\0\0\x01";

const OF_THE_QUERY: [Listed; 2] = [
    (Asked::Answer, WITH_ALBUM, 3, LEFT_THE_QUERY),
    (Asked::Delta, WITH_ALBUM, 3, LEFT_THE_QUERY),
];

#[test]
fn listings_have_their_bytes(rt: HostRuntime) -> Result<(), Fail> {
    let alloc = rt.alloc();
    have_bytes(&rt, alloc, &[SONG_7], &OF_ONE_ITEM)?;
    have_bytes(&rt, alloc, &[SIX_SONGS, KIND_OF_1], &OF_THE_QUERY)
}

#[test]
fn a_dropped_item_touches_its_members(rt: HostRuntime) -> Result<(), Fail> {
    let alloc = rt.alloc();
    let history = history_of(alloc, &[SIX_SONGS, MIX, DROP_1])?;
    let list = Target::Container(2);
    assert_eq!(rt; rows(alloc, history.as_slice(), list, None)?.len(), 1);
    let keys = touched(alloc, history.as_slice(), list, 4)?;
    assert_eq!(rt; keys.as_slice(), [10, 12].as_slice());
    assert_eq!(rt; library(alloc, history.as_slice())?.len(), 5);
    Ok(())
}

/// A range, the key of its first row, or 0, and the number of its rows.
type Cut = (Range, u32, usize);

const CUTS: [Cut; 8] = [
    (Range::All, 1, 6),
    (Range::One { at: 0 }, 1, 1),
    (Range::One { at: 6 }, 0, 0),
    (Range::From { at: 4 }, 5, 2),
    (Range::Span { from: 1, to: 3 }, 2, 3),
    (Range::Span { from: 3, to: 1 }, 0, 0),
    (Range::Last { count: 2 }, 5, 2),
    (Range::Last { count: 9 }, 1, 6),
];

fn first_key(rows: &[(u32, Tag)]) -> u32 {
    match rows {
        [first, ..] => first.0,
        [] => 0,
    }
}

/// Of a full listing, returns the total of rows, the key of the first listed one, and how many are listed.
fn full_cut(
    alloc: Global,
    history: &[Entry],
    look: &Look,
) -> Result<(u32, u32, usize), AllocError> {
    if !is_small(history) {
        return Err(AllocError);
    }
    let full = full_listing(alloc, history, Target::Items, look)?;
    Ok((full.total, first_key(full.rows.as_slice()), full.rows.len()))
}

fn delta_rows(alloc: Global, history: &[Entry], look: &Look) -> Result<usize, AllocError> {
    if !is_small(history) {
        return Err(AllocError);
    }
    let delta = delta_listing(alloc, history, Target::Items, look, look.base)?;
    Ok(delta.rows.len())
}

fn is_delta(alloc: Global, history: &[Entry], look: &Look) -> Result<bool, AllocError> {
    if !is_small(history) {
        return Err(AllocError);
    }
    let answer = listing_for(alloc, 16, history, Target::Items, look)?;
    Ok(answer.is_delta)
}

/// Checks that full listings of the six songs are cut to a range, and deltas are not.
fn are_cut(rt: &impl Abort, alloc: Global, history: &[Entry], cuts: &[Cut]) -> Result<(), Fail> {
    for (range, first, count) in cuts {
        let look = Look {
            query: None,
            meta: Meta::Default,
            base: 2,
            range: *range,
        };
        assert_eq!(rt; full_cut(alloc, history, &look)?, (6, *first, *count));
        assert_eq!(rt; delta_rows(alloc, history, &look)?, 6);
        assert!(rt; is_delta(alloc, history, &look)?);
    }
    Ok(())
}

#[test]
fn ranges_cut_full_listings_alone(rt: HostRuntime) -> Result<(), Fail> {
    let alloc = rt.alloc();
    let history = history_of(alloc, &[SIX_SONGS])?;
    are_cut(&rt, alloc, history.as_slice(), &CUTS)
}
