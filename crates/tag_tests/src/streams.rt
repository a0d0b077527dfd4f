//! `dmap_stream`: bytes with their events and ends.

ghost use Rattle.std.specs.Prelude.{◌≡◌, ◌<◌, ◌≤◌, ◌+◌, ◌^◌, IfOk, MatchResult, None, Some, length};
ghost use Rattle.dmap_stream.specs.Reader.{taken};

use crate::tables::standard;
use code_table::CodeTable;
use dmap_stream::{DmapReader, Event, Limits, StreamError, WriteError, read_tag, write_tag};
use dmap_tags::{Tag, encode_into};
use outside_net::MemSink;
use std::alloc::{AllocError, Global};
use std::test::Fail;

/// The events of a reader, how many bytes it buffered at the end, and the error that stopped it or that the end
/// returned.
#[derive(Drop)]
struct Reading {
    events: Vec<Event>,
    held: u64,
    error: Option<StreamError>,
}

fn limits() -> Limits {
    Limits { top: 1_073_741_824 }
}

/// Takes the events that are ready.
fn take_ready(reader: &mut DmapReader, events: &mut Vec<Event>) -> Result<(), AllocError>
    ensures count { taken reader.new ≡ taken reader.old }
    ensures error { reader.new.error ≡ reader.old.error }
{
    for _ in 0..40 {
        match reader.next() {
            Some(event) => events.push(event)?,
            None => return Ok(()),
        }
    }
    Ok(())
}

/// Returns a reader of the standard table.
fn new_reader(alloc: Global) -> Result<DmapReader, AllocError>
    ensures error { IfOk result (λ reader. reader.error ≡ None) }
    ensures count { IfOk result (λ reader. taken reader ≡ 0) }
{
    DmapReader::new(alloc, &standard(alloc)?, limits())
}

/// Feeds a chunk. Of the contract of `feed` a test's proof needs only the counts.
fn fed(reader: &mut DmapReader, piece: &[u8]) -> Result<usize, StreamError>
    requires { reader.old.error ≡ None → taken reader.old + length piece.now < 2 ^ 64 }
    ensures error { MatchResult result (λ _. reader.new.error ≡ None)
        (λ e. reader.new.error ≡ Some e) }
    ensures within { IfOk result (λ n. n ≤ length piece.now) }
    ensures count { IfOk result (λ n. taken reader.new ≡ taken reader.old + n) }
{
    reader.feed(piece)
}

/// Returns the length of the next chunk, which is at most `left`.
fn piece_len(left: usize, size: usize) -> usize
    ensures { result ≤ left }
{
    size.min(left)
}

/// Returns the reading of a reader that an error stopped.
fn stopped(reader: DmapReader, events: Vec<Event>, error: StreamError) -> Reading {
    let held = reader.held();
    let error = Some(error);
    Reading {
        events,
        held,
        error,
    }
}

/// Returns the reading of a reader that was fed all bytes.
fn ended(reader: DmapReader, events: Vec<Event>) -> Reading {
    let held = reader.held();
    let error = reader.finish().err();
    Reading {
        events,
        held,
        error,
    }
}

/// Reads bytes in chunks of at most `size` bytes.
fn read(alloc: Global, bytes: &[u8], size: usize) -> Result<Reading, Fail> {
    let mut reader = new_reader(alloc)?;
    let mut events = Vec::new(alloc);
    let mut rest = bytes;
    for _ in 0..300 {
        let (piece, _) = rest.split_at(piece_len(rest.len(), size));
        match fed(&mut reader, piece) {
            Ok(taken) => {
                let (_, later) = rest.split_at(taken);
                rest = later;
            }
            Err(error) => {
                take_ready(&mut reader, &mut events)?;
                return Ok(stopped(reader, events, error));
            }
        }
        take_ready(&mut reader, &mut events)?;
    }
    if !rest.is_empty() {
        return Err(Fail::new("the reader was not fed all"));
    }
    Ok(ended(reader, events))
}

/// The sizes of chunks in which bytes are read.
const SIZES: [usize; 3] = [1, 3, 100];

/// Bytes with their events and the error, as they are shown.
const READINGS: [(&[u8], &str); 8] = [
    (
        b"mlcl\0\0\0\x10mlit\0\0\0\x08mlit\0\0\0\0",
        "[Open { code: Code([109, 108, 99, 108]), len: 16, at: 0 }, Open { code: Code([109, 108, 105, 116]), len: 8, at: 8 }, Open { code: Code([109, 108, 105, 116]), len: 0, at: 16 }, Close { code: Code([109, 108, 105, 116]), at: 16 }, Close { code: Code([109, 108, 105, 116]), at: 8 }, Close { code: Code([109, 108, 99, 108]), at: 0 }] None",
    ),
    (
        b"mlog\0\0\0\0mstt\0\0\0\x04\0\0\0\xc8",
        "[Open { code: Code([109, 108, 111, 103]), len: 0, at: 0 }, Close { code: Code([109, 108, 111, 103]), at: 0 }, Leaf { code: Code([109, 115, 116, 116]), value: U32(200), at: 8 }] None",
    ),
    (b"", "[] None"),
    (
        b"mlcl\0\0\0\x0bmiid\0\0\0\x04\0\0\0",
        "[Open { code: Code([109, 108, 99, 108]), len: 11, at: 0 }] Some(Overrun { at: 8, code: Code([109, 105, 105, 100]) })",
    ),
    (
        b"mlcl\0\0\0\x13miid\0\0\0\x04\0\0\0\x01\0\0\0\0\0\0\0",
        "[Open { code: Code([109, 108, 99, 108]), len: 19, at: 0 }, Leaf { code: Code([109, 105, 105, 100]), value: U32(1), at: 8 }] Some(ShortHead { at: 20 })",
    ),
    (b"mlcl\xff\xff\xff\xff", "[] Some(TooLarge { at: 0 })"),
    (
        b"mlog\0\0\0\x18ms",
        "[Open { code: Code([109, 108, 111, 103]), len: 24, at: 0 }] Some(Truncated { at: 10 })",
    ),
    (
        b"mlog\0\0\0\0minm\x40\0\0\x01",
        "[Open { code: Code([109, 108, 111, 103]), len: 0, at: 0 }, Close { code: Code([109, 108, 111, 103]), at: 0 }] Some(TooLarge { at: 8 })",
    ),
];

/// Returns an error as it is shown.
fn shown(alloc: Global, error: &Option<StreamError>) -> Result<String, AllocError> {
    format!(in alloc; "{error:?}")
}

/// Returns the events and the error as they are shown.
fn transcript(alloc: Global, reading: &Reading) -> Result<String, AllocError> {
    let events = reading.events.as_slice();
    let error = &reading.error;
    format!(in alloc; "{events:?} {error:?}")
}

/// Returns whether bytes in chunks of each size are read as this.
fn are_read(alloc: Global, bytes: &[u8], wanted: &str, sizes: &[usize]) -> Result<bool, Fail> {
    for size in sizes {
        let reading = read(alloc, bytes, *size)?;
        if transcript(alloc, &reading)?.as_str() != wanted {
            return Ok(false);
        }
    }
    Ok(true)
}

#[test]
fn events_come_in_order_and_before_the_error(rt: HostRuntime) -> Result<(), Fail> {
    for (bytes, wanted) in &READINGS {
        assert!(rt; are_read(rt.alloc(), bytes, wanted, &SIZES)?, "{wanted}");
    }
    Ok(())
}

/// Bytes that end too early, with the number of buffered bytes.
const UNFINISHED: [(&[u8], u64); 3] = [
    (b"minm\x3f\xff\xff\xffabc", 3),
    (b"minm\x3f\xff\xff", 0),
    (b"mlit\0\0\0\x20minm\0\0\0\x08abcd", 4),
];

/// Returns whether `held` bytes are buffered when bytes in chunks of each size end.
fn are_held(alloc: Global, bytes: &[u8], held: u64, sizes: &[usize]) -> Result<bool, Fail> {
    for size in sizes {
        let reading = read(alloc, bytes, *size)?;
        if reading.held != held {
            return Ok(false);
        }
    }
    Ok(true)
}

#[test]
fn what_is_held_came_since_the_head_of_a_leaf(rt: HostRuntime) -> Result<(), Fail> {
    for (bytes, held) in &UNFINISHED {
        assert!(rt; are_held(rt.alloc(), bytes, *held, &SIZES)?, "{bytes:?}");
    }
    Ok(())
}

/// A call of `feed`: how many bytes it takes, and how many the reader buffers afterwards.
type Call = (usize, u64);

/// Bytes with the size of a chunk, and with the calls of `feed` that take all of them. Each call has a chunk of what is
/// left, and takes none of it after the byte that makes an event ready.
const CALLS: [(&[u8], usize, &[Call]); 4] = [
    (
        b"mstt\0\0\0\x04\0\0\0\xc8mlog\0\0\0\0mst",
        100,
        &[(12, 0), (8, 0), (3, 0)],
    ),
    (
        b"mlcl\0\0\0\x14mlit\0\0\0\x0cmiid\0\0\0\x04\0\0\0\x01mlog\0\0\0\0",
        100,
        &[(8, 0), (8, 0), (12, 0), (8, 0)],
    ),
    (
        b"mstt\0\0\0\x04\0\0\0\xc8mlog\0\0\0\0mst",
        5,
        &[(5, 0), (5, 2), (2, 0), (5, 0), (3, 0), (3, 0)],
    ),
    (
        b"minm\0\0\0\x09Hey Judes\0\0\0",
        11,
        &[(11, 3), (6, 0), (3, 0)],
    ),
];

/// Returns how many bytes the reader buffers, without the clauses of `held`.
fn held(reader: &DmapReader) -> u64 {
    reader.held()
}

/// Returns whether these calls take all bytes in chunks of at most `size`, if the events are taken after each.
fn are_taken(alloc: Global, bytes: &[u8], size: usize, calls: &[Call]) -> Result<bool, Fail> {
    let mut reader = new_reader(alloc)?;
    let mut events = Vec::new(alloc);
    let mut rest = bytes;
    for (count, buffered) in calls {
        let (piece, _) = rest.split_at(piece_len(rest.len(), size));
        let taken = fed(&mut reader, piece)?;
        if taken != *count || held(&reader) != *buffered {
            return Ok(false);
        }
        let (_, later) = rest.split_at(taken);
        rest = later;
        take_ready(&mut reader, &mut events)?;
    }
    Ok(rest.is_empty())
}

#[test]
fn no_byte_is_taken_after_an_event(rt: HostRuntime) -> Result<(), Fail> {
    for (bytes, size, calls) in &CALLS {
        assert!(rt; are_taken(rt.alloc(), bytes, *size, calls)?, "{bytes:?}");
    }
    Ok(())
}

/// Returns the bytes of `levels` lists, each in the one before.
fn nested(alloc: Global, levels: u8) -> Result<Vec<u8>, AllocError> {
    let mut bytes = Vec::new(alloc);
    for inner in (0..levels).rev() {
        bytes.extend_from_slice(b"mcon")?;
        bytes.extend_from_slice(&(u32::from(inner) * 8).to_be_bytes())?;
    }
    Ok(bytes)
}

/// Returns whether `levels` lists and then these bytes have this error.
fn nests(alloc: Global, levels: u8, behind: &[u8], error: &str) -> Result<bool, Fail> {
    let mut bytes = nested(alloc, levels)?;
    bytes.extend_from_slice(behind)?;
    let reading = read(alloc, bytes.as_slice(), 100)?;
    Ok(shown(alloc, &reading.error)?.as_str() == error)
}

#[test]
fn tags_nest_to_32_levels(rt: HostRuntime) -> Result<(), Fail> {
    assert!(rt; nests(rt.alloc(), 32, b"", "None")?);
    assert!(rt; nests(rt.alloc(), 33, b"\0", "Some(TooDeep { at: 256 })")?);
    Ok(())
}

/// Bytes with the length of their first tag.
const FIRST_TAGS: [(&[u8], usize); 4] = [
    (b"mstt\0\0\0\x04\0\0\0\xc8", 12),
    (b"minm\0\0\0\x01\xffmst", 9),
    (b"mlog\0\0\0\0mlcl\xff\xff\xff\xff", 8),
    (b"mlcl\0\0\0\x10mlit\0\0\0\x08mlit\0\0\0\0mlog", 24),
];

/// Returns the tag at the start of bytes, and its length.
fn first_tag(alloc: Global, table: &CodeTable, bytes: &[u8]) -> Result<(Tag, usize), StreamError> {
    read_tag(alloc, bytes, table, limits())
}

/// Returns whether bytes begin with a tag of this length, whose encoding they are.
fn begins_with_tag(
    alloc: Global,
    table: &CodeTable,
    bytes: &[u8],
    len: usize,
) -> Result<bool, Fail> {
    let (tag, read) = first_tag(alloc, table, bytes)?;
    let mut encoding = Vec::new(alloc);
    encode_into(&tag, &mut encoding)?;
    Ok(read == len && encoding.len() == len && bytes.starts_with(encoding.as_slice()))
}

#[test]
fn the_first_tag_is_read_whole(rt: HostRuntime) -> Result<(), Fail> {
    let table = standard(rt.alloc())?;
    for (bytes, len) in &FIRST_TAGS {
        assert!(rt; begins_with_tag(rt.alloc(), &table, bytes, *len)?);
    }
    Ok(())
}

/// Returns whether no tag is read and the error is this.
fn refuses(
    alloc: Global,
    table: &CodeTable,
    bytes: &[u8],
    error: &str,
) -> Result<bool, AllocError> {
    let told = shown(alloc, &first_tag(alloc, table, bytes).err())?;
    Ok(told.as_str() == error)
}

#[test]
fn a_malformed_tag_is_refused(rt: HostRuntime) -> Result<(), Fail> {
    let table = standard(rt.alloc())?;
    assert!(rt; refuses(rt.alloc(), &table, b"", "Some(Truncated { at: 0 })")?);
    assert!(rt;
        refuses(
            rt.alloc(),
            &table,
            b"mlcl\xff\xff\xff\xff",
            "Some(TooLarge { at: 0 })"
        )?
    );
    Ok(())
}

/// Returns whether writing the tag to a sink writes these bytes.
fn writes(
    alloc: Global,
    tag: &Tag,
    failing: &[u64],
    answer: Result<(), WriteError>,
    bytes: &[u8],
) -> Result<bool, AllocError> {
    let mut sink = MemSink::new(alloc, 100, 4, failing)?;
    let is_so = write_tag(alloc, tag, &mut sink) == answer;
    Ok(is_so && sink.taken() == bytes)
}

#[test]
fn a_tag_is_written_as_it_was_read(rt: HostRuntime) -> Result<(), Fail> {
    let alloc = rt.alloc();
    let (tag, _) = first_tag(alloc, &standard(alloc)?, b"minm\0\0\0\x01\xff")?;
    assert!(rt; writes(alloc, &tag, &[], Ok(()), b"minm\0\0\0\x01\xff")?);
    assert!(rt;
        writes(
            alloc,
            &tag,
            &[3],
            Err(WriteError::Failed),
            b"minm\0\0\0\x01"
        )?
    );
    Ok(())
}
