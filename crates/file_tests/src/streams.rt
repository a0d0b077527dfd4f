//! Runs sources and sinks in memory and over std.

ghost use Rattle.std.specs.Prelude.{◌≡◌, IfOk};

use crate::callers::copied_whole;
use outside_net::{Failed, MemSink, MemSource, Reading, Sink, Source, Writing, put_all};
use std::alloc::{AllocError, Global};
use std::io;
use std::io::{ErrorKind, Read, Write};
use std::test::Fail;

/// Whether a read has the buffer of four bytes (otherwise one byte of it), the number of bytes that it reads if it
/// succeeds, and a prefix of the buffer afterwards.
type Reads = (bool, Option<usize>, &'static [u8]);

/// Whether reads, one after the other, have these results.
fn gives<S: Source>(source: &mut S, rows: &[Reads]) -> bool {
    let mut room = [0; 4];
    for (is_wide, moved, begins) in rows {
        let read = if *is_wide {
            source.read(&mut room)
        } else {
            source.read(&mut room[..1])
        };
        if read.ok() != *moved || !room.starts_with(begins) {
            return false;
        }
    }
    true
}

/// Whether writes of these chunks, one after the other, write this many bytes each, or fail.
fn takes<W: Sink>(sink: &mut W, rows: &[(&'static [u8], Option<usize>)]) -> bool {
    for (piece, moved) in rows {
        if piece.is_empty() || sink.write(piece).ok() != *moved {
            return false;
        }
    }
    true
}

const PIECES: [Reads; 5] = [
    (true, Some(2), b"ab"),
    (true, None, b""),
    (false, Some(1), b"cb"),
    (true, Some(2), b"de"),
    (true, Some(0), b""),
];

#[test]
fn a_source_gives_pieces_and_fails_where_it_is_set_to(rt: HostRuntime) -> Result<(), Fail> {
    let mut source = MemSource::new(rt.alloc(), b"abcde", 2, &[2])?;
    assert!(rt; gives(&mut source, &PIECES));
    Ok(())
}

const ROOM_OF_FIVE: [(&[u8], Option<usize>); 4] = [
    (b"abcd", Some(3)),
    (b"d", None),
    (b"def", Some(2)),
    (b"f", None),
];

/// Whether a sink with capacity for five bytes takes what fits, and then has it.
fn fills(sink: &mut MemSink) -> bool {
    takes(sink, &ROOM_OF_FIVE) && sink.taken() == b"abcde".as_slice()
}

#[test]
fn a_sink_takes_what_fits_and_then_fails(rt: HostRuntime) -> Result<(), Fail> {
    let mut sink = MemSink::new(rt.alloc(), 5, 3, &[2])?;
    assert!(rt; fills(&mut sink));
    Ok(())
}

/// Whether `put_all` has this outcome on a sink that takes three bytes per call and fails at one call, and what it
/// then has.
fn puts(alloc: Global, failing: u64, is_well: bool, taken: &[u8]) -> Result<bool, AllocError> {
    let mut sink = MemSink::new(alloc, 100, 3, &[failing])?;
    let is_put = put_all(&mut sink, b"abcdefgh").is_ok();
    Ok(is_put == is_well && sink.taken() == taken)
}

#[test]
fn put_all_stops_at_a_failed_call(rt: HostRuntime) -> Result<(), Fail> {
    assert!(rt; puts(rt.alloc(), 0, true, b"abcdefgh")?);
    assert!(rt; puts(rt.alloc(), 3, false, b"abcdef")?);
    Ok(())
}

/// An input, the number of the read that fails, the status of copying it, and what is copied.
const COPIES: [(&[u8], u64, u8, &[u8]); 5] = [
    (b"", 0, 0, b""),
    (b"abcde", 0, 0, b"abcde"),
    (b"abcdef", 0, 8, b""),
    (b"abcdef", 2, 4, b""),
    (b"abc", 3, 4, b""),
];

/// Whether copying an input has this outcome.
fn copies(
    alloc: Global,
    bytes: &[u8],
    failing: u64,
    status: u8,
    taken: &[u8],
) -> Result<bool, AllocError> {
    let mut input = MemSource::new(alloc, bytes, 2, &[failing])?;
    let mut output = MemSink::new(alloc, 100, 100, &[])?;
    let ended = copied_whole(alloc, &mut input, &mut output);
    Ok(ended == status && output.taken() == taken)
}

#[test]
fn an_input_is_read_up_to_its_limit(rt: HostRuntime) -> Result<(), Fail> {
    for (bytes, failing, status, taken) in &COPIES {
        assert!(rt; copies(rt.alloc(), bytes, *failing, *status, taken)?);
    }
    Ok(())
}

/// Fails at each read, and writes nothing at each write.
#[derive(Drop)]
struct Broken;

impl Read for Broken {
    fn read(&mut self, _room: &mut [u8]) -> io::Result<usize> {
        Err(io::Error::from(ErrorKind::Other))
    }
}

impl Write for Broken {
    fn write(&mut self, _piece: &[u8]) -> io::Result<usize> {
        Ok(0)
    }

    fn flush(&mut self) -> io::Result<()> {
        Ok(())
    }
}

const WHOLE: [Reads; 3] = [
    (true, Some(4), b"abcd"),
    (true, Some(1), b""),
    (true, Some(0), b""),
];

#[test]
fn a_reader_of_std_is_a_source(rt: HostRuntime) {
    assert!(rt; gives(&mut Reading::new(b"abcde".as_slice()), &WHOLE));
    assert!(rt; gives(&mut Reading::new(Broken), &[(true, None, b"")]));
}

/// Writes five bytes by two calls.
fn put_twice<W: Sink>(sink: &mut W) -> Result<(), Failed> {
    put_all(sink, b"abc")?;
    put_all(sink, b"de")
}

/// Whether a vector, which is a writer of std, then has them.
fn has_both(alloc: Global) -> Result<bool, Failed> {
    let mut sink = Writing::new(Vec::new(alloc));
    put_twice(&mut sink)?;
    Ok(sink.into_inner().as_slice() == b"abcde".as_slice())
}

#[test]
fn a_writer_of_std_is_a_sink(rt: HostRuntime) -> Result<(), Fail> {
    assert!(rt; has_both(rt.alloc())?);
    assert!(rt; takes(&mut Writing::new(Broken), &[(b"a", None)]));
    Ok(())
}

#[test]
fn the_standard_streams_fit(rt: HostRuntime) -> Result<(), Fail> {
    let mut output = Writing::new(rt.stdout());
    put_all(&mut output, b"standard output takes this line\n")?;
    let input = Reading::new(rt.stdin());
    let _stdin = input.into_inner();
    Ok(())
}

/// Returns the bytes, through a sink with capacity for all of them.
fn spelled(alloc: Global, bytes: &[u8]) -> Result<Vec<u8>, AllocError>
    ensures { IfOk result (λ all. all.items ≡ bytes.now) }
{
    let mut sink = MemSink::new(alloc, bytes.len(), 2, &[])?;
    put_all(&mut sink, bytes).unwrap();
    Ok(sink.into_taken())
}

/// Whether the bytes are returned.
fn spells(alloc: Global, bytes: &[u8]) -> Result<bool, AllocError> {
    Ok(spelled(alloc, bytes)?.as_slice() == bytes)
}

#[test]
fn a_write_into_its_own_room_is_sure(rt: HostRuntime) -> Result<(), Fail> {
    assert!(rt; spells(rt.alloc(), b"abcde")?);
    Ok(())
}
