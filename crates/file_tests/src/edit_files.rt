//! `edit_file`: files as a table, each disk call failing in turn, and every image that a crash may leave.

ghost use Rattle.std.specs.Prelude.{◌≡◌, ◌≢◌, [], false};
ghost use Rattle.records_import.specs.Written.{IsReadable};

use edit_file::{EditFile, FileError, Frame};
use edit_keeping::Keeps;
use item_model::Batch;
use outside_disks::{DiskCall, DiskOp, Failed, MemDisk};
use records_import::{read_batch, write_batch};
use std::alloc::Global;
use std::string::String;
use std::test::Fail;

// An item as a client sends it. With all columns written it has 542 bytes.
const ONE_ITEM: &[u8] = b"op,kind,id,dmap.itemname\nput,item,7,A\n";

// Bytes, and the result of opening them: the number of batches, and the number of bytes that the file has then.
const FILES: [(&[u8], &str); 11] = [
    (b"", "0 batches, 10 bytes"),
    (b"\x01", "0 batches, 10 bytes"),
    (b"\0123456789", "0 batches, 10 bytes"),
    (b"\x01DAAPEDIT\0", "0 batches, 10 bytes"),
    (
        b"\x01DAAPEDIT\x7f\x01 of a torn append",
        "0 batches, 10 bytes",
    ),
    (b"\x01DAAP", "refused at 0"),
    (b"op,kind,id,dmap.itemname\nput,item,7,A\n", "refused at 0"),
    (b"\x01DAAPEDIT", "refused at 9"),
    (b"\x01DAAPEDIT\x01\0\0", "refused at 9"),
    (b"\x01DAAPEDIT\x01\0\0\0\0\0", "refused at 9"),
    (b"\x01DAAPEDIT\x01\xff\xff\xff\xff\0", "refused at 9"),
];

fn frame(alloc: Global) -> Result<Frame, Fail> {
    let batch = read_batch(alloc, ONE_ITEM)?;
    if batch.edits.as_slice().is_empty() {
        return Err(Fail::from(Failed));
    }
    Ok(Frame::of(alloc, &batch)?)
}

fn disk_with(alloc: Global, bytes: &[u8], failing: &[u64]) -> Result<MemDisk, Fail> {
    Ok(MemDisk::new(alloc, bytes, 2_000, 60, 2_000, failing)?)
}

// Whether no operation of the disk was called that can change it.
fn is_untouched(disk: &MemDisk) -> bool {
    disk.calls()
        .iter()
        .all(|call| !matches!(call.op, DiskOp::WriteAt | DiskOp::Cut))
}

// The result of opening the bytes. A refused file must be left as it was.
fn opened(alloc: Global, bytes: &[u8]) -> Result<String, Fail> {
    match EditFile::open(alloc, disk_with(alloc, bytes, &[])?) {
        Ok((file, batches)) => {
            let (batches, bytes) = (batches.len(), file.into_disk().bytes().len());
            Ok(format!(in alloc; "{batches} batches, {bytes} bytes")?)
        }
        Err((FileError::NotEditFile { at }, disk)) if is_untouched(&disk) => {
            Ok(format!(in alloc; "refused at {at}")?)
        }
        Err((error, _disk)) => Err(Fail::from(error)),
    }
}

fn first_not_opened(alloc: Global, files: &[(&[u8], &'static str)]) -> Result<Option<usize>, Fail> {
    for (i, (bytes, answer)) in files.iter().enumerate() {
        if opened(alloc, bytes)?.as_str() != *answer {
            return Ok(Some(i));
        }
    }
    Ok(None)
}

#[test]
fn files_open_as_the_table_says(rt: HostRuntime) -> Result<(), Fail> {
    assert_eq!(rt; first_not_opened(rt.alloc(), &FILES)?, None);
    Ok(())
}

// Opens a file. Returns only its disk if one of the calls failed.
fn open_with(
    alloc: Global,
    start: &[u8],
    failing: &[u64],
) -> Result<Result<EditFile<MemDisk>, MemDisk>, Fail> {
    match EditFile::open(alloc, disk_with(alloc, start, failing)?) {
        Ok((file, _batches)) => Ok(Ok(file)),
        Err((FileError::Failed, disk)) => Ok(Err(disk)),
        Err((error, _disk)) => Err(Fail::from(error)),
    }
}

// The number of disk calls of opening.
fn opening_calls(alloc: Global, start: &[u8], failing: &[u64]) -> Result<usize, Fail> {
    let disk = match open_with(alloc, start, failing)? {
        Ok(file) => file.into_disk(),
        Err(disk) => disk,
    };
    Ok(disk.calls().len())
}

// Opens a file and appends a batch. Returns the disk, and whether both succeeded.
fn grown(alloc: Global, start: &[u8], failing: &[u64]) -> Result<(MemDisk, bool), Fail> {
    match open_with(alloc, start, failing)? {
        Ok(mut file) => {
            let done = file.append(frame(alloc)?).is_ok();
            if done == file.broken() {
                return Err(Fail::from(Failed));
            }
            Ok((file.into_disk(), done))
        }
        Err(disk) => Ok((disk, false)),
    }
}

// The bytes of a file with one batch.
fn one_batch(alloc: Global) -> Result<Vec<u8>, Fail> {
    let (disk, _done) = grown(alloc, b"", &[])?;
    Ok(Vec::from_slice(alloc, disk.bytes())?)
}

// The number of batches that the bytes open to.
fn batches_in(alloc: Global, bytes: &[u8]) -> Result<usize, Fail> {
    match EditFile::open(alloc, disk_with(alloc, bytes, &[])?) {
        Ok((_file, batches)) => Ok(batches.len()),
        Err((error, _disk)) => Err(Fail::from(error)),
    }
}

// Whether the records of a batch are where a file with one batch has them.
fn has_records(alloc: Global, whole: &[u8], batch: &Batch) -> Result<bool, Fail>
    requires { IsReadable batch.now }
{
    let records = write_batch(alloc, batch)?;
    Ok(whole.get(14..556) == Some(records.as_slice()))
}

// The same for the batch that is appended.
fn has_one_item(alloc: Global, whole: &[u8]) -> Result<bool, Fail> {
    let batch = read_batch(alloc, ONE_ITEM)?;
    has_records(alloc, whole, &batch)
}

// Whether the bytes have the batch that is appended, and open as they should: whole, without their end, and with the
// first closing byte again.
fn is_as_the_format_says(alloc: Global, whole: &[u8]) -> Result<bool, Fail> {
    let closed = overlaid(alloc, whole, 9, b"\x7f")?;
    let files = [
        (whole, "1 batches, 557 bytes"),
        (whole.get(..300).unwrap_or(whole), "refused at 9"),
        (closed.as_slice(), "0 batches, 10 bytes"),
    ];
    Ok(
        first_not_opened(alloc, &files)?.is_none()
            && has_one_item(alloc, whole)?
            && whole.starts_with(b"\x01DAAPEDIT\x01\0\0\x02\x1e".as_slice()),
    )
}

#[test]
fn a_batch_is_appended_as_the_format_says(rt: HostRuntime) -> Result<(), Fail> {
    let whole = one_batch(rt.alloc())?;
    assert!(rt; is_as_the_format_says(rt.alloc(), whole.as_slice())?);
    Ok(())
}

// The bytes with the piece at that offset.
fn overlaid(alloc: Global, bytes: &[u8], at: usize, piece: &[u8]) -> Result<Vec<u8>, Fail> {
    let mut all = Vec::from_slice(alloc, bytes.get(..at).unwrap_or(bytes))?;
    all.extend_from_slice(piece)?;
    all.extend_from_slice(bytes.get(all.len()..).unwrap_or(b"".as_slice()))?;
    Ok(all)
}

// A disk in memory, by the record of its calls: its bytes, which of its pieces are still to be written, and whether a
// change may not be safe.
#[derive(Drop)]
struct Replay<'a> {
    bytes: Vec<u8>,
    pieces: &'a [u8],
    is_pending: bool,
    // this many calls are the same as in a run whose images were opened
    known: usize,
}

// Whether all images of an interrupted write open to `fewest` batches, or to `most`. The piece is cut at each byte,
// and the rest of it is as before, or is 01.
fn torn_writes_open(
    alloc: Global,
    bytes: &[u8],
    at: usize,
    piece: &[u8],
    fewest: usize,
    most: usize,
) -> Result<bool, Fail> {
    for end in 0..=piece.len() {
        let mut torn = Vec::from_slice(alloc, piece.get(..end).unwrap_or(piece))?;
        let short = overlaid(alloc, bytes, at, torn.as_slice())?;
        for _missing in end..piece.len() {
            torn.push(1)?;
        }
        let filled = overlaid(alloc, bytes, at, torn.as_slice())?;
        let (short, filled) = (
            batches_in(alloc, short.as_slice())?,
            batches_in(alloc, filled.as_slice())?,
        );
        if (short != fewest && short != most) || (filled != fewest && filled != most) {
            return Ok(false);
        }
    }
    Ok(true)
}

// The same for a truncation: some length from the wanted one to the old one.
fn torn_cuts_open(
    alloc: Global,
    bytes: &[u8],
    at: usize,
    fewest: usize,
    most: usize,
) -> Result<bool, Fail> {
    for end in at..=bytes.len() {
        let found = batches_in(alloc, bytes.get(..end).unwrap_or(bytes))?;
        if found != fewest && found != most {
            return Ok(false);
        }
    }
    Ok(true)
}

// Makes one more call, and returns whether all images of it open to `fewest` batches, or to `most`. A second change
// while one is pending is refused, so that all images are those of one change.
fn make_call(
    alloc: Global,
    disk: &mut Replay,
    call: &DiskCall,
    fewest: usize,
    most: usize,
) -> Result<bool, Fail> {
    let at = call.at as usize;
    let is_change = matches!(call.op, DiskOp::WriteAt | DiskOp::Cut);
    if is_change && disk.is_pending {
        return Ok(false);
    }
    disk.is_pending |= is_change;
    let is_known = disk.known > 0;
    disk.known = disk.known.saturating_sub(1);
    match call.op {
        DiskOp::WriteAt => {
            let piece = disk.pieces.get(..call.len).unwrap_or(disk.pieces);
            disk.pieces = disk.pieces.get(call.len..).unwrap_or(b"".as_slice());
            let opens = is_known
                || torn_writes_open(alloc, disk.bytes.as_slice(), at, piece, fewest, most)?;
            if call.done {
                disk.bytes = overlaid(alloc, disk.bytes.as_slice(), at, piece)?;
            }
            Ok(opens)
        }
        DiskOp::Cut => {
            let opens = is_known || torn_cuts_open(alloc, disk.bytes.as_slice(), at, fewest, most)?;
            if call.done {
                disk.bytes.truncate(at);
            }
            Ok(opens)
        }
        DiskOp::Sync => {
            disk.is_pending &= !call.done;
            Ok(true)
        }
        DiskOp::Len | DiskOp::ReadAt => Ok(true),
    }
}

// Whether every image of the calls opens to `fewest` batches, or to `most`.
fn all_open(
    alloc: Global,
    disk: &mut Replay,
    calls: &[DiskCall],
    fewest: usize,
    most: usize,
) -> Result<bool, Fail> {
    for call in calls {
        if !make_call(alloc, disk, call, fewest, most)? {
            return Ok(false);
        }
    }
    Ok(true)
}

// Whether every image of the first calls opens to the batches of before, and every image of the others to these, or
// to these and one more.
fn both_open(
    alloc: Global,
    disk: &mut Replay,
    calls: &[DiskCall],
    opening: usize,
    before: usize,
) -> Result<bool, Fail> {
    let (opens, appends) = (
        calls.get(..opening).unwrap_or(calls),
        calls.get(opening..).unwrap_or(calls),
    );
    Ok(
        all_open(alloc, disk, opens, before, before)?
            && all_open(alloc, disk, appends, before, before.saturating_add(1))?,
    )
}

// Whether every image of opening the bytes has their batches, and every image of an append these, or these and one
// more. Another run has shown it for the first `known` calls.
fn images_open(
    alloc: Global,
    start: &[u8],
    disk: &MemDisk,
    opening: usize,
    known: usize,
) -> Result<bool, Fail> {
    let before = batches_in(alloc, start)?;
    let mut replayed = Replay {
        bytes: Vec::from_slice(alloc, start)?,
        pieces: disk.pieces(),
        is_pending: false,
        known,
    };
    both_open(alloc, &mut replayed, disk.calls(), opening, before)
}

// Whether one batch was added.
fn has_one_more(alloc: Global, start: &[u8], bytes: &[u8]) -> Result<bool, Fail> {
    Ok(batches_in(alloc, bytes)? == batches_in(alloc, start)?.saturating_add(1))
}

// Makes a run of which one call is set to fail. Checks that all its images open, and that an acknowledged batch is in
// them. Returns the number of calls, and whether all succeeded.
fn run(alloc: Global, start: &[u8], failing: &[u64], known: usize) -> Result<(usize, bool), Fail> {
    let opening = opening_calls(alloc, start, failing)?;
    let (disk, done) = grown(alloc, start, failing)?;
    let acknowledged = !done || has_one_more(alloc, start, disk.bytes())?;
    if acknowledged && images_open(alloc, start, &disk, opening, known)? {
        return Ok((disk.calls().len(), done));
    }
    Err(Fail::from(Failed))
}

// Each call fails in turn. Returns the number of calls; 0 if one of them was not the last.
fn each_fails(alloc: Global, start: &[u8]) -> Result<usize, Fail> {
    let (count, done) = run(alloc, start, &[], 0)?;
    if !done {
        return Ok(0);
    }
    for number in 1..=count {
        if run(alloc, start, &[number as u64], number - 1)? != (number, false) {
            return Ok(0);
        }
    }
    Ok(count)
}

#[test]
fn every_image_of_a_new_file_opens(rt: HostRuntime) -> Result<(), Fail> {
    assert_eq!(rt; each_fails(rt.alloc(), b"")?, 12);
    Ok(())
}

#[test]
fn every_image_of_an_old_file_opens(rt: HostRuntime) -> Result<(), Fail> {
    let alloc = rt.alloc();
    let mut old = one_batch(alloc)?;
    old.extend_from_slice(b"\x01 of a torn append")?;
    assert_eq!(rt; each_fails(alloc, old.as_slice())?, 12);
    Ok(())
}

// Keeps a batch with a keeper of any kind.
fn keep<K: Keeps>(alloc: Global, keeper: &mut K, batch: &Batch) -> Result<(), Fail>
    requires going { K.is_lost keeper.old ≡ false }
    requires some { batch.now ≢ [] }
    requires readable { IsReadable batch.now }
{
    let ready = keeper.ready(alloc, batch)?;
    keeper.keep(ready)?;
    Ok(())
}

fn keep_one<K: Keeps>(alloc: Global, keeper: &mut K) -> Result<(), Fail>
    requires { K.is_lost keeper.old ≡ false }
{
    let batch = read_batch(alloc, ONE_ITEM)?;
    if batch.edits.as_slice().is_empty() {
        return Err(Fail::from(Failed));
    }
    keep(alloc, keeper, &batch)
}

#[test]
fn an_edit_file_is_a_keeper(rt: HostRuntime) -> Result<(), Fail> {
    let alloc = rt.alloc();
    if let Ok((mut file, _none)) = EditFile::open(alloc, disk_with(alloc, b"", &[])?) {
        keep_one(alloc, &mut file)?;
        assert_eq!(rt; batches_in(alloc, file.into_disk().bytes())?, 1);
        return Ok(());
    }
    Err(Fail::from(Failed))
}
