//! `kept_library`: a file that keeps the edits of a share is opened again and again; the first batch is of handle 0; each
//! call of a file fails in turn; files that are not edit files, or whose batches pass a limit, are refused.

use command_core::Fault;
use edit_file::Frame;
use item_model::Entry;
use kept_library::{FileFault, KeptLibrary, close_file, open_library};
use outside_disks::{Disk, Failed, Files, MemDisk, MemFiles};
use records_import::read_batch;
use share_core::Share;
use std::alloc::{AllocError, Global};
use std::process::Abort;
use std::string::String;
use std::test::Fail;

const NONE: &str = "op,kind,id\n";

const SONG: &str = "op,kind,id,dmap.itemname\nput,item,7,A\n";

/// Returns files with a disk for each element of `failing`, the numbers of its calls that fail.
fn files_with(alloc: Global, failing: &[&[u64]]) -> Result<MemFiles, Fail> {
    let mut disks = Vec::new(alloc);
    for numbers in failing {
        disks.push(MemDisk::new(alloc, b"", 4_000, 90, 4_000, numbers)?)?;
    }
    Ok(MemFiles::with_disks(alloc, disks, 9)?)
}

type Opened = Result<KeptLibrary<MemDisk>, Fault<FileFault>>;

fn opened(alloc: Global, files: &mut MemFiles, input: &str) -> Result<Opened, Fail> {
    let first = read_batch(alloc, input.as_bytes())?;
    Ok(open_library(alloc, files, "edits", "Demo", 16, first))
}

/// Opens a share and its file. Returns the revision, or the status of the error.
fn opens(alloc: Global, files: &mut MemFiles, input: &str) -> Result<Result<u32, u8>, Fail> {
    match opened(alloc, files, input)? {
        Ok(kept) => {
            close_file(files, kept.file)?;
            Ok(Ok(kept.share.revision()))
        }
        Err(fault) => Ok(Err(fault.status())),
    }
}

/// The records of the input, those of an edit after it, and the revision at which the share is opened.
type Turn = (&'static str, &'static str, u32);

const TURNS: [Turn; 5] = [
    (NONE, NONE, 2),
    (NONE, SONG, 2),
    (NONE, NONE, 3),
    (SONG, SONG, 4),
    (NONE, NONE, 5),
];

fn keep(alloc: Global, kept: &mut KeptLibrary<MemDisk>, accepted: &str) -> Result<(), Fail> {
    let batch = read_batch(alloc, accepted.as_bytes())?;
    if !batch.edits.as_slice().is_empty() {
        kept.file.append(Frame::of(alloc, &batch)?)?;
    }
    Ok(())
}

/// Opens a share and its file, keeps an edit, and closes the file. Returns the revision at which the share was opened.
fn turn(alloc: Global, files: &mut MemFiles, input: &str, accepted: &str) -> Result<u32, Fail> {
    let Ok(mut kept) = opened(alloc, files, input)? else {
        return Err(Fail::from(Failed));
    };
    let revision = kept.share.revision();
    keep(alloc, &mut kept, accepted)?;
    close_file(files, kept.file)?;
    Ok(revision)
}

fn has_turns(
    rt: &impl Abort,
    alloc: Global,
    files: &mut MemFiles,
    turns: &[Turn],
) -> Result<(), Fail> {
    for (input, accepted, revision) in turns {
        assert_eq!(rt; turn(alloc, files, input, accepted)?, *revision);
    }
    Ok(())
}

#[test]
fn a_share_is_opened_with_what_its_file_kept(rt: HostRuntime) -> Result<(), Fail> {
    let mut files = files_with(rt.alloc(), &[&[], &[], &[], &[], &[]])?;
    has_turns(&rt, rt.alloc(), &mut files, &TURNS)
}

/// Returns whether the first entry is a batch of handle 0, which is the one of batches with which a share is opened.
fn begins_with_its_first_batch(share: &Share) -> bool {
    match share.entry(0) {
        Some(Entry::Edits { by, .. }) => *by == 0,
        _ => false,
    }
}

#[test]
fn the_first_batch_is_of_handle_0(rt: HostRuntime) -> Result<(), Fail> {
    let mut files = files_with(rt.alloc(), &[&[]])?;
    let Ok(kept) = opened(rt.alloc(), &mut files, SONG)? else {
        return Err(Fail::from(Failed));
    };
    let begins = begins_with_its_first_batch(&kept.share);
    close_file(&mut files, kept.file)?;
    assert!(rt; begins);
    Ok(())
}

/// Opens a new file with an input, the call with the number `failing` fails, and then opens the file again.
fn opens_twice(alloc: Global, failing: u64) -> Result<(Result<u32, u8>, Result<u32, u8>), Fail> {
    let mut files = files_with(alloc, &[&[failing], &[]])?;
    let first = opens(alloc, &mut files, SONG)?;
    let second = opens(alloc, &mut files, NONE)?;
    Ok((first, second))
}

/// This many calls make a file and append to it.
const CALLS: u64 = 12;

/// Returns whether an error is returned exactly if one of these calls fails, and the file then opens with the batch or
/// without it.
fn each_fails(alloc: Global) -> Result<bool, Fail> {
    for number in 1..=CALLS {
        let (first, second) = opens_twice(alloc, number)?;
        if first != Err(10) || (second != Ok(2) && second != Ok(3)) {
            return Ok(false);
        }
    }
    Ok(opens_twice(alloc, CALLS + 1)? == (Ok(3), Ok(3)))
}

#[test]
fn each_call_that_fails_is_told(rt: HostRuntime) -> Result<(), Fail> {
    assert!(rt; each_fails(rt.alloc())?);
    assert_eq!(rt; opens(rt.alloc(), &mut MemFiles::new(), NONE)?, Err(10));
    Ok(())
}

/// The file of three batches: how the share before each of them is opened, and what it then keeps.
const THREE: [Turn; 3] = [(NONE, SONG, 2), (NONE, SONG, 3), (NONE, SONG, 4)];

/// The input, the number of the first call that may fail and of the first after these, and the possible revisions of a
/// share that then opens the file. The first 13 calls open a file of three batches, and four more append the input.
type OldFault = (&'static str, u64, u64, &'static [u32]);

const OLD_FAULTS: [OldFault; 2] = [(NONE, 1, 14, &[5]), (SONG, 14, 18, &[5, 6])];

/// Makes a file of three batches, opens it so that the call with the number `failing` fails (0: none), and opens it again.
fn opens_old(
    alloc: Global,
    input: &str,
    failing: u64,
) -> Result<(Result<u32, u8>, Result<u32, u8>), Fail> {
    let mut files = files_with(alloc, &[&[], &[], &[], &[failing], &[]])?;
    for (input, accepted, _) in &THREE {
        turn(alloc, &mut files, input, accepted)?;
    }
    let first = opens(alloc, &mut files, input)?;
    let second = opens(alloc, &mut files, NONE)?;
    Ok((first, second))
}

/// Returns whether each of these calls that fails is an error, and the file then opens with what it had, or also with
/// the batch of the input. With one call more there is no error.
fn old_fails(alloc: Global, fault: &OldFault) -> Result<bool, Fail> {
    let (input, first, end, revisions) = *fault;
    for number in first..end {
        let (failed, again) = opens_old(alloc, input, number)?;
        if failed != Err(10) || !again.is_ok_and(|revision| revisions.contains(&revision)) {
            return Ok(false);
        }
    }
    let (opened, again) = opens_old(alloc, input, end)?;
    Ok(opened == again && opened.ok() == revisions.last().copied())
}

fn all_old_fail(rt: &impl Abort, alloc: Global, faults: &[OldFault]) -> Result<(), Fail> {
    for (n, fault) in faults.iter().enumerate() {
        assert!(rt; old_fails(alloc, fault)?, "at {n}");
    }
    Ok(())
}

#[test]
fn a_call_that_fails_leaves_an_old_file(rt: HostRuntime) -> Result<(), Fail> {
    all_old_fail(&rt, rt.alloc(), &OLD_FAULTS)
}

/// The bytes of a file, the id of the last list that the input puts, from 2 on, and the line and the status of the
/// refusal.
type Refused = (&'static [u8], u32, &'static str, u8);

const REFUSED: [Refused; 3] = [
    (b"\x01DAAP", 1, "file: not an edit file at 0\n", 3),
    (
        b"\x01DAAPEDIT\x01\0\0",
        2,
        "file: not an edit file at 9\n",
        3,
    ),
    (b"\x01DAAPEDIT\0", 1_026, "limit: library\n", 8),
];

/// Returns records that put lists with the ids from 2 to `last`.
fn lists(alloc: Global, last: u32) -> Result<String, AllocError> {
    let mut text = String::new(alloc);
    text.push_str("op,kind,id\n")?;
    for id in 2..=last {
        text.push_str(format!(in alloc; "put,list,{id}\n")?.as_str())?;
    }
    Ok(text)
}

/// Returns whether the file is refused as `row` says, and is unchanged.
fn is_refused(alloc: Global, row: &Refused) -> Result<bool, Fail> {
    let (bytes, last, line, status) = *row;
    if bytes.is_empty() {
        return Ok(false);
    }
    let mut files = files_with(alloc, &[&[], &[], &[]])?;
    let mut disk = files.open("edits")?;
    disk.write_at(0, bytes)?;
    files.close(disk);
    let input: String = lists(alloc, last)?;
    let Err(fault) = opened(alloc, &mut files, input.as_str())? else {
        return Ok(false);
    };
    let told = fault.line(alloc)?;
    let is_told = told.as_slice() == line.as_bytes() && fault.status() == status;
    Ok(is_told && files.open("edits")?.bytes() == bytes)
}

fn are_refused(rt: &impl Abort, alloc: Global, rows: &[Refused]) -> Result<(), Fail> {
    for (n, row) in rows.iter().enumerate() {
        assert!(rt; is_refused(alloc, row)?, "at {n}");
    }
    Ok(())
}

#[test]
fn what_is_refused_stays_as_it_was(rt: HostRuntime) -> Result<(), Fail> {
    are_refused(&rt, rt.alloc(), &REFUSED)
}
