//! `outside_disks`: runs disks and files, with a caller that knows only the trait.

ghost use Rattle.std.specs.Prelude.{◌<◌, length, OnOk};
ghost use Rattle.outside_disks.specs.Disks.{Only};

use outside_disks::{Disk, DiskOp, Failed, FileDisk, Files, MemDisk, MemFiles, SystemFiles};
use std::alloc::{AllocError, Global};
use std::os::unix::fs::symlink;
use std::string::String;
use std::test::Fail;
use std::{env, fs};

// Writes a piece at offset 0, and makes it safe.
fn write_safely<D: Disk>(disk: &mut D, piece: &[u8]) -> Result<(), Failed>
    requires { 0 < length piece.now }
    ensures { OnOk result (Only (D.bytes disk.new) (D.images disk.new)) }
{
    disk.write_at(0, piece)?;
    disk.sync()
}

// Writes, reads, truncates and reads the length. Returns whether all results are those of the model.
fn is_a_disk<D: Disk>(disk: &mut D) -> Result<bool, Failed> {
    write_safely(disk, b"abc")?;
    let mut room = [0; 4];
    let n = disk.read_at(1, &mut room)?;
    let all = n == 2 && &room[..2] == b"bc".as_slice() && disk.read_at(3, &mut room)? == 0;
    Ok(all && disk.len()? == 3)
}

// The path of a file that only this test uses.
fn own_path(rt: &HostRuntime, alloc: Global, name: &str) -> Result<String, Fail> {
    let folder = env::temp_dir(rt)?;
    let mut path = String::new(alloc);
    path.push_str(folder.as_str())?;
    path.push_str("/outside_disks_test_")?;
    path.push_str(name)?;
    Ok(path)
}

// Truncates and writes, the second time too far. Returns whether that one fails.
fn is_cut_and_grown(disk: &mut FileDisk) -> Result<bool, Failed> {
    disk.cut(2)?;
    disk.write_at(2, b"d")?;
    Ok(disk.write_at(u64::MAX - 9, b"far").is_err())
}

// Whether an empty disk does all that a disk does.
fn is_an_empty_disk(disk: &mut FileDisk) -> Result<bool, Failed> {
    Ok(disk.len()? == 0 && is_a_disk(disk)? && is_cut_and_grown(disk)?)
}

// Whether the file at a path has these bytes.
fn has_bytes(rt: &HostRuntime, path: &str, bytes: &[u8]) -> Result<bool, Fail> {
    Ok(fs::read(rt, path)?.as_slice() == bytes)
}

// Whether the file at a path is a disk when it is opened, and a path without a folder is none.
fn are_files<F: Files>(files: &mut F, path: &str) -> Result<bool, Failed> {
    let mut disk = files.open(path)?;
    let is_disk = is_a_disk(&mut disk);
    files.close(disk);
    Ok(is_disk? && files.open("/no folder/no file").is_err())
}

// Whether a file that is open, and what is not a regular file, is refused with the system's or the own reason.
fn refuses(rt: &HostRuntime, alloc: Global, path: &str, reason: &str) -> Result<bool, Fail> {
    let mut files = SystemFiles::new(rt);
    if files.open(path).is_ok() {
        return Ok(false);
    }
    match files.cause() {
        Some(cause) => Ok(format!(in alloc; "{cause}")?.as_str() == reason),
        None => Ok(false),
    }
}

// Whether a missing file is a disk once it is opened, is then refused, and is a disk again once it is closed.
fn is_a_file(rt: &HostRuntime, path: &str) -> Result<bool, Fail> {
    let mut disk = FileDisk::open(rt, path)?;
    let is_disk = is_an_empty_disk(&mut disk)? && has_bytes(rt, path, b"abd")?;
    let in_use = "another program has it open, as a share that runs";
    let is_refused = refuses(rt, rt.alloc(), path, in_use)?;
    drop(disk);
    Ok(is_disk && is_refused && are_files(&mut SystemFiles::new(rt), path)?)
}

const REFUSED: [(&str, &str); 3] = [
    ("/dev/null", "it is not a regular file"),
    ("/", "Is a directory (os error 21)"),
    (
        "/no folder/no file",
        "No such file or directory (os error 2)",
    ),
];

#[test]
fn what_is_no_regular_file_is_no_disk(rt: HostRuntime) -> Result<(), Fail> {
    for (path, reason) in &REFUSED {
        assert!(rt; refuses(&rt, rt.alloc(), path, reason)?);
    }
    Ok(())
}

// Whether a link to a missing file is a disk, and the file has its bytes.
fn is_a_link(rt: &HostRuntime, target: &str, link: &str) -> Result<bool, Fail> {
    symlink(rt, target, link)?;
    let is_disk = is_an_empty_disk(&mut FileDisk::open(rt, link)?)?;
    Ok(is_disk && has_bytes(rt, target, b"abd")?)
}

#[test]
fn a_dangling_link_is_a_disk(rt: HostRuntime) -> Result<(), Fail> {
    let target = own_path(&rt, rt.alloc(), "target")?;
    let link = own_path(&rt, rt.alloc(), "link")?;
    let _absent = fs::remove_file(&rt, target.as_str());
    let _absent = fs::remove_file(&rt, link.as_str());
    assert!(rt; is_a_link(&rt, target.as_str(), link.as_str())?);
    fs::remove_file(&rt, link.as_str())?;
    fs::remove_file(&rt, target.as_str())?;
    Ok(())
}

#[test]
fn a_file_is_a_disk(rt: HostRuntime) -> Result<(), Fail> {
    let path = own_path(&rt, rt.alloc(), "file")?;
    let _absent = fs::remove_file(&rt, path.as_str());
    assert!(rt; is_a_file(&rt, path.as_str())?);
    fs::remove_file(&rt, path.as_str())?;
    Ok(())
}

// Makes a call, and returns whether it succeeded. No write and no truncation begins past the end.
fn call(disk: &mut MemDisk, op: DiskOp, at: u64, piece: &[u8]) -> bool {
    let inside = at <= disk.bytes().len() as u64;
    match op {
        DiskOp::Len => disk.len().is_ok(),
        DiskOp::ReadAt => disk.read_at(at, &mut [0; 4]).is_ok(),
        DiskOp::WriteAt => inside && !piece.is_empty() && disk.write_at(at, piece).is_ok(),
        DiskOp::Cut => inside && disk.cut(at).is_ok(),
        DiskOp::Sync => disk.sync().is_ok(),
    }
}

// The last recorded call: its operation, its offset, and whether it succeeded.
fn last_call(disk: &MemDisk) -> Option<(DiskOp, u64, bool)> {
    let call = disk.calls().last()?;
    Some((call.op, call.at, call.done))
}

// Operation, offset and piece of a call, whether it succeeds, and the disk's bytes afterwards.
type Call = (DiskOp, u64, &'static str, bool, &'static str);

const CALLS: [Call; 6] = [
    (DiskOp::WriteAt, 1, "XYZ", true, "aXYZ"),
    (DiskOp::ReadAt, 2, "", true, "aXYZ"),
    (DiskOp::Cut, 1, "", false, "aXYZ"),
    (DiskOp::Sync, 0, "", true, "aXYZ"),
    (DiskOp::Cut, 2, "", true, "aX"),
    (DiskOp::WriteAt, 2, "12345", true, "aX12345"),
];

// Whether a call succeeds as it should, leaves the bytes that it should, and is recorded.
fn is_made(disk: &mut MemDisk, row: &Call) -> bool {
    let (op, at, piece, done, bytes) = *row;
    call(disk, op, at, piece.as_bytes()) == done
        && disk.bytes() == bytes.as_bytes()
        && last_call(disk) == Some((op, at, done))
}

fn are_made(disk: &mut MemDisk, calls: &[Call]) -> bool {
    for row in calls {
        if !is_made(disk, row) {
            return false;
        }
    }
    true
}

// Whether all calls of the table are recorded, and one more, for which there is no capacity, is not made.
fn are_recorded(disk: &mut MemDisk) -> bool {
    are_made(disk, &CALLS)
        && !call(disk, DiskOp::Len, 0, b"")
        && disk.calls().len() == 6
        && disk.pieces() == b"XYZ12345".as_slice()
}

#[test]
fn a_disk_records_its_calls_and_fails_where_it_is_set_to(rt: HostRuntime) -> Result<(), Fail> {
    let mut disk = MemDisk::new(rt.alloc(), b"abc", 8, 6, 8, &[3])?;
    assert!(rt; are_recorded(&mut disk));
    Ok(())
}

// Whether a write for which there is no capacity does nothing.
fn refuses_a_write(disk: &mut MemDisk) -> bool {
    !call(disk, DiskOp::WriteAt, 3, b"012345")
        && disk.bytes() == b"abc".as_slice()
        && disk.calls().is_empty()
}

#[test]
fn a_write_past_the_capacity_of_a_disk_does_nothing(rt: HostRuntime) -> Result<(), Fail> {
    let mut disk = MemDisk::new(rt.alloc(), b"abc", 8, 6, 8, &[])?;
    assert!(rt; refuses_a_write(&mut disk));
    Ok(())
}

// Files with a disk for each of the capacities, and with capacity for `opens` requested names.
fn files_with(alloc: Global, rooms: &[usize], opens: usize) -> Result<MemFiles, AllocError> {
    let mut disks = Vec::new(alloc);
    for room in rooms {
        disks.push(MemDisk::new(alloc, b"", *room, 9, 9, &[])?)?;
    }
    MemFiles::with_disks(alloc, disks, opens)
}

// A file's name, the bytes that it has when opened, and what is written at offset 0.
type Turn = (&'static str, &'static str, &'static str);

// Takes a turn of a disk, which fails if the disk does not have the bytes that it should.
fn take_turn(disk: &mut MemDisk, turn: &Turn) -> Result<(), Failed> {
    let (_name, found, piece) = *turn;
    if disk.bytes() != found.as_bytes() {
        return Err(Failed);
    }
    if piece.is_empty() {
        return Ok(());
    }
    disk.write_at(0, piece.as_bytes())
}

// Opens the turn's file, and takes the turn.
fn opened(files: &mut MemFiles, turn: &Turn) -> Result<MemDisk, Failed> {
    let mut disk = files.open(turn.0)?;
    take_turn(&mut disk, turn)?;
    Ok(disk)
}

const WRITTEN: [Turn; 3] = [
    ("edits", "", "one"),
    ("others", "", "two"),
    ("edits", "one", "more"),
];

fn are_written(files: &mut MemFiles, turns: &[Turn]) -> Result<(), Failed> {
    for turn in turns {
        let disk = opened(files, turn)?;
        files.close(disk);
    }
    Ok(())
}

// The same for files whose disks are closed by other files, so that each is empty when opened.
const LENT: [Turn; 3] = [
    ("edits", "", "one"),
    ("others", "", "two"),
    ("edits", "", "more"),
];

fn are_lent(lender: &mut MemFiles, keeper: &mut MemFiles, turns: &[Turn]) -> Result<(), Failed> {
    for turn in turns {
        keeper.close(opened(lender, turn)?);
    }
    Ok(())
}

const KEPT: [Turn; 3] = [
    ("others", "two", ""),
    ("edits", "more", ""),
    ("", "new", ""),
];

fn opens(files: &mut MemFiles) -> bool {
    files.open("edits").is_ok()
}

// Whether files keep what was closed, and open no more of them than there is capacity for.
fn are_kept(files: &mut MemFiles) -> Result<bool, Failed> {
    are_written(files, &WRITTEN)?;
    Ok(!opens(files) && !opens(files))
}

#[test]
fn files_keep_what_was_closed_last(rt: HostRuntime) -> Result<(), Fail> {
    let mut files = files_with(rt.alloc(), &[4, 4, 4, 2], 4)?;
    assert!(rt; are_kept(&mut files)? && !opens(&mut MemFiles::new()));
    Ok(())
}

// Lets one keep the disks of the other, and another disk.
fn are_kept_by(alloc: Global, lender: &mut MemFiles, keeper: &mut MemFiles) -> Result<(), Fail> {
    are_lent(lender, keeper, &LENT)?;
    keeper.close(MemDisk::new(alloc, b"new", 4, 0, 0, &[])?);
    Ok(are_written(keeper, &KEPT)?)
}

#[test]
fn files_keep_the_disks_of_other_files(rt: HostRuntime) -> Result<(), Fail> {
    let mut lender = files_with(rt.alloc(), &[4, 4, 4], 3)?;
    let mut keeper = files_with(rt.alloc(), &[4, 4, 4], 0)?;
    are_kept_by(rt.alloc(), &mut lender, &mut keeper)
}
