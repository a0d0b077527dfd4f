//! A disk that is a file of the system: the edge, whose std contracts are trusted.
ghost use Rattle.std.specs.Prelude.{◌≡◌, ◌⊎◌, IfOk, None};
ghost use Rattle.outside_disks.specs.Counts.{Rose};

use crate::disk::Disk;
use crate::faulted::{Failed, Faulted, counted};
use crate::files::Files;
use std::alloc::Alloc;
use std::fs::{File, OpenOptions, TryLockError};
use std::os::unix::fs::FileExt;
use std::path::Path;
use std::{fs, io};

// The first length that no file has.
const LEN_LIMIT: u64 = 1 << 63;

/// A file of the system, whose bytes are unknown to contracts. Each of the system's errors is counted, except calls
/// that a signal interrupts: they begin again.
///
/// What a power cut leaves depends on the system and on the device below it.
#[derive(Drop)]
pub struct FileDisk {
    file: File,
    // The system's last error.
    cause: Option<io::Error>,
    faults: u64,
}

impl FileDisk {
    /// Opens the file at a path for reading and writing. Creates a missing file, and makes its name safe in its
    /// folder. Locks the file against other programs that lock it, for as long as it is open.
    ///
    /// # Errors
    ///
    /// Returns the system's error, and one of its own if it is not a regular file, or another program has locked it.
    pub fn open<R: fs::Files<File = File> + Alloc>(rt: &R, path: &str) -> io::Result<FileDisk>
        ensures faults { IfOk result (λ disk. ⟦<FileDisk as Faulted>⟧.faults disk ≡ 0) }
    {
        let mut options = OpenOptions::new();
        options.read(true).write(true).create(true);
        let file = options.open(rt, path)?;
        own(&file)?;
        sync_name(rt, path)?;
        Ok(FileDisk {
            file,
            cause: None,
            faults: 0,
        })
    }

    // Counts an error, and keeps it.
    fn fail(&mut self, error: io::Error) -> Failed
        ensures { Rose self.old.faults self.new.faults }
    {
        self.cause = Some(error);
        counted(&mut self.faults)
    }
}

// Locks a file, if it is a regular one. The lock ends when the file is closed, also by the end of the program. A file
// system without locks leaves it unlocked.
fn own(file: &File) -> io::Result<()> {
    if !file.metadata()?.is_file() {
        return Err(io::Error::new(io::ErrorKind::InvalidInput, "it is not a regular file"));
    }
    match file.try_lock() {
        Err(TryLockError::WouldBlock) => Err(io::Error::new(
            io::ErrorKind::ResourceBusy,
            "another program has it open, as a share that runs",
        )),
        _ => Ok(()),
    }
}

// Makes the name of the file at a path safe from a crash. A symbolic link leads to it first.
fn sync_name<R: fs::Files<File = File> + Alloc>(rt: &R, path: &str) -> io::Result<()> {
    if !fs::symlink_metadata(rt, path)?.is_symlink() {
        return sync_folder(rt, path);
    }
    let target = fs::canonicalize(rt, path)?;
    sync_folder(rt, target.as_str())
}

// Makes the names in the folder of a path safe from a crash.
fn sync_folder<R: fs::Files<File = File>>(rt: &R, path: &str) -> io::Result<()> {
    match Path::new(path).parent() {
        Some(folder) if !folder.as_str().is_empty() => File::open(rt, folder)?.sync_all(),
        _ => File::open(rt, ".")?.sync_all(),
    }
}

// Returns the length, if the system reports one that a file can have.
fn len_of(file: &File) -> io::Result<u64> {
    Ok(file.metadata()?.len())
}

impl Faulted for FileDisk {
    ghost faults = { λ disk. disk.faults };
}

impl Disk for FileDisk {
    ghost use Rattle.std.proofs.lemmas.Option.{none-some};

    ghost bytes = { λ _. None };

    ghost opened_as = { λ _. None };

    ghost images = { λ _ _. ⊥ };

    ghost clock = { λ _. 0 };

    ghost since = { λ _ _ _. ⊥ };

    fn len(&mut self) -> Result<u64, Failed> {
        match len_of(&self.file) {
            Ok(len) if len < LEN_LIMIT => Ok(len),
            Ok(_) => Err(counted(&mut self.faults)),
            Err(error) => Err(self.fail(error)),
        }
    }

    fn read_at(&mut self, at: u64, room: &mut [u8]) -> Result<usize, Failed> {
        if at >= LEN_LIMIT {
            return Ok(0);
        }
        for _ in 0..u64::MAX {
            match self.file.read_at(room, at) {
                Ok(n) => return Ok(n),
                Err(error) if error.kind() == io::ErrorKind::Interrupted => {}
                Err(error) => return Err(self.fail(error)),
            }
        }
        Err(counted(&mut self.faults))
    }

    fn write_at(&mut self, at: u64, piece: &[u8]) -> Result<(), Failed> {
        let is_near = at < LEN_LIMIT && piece.len() as u64 <= LEN_LIMIT - 1 - at;
        if !is_near {
            return Err(self.fail(io::Error::from(io::ErrorKind::FileTooLarge)));
        }
        match self.file.write_all_at(piece, at) {
            Ok(()) => Ok(()),
            Err(error) => Err(self.fail(error)),
        }
    }

    fn cut(&mut self, len: u64) -> Result<(), Failed> {
        match self.file.set_len(len) {
            Ok(()) => Ok(()),
            Err(error) => Err(self.fail(error)),
        }
    }

    fn sync(&mut self) -> Result<(), Failed> {
        match self.file.sync_all() {
            Ok(()) => Ok(()),
            Err(error) => Err(self.fail(error)),
        }
    }

    ghost bytes_count = { λ disk told is. absurd (none-some told is) };

    ghost images_are_short = { λ disk image is. absurd is };

    ghost now_counts = { λ disk time image within is. is };

    ghost now_alone = { λ disk image is. is };
}

/// The files of the system, by their paths. Their bytes are unknown to contracts.
#[derive(Drop)]
pub struct SystemFiles<R> {
    rt: R,
    cause: Option<io::Error>,
    faults: u64,
}

impl<R> SystemFiles<R> {
    /// Returns the files of the system. The error counter is 0.
    pub fn new(rt: R) -> SystemFiles<R>
        ensures faults { ⟦<SystemFiles<R> as Faulted>⟧.faults result ≡ 0 }
    {
        SystemFiles {
            rt,
            cause: None,
            faults: 0,
        }
    }

    /// Returns the system's last error at the opening of a file, or on a file that was closed here since.
    pub fn cause(&self) -> Option<&io::Error> {
        self.cause.as_ref()
    }
}

impl<R> Faulted for SystemFiles<R> {
    ghost faults = { λ files. files.faults };
}

impl<R: fs::Files<File = File> + Alloc> Files for SystemFiles<R> {
    type D = FileDisk;

    ghost asked = { λ _. None };

    ghost contents = { λ _. None };

    fn open(&mut self, name: &str) -> Result<FileDisk, Failed> {
        match FileDisk::open(&self.rt, name) {
            Ok(disk) => Ok(disk),
            Err(error) => {
                self.cause = Some(error);
                Err(counted(&mut self.faults))
            }
        }
    }

    fn close(&mut self, disk: FileDisk) {
        if disk.faults > 0 {
            self.cause = disk.cause;
            counted(&mut self.faults);
        }
    }
}
