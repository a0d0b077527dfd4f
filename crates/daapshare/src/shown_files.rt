//! Files that say on standard error how far the opening of a long file has come.
ghost use Rattle.std.specs.Prelude.{◌≡◌};

use crate::lines::tell;
use outside_net::{Disk, Failed, Faulted, Files};
use std::alloc::Global;
use std::io::Eprint;
use std::time::{Clock, Duration};

/// Files whose disks write, once a second, how much of them was read.
#[derive(Drop)]
pub struct ShownFiles<'a, E, F> {
    rt: &'a E,
    alloc: Global,
    files: F,
    shows_progress: bool,
}

impl<'a, E, F: Files> ShownFiles<'a, E, F> {
    /// Returns the files; without `shows_progress` their disks write nothing.
    pub fn new(rt: &'a E, alloc: Global, files: F, shows_progress: bool) -> ShownFiles<'a, E, F> {
        ShownFiles {
            rt,
            alloc,
            files,
            shows_progress,
        }
    }

    /// Returns the files below.
    pub fn inner(&self) -> &F {
        &self.files
    }
}

impl<E, F: Files> Faulted for ShownFiles<'_, E, F> {
    ghost faults = { λ shown. F.faults shown.files };
}

impl<'a, E: Eprint + Clock, F: Files> Files for ShownFiles<'a, E, F> {
    type D = ShownDisk<'a, E, F::D>;

    ghost asked = { λ shown. F.asked shown.files };

    ghost contents = { λ shown. F.contents shown.files };

    fn open(&mut self, name: &str) -> Result<ShownDisk<'a, E, F::D>, Failed> {
        match self.files.open(name) {
            Ok(disk) => Ok(ShownDisk {
                rt: self.rt,
                alloc: self.alloc,
                disk,
                shows_progress: self.shows_progress,
                shown_at: self.rt.monotonic().unwrap_or(Duration::ZERO),
            }),
            Err(failed) => Err(failed),
        }
    }

    fn close(&mut self, disk: ShownDisk<'a, E, F::D>) {
        self.files.close(disk.disk);
    }
}

/// A disk that writes, once a second, how much of it was read.
#[derive(Drop)]
pub struct ShownDisk<'a, E, D> {
    rt: &'a E,
    alloc: Global,
    disk: D,
    shows_progress: bool,
    /// When the last line was written, or the time of the opening.
    shown_at: Duration,
}

impl<E: Eprint + Clock, D: Disk> ShownDisk<'_, E, D> {
    /// Writes up to which byte the disk was read, if the last such line is a second old.
    fn show_progress(&mut self, end: u64)
        ensures { self.new.disk ≡ self.old.disk }
    {
        if !self.shows_progress {
            return;
        }
        let now = self.rt.monotonic().unwrap_or(Duration::ZERO);
        if now.saturating_sub(self.shown_at) < Duration::from_secs(1) {
            return;
        }
        self.shown_at = now;
        let kilobytes = end / 1024;
        if let Ok(words) = format!(in self.alloc; "{kilobytes} KiB of the edit file read") {
            tell(self.rt, self.alloc, words.as_str());
        }
    }
}

impl<E, D: Disk> Faulted for ShownDisk<'_, E, D> {
    ghost faults = { λ shown. D.faults shown.disk };
}

impl<E: Eprint + Clock, D: Disk> Disk for ShownDisk<'_, E, D> {
    ghost bytes = { λ shown. D.bytes shown.disk };

    ghost opened_as = { λ shown. D.opened_as shown.disk };

    ghost images = { λ shown. D.images shown.disk };

    ghost clock = { λ shown. D.clock shown.disk };

    ghost since = { λ shown. D.since shown.disk };

    fn len(&mut self) -> Result<u64, Failed> {
        self.disk.len()
    }

    fn read_at(&mut self, at: u64, room: &mut [u8]) -> Result<usize, Failed> {
        let n = self.disk.read_at(at, room)?;
        self.show_progress(at.saturating_add(n as u64));
        Ok(n)
    }

    fn write_at(&mut self, at: u64, piece: &[u8]) -> Result<(), Failed> {
        self.disk.write_at(at, piece)
    }

    fn cut(&mut self, len: u64) -> Result<(), Failed> {
        self.disk.cut(len)
    }

    fn sync(&mut self) -> Result<(), Failed> {
        self.disk.sync()
    }

    ghost bytes_count = { λ shown told is. D.bytes_count shown.disk told is };

    ghost images_are_short = { λ shown image is. D.images_are_short shown.disk image is };

    ghost now_counts = { λ shown time image within is. D.now_counts shown.disk time image within is };

    ghost now_alone = { λ shown image is. D.now_alone shown.disk image is };
}
