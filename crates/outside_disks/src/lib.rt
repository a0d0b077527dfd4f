//! Disks that keep bytes over a crash, and the error counter of each object of the outside. Contracts may know a
//! disk's bytes, and what a crash at any moment may leave of them.
#![tactic(auto)]

mod disk;
mod faulted;
mod file;
mod files;
mod memory;

pub use disk::Disk;
pub use faulted::{Failed, Faulted, counted};
pub use file::{FileDisk, SystemFiles};
pub use files::Files;
pub use memory::disk::{DiskCall, DiskOp, MemDisk};
pub use memory::files::MemFiles;
