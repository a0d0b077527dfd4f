//! Disks in memory, for tests and for commands without a file.

mod closed;
pub mod disk;
pub mod files;
mod shelf;
mod stand;
