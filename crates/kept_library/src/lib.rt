//! Opens a share together with the file that keeps its edits, and closes that file's disk.
#![tactic(auto)]

mod closing;
mod fault;
mod opening;

pub use closing::close_file;
pub use fault::FileFault;
pub use opening::{KeptLibrary, open_library};
