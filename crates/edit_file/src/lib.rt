//! A file of accepted batches: what its bytes represent, and how it is opened and extended so that a crash at any
//! moment loses nothing that was acknowledged.
#![tactic(auto)]

mod adding;
mod appending;
mod file;
mod frame;
mod keeping;
pub mod laws;
mod making;
mod opening;
mod reading;
mod refusal;
mod safely;

pub use appending::AppendError;
pub use file::EditFile;
pub use frame::Frame;
pub use refusal::FileError;
