//! The commands that write tags as JSON, a line for each top-level tag, and read such lines back. Each has its
//! specification in a file of `specs/`, and its function ends as that says, however the input is chunked.
#![tactic(auto)]

mod json;
mod json_back;
mod lines;
mod whole;

pub use json::write_json;
pub use json_back::{LineFault, read_json};
