//! Tags as text that people read: a line per tag, two spaces per level (`specs/Shown.antt`).
#![tactic(auto)]

mod adding;
mod draft;
pub mod laws;
mod lines;
mod pieces;
mod reading;
mod row;
mod spelled;
mod values;

pub use lines::{show, show_code, show_event};
pub use reading::{ShowError, read_show};
