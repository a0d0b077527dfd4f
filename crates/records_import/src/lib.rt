//! Batches of edits as comma separated text: each row is an edit, and a batch is read whole or not at all.
#![tactic(auto)]

mod action;
mod batch;
mod header;
pub mod laws;
mod number;
mod record;
mod refusal;
mod rule;
mod table;
mod table_text;
mod values;
mod writing;

pub use batch::{MOST_RECORDS, read_batch};
pub use number::read_number;
pub use refusal::RecordError;
pub use table::{cell, rows_of, width};
pub use table_text::{table_writer, write_row, write_rows, written_text};
pub use writing::write_batch;
