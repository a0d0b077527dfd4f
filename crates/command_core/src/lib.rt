//! The form of a command's specification (`specs/Meanings.antt`), and how a run ends: it writes its output or the line
//! of an error, as the specification says (`specs/Endings.antt`). Commands that open a share read their input as one
//! batch (`specs/ReadRecords.antt`).
#![tactic(auto)]

mod fault;
mod outcome;
mod records;

pub use fault::{Fault, Refusal, read_fault};
pub use outcome::{Outcome, out_of_memory, write_error, write_output, write_result};
pub use records::{InputFault, read_records};
