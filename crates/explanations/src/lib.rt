//! Explains in words why a run of the program failed. An explanation is one text of some lines, which the program
//! writes to standard error. Each is found by the functions by which the run found the error, in the input that the run
//! read. No text of an input or of an argument brings control characters into an explanation.
#![tactic(auto)]

mod limits;
mod names;
mod numbered;
mod peers;
mod queries;
mod question;
mod quoting;
mod ran;
mod reasons;
mod records;
mod tags;

pub use names::{meta_warnings, query_warnings, rule_warnings};
pub use question::{VERSION, about, is_question};
pub use quoting::printable;
pub use ran::Run;
pub use reasons::explanation;
