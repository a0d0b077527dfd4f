//! The commands on tags: `check` counts them, `show` shows them as text and `show --back` reads that back, `codes`
//! writes the standard table of content codes and `codes --learn` the one that a reply states. Each has its
//! specification in a file of `specs/`, and its function meets it however the input is split into reads.
#![tactic(auto)]

mod check;
mod codes;
mod counting;
mod learn;
mod show;
mod show_back;
mod tags_fault;
mod tops;

pub use check::check_tags;
pub use codes::list_codes;
pub use learn::{LearnFault, learn_codes};
pub use show::show_tags;
pub use show_back::{TextFault, read_shown};
pub use tags_fault::TagsFault;
