//! Queries over the rows of a library. `read` parses a query's text exactly by its grammar, or returns the offset from
//! which no query continues. `print` returns the shortest text of a query. `matches` is whether a row matches.
#![tactic(auto)]

mod globs;
pub mod laws;
mod levels;
mod limits;
mod matching;
mod parts;
mod printing;
mod reader;
mod reading;
mod searched;
mod steps;

pub use globs::is_glob;
pub use limits::{OPEN_PARENTHESES, QUERY_BYTES};
pub use matching::matches;
pub use printing::print;
pub use reading::read;
pub use searched::Searched;
pub use steps::Steps;
