//! A share: settings and history decide its answer to a request, and the entry that the answer appends. No request
//! walks the history: stores of items and of lists, an index and counts represent it.
#![tactic(auto)]

mod answer;
mod browse;
mod changes;
mod containers;
mod contents;
mod faults;
pub mod laws;
mod listings;
mod replies;
mod settings;
mod share;
mod small;
mod stores;
mod tags;
mod texts;
mod whole;

pub use answer::{Answer, Reply, ReplyContent};
pub use settings::Settings;
pub use share::{OpenError, Share};
