//! Reads the arguments of the command line: they are a command if `clap`'s definition of that command accepts them.
//! Contracts see a command line as a list of texts, and its command by `specs/Words.antt`. Each command has a file in
//! `src/` and one in `specs/`.
#![tactic(auto)]

mod check;
mod codes;
mod command;
mod edit;
mod explaining;
mod follow;
mod grammar;
mod json;
mod list;
mod numbers;
mod rehearse;
mod relay;
mod replay;
mod serve;
mod show;
mod texts;
mod usage;

pub use codes::CodesWords;
pub use command::{Command, LocalCommand, NetCommand, WordsError, read_words};
pub use edit::EditWords;
pub use explaining::words_fault;
pub use follow::FollowWords;
pub use json::JsonWords;
pub use list::ListWords;
pub use numbers::number_word;
pub use rehearse::RehearseWords;
pub use relay::RelayWords;
pub use replay::ReplayWords;
pub use serve::ServeWords;
pub use show::ShowWords;
pub use usage::usage_text;
