//! Values under keys, at each stored revision. Under each key a contract sees the versions of its value, newest
//! first. A look-up at a revision finds the newest version that is not later.
#![tactic(auto)]

mod by_key;
mod numbers;
mod older;
mod steps;
mod version;
mod versions;
mod walks;

pub use version::Version;
pub use versions::Versions;
pub use walks::next_key;
