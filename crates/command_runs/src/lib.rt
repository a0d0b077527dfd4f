//! Runs any command of the program. `run` ends as the specification of its arguments' command says
//! (`specs/Table.antt`), over any input, output, files and network.
#![tactic(auto)]

mod dispatch;
pub mod laws;
mod local;
mod outcome;
mod over_net;
mod usage;

pub use dispatch::run;
pub use outcome::Outcome;
pub use usage::UsageFault;
