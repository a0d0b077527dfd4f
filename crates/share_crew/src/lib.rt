//! The workers of a share that is under its lock. There is one for each listener. All serve to their ends, concurrently
//! with a partner; then their lock handles are joined, their listeners closed, and one history has what they served.
#![tactic(auto)]

mod beside;
mod gathering;
mod hiring;
mod lines;
mod listeners;
mod opening;
mod outcome;
mod partner;
mod verdict;

pub use beside::{run_with_editor, run_with_partner, run_workers};
pub use gathering::{Gathered, gather, share_of};
pub use hiring::add_workers;
pub use lines::ended_line_of;
pub use listeners::close_all;
pub use opening::{LockedShare, WorkerBuffers, write_and_lock};
pub use outcome::{LinkReports, Outcome};
pub use partner::Partner;
pub use verdict::{Verdict, verdict_of};
