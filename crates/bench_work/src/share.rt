//! A share that gets the same request over and over, after a history of any length.

mod asking;
mod wants;

pub use crate::share::asking::{Load, body_bytes};
pub use crate::share::wants::Step;

/// The steps by their names.
pub const STEPS: [(&str, Step); 8] = [
    ("edit", Step::Edit),
    ("login", Step::Login),
    ("update", Step::Update),
    ("delta", Step::Delta),
    ("changes", Step::Changes),
    ("query", Step::Query),
    ("full", Step::Full),
    ("tenth", Step::Tenth),
];

/// Returns the step with this name.
pub fn step_named(word: &str) -> Option<Step> {
    for (name, step) in &STEPS {
        if *name == word {
            return Some(*step);
        }
    }
    None
}
