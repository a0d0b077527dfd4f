//! Laws about where tags and their text are malformed: the first malformed tag of bytes, by a definition
//! for each place (`specs/Faults.antt`), and the one line at which a text stops being shown tags. The crate has no code that runs.
#![tactic(auto)]

pub mod laws;
