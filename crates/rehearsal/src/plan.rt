//! The plan of a rehearsal.

/// A rehearsal: the number that starts the generator, the number of batches, the edits in each, and the length of the
/// share's delta window in revisions.
#[derive(Clone, Copy)]
pub struct Rehearsal {
    pub number: u32,
    pub batches: u32,
    pub size: u32,
    pub keep: u32,
}
