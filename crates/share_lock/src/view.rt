//! What a handle knows of the table. These values exist only in proofs.
use std::collections::LinkedList;

/// What a handle had seen, and its numbers.
pub struct Part<E> {
    pub seen: LinkedList<E>,
    pub numbers: LinkedList<u64>,
}

/// What a handle knows.
pub struct View<E, T> {
    pub settings: T,
    /// The number of handles that the lock was opened for; 0 if the handle was joined to another.
    pub passes: u64,
    /// The ticket that it drew for a turn.
    pub ticket: Option<u64>,
    /// Whether its turn is in progress.
    pub inside: bool,
    pub number: Option<u64>,
    /// The numbers of the handles that were joined to it.
    pub taken: LinkedList<u64>,
    /// The numbers of the handle that it was split from.
    pub avoid: LinkedList<u64>,
    pub seen: LinkedList<E>,
    /// The lengths of the history at the ends of its turns.
    pub looks: LinkedList<u64>,
    /// The history, during its turn.
    pub noted: LinkedList<E>,
    /// The two handles of the last join, until the next turn.
    pub one: Part<E>,
    pub two: Part<E>,
}
