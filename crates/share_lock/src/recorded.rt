//! What a lock needs of a state: a history, and settings that never change.
ghost use Rattle.std.specs.Prelude.{◌≡◌, ℕ, List, length};

/// A state that a lock can hold.
pub trait Recorded {
    type Entry;

    type Settings;

    /// The history, oldest entry first.
    ghost entries: { Self → List Self.Entry };

    /// The number of the handle that made an entry.
    ghost by: { Self.Entry → ℕ };

    /// What no turn changes.
    ghost settings: { Self → Self.Settings };

    /// Any settings: proofs use them for a handle that was joined to another.
    ghost unset: { Self.Settings };

    /// Returns the length of the history.
    fn recorded(&self) -> u64
        ensures { result ≡ length (entries self.now) };
}
