//! The state, as a turn lends it.
ghost use Rattle.std.specs.Prelude.{◌≡◌};
ghost use Rattle.std.specs.Borrow.{sem};
ghost use Rattle.share_lock.specs.Lent.{LendsState};

use crate::pass::Turn;
use crate::recorded::Recorded;

impl<S: Recorded> Turn<'_, S> {
    /// Returns the state. `give` returns what was written to it.
    pub fn state(&mut self) -> &mut S
        ensures* lent { sem 𝓛 (LendsState S.row S.Entry.row S.Settings.row ⟦<S as Recorded>⟧
            self.entry result) }
        ensures value { result.now ≡ self.old.state }
    {
        &mut self.state
    }
}
