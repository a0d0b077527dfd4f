//! Theorems about all relays. Each function has an empty body; its contract is the theorem.

ghost use Rattle.relay_share.specs.Laws.{LibrariesAreTheShares, RelaysLeaveSteps, RelaysMakeSteps, RelaysShowWhatTheyRead, SharesMakeSteps, StoppedRelaysSawAStop, StopsComeLast};

/// The entries of a relay's handle are the steps between the libraries that its listings left.
pub fn relays_make_steps()
    ensures { RelaysMakeSteps }
{}

/// They are followed by a stop of the handle, unless another handle stopped the share.
pub fn stops_come_last()
    ensures { StopsComeLast }
{}

/// However a relay ended, its entries are these steps and then the stop.
pub fn relays_leave_steps()
    ensures { RelaysLeaveSteps }
{}

/// A relay that ended `Stopped` saw a stop that another handle made.
pub fn stopped_relays_saw_a_stop()
    ensures { StoppedRelaysSawAStop }
{}

/// If only the relay edits its share, the share's batches are these steps.
pub fn shares_make_steps()
    ensures { SharesMakeSteps }
{}

/// If only the relay edits its share, the share's library is at each history length one that the relay read, or the
/// empty one. At a later length it is that one, or one that the relay read later.
pub fn relays_show_what_they_read()
    ensures { RelaysShowWhatTheyRead }
{}

/// The libraries that a relay read from a share are the libraries that the share had.
pub fn libraries_are_the_shares()
    ensures { LibrariesAreTheShares }
{}
