//! Laws of all runs of `edit` over a connection of a share. Each function has an empty body; its contract is a theorem.

ghost use Rattle.edit_meetings.specs.EditMeetings.{EditMeetsTheShare, EditTellsOfTheShare, EditsAreAllOrNothing, KeptEditsStay};

/// If `edit` succeeded, then the history of the share has the batch of its input, at the revision that it wrote, or the
/// input has no edits.
pub fn edits_meet_the_share()
    ensures { EditMeetsTheShare }
{}

/// However `edit` ends, for an edit or a stop: what it wrote of the share is true.
pub fn edits_tell_of_the_share()
    ensures { EditTellsOfTheShare }
{}

/// However it ends, also if the connection broke or an allocation failed: the answers on the connection added all of the
/// input's edits, in one batch, or none.
pub fn edits_are_all_or_nothing()
    ensures { EditsAreAllOrNothing }
{}

/// A batch that the share kept is among those of its revision and of each later one.
pub fn kept_edits_stay()
    ensures { KeptEditsStay }
{}
