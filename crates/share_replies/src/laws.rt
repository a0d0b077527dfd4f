//! Laws of all replies. Each function has an empty body; its contract is a theorem about the definitions.

ghost use Rattle.share_replies.specs.Laws.{NoReplyIsAFailure, StoppedSharesRefuse, OthersAreForbidden, EntriesAreTheAskers, ReadersChangeNothing, HeldWantsAddNothing, SmallBodiesByTheByte};

/// No reply has the status 500, which is only for an allocation failure.
pub fn no_reply_is_a_failure()
    ensures { NoReplyIsAFailure }
{}

/// A stopped share replies 503 to every request.
pub fn a_stopped_share_refuses()
    ensures { StoppedSharesRefuse }
{}

/// A request that needs a session gets 403 if the session is not live.
pub fn others_are_forbidden()
    ensures { OthersAreForbidden }
{}

/// The entry of an answer has the number of the handle that asked.
pub fn an_entry_is_its_askers()
    ensures { EntriesAreTheAskers }
{}

/// Only edits and the stop change a share.
pub fn readers_change_nothing()
    ensures { ReadersChangeNothing }
{}

/// A pending update adds no entry.
pub fn a_held_want_adds_nothing()
    ensures { HeldWantsAddNothing }
{}

/// The small bodies have the bytes and the length that players expect.
pub fn small_bodies_by_the_byte()
    ensures { SmallBodiesByTheByte }
{}
