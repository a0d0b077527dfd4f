//! Theorems about all connections. Each function has an empty body; its contract is the theorem.

ghost use Rattle.share_server.specs.Laws.{LaterEntriesChangeNothing, ServesInTurn, QuietTurnsServeNothing, ServedBytesAreReplies, SessionsAreLive, EndsStay, EndsAreDecided, NoneBeyondTheLimit, PlayersChangeNothing};

/// Later entries change nothing that was reported or written of requests.
pub fn later_entries_change_nothing()
    ensures { LaterEntriesChangeNothing }
{}

/// Requests that were served in two parts, one after the other, were all served.
pub fn serves_in_turn()
    ensures { ServesInTurn }
{}

/// A turn that adds nothing, as while an update is pending, serves nothing.
pub fn quiet_turns_serve_nothing()
    ensures { QuietTurnsServeNothing }
{}

/// Each reply that was written is the share's, at a length of its history.
pub fn served_bytes_are_replies()
    ensures { ServedBytesAreReplies }
{}

/// Each session that was answered was live before, or logged in by the request.
pub fn sessions_are_live()
    ensures { SessionsAreLive }
{}

/// An end inside the bytes of a connection is also an end if bytes or entries follow.
pub fn ends_stay()
    ensures { EndsStay }
{}

/// If no request closes the connection, its end is decided by input, limit and stop, unless something outside or an
/// allocation fails.
pub fn ends_are_decided()
    ensures { EndsAreDecided }
{}

/// No connection is served more requests than its limit.
pub fn none_beyond_the_limit()
    ensures { NoneBeyondTheLimit }
{}

/// The requests of players leave neither edits nor a stop in the history.
pub fn players_change_nothing()
    ensures { PlayersChangeNothing }
{}
