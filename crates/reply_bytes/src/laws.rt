//! Laws of all replies. Each function has an empty body; its contract is a theorem about the definitions.

ghost use Rattle.reply_bytes.specs.Laws.{RepliesHaveReasons, RefusalsHaveReasons, EmptyRepliesAreEmpty, RepliesByTheByte};

/// Each status of a share's reply has a reason phrase (RFC 9110, section 15).
pub fn replies_have_reasons()
    ensures { RepliesHaveReasons }
{}

/// So has each status for bytes that are not a request.
pub fn refusals_have_reasons()
    ensures { RefusalsHaveReasons }
{}

/// A reply whose head states no length has no body.
pub fn empty_replies_are_empty()
    ensures { EmptyRepliesAreEmpty }
{}

/// The bytes of three replies: for a method that is not allowed, a refused query and an allocation failure.
pub fn replies_by_the_byte()
    ensures { RepliesByTheByte }
{}
