//! Laws of messages, for all bytes. Each function has an empty body; its contract is a theorem.

ghost use Rattle.http_heads.specs.Laws.{FramesArePrefixFree, SplitsAreOne, RefusedFrontsAreOne, RefusalsStay, RefusedIsNoMessage, AllBytesSplit};

/// No framed head is a prefix of another, so bytes end their head in at most one way.
pub fn frames_are_prefix_free()
    ensures { FramesArePrefixFree }
{}

/// Bytes split into messages and a rest in one way.
pub fn splits_are_one()
    ensures { SplitsAreOne }
{}

/// Bytes have at most one refusal, at one byte.
pub fn refused_fronts_are_one()
    ensures { RefusedFrontsAreOne }
{}

/// A refusal stays, whatever bytes follow.
pub fn refusals_stay()
    ensures { RefusalsStay }
{}

/// Refused bytes do not begin with a message.
pub fn refused_is_no_message()
    ensures { RefusedIsNoMessage }
{}

/// All bytes split into messages and a rest, refused or not.
pub fn all_bytes_split()
    ensures { AllBytesSplit }
{}
