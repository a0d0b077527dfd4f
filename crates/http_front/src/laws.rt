//! Laws of readings. Each function has an empty body; its contract is a theorem.

ghost use Rattle.http_front.specs.Laws.{ReadingsAreOne, FirstAsksStay, RefusalsStay, JoinedRequestsRead, NothingReads, AllBytesRead};

/// Bytes have at most one reading.
pub fn readings_are_one()
    ensures { ReadingsAreOne }
{}

/// The requests of a prefix are the first requests of all bytes.
pub fn first_asks_stay()
    ensures { FirstAsksStay }
{}

/// A refusal stays, whatever bytes follow.
pub fn refusals_stay()
    ensures { RefusalsStay }
{}

/// Requests one after another read as exactly these requests.
pub fn joined_requests_read()
    ensures { JoinedRequestsRead }
{}

/// The empty bytes read as no requests.
pub fn nothing_reads()
    ensures { NothingReads }
{}

/// All bytes have a reading, so the reading of bytes is a function.
pub fn all_bytes_read()
    ensures { AllBytesRead }
{}
