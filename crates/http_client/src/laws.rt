//! Laws of requests. The function has an empty body; its contract is a theorem.

ghost use Rattle.http_client.specs.Laws.{RequestsReadBack};

/// The text of a request reads as exactly this request.
pub fn requests_read_back()
    ensures { RequestsReadBack }
{}
