//! Replies that state what is wrong with a request.

ghost use Rattle.std.specs.Prelude.{◌≡◌, IfOk};
ghost use Rattle.fault_lines.specs.Records.{records_line};
ghost use Rattle.share_replies.specs.Replies.{Line, fault_reply};
ghost use Rattle.share_core.specs.Contents.{IsContent};

use crate::answer::ReplyContent;
use crate::contents::{allowed, line, nothing};
use fault_lines::{parameter_line, query_line, records_line};
use records_import::RecordError;
use share_asks::AskError;
use std::alloc::{AllocError, Global};

/// Returns the reply to a malformed or unsupported request.
pub(crate) fn fault(alloc: Global, error: &AskError) -> Result<ReplyContent, AllocError>
    ensures { IfOk result (λ content. IsContent (fault_reply error.now) content) }
{
    match error {
        AskError::Path => Ok(nothing(404)),
        AskError::Method { allow } => Ok(allowed(*allow)),
        AskError::Parameter { name } => Ok(line(parameter_line(alloc, name.as_str())?)),
        AskError::Query { error } => Ok(line(query_line(alloc, error)?)),
    }
}

/// Returns the reply to an edit with malformed records: 400 and a line.
pub(crate) fn records(alloc: Global, error: &RecordError) -> Result<ReplyContent, AllocError>
    ensures { IfOk result (λ content. IsContent (400, Line (records_line error.now)) content) }
{
    Ok(line(records_line(alloc, error)?))
}
