//! The line of a malformed query.

ghost use Rattle.std.specs.Prelude.{◌≡◌, ◌++◌, IfOk, OnOk};
ghost use Rattle.fault_lines.specs.Queries.{query_reason, query_text, query_line};

use crate::numbers::push_number;
use item_model::{QueryError, QueryWhy};
use std::alloc::{AllocError, Global};

/// Returns the line of an error of a query's text, with the offset in bytes.
pub fn query_line(alloc: Global, error: &QueryError) -> Result<Vec<u8>, AllocError>
    ensures text { IfOk result (λ line. line.items ≡ query_line error.now) }
{
    let mut line = Vec::new(alloc);
    push_query(&mut line, error)?;
    line.push(b'\n')?;
    Ok(line)
}

/// Appends the line without its end.
pub fn push_query(line: &mut Vec<u8>, error: &QueryError) -> Result<(), AllocError>
    ensures text { OnOk result (line.new.items ≡ line.old.items ++ query_text error.now) }
{
    match error {
        QueryError::TooLong => line.extend_from_slice(b"query: too long"),
        QueryError::TooDeep { place } => push_number(line, b"query: too deep at ", *place),
        QueryError::At { place, why } => {
            push_number(line, b"query: at ", *place)?;
            line.extend_from_slice(reason_of(*why))
        }
        QueryError::Memory => line.extend_from_slice(b"memory"),
    }
}

fn reason_of(why: QueryWhy) -> &'static [u8]
    ensures { result.now ≡ query_reason why }
{
    match why {
        QueryWhy::End => b" end",
        QueryWhy::Byte => b" byte",
    }
}
