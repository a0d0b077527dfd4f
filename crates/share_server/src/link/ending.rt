//! Ends of a connection that cannot continue.

ghost use Rattle.std.specs.Prelude.{◌≡◌, ◌≢◌, false};
ghost use Rattle.share_server.specs.Losses.{is_loss};
ghost use Rattle.share_server.specs.Serving.{CountsEnd};
ghost use Rattle.share_server.specs.Written.{Got500, IsRefused};

use crate::report::LinkEnd;
use http_heads::HeadError;
use outside_net::{Failed, Link};
use reply_bytes::{ReplyError, status_of, write_failure, write_refusal};
use std::alloc::Global;

/// Ends a connection after a failed allocation, and writes the 500. Does not allocate.
pub(crate) fn end_out_of_memory<K: Link>(link: &mut K) -> LinkEnd
    ensures told { Got500 (K.taken link.old) (K.taken link.new) result }
    ensures beside { K.beside_taken link.new ≡ K.beside_taken link.old }
    ensures count { CountsEnd (K.faults link.old) (K.faults link.new) result }
    ensures goes_on { is_loss result ≡ false }
{
    match write_failure(true, link) {
        Ok(()) => LinkEnd::Memory,
        Err(Failed) => LinkEnd::LinkFault,
    }
}

/// Ends a connection whose bytes made the reader return `error`.
pub(crate) fn end_on_head_error<K: Link>(alloc: Global, link: &mut K, error: HeadError) -> LinkEnd
    ensures memory { error ≡ HeadError.Memory
        → Got500 (K.taken link.old) (K.taken link.new) result }
    ensures refused { error ≢ HeadError.Memory
        → IsRefused error (K.taken link.old) (K.taken link.new) result }
    ensures beside { K.beside_taken link.new ≡ K.beside_taken link.old }
    ensures count { CountsEnd (K.faults link.old) (K.faults link.new) result }
    ensures goes_on { is_loss result ≡ false }
{
    match error {
        HeadError::Memory => end_out_of_memory(link),
        HeadError::Head | HeadError::Length | HeadError::BodyTooLarge | HeadError::HeadTooLarge => {
            end_with_refusal(alloc, link, &error)
        }
    }
}

// Writes the refusal: the bytes cannot be continued to a request.
fn end_with_refusal<K: Link>(alloc: Global, link: &mut K, error: &HeadError) -> LinkEnd
    ensures refused { IsRefused error.now (K.taken link.old) (K.taken link.new) result }
    ensures beside { K.beside_taken link.new ≡ K.beside_taken link.old }
    ensures count { CountsEnd (K.faults link.old) (K.faults link.new) result }
    ensures goes_on { is_loss result ≡ false }
{
    match write_refusal(alloc, error, link) {
        Ok(()) => LinkEnd::Refused {
            status: status_of(error),
        },
        Err(ReplyError::Failed) => LinkEnd::LinkFault,
        Err(ReplyError::Memory) => end_out_of_memory(link),
    }
}
