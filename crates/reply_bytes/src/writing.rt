//! Writing replies.

ghost use Rattle.std.specs.Prelude.{◌≡◌, ◌++◌, Err, OnOk, OnErr};
ghost use Rattle.outside_net.specs.Counts.{CountsFaults, Rose};
ghost use Rattle.http_front.specs.ReplyHeads.{HasReason};
ghost use Rattle.listing_plan.specs.Plans.{IsWritable, plan_bytes};
ghost use Rattle.reply_bytes.specs.ReplyBytes.{with_head, status_of, failure_bytes, refusal_bytes};
ghost use Rattle.reply_bytes.specs.Taking.{TakesAll, TakesPrefix};

use http_front::{failure_head, reply_head};
use http_heads::HeadError;
use listing_plan::Plan;
use outside_net::{Failed, Sink, put_all};
use share_asks::BodyForm;
use std::alloc::{AllocError, Global};
use thiserror::Error;

/// Why a reply was not written.
#[derive(Debug, Drop, Error)]
pub enum ReplyError {
    /// The sink failed; it took a prefix of the reply.
    #[error("write failed")]
    Failed,
    /// Allocating the head failed; nothing was written.
    #[error("out of memory")]
    Memory,
}

impl From<AllocError> for ReplyError {
    ghost use Rattle.reply_bytes.specs.declared.writing.ReplyError.TheVariants.{Memory};

    ghost from_gives = { λ _ e. e ≡ Memory };

    fn from(_error: AllocError) -> ReplyError {
        ReplyError::Memory
    }
}

impl From<Failed> for ReplyError {
    ghost use Rattle.reply_bytes.specs.declared.writing.ReplyError.TheVariants.{Failed};

    ghost from_gives = { λ _ e. e ≡ Failed };

    fn from(_error: Failed) -> ReplyError {
        ReplyError::Failed
    }
}

/// Writes a reply with the body of a plan. `last` says that the connection closes after it.
/// Returns `Failed` if the sink fails, and `Memory` if allocation fails.
pub fn write_reply<W: Sink>(
    alloc: Global,
    status: u16,
    form: BodyForm,
    body: &Plan,
    last: bool,
    sink: &mut W,
) -> Result<(), ReplyError>
    requires reason { HasReason status }
    requires writable { IsWritable body.now }
    ensures written { OnOk result (TakesAll W.Sink sink.old sink.new
        (with_head status form (plan_bytes body.now) last)) }
    ensures part { result ≡ Err ReplyError.Failed → TakesPrefix W.Sink sink.old sink.new
        (with_head status form (plan_bytes body.now) last) }
    ensures unchanged { result ≡ Err ReplyError.Memory → sink.new ≡ sink.old }
    ensures count { OnOk result (W.faults sink.new ≡ W.faults sink.old) }
    ensures failed { result ≡ Err ReplyError.Failed → Rose (W.faults sink.old) (W.faults sink.new) }
    ensures beside { W.beside_taken sink.new ≡ W.beside_taken sink.old }
{
    let head = reply_head(alloc, status, form, body.body_len(), last)?;
    match write_both(head.as_slice(), body, sink) {
        Ok(()) => Ok(()),
        Err(Failed) => Err(ReplyError::Failed),
    }
}

/// Writes the reply to a request whose answer could not be allocated. Does not allocate.
/// Returns `Failed` if the sink fails.
pub fn write_failure<W: Sink>(last: bool, sink: &mut W) -> Result<(), Failed>
    ensures written { OnOk result (TakesAll W.Sink sink.old sink.new (failure_bytes last)) }
    ensures part { OnErr result (TakesPrefix W.Sink sink.old sink.new (failure_bytes last)) }
    ensures count { CountsFaults (W.faults sink.old) (W.faults sink.new) result }
    ensures beside { W.beside_taken sink.new ≡ W.beside_taken sink.old }
{
    put_all(sink, failure_head(last).as_bytes())
}

/// Writes the reply to bytes that are not a request, after which the connection closes.
/// Returns `Failed` if the sink fails, and `Memory` if allocation fails.
pub fn write_refusal<W: Sink>(
    alloc: Global,
    error: &HeadError,
    sink: &mut W,
) -> Result<(), ReplyError>
    ensures written { OnOk result (TakesAll W.Sink sink.old sink.new (refusal_bytes error.now)) }
    ensures part { result ≡ Err ReplyError.Failed
        → TakesPrefix W.Sink sink.old sink.new (refusal_bytes error.now) }
    ensures unchanged { result ≡ Err ReplyError.Memory → sink.new ≡ sink.old }
    ensures count { OnOk result (W.faults sink.new ≡ W.faults sink.old) }
    ensures failed { result ≡ Err ReplyError.Failed → Rose (W.faults sink.old) (W.faults sink.new) }
    ensures beside { W.beside_taken sink.new ≡ W.beside_taken sink.old }
{
    write_reply(
        alloc,
        status_of(error),
        BodyForm::NoBody,
        &Plan::Empty,
        true,
        sink,
    )
}

/// Returns the status for bytes that are not a request.
pub fn status_of(error: &HeadError) -> u16
    ensures status { result ≡ status_of error.now }
    ensures reason { HasReason result }
{
    match error {
        HeadError::Head | HeadError::Length => 400,
        HeadError::BodyTooLarge => 413,
        HeadError::HeadTooLarge => 431,
        HeadError::Memory => 500,
    }
}

// Writes the two parts of a reply, one after the other.
fn write_both<W: Sink>(head: &[u8], body: &Plan, sink: &mut W) -> Result<(), Failed>
    requires { IsWritable body.now }
    ensures written { OnOk result (TakesAll W.Sink sink.old sink.new
        (head.now ++ plan_bytes body.now)) }
    ensures part { OnErr result (TakesPrefix W.Sink sink.old sink.new
        (head.now ++ plan_bytes body.now)) }
    ensures count { CountsFaults (W.faults sink.old) (W.faults sink.new) result }
    ensures beside { W.beside_taken sink.new ≡ W.beside_taken sink.old }
{
    put_all(sink, head)?;
    body.write(sink)
}
