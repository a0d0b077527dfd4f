//! Writes one reply.

ghost use Rattle.std.specs.Prelude.{◌≡◌, Some, false, is_some};
ghost use Rattle.http_front.specs.ReplyHeads.{HasReason};
ghost use Rattle.listing_plan.specs.Plans.{IsWritable, plan_bytes};
ghost use Rattle.reply_bytes.specs.ReplyBytes.{with_head, failure_bytes};
ghost use Rattle.share_server.specs.Losses.{is_loss, is_loss_if};
ghost use Rattle.share_server.specs.Serving.{CountsEnd};
ghost use Rattle.share_server.specs.Written.{WasWritten, IsWritableReply, said_bytes, CountsMaybe, IsNoError};

use crate::link::ending::end_out_of_memory;
use crate::report::LinkEnd;
use listing_plan::Plan;
use outside_net::{Failed, Link};
use reply_bytes::{ReplyError, write_failure, write_reply};
use share_asks::BodyForm;
use share_core::ReplyContent;
use std::alloc::Global;

/// Writes the reply to a request; `added` says whether the request added an entry. The connection ends with `due`
/// after the reply, if given, and the head says so. Returns the end, if the connection ends.
pub(crate) fn reply<K: Link>(
    alloc: Global,
    link: &mut K,
    said: Option<ReplyContent>,
    added: bool,
    due: Option<LinkEnd>,
) -> Option<LinkEnd>
    requires writable { IsWritableReply said }
    requires no_error { IsNoError due }
    requires goes_on { is_loss_if due ≡ false }
    ensures written { WasWritten (said_bytes said (is_some due)) added due
        (K.taken link.old) (K.taken link.new) result }
    ensures beside { K.beside_taken link.new ≡ K.beside_taken link.old }
    ensures count { CountsMaybe (K.faults link.old) (K.faults link.new) result }
    ensures goes_on { is_loss_if result ≡ false }
{
    match said {
        None => write_500(link, due),
        Some(ReplyContent { status, form, plan }) => {
            let end = write_plan(alloc, link, status, form, &plan, added, due);
            // A call drops the plan, so that the end of this function drops nothing.
            drop(plan);
            end
        }
    }
}

fn write_500<K: Link>(link: &mut K, due: Option<LinkEnd>) -> Option<LinkEnd>
    requires no_error { IsNoError due }
    requires goes_on { is_loss_if due ≡ false }
    ensures written { (added : _)
        → WasWritten (failure_bytes (is_some due)) added due (K.taken link.old) (K.taken link.new) result }
    ensures beside { K.beside_taken link.new ≡ K.beside_taken link.old }
    ensures count { CountsMaybe (K.faults link.old) (K.faults link.new) result }
    ensures goes_on { is_loss_if result ≡ false }
{
    match write_failure(due.is_some(), link) {
        Ok(()) => due,
        Err(Failed) => Some(LinkEnd::LinkFault),
    }
}

fn write_plan<K: Link>(
    alloc: Global,
    link: &mut K,
    status: u16,
    form: BodyForm,
    plan: &Plan,
    added: bool,
    due: Option<LinkEnd>,
) -> Option<LinkEnd>
    requires reason { HasReason status }
    requires writable { IsWritable plan.now }
    requires no_error { IsNoError due }
    requires goes_on { is_loss_if due ≡ false }
    ensures written { WasWritten (with_head status form (plan_bytes plan.now) (is_some due))
        added due (K.taken link.old) (K.taken link.new) result }
    ensures beside { K.beside_taken link.new ≡ K.beside_taken link.old }
    ensures count { CountsMaybe (K.faults link.old) (K.faults link.new) result }
    ensures goes_on { is_loss_if result ≡ false }
{
    match write_reply(alloc, status, form, plan, due.is_some(), link) {
        Ok(()) => due,
        Err(ReplyError::Failed) => Some(LinkEnd::LinkFault),
        Err(ReplyError::Memory) => Some(end_without_head(link, added)),
    }
}

// Allocating the head failed. Never writes a 500 if the request added an entry.
fn end_without_head<K: Link>(link: &mut K, added: bool) -> LinkEnd
    ensures written { (bytes : _) (due : _)
        → WasWritten bytes added due (K.taken link.old) (K.taken link.new) (Some result) }
    ensures beside { K.beside_taken link.new ≡ K.beside_taken link.old }
    ensures count { CountsEnd (K.faults link.old) (K.faults link.new) result }
    ensures goes_on { is_loss result ≡ false }
{
    if added {
        return LinkEnd::Memory;
    }
    end_out_of_memory(link)
}
