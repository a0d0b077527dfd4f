//! Writes the lines of a replay's output.

ghost use Rattle.std.specs.Prelude.{◌≡◌, ◌+◌, ◌++◌, ◌∷◌, [], codes, decimal, length, IfOk, OnOk, OnErr};
ghost use Rattle.outside_net.specs.Counts.{CountsFaults};
ghost use Rattle.http_front.specs.ReplyHeads.{HasReason};
ghost use Rattle.listing_plan.specs.Plans.{IsWritable, plan_bytes};
ghost use Rattle.reply_bytes.specs.ReplyBytes.{with_head};
ghost use Rattle.share_replay.specs.Ends.{end_line, end_words, reply_lines};
ghost use Rattle.share_replay.specs.Outputs.{CountsErrors, WritesAll, WritesPrefix};

use crate::ends::End;
use crate::replay_error::ReplayError;
use http_front::reply_head;
use itoa::Buffer;
use listing_plan::Plan;
use outside_net::{Failed, Sink, put_all};
use share_asks::BodyForm;
use std::alloc::{AllocError, Global};

/// Writes the bytes of a reply, after a line with the number of its connection and their count.
pub(crate) fn tell_reply<W: Sink>(
    alloc: Global,
    number: u32,
    status: u16,
    form: BodyForm,
    body: &Plan,
    last: bool,
    sink: &mut W,
) -> Result<(), ReplayError>
    requires reason { HasReason status }
    requires writable { IsWritable body.now }
    ensures told { OnOk result (WritesAll W.Sink sink.old sink.new
        (reply_lines number (with_head status form (plan_bytes body.now) last))) }
    ensures part { OnErr result (WritesPrefix W.Sink sink.old sink.new
        (reply_lines number (with_head status form (plan_bytes body.now) last))) }
    ensures count { CountsErrors W.Sink sink.old sink.new result }
{
    let head = reply_head(alloc, status, form, body.body_len(), last)?;
    let front = reply_front(alloc, number, head.as_slice(), body.body_len())?;
    match write_parts(front.as_slice(), body, sink) {
        Ok(()) => Ok(()),
        Err(Failed) => Err(ReplayError::Failed),
    }
}

/// Writes the line of an end, if there is one.
pub(crate) fn tell_end<W: Sink>(
    alloc: Global,
    number: u32,
    end: Option<End>,
    sink: &mut W,
) -> Result<(), ReplayError>
    ensures told { OnOk result (WritesAll W.Sink sink.old sink.new (end_line number end)) }
    ensures part { OnErr result (WritesPrefix W.Sink sink.old sink.new (end_line number end)) }
    ensures count { CountsErrors W.Sink sink.old sink.new result }
{
    let line = end_line(alloc, number, end)?;
    match put_all(sink, line.as_slice()) {
        Ok(()) => Ok(()),
        Err(Failed) => Err(ReplayError::Failed),
    }
}

// Returns what precedes a reply's body: the line of the reply, and its head.
fn reply_front(
    alloc: Global,
    number: u32,
    head: &[u8],
    body_len: u64,
) -> Result<Vec<u8>, AllocError>
    ensures { IfOk result (λ text. text.items ≡ codes "> " ++ decimal number ++ codes " "
        ++ decimal (length head.now + body_len) ++ 10 ∷ head.now) }
{
    let Some(len) = (head.len() as u64).checked_add(body_len) else {
        return Err(AllocError);
    };
    let mut text = Vec::new(alloc);
    text.extend_from_slice(b"> ")?;
    text.extend_from_slice(Buffer::new().format(number).as_bytes())?;
    text.extend_from_slice(b" ")?;
    text.extend_from_slice(Buffer::new().format(len).as_bytes())?;
    text.extend_from_slice(b"\n")?;
    text.extend_from_slice(head)?;
    Ok(text)
}

// Writes what precedes a body, the body, and a line feed.
fn write_parts<W: Sink>(front: &[u8], body: &Plan, sink: &mut W) -> Result<(), Failed>
    requires { IsWritable body.now }
    ensures written { OnOk result (WritesAll W.Sink sink.old sink.new
        (front.now ++ (plan_bytes body.now ++ 10 ∷ []))) }
    ensures part { OnErr result (WritesPrefix W.Sink sink.old sink.new
        (front.now ++ (plan_bytes body.now ++ 10 ∷ []))) }
    ensures count { CountsFaults (W.faults sink.old) (W.faults sink.new) result }
{
    put_all(sink, front)?;
    write_body(body, sink)
}

fn write_body<W: Sink>(body: &Plan, sink: &mut W) -> Result<(), Failed>
    requires { IsWritable body.now }
    ensures written { OnOk result (
        WritesAll W.Sink sink.old sink.new (plan_bytes body.now ++ 10 ∷ [])) }
    ensures part { OnErr result (
        WritesPrefix W.Sink sink.old sink.new (plan_bytes body.now ++ 10 ∷ [])) }
    ensures count { CountsFaults (W.faults sink.old) (W.faults sink.new) result }
{
    body.write(sink)?;
    put_all(sink, b"\n")
}

fn end_line(alloc: Global, number: u32, end: Option<End>) -> Result<Vec<u8>, AllocError>
    ensures { IfOk result (λ text. text.items ≡ end_line number end) }
{
    match end {
        Some(end) => line_of(alloc, number, end),
        None => Ok(Vec::new(alloc)),
    }
}

fn line_of(alloc: Global, number: u32, end: End) -> Result<Vec<u8>, AllocError>
    ensures { IfOk result (λ text.
        text.items ≡ codes "# " ++ decimal number ++ codes " " ++ end_words end ++ 10 ∷ []) }
{
    let mut text = Vec::new(alloc);
    text.extend_from_slice(b"# ")?;
    text.extend_from_slice(Buffer::new().format(number).as_bytes())?;
    text.extend_from_slice(b" ")?;
    push_words(&mut text, end)?;
    text.extend_from_slice(b"\n")?;
    Ok(text)
}

fn push_words(text: &mut Vec<u8>, end: End) -> Result<(), AllocError>
    ensures { OnOk result (text.new.items ≡ text.old.items ++ end_words end) }
{
    match end {
        End::Closed => text.extend_from_slice(b"closed"),
        End::Cut { at } => push_number(text, b"cut ", at),
        End::Refused { status } => push_number(text, b"refused ", u64::from(status)),
        End::Spent => text.extend_from_slice(b"spent"),
        End::Stopped => text.extend_from_slice(b"stopped"),
        End::Held => text.extend_from_slice(b"held"),
    }
}

fn push_number(text: &mut Vec<u8>, word: &[u8], number: u64) -> Result<(), AllocError>
    ensures { OnOk result (text.new.items ≡ text.old.items ++ (word.now ++ decimal number)) }
{
    text.extend_from_slice(word)?;
    text.extend_from_slice(Buffer::new().format(number).as_bytes())
}
