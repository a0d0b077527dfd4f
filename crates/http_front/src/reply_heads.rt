//! The heads of replies.

ghost use Rattle.std.specs.Prelude.{◌≡◌, ◌++◌, codes, decimal, true, false, Some, OnOk, IfOk};
ghost use Rattle.http_front.specs.ReplyHeads.{reason_of, HasReason, ended, field, status_line, type_field, length_field, allow_field, last_field, reply_head_text};
ghost use Rattle.share_asks.specs.declared.form.BodyForm.TheVariants.{NoBody};

use crate::routes::verb_text;
use dmap_tags::Bytes;
use itoa::Buffer;
use share_asks::BodyForm;
use std::alloc::{AllocError, Global};

/// Returns the head of a reply with a body of this form and length; `last` says that the connection closes after it.
/// Returns `AllocError` if allocation fails.
#[tactic(auto, unfolding(crate::specs::ReplyHeads::reply_head_text))]
pub fn reply_head(
    alloc: Global,
    status: u16,
    form: BodyForm,
    len: u64,
    last: bool,
) -> Result<Bytes, AllocError>
    requires { HasReason status }
    ensures { IfOk result (λ head. head ≡ reply_head_text status form len last) }
{
    let mut head = Vec::new(alloc);
    push_status(&mut head, status)?;
    push_type(&mut head, form)?;
    push_length(&mut head, status, len)?;
    push_allow(&mut head, form)?;
    push_last(&mut head, last)?;
    push_end(&mut head)?;
    Ok(Bytes::from(head))
}

/// Returns the head of a reply with status 500, which has no body. Does not allocate.
pub fn failure_head(last: bool) -> &'static str
    ensures { result.now ≡ reply_head_text 500 NoBody 0 last }
{
    if last { last_failure() } else { failure() }
}

fn failure() -> &'static str
    ensures { result.now ≡ reply_head_text 500 NoBody 0 false }
{
    "HTTP/1.1 500 Internal Server Error\r\nContent-Length: 0\r\n\r\n"
}

fn last_failure() -> &'static str
    ensures { result.now ≡ reply_head_text 500 NoBody 0 true }
{
    "HTTP/1.1 500 Internal Server Error\r\nContent-Length: 0\r\nConnection: close\r\n\r\n"
}

fn push_status(head: &mut Vec<u8>, status: u16) -> Result<(), AllocError>
    requires { HasReason status }
    ensures { OnOk result (head.new.items ≡ head.old.items ++ status_line status) }
{
    head.extend_from_slice(b"HTTP/1.1 ")?;
    head.extend_from_slice(Buffer::new().format(status).as_bytes())?;
    head.extend_from_slice(b" ")?;
    head.extend_from_slice(reason_of(status).as_bytes())?;
    push_end(head)
}

fn reason_of(status: u16) -> &'static str
    requires { HasReason status }
    ensures { Some result.now ≡ reason_of status }
{
    match status {
        200 => "OK",
        204 => "No Content",
        400 => "Bad Request",
        403 => "Forbidden",
        404 => "Not Found",
        405 => "Method Not Allowed",
        413 => "Content Too Large",
        431 => "Request Header Fields Too Large",
        500 => "Internal Server Error",
        503 => "Service Unavailable",
        507 => "Insufficient Storage",
        _ => unreachable!(),
    }
}

fn push_type(head: &mut Vec<u8>, form: BodyForm) -> Result<(), AllocError>
    ensures { OnOk result (head.new.items ≡ head.old.items ++ type_field form) }
{
    match form {
        BodyForm::Dmap => push_field(head, b"Content-Type", b"application/x-dmap-tagged"),
        BodyForm::Plain => push_field(head, b"Content-Type", b"text/plain"),
        BodyForm::NoBody | BodyForm::Allow(_) => Ok(()),
    }
}

fn push_length(head: &mut Vec<u8>, status: u16, len: u64) -> Result<(), AllocError>
    ensures { OnOk result (head.new.items ≡ head.old.items ++ length_field status len) }
{
    if status == 204 {
        return Ok(());
    }
    push_field(
        head,
        b"Content-Length",
        Buffer::new().format(len).as_bytes(),
    )
}

fn push_allow(head: &mut Vec<u8>, form: BodyForm) -> Result<(), AllocError>
    ensures { OnOk result (head.new.items ≡ head.old.items ++ allow_field form) }
{
    match form {
        BodyForm::Allow(verb) => push_field(head, b"Allow", verb_text(verb).as_bytes()),
        BodyForm::NoBody | BodyForm::Dmap | BodyForm::Plain => Ok(()),
    }
}

fn push_last(head: &mut Vec<u8>, last: bool) -> Result<(), AllocError>
    ensures { OnOk result (head.new.items ≡ head.old.items ++ last_field last) }
{
    if last {
        push_field(head, b"Connection", b"close")
    } else {
        Ok(())
    }
}

fn push_field(head: &mut Vec<u8>, name: &[u8], value: &[u8]) -> Result<(), AllocError>
    ensures { OnOk result (head.new.items ≡ head.old.items ++ field name.now value.now) }
{
    head.extend_from_slice(name)?;
    head.extend_from_slice(b": ")?;
    head.extend_from_slice(value)?;
    push_end(head)
}

fn push_end(head: &mut Vec<u8>) -> Result<(), AllocError>
    ensures { OnOk result (head.new.items ≡ head.old.items ++ codes "\r\n") }
{
    head.extend_from_slice(b"\r\n")
}
