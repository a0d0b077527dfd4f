//! `reply_bytes`: the bytes of replies.

ghost use Rattle.std.specs.Prelude.{IfOk};
ghost use Rattle.listing_plan.specs.Plans.{IsWritable};

use dmap_tags::{Bytes, Code, Tag, Value};
use http_heads::HeadError;
use listing_plan::Plan;
use outside_net::MemSink;
use reply_bytes::{laws, status_of, write_failure, write_refusal, write_reply};
use share_asks::{BodyForm, Verb};
use std::alloc::{AllocError, Global};
use std::process::Abort;
use std::test::Fail;

#[derive(Clone, Copy)]
enum Body {
    Nothing,
    Number(u32),
    Line(&'static str),
}

fn planned(alloc: Global, body: Body) -> Result<Plan, AllocError>
    ensures { IfOk result (λ plan. IsWritable plan) }
{
    match body {
        Body::Nothing => Ok(Plan::Empty),
        Body::Number(n) => Ok(Plan::Tagged(Tag {
            code: Code(*b"mlid"),
            value: Value::U32(n),
        })),
        Body::Line(text) => Ok(Plan::Plain(Bytes::of(alloc, text.as_bytes())?)),
    }
}

/// A status, a form, a body, whether the connection closes, and the most bytes that the sink takes in a call, with
/// what is written.
type Reply = (u16, BodyForm, Body, bool, usize, &'static str);

const REPLIES: [Reply; 4] = [
    (
        204,
        BodyForm::NoBody,
        Body::Nothing,
        false,
        9,
        "HTTP/1.1 204 No Content\r\n\r\n",
    ),
    (
        200,
        BodyForm::Dmap,
        Body::Number(5),
        true,
        500,
        "HTTP/1.1 200 OK\r\nContent-Type: application/x-dmap-tagged\r\nContent-Length: 12\r\nConnection: close\r\n\r\nmlid\0\0\0\x04\0\0\0\x05",
    ),
    (
        400,
        BodyForm::Plain,
        Body::Line("meta\n"),
        false,
        500,
        "HTTP/1.1 400 Bad Request\r\nContent-Type: text/plain\r\nContent-Length: 5\r\n\r\nmeta\n",
    ),
    (
        405,
        BodyForm::Allow(Verb::Get),
        Body::Nothing,
        false,
        500,
        "HTTP/1.1 405 Method Not Allowed\r\nContent-Length: 0\r\nAllow: GET\r\n\r\n",
    ),
];

fn shows(sink: &MemSink, text: &str) -> bool {
    sink.taken() == text.as_bytes()
}

fn is_written(alloc: Global, reply: &Reply) -> Result<bool, AllocError> {
    let (status, form, body, last, per_call, text) = *reply;
    if per_call == 0 || !matches!(status, 200 | 204 | 400 | 405) {
        return Ok(false);
    }
    let plan = planned(alloc, body)?;
    let mut sink = MemSink::new(alloc, 500, per_call, &[])?;
    let is_whole = write_reply(alloc, status, form, &plan, last, &mut sink).is_ok();
    Ok(is_whole && shows(&sink, text))
}

fn are_written(rt: &impl Abort, alloc: Global, replies: &[Reply]) -> Result<(), Fail> {
    for reply in replies {
        assert!(rt; is_written(alloc, reply)?, "at {}", reply.0);
    }
    Ok(())
}

#[test]
fn a_reply_is_its_head_and_its_body(rt: HostRuntime) -> Result<(), Fail> {
    are_written(&rt, rt.alloc(), &REPLIES)
}

fn is_refused(alloc: Global, sink: &mut MemSink, error: &HeadError) -> bool {
    write_refusal(alloc, error, sink).is_ok()
}

#[test]
fn a_refusal_closes_the_connection(rt: HostRuntime) -> Result<(), Fail> {
    let alloc = rt.alloc();
    let mut sink = MemSink::new(alloc, 500, 500, &[])?;
    assert!(rt; is_refused(alloc, &mut sink, &HeadError::BodyTooLarge));
    assert!(rt; write_failure(false, &mut sink).is_ok());
    assert!(rt;
        shows(
            &sink,
            "HTTP/1.1 413 Content Too Large\r\nContent-Length: 0\r\nConnection: close\r\n\r\nHTTP/1.1 500 Internal Server Error\r\nContent-Length: 0\r\n\r\n"
        )
    );
    assert!(rt; status_of(&HeadError::HeadTooLarge) == 431 && status_of(&HeadError::Length) == 400);
    Ok(())
}

#[test]
fn laws_can_be_cited() {
    laws::replies_have_reasons();
    laws::refusals_have_reasons();
    laws::empty_replies_are_empty();
    laws::replies_by_the_byte();
}
