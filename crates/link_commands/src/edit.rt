//! The command `edit`: sends records or a stop to a share.

ghost use Rattle.std.specs.Prelude.{◌≡◌, ◌++◌, Bool, Ok, IfOk, IfErr, MatchResult, option_copied};
ghost use Rattle.command_core.specs.Seen.{FilesSeen, InputSeen, input_of, net_of, output_of, run_over_net};
ghost use Rattle.mirror_client.specs.declared.pushing.Pushed.{Pushed};
ghost use Rattle.link_commands.specs.EditShare.{HasBody, HasPushed, HasSent, IsPushRefusal, StopsSending, edit_line, edit_meaning, edit_status, push_fault, shown_text, push_line};
ghost use Rattle.link_commands.specs.Linked.{link_seen};
ghost use Rattle.link_commands.specs.Meanings.{IsLinkAnswered};

use crate::answer::{link_line, link_status, number_line};
use command_core::{Fault, Outcome, Refusal, read_fault, write_error, write_result};
use dmap_tags::Bytes;
use mirror_client::{FollowError, Pushed, push_link};
use outside_net::{Failed, Link, Net, Sink, Source, read_within};
use std::alloc::{AllocError, Global};

/// The input may have at most this many bytes.
const RECORDS_LIMIT: u64 = 4_194_304;

/// The text of a share's refusal is shown up to this length, in bytes.
const TEXT_LIMIT: usize = 4_096;

/// Errors of `edit`. Out of memory is `Fault::Memory`.
#[derive(Drop)]
pub enum EditFault {
    /// The input has more than `RECORDS_LIMIT` bytes.
    TooLong,
    /// No connection to the address was made.
    Unreached,
    /// The share refused; `text` is the body of its response.
    Refused { status: u16, text: Bytes },
    /// The exchange with the share ended early.
    Link(FollowError),
}

impl Refusal for EditFault {
    ghost error_line = { edit_line };

    ghost error_status = { edit_status };

    fn line(&self, alloc: Global) -> Result<Vec<u8>, AllocError> {
        match self {
            EditFault::TooLong => Vec::from_slice(alloc, b"limit: input\n"),
            EditFault::Unreached => Vec::from_slice(alloc, b"network failed\n"),
            EditFault::Refused { status, text } => {
                let mut line = number_line(alloc, b"peer: refused ", u64::from(*status))?;
                line.extend_from_slice(shown_text(text))?;
                Ok(line)
            }
            EditFault::Link(error) => link_line(alloc, error),
        }
    }

    fn status(&self) -> u8 {
        match self {
            EditFault::TooLong => 8,
            EditFault::Unreached => 6,
            EditFault::Refused { .. } => 7,
            EditFault::Link(error) => link_status(error),
        }
    }
}

/// Returns the part of `text` that is shown: all of it, or nothing if it is too long.
fn shown_text(text: &Bytes) -> &[u8]
    ensures { result.now ≡ shown_text text.now }
{
    if text.as_slice().len() <= TEXT_LIMIT {
        text.as_slice()
    } else {
        b""
    }
}

/// Runs `edit`: sends the records of the input, or if `stop` a stop, to the share at the address `place`, and writes
/// what the share made of them.
pub fn edit_share<I: Source, W: Sink, N: Net>(
    alloc: Global,
    place: &str,
    stop: bool,
    input: &mut I,
    output: &mut W,
    net: &mut N,
) -> Outcome
    ensures answered { (files : FilesSeen) → IsLinkAnswered (edit_meaning place.now stop)
        (run_over_net files
        (input_of I.Source input.old)
        (input_of I.Source input.new)
        (net_of N.Net net.old)
        (net_of N.Net net.new)
        (output_of W.Sink output.old)
        (output_of W.Sink output.new))
        result }
    ensures open_stays { N.open_count net.new ≡ N.open_count net.old }
{
    match net.connect(place) {
        Ok(mut link) => {
            let answer = send_edit(alloc, place, stop, input, &mut link);
            net.close(link);
            write_result(alloc, output, answer)
        }
        Err(Failed) => write_error(alloc, output, &Fault::Own(EditFault::Unreached)),
    }
}

/// Sends the records or the stop over `link`. Returns the line of the result.
fn send_edit<I: Source, K: Link>(
    alloc: Global,
    place: &str,
    stop: bool,
    input: &mut I,
    link: &mut K,
) -> Result<Vec<u8>, Fault<EditFault>>
    requires { K.faults link.old ≡ 0 }
    ensures sent { IfOk result (λ bytes. (made : Pushed)
        × HasSent place.now stop (input_of I.Source input.old) (input_of I.Source input.new)
        (link_seen (K.taken link.old) (K.left link.old) (K.taken link.new) (K.faults link.new)) made × (push_line made ≡ Ok bytes.items)) }
    ensures stops { IfErr result
        (λ fault. StopsSending place.now stop (input_of I.Source input.old)
        (input_of I.Source input.new)
        (link_seen (K.taken link.old) (K.left link.old) (K.taken link.new) (K.faults link.new)) fault) }
{
    if stop {
        return push_body(alloc, place, None, link);
    }
    match read_within(alloc, input, RECORDS_LIMIT) {
        Ok(records) => push_body(alloc, place, Some(records.as_slice()), link),
        Err(error) => Err(read_fault(error, EditFault::TooLong)),
    }
}

/// Sends `body`, or a stop if it is `None`. Returns the line of what the share made of it.
fn push_body<K: Link>(
    alloc: Global,
    place: &str,
    body: Option<&[u8]>,
    link: &mut K,
) -> Result<Vec<u8>, Fault<EditFault>>
    requires { K.faults link.old ≡ 0 }
    ensures pushed { IfOk result (λ bytes. (made : Pushed)
        × HasPushed place.now (option_copied body.entry) (link_seen (K.taken link.old) (K.left link.old) (K.taken link.new) (K.faults link.new)) made × (push_line made ≡ Ok bytes.items)) }
    ensures stops { IfErr result (λ fault. (stop : Bool) (before after : InputSeen)
        → HasBody stop before after (option_copied body.entry)
        → StopsSending place.now stop before after (link_seen (K.taken link.old) (K.left link.old) (K.taken link.new) (K.faults link.new)) fault) }
{
    match push_link(alloc, link, place, body) {
        Ok(made) => push_line(alloc, made),
        Err(error) => Err(push_fault(error)),
    }
}

/// Returns the line of what the share made of an edit or a stop, or its refusal.
fn push_line(alloc: Global, made: Pushed) -> Result<Vec<u8>, Fault<EditFault>>
    ensures { MatchResult result (λ bytes. push_line made ≡ Ok bytes.items)
        (λ fault. IsPushRefusal made fault) }
{
    match made {
        Pushed::Revision(n) => Ok(number_line(alloc, b"revision ", u64::from(n))?),
        Pushed::Unchanged => Ok(Vec::from_slice(alloc, b"unchanged\n")?),
        Pushed::Stopped => Ok(Vec::from_slice(alloc, b"stopped\n")?),
        Pushed::Refused { status, text } => Err(Fault::Own(EditFault::Refused { status, text })),
    }
}

/// Returns the error of `edit` for an exchange that ended early.
fn push_fault(error: FollowError) -> Fault<EditFault>
    ensures { result ≡ push_fault error }
{
    match error {
        FollowError::Memory => Fault::Memory,
        ended => Fault::Own(EditFault::Link(ended)),
    }
}
