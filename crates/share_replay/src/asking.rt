//! The next answer on a connection.

ghost use Rattle.std.specs.Prelude.{◌≡◌, ◌<◌, IfOk, OnErr};
ghost use Rattle.share_asks.specs.Valid.{IsValidWant};
ghost use Rattle.share_replay.specs.Asked.{IsContentTo};
ghost use Rattle.share_replay.specs.Told.{IsDue};

use crate::connection::Connection;
use reply_bytes::status_of;
use share_asks::Ask;
use share_core::{Answer, ReplyContent, Share};
use song_query::Steps;
use std::alloc::AllocError;
use std::marker::Brand;
use std::sync::ledger::{Blank, Ledger};

/// The next output on a connection.
#[derive(Drop)]
pub(crate) enum Output {
    /// The reply to its next request. If `close`, the connection ends after it.
    Reply { content: ReplyContent, close: bool },
    /// The refusal of its bytes, with its status.
    Refusal { status: u16 },
    Nothing,
}

/// Returns the next output on connection `number`. The share answers its next request.
pub(crate) fn next_output(
    number: u32,
    connection: &Connection,
    share: &mut Share,
) -> Result<Output, AllocError>
    ensures told { IfOk result (IsDue share.old share.new number connection.now) }
    ensures unchanged { OnErr result (share.new ≡ share.old) }
{
    match connection.next() {
        Some(ask) => match ask_share(share, number, ask) {
            Ok(Some(content)) => Ok(Output::Reply {
                content,
                close: ask.close,
            }),
            Ok(None) => Ok(Output::Nothing),
            Err(error) => Err(error),
        },
        None => match connection.fault() {
            Some(error) => Ok(Output::Refusal {
                status: status_of(error),
            }),
            None => Ok(Output::Nothing),
        },
    }
}

// Returns the share's response to a request of connection `number`; `None` if the update is pending.
fn ask_share(share: &mut Share, number: u32, ask: &Ask) -> Result<Option<ReplyContent>, AllocError>
    requires valid { IsValidWant ask.now.want }
    ensures content { IfOk result (IsContentTo share.old share.new number ask.now.want) }
    ensures unchanged { OnErr result (share.new ≡ share.old) }
{
    ask_share_with::<Brand>(Blank::new(1), share, number, ask)
}

fn ask_share_with<L: Ledger>(
    blank: Blank,
    share: &mut Share,
    number: u32,
    ask: &Ask,
) -> Result<Option<ReplyContent>, AllocError>
    requires name { blank.name ≡ L.name }
    requires parts { blank.parts ≡ L.parts }
    requires any { 0 < blank.parts }
    requires valid { IsValidWant ask.now.want }
    ensures content { IfOk result (IsContentTo share.old share.new number ask.now.want) }
    ensures unchanged { OnErr result (share.new ≡ share.old) }
{
    let mut steps = Steps::<L>::open(blank);
    match share.answer(number, ask, &mut steps) {
        Ok(Answer::Reply(reply)) => Ok(Some(reply.content)),
        Ok(Answer::Wait { .. }) => Ok(None),
        Err(error) => Err(error),
    }
}
