//! Requests that a share answers over and over.

ghost use Rattle.std.specs.Prelude.{◌≡◌, ◌<◌, IfOk};
ghost use Rattle.listing_plan.specs.Plans.{IsWritable};
ghost use Rattle.share_asks.specs.Valid.{IsValidWant};

use crate::share::wants::{Step, all_songs, put_again, rename, want};
use anyhow::{Context, bail, ensure};
use listing_plan::Plan;
use outside_net::{MemSink, Sink};
use share_asks::{Ask, Role, Want};
use share_core::{Answer, Reply, Share};
use song_query::Steps;
use std::alloc::Global;
use std::marker::Brand;
use std::sync::ledger::{Blank, Ledger};

/// The size of the share's delta window, in revisions.
const KEEP: u32 = 256;

/// What is asked, `times` times, of a share of `songs` songs whose history has `entries` entries.
#[derive(Clone, Copy)]
pub struct Load {
    pub step: Step,
    pub songs: u32,
    pub entries: u32,
    pub times: u32,
}

/// Returns how many bytes the bodies of the replies have.
pub fn body_bytes(alloc: Global, load: Load) -> anyhow::Result<u64> {
    bytes_by::<Brand>(Blank::new(1), alloc, load)
}

fn bytes_by<L: Ledger>(blank: Blank, alloc: Global, load: Load) -> anyhow::Result<u64>
    requires name { blank.name ≡ L.name }
    requires parts { blank.parts ≡ L.parts }
    requires any { 0 < blank.parts }
{
    let mut steps = Steps::<L>::open(blank);
    let mut share = Share::open(alloc, "Share", KEEP, all_songs(alloc, load.songs)?)?;
    for number in 1..load.entries {
        let edit = put_again(alloc, load.songs, number)?;
        reply_to(&mut share, edit, &mut steps)?;
    }
    if let Step::Changes = load.step {
        reply_to(&mut share, rename(alloc, load.songs)?, &mut steps)?;
    }
    asked(alloc, &mut share, load, &mut steps)
}

/// The same, of an open share.
fn asked<L: Ledger>(
    alloc: Global,
    share: &mut Share,
    load: Load,
    steps: &mut Steps<L>,
) -> anyhow::Result<u64> {
    let Load { step, songs, .. } = load;
    let session = reply_to(share, Want::Login, steps)?.session;
    let mut bytes = 0u64;
    for number in 0..load.times {
        let wanted = want(alloc, step, songs, session, share.revision(), number)?;
        let reply = reply_to(share, wanted, steps)?;
        ensure!(reply.content.status == 200, "refused");
        bytes = bytes.saturating_add(counted(alloc, step, &reply.content.plan)?);
    }
    Ok(bytes)
}

/// Returns how many bytes a body has. Of a full listing the turn alone is counted, so its body counts as one.
fn counted(alloc: Global, step: Step, plan: &Plan) -> anyhow::Result<u64>
    requires { IsWritable plan.now }
{
    match step {
        Step::Full => Ok(1),
        Step::Tenth => written(alloc, plan),
        _ => Ok(plan.body_len()),
    }
}

/// Writes a body, and returns how many bytes it has.
fn written(alloc: Global, plan: &Plan) -> anyhow::Result<u64>
    requires { IsWritable plan.now }
{
    let mut sink = MemSink::new(alloc, plan.body_len() as usize, usize::MAX, &[])?;
    plan.write(&mut sink).ok().context("sink")?;
    Ok(sink.taken().len() as u64)
}

/// Returns the reply to a request.
fn reply_to<L: Ledger>(share: &mut Share, want: Want, steps: &mut Steps<L>) -> anyhow::Result<Reply>
    requires { IsValidWant want }
    ensures { IfOk result (λ reply. IsWritable reply.content.plan) }
{
    let ask = Ask {
        role: Role::Edit,
        close: false,
        want,
    };
    match share.answer(1, &ask, steps)? {
        Answer::Reply(reply) => Ok(reply),
        Answer::Wait { .. } => bail!("held"),
    }
}
