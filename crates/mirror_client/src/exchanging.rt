//! One exchange: writes a request, and reads the response.

ghost use Rattle.std.specs.Prelude.{◌≤◌, ◌<◌, ◌+◌, ◌^◌, IfOk, IfErr};
ghost use Rattle.mirror_client.specs.Exchanges.{Exchanged};
ghost use Rattle.mirror_client.specs.Points.{point_of};
ghost use Rattle.mirror_client.specs.Stopping.{CountsErrors, StopsShort};

use crate::incoming::Incoming;
use crate::receiving::next_reply;
use crate::refusal::FollowError;
use dmap_tags::Bytes;
use outside_net::{Link, put_all};
use std::alloc::Global;

/// Writes a request, and reads the response.
pub(crate) fn exchange<K: Link>(
    alloc: Global,
    link: &mut K,
    incoming: &mut Incoming,
    request: &[u8],
) -> Result<(u16, Bytes), FollowError>
    requires few { incoming.old.used < 2 ^ 63 }
    ensures exchanged { IfOk result (λ answer. Exchanged request.now
        (point_of K.Link link.old incoming.old) (point_of K.Link link.new incoming.new) answer) }
    ensures stops { IfErr result (λ e.
        StopsShort request.now (point_of K.Link link.old incoming.old) (K.taken link.new) e) }
    ensures grows { incoming.new.used ≤ incoming.old.used + 2 ^ 31 }
    ensures count { CountsErrors K.Link link.old link.new result }
{
    match put_all(link, request) {
        Ok(()) => next_reply(alloc, link, incoming),
        Err(_) => Err(FollowError::LinkFault),
    }
}
