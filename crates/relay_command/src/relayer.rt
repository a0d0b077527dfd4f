//! The relay, as the partner of the workers.

ghost use Rattle.std.specs.Prelude.{◌≡◌, ◌≤◌};
ghost use Rattle.mirror_client.specs.Points.{nothing_read, place};
ghost use Rattle.share_lock.specs.Passes.{known, IsReady};
ghost use Rattle.relay_share.specs.Ends.{CountsRelay, HasRelayed};

use crate::terms::Relaying;
use outside_net::{Link, Listener};
use relay_share::{RelayReport, relay_link};
use share_core::Share;
use share_crew::Partner;
use share_lock::{Bell, Pass, ShareLock};
use std::alloc::Global;
use std::sync::Wait;
use std::time::Clock;

/// What the relay works with: its lock handle, its connection, and a listener by which it wakes a worker at its end.
pub(crate) struct Relayer<'a, K, D> {
    pub(crate) terms: &'a Relaying,
    pub(crate) pass: Pass<Share>,
    pub(crate) link: K,
    pub(crate) listener: D,
    pub(crate) report: RelayReport,
}

impl<'a, K: Link, D: Listener> Partner for Relayer<'a, K, D> {
    ghost ready = { λ id relayer. IsReady id relayer.pass × (1 ≤ relayer.terms.now.rounds) × (relayer.terms.now.rounds ≤ 16384) };

    ghost worked = { λ id before after. IsReady id after.pass
        × HasRelayed before.terms.now.upstream before.terms.now.rounds (place (K.taken before.link) (K.left before.link) nothing_read) (K.taken after.link) (known before.pass) (known after.pass) after.report
        × CountsRelay (K.faults before.link) (K.faults after.link) after.report.end
        × (D.written after.listener ≡ D.written before.listener) × (D.faults after.listener ≡ D.faults before.listener) };

    fn work<R: Wait + Clock>(
        &mut self,
        rt: &R,
        alloc: Global,
        lock: &ShareLock<Share>,
        bell: &Bell,
    ) {
        self.report = relay_link(
            rt,
            alloc,
            lock,
            bell,
            &mut self.pass,
            &mut self.link,
            self.terms.upstream.as_str(),
            self.terms.rounds,
        );
        self.listener.wake_acceptors();
    }
}
